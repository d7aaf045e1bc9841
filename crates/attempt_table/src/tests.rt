use crate::test_calls::{Call, after, moved};
use crate::{Attempts, Row};
use mid_base::{Attempt, By, CmdId, Tag, TagState};
use std::mem::size_of;
use std::test::Fail;

// The states of the tags of the attempts 1, 2 and 3 while they are open.
const FIRST: TagState = TagState::Armed(Attempt(1));

const SECOND: TagState = TagState::Armed(Attempt(2));

const THIRD: TagState = TagState::Armed(Attempt(3));

#[test]
fn no_attempt_is_under_way_at_first(rt: HostRuntime) -> Result<(), Fail> {
    let attempts = Attempts::new(rt.alloc(), 2)?;
    assert_eq!(rt; attempts.tag_states(), [TagState::Free; 2].as_slice());
    Ok(())
}

fn tag_of(attempts: &Attempts, n: u64) -> Option<Tag> {
    match attempts.row(Attempt(n)) {
        Some(row) => Some(row.tag),
        None => None,
    }
}

#[test]
fn attempts_are_numbered_from_1_as_they_are_sent(rt: HostRuntime) -> Result<(), Fail> {
    let attempts = after(rt.alloc(), &[])?;
    let tags = [0, 1, 2, 3, 4].map(|n| tag_of(&attempts, n));
    assert_eq!(rt;
        tags,
        [None, Some(Tag(1)), Some(Tag(0)), Some(Tag(2)), None]
    );
    Ok(())
}

#[test]
fn a_row_begins_with_what_was_sent(rt: HostRuntime) -> Result<(), Fail> {
    let attempts = after(rt.alloc(), &[])?;
    let sent = Row {
        command: CmdId(12),
        place: 22,
        tag: Tag(2),
        out: true,
        answered: false,
        due: false,
        owner: None,
        settled: false,
    };
    assert_eq!(rt; attempts.row(Attempt(3)), Some(sent));
    Ok(())
}

#[test]
fn an_open_attempt_holds_its_tag(rt: HostRuntime) -> Result<(), Fail> {
    let attempts = after(rt.alloc(), &[])?;
    assert_eq!(rt; attempts.tag_states(), [SECOND, FIRST, THIRD].as_slice());
    Ok(())
}

#[test]
fn a_bounced_attempt_frees_its_tag(rt: HostRuntime) -> Result<(), Fail> {
    let attempts = after(rt.alloc(), &[Call::Bounce(1)])?;
    let states = [SECOND, TagState::Free, THIRD];
    assert_eq!(rt; attempts.tag_states(), states.as_slice());
    Ok(())
}

#[test]
fn a_freed_tag_goes_out_with_the_next_attempt(rt: HostRuntime) -> Result<(), Fail> {
    let attempts = after(rt.alloc(), &[Call::Bounce(1), Call::Send(1)])?;
    let states = [SECOND, TagState::Armed(Attempt(4)), THIRD];
    assert_eq!(rt; attempts.tag_states(), states.as_slice());
    Ok(())
}

#[test]
fn attempts_wait_in_ascending_numbers(rt: HostRuntime) -> Result<(), Fail> {
    let attempts = after(rt.alloc(), &[Call::Answer(3, 30), Call::Answer(2, 20)])?;
    let claims = [
        (Tag(0), Attempt(2), By::Answer),
        (Tag(2), Attempt(3), By::Answer),
    ];
    assert_eq!(rt; attempts.waiting_claims(), claims.as_slice());
    Ok(())
}

#[test]
fn an_attempt_that_expires_waits_by_its_expiry(rt: HostRuntime) -> Result<(), Fail> {
    let attempts = after(rt.alloc(), &[Call::Expire(3)])?;
    let claims = [(Tag(2), Attempt(3), By::Expiry)];
    assert_eq!(rt; attempts.waiting_claims(), claims.as_slice());
    Ok(())
}

#[test]
fn a_claim_by_the_answer_stands_before_one_by_the_expiry(rt: HostRuntime) -> Result<(), Fail> {
    let calls = [
        Call::Expire(3),
        Call::Answer(2, 20),
        Call::Answer(3, 30),
        Call::Expire(2),
    ];
    let attempts = after(rt.alloc(), &calls)?;
    let claims = [
        (Tag(0), Attempt(2), By::Answer),
        (Tag(0), Attempt(2), By::Expiry),
        (Tag(2), Attempt(3), By::Answer),
        (Tag(2), Attempt(3), By::Expiry),
    ];
    assert_eq!(rt; attempts.waiting_claims(), claims.as_slice());
    Ok(())
}

fn sides(attempts: &Attempts) -> (bool, bool) {
    (
        attempts.has_claim(By::Answer),
        attempts.has_claim(By::Expiry),
    )
}

#[test]
fn an_answer_is_a_claim_of_its_side(rt: HostRuntime) -> Result<(), Fail> {
    let attempts = after(rt.alloc(), &[Call::Answer(2, 20)])?;
    assert_eq!(rt; sides(&attempts), (true, false));
    Ok(())
}

#[test]
fn an_expiry_is_a_claim_of_its_side(rt: HostRuntime) -> Result<(), Fail> {
    let attempts = after(rt.alloc(), &[Call::Expire(2)])?;
    assert_eq!(rt; sides(&attempts), (false, true));
    Ok(())
}

// Attempt 2 is answered and expires.
const BOTH: [Call; 2] = [Call::Answer(2, 20), Call::Expire(2)];

#[test]
fn an_owned_attempt_waits_no_longer(rt: HostRuntime) -> Result<(), Fail> {
    let [answered, expired] = BOTH;
    let calls = [
        answered,
        expired,
        Call::Answer(3, 30),
        Call::Own(2, By::Expiry),
    ];
    let attempts = after(rt.alloc(), &calls)?;
    let claims = [(Tag(2), Attempt(3), By::Answer)];
    assert_eq!(rt; attempts.waiting_claims(), claims.as_slice());
    Ok(())
}

#[test]
fn an_owned_attempt_holds_its_tag(rt: HostRuntime) -> Result<(), Fail> {
    let calls = [
        Call::Answer(2, 20),
        Call::Own(2, By::Answer),
        Call::Expire(3),
        Call::Own(3, By::Expiry),
    ];
    let attempts = after(rt.alloc(), &calls)?;
    let second = TagState::Owned(Attempt(2), By::Answer);
    let third = TagState::Owned(Attempt(3), By::Expiry);
    assert_eq!(rt; attempts.tag_states(), [second, FIRST, third].as_slice());
    Ok(())
}

// Attempt 2 is answered, belongs to its answer, and is settled.
const SETTLED: [Call; 3] = [
    Call::Answer(2, 20),
    Call::Own(2, By::Answer),
    Call::Settle(2),
];

#[test]
fn a_settled_attempt_frees_its_tag(rt: HostRuntime) -> Result<(), Fail> {
    let attempts = after(rt.alloc(), &SETTLED)?;
    let states = [TagState::Free, FIRST, THIRD];
    assert_eq!(rt; attempts.tag_states(), states.as_slice());
    Ok(())
}

#[test]
fn an_answer_is_given_while_it_waits(rt: HostRuntime) -> Result<(), Fail> {
    let attempts = after(rt.alloc(), &[Call::Answer(2, 20)])?;
    assert_eq!(rt; attempts.answer_of(Attempt(2)), Some(moved(20)));
    Ok(())
}

#[test]
fn an_answer_is_given_while_it_is_owned(rt: HostRuntime) -> Result<(), Fail> {
    let [answer, own, _] = SETTLED;
    let attempts = after(rt.alloc(), &[answer, own])?;
    assert_eq!(rt; attempts.answer_of(Attempt(2)), Some(moved(20)));
    Ok(())
}

#[test]
fn a_settled_attempt_gives_no_answer(rt: HostRuntime) -> Result<(), Fail> {
    let attempts = after(rt.alloc(), &SETTLED)?;
    assert_eq!(rt; attempts.answer_of(Attempt(2)), None);
    Ok(())
}

#[test]
fn an_attempt_without_an_answer_gives_none(rt: HostRuntime) -> Result<(), Fail> {
    let attempts = after(rt.alloc(), &[Call::Answer(2, 20)])?;
    assert_eq!(rt; attempts.answer_of(Attempt(3)), None);
    Ok(())
}

// Attempt 4 goes out with the tag that attempt 2 had.
#[test]
fn the_next_attempt_of_a_tag_has_an_answer_of_its_own(rt: HostRuntime) -> Result<(), Fail> {
    let [answer, own, settle] = SETTLED;
    let calls = [answer, own, settle, Call::Send(0), Call::Answer(4, 40)];
    let attempts = after(rt.alloc(), &calls)?;
    let answers = (
        attempts.answer_of(Attempt(2)),
        attempts.answer_of(Attempt(4)),
    );
    assert_eq!(rt; answers, (None, Some(moved(40))));
    Ok(())
}

fn lates(attempts: &Attempts) -> (Option<Attempt>, bool) {
    (attempts.next_late(), attempts.has_late())
}

#[test]
fn an_answer_of_no_attempt_is_late(rt: HostRuntime) -> Result<(), Fail> {
    let attempts = after(rt.alloc(), &[Call::Answer(7, 70)])?;
    assert_eq!(rt; lates(&attempts), (Some(Attempt(7)), true));
    Ok(())
}

#[test]
fn an_answer_behind_a_settled_attempt_is_late(rt: HostRuntime) -> Result<(), Fail> {
    let [answer, own, settle] = SETTLED;
    let attempts = after(rt.alloc(), &[answer, own, settle, Call::Answer(2, 21)])?;
    assert_eq!(rt; lates(&attempts), (Some(Attempt(2)), true));
    Ok(())
}

// Attempt 2 is answered twice.
const TWICE: [Call; 2] = [Call::Answer(2, 20), Call::Answer(2, 21)];

#[test]
fn a_second_answer_is_late(rt: HostRuntime) -> Result<(), Fail> {
    let attempts = after(rt.alloc(), &TWICE)?;
    assert_eq!(rt; lates(&attempts), (Some(Attempt(2)), true));
    Ok(())
}

#[test]
fn a_second_answer_leaves_the_first_one(rt: HostRuntime) -> Result<(), Fail> {
    let attempts = after(rt.alloc(), &TWICE)?;
    assert_eq!(rt; attempts.answer_of(Attempt(2)), Some(moved(20)));
    Ok(())
}

#[test]
fn the_least_late_answer_comes_first(rt: HostRuntime) -> Result<(), Fail> {
    let calls = [
        Call::Answer(7, 70),
        Call::Bounce(3),
        Call::Answer(3, 30),
        Call::Answer(5, 50),
    ];
    let attempts = after(rt.alloc(), &calls)?;
    assert_eq!(rt; lates(&attempts), (Some(Attempt(3)), true));
    Ok(())
}

#[test]
fn the_attempts_of_late_answers_are_told(rt: HostRuntime) -> Result<(), Fail> {
    let attempts = after(rt.alloc(), &[Call::Answer(7, 70), Call::Answer(2, 20)])?;
    let late = [2, 7].map(|n| attempts.is_late(Attempt(n)));
    assert_eq!(rt; late, [false, true]);
    Ok(())
}

#[test]
fn one_late_answer_of_two_is_dropped(rt: HostRuntime) -> Result<(), Fail> {
    let calls = [Call::Answer(7, 70), Call::Answer(7, 71), Call::DropLate(7)];
    let attempts = after(rt.alloc(), &calls)?;
    assert_eq!(rt; lates(&attempts), (Some(Attempt(7)), true));
    Ok(())
}

#[test]
fn the_last_late_answer_is_dropped(rt: HostRuntime) -> Result<(), Fail> {
    let attempts = after(rt.alloc(), &[Call::Answer(7, 70), Call::DropLate(7)])?;
    assert_eq!(rt; lates(&attempts), (None, false));
    Ok(())
}

#[test]
fn a_late_answer_of_another_attempt_is_kept(rt: HostRuntime) -> Result<(), Fail> {
    let attempts = after(rt.alloc(), &[Call::Answer(7, 70), Call::DropLate(5)])?;
    assert_eq!(rt; lates(&attempts), (Some(Attempt(7)), true));
    Ok(())
}

#[test]
fn an_answer_is_late_once_the_expiry_owns_its_attempt(rt: HostRuntime) -> Result<(), Fail> {
    let [answer, expire] = BOTH;
    let attempts = after(rt.alloc(), &[answer, expire, Call::Own(2, By::Expiry)])?;
    assert_eq!(rt; lates(&attempts), (Some(Attempt(2)), true));
    Ok(())
}

#[test]
fn an_answer_is_not_late_where_it_owns_its_attempt(rt: HostRuntime) -> Result<(), Fail> {
    let [answer, expire] = BOTH;
    let attempts = after(rt.alloc(), &[answer, expire, Call::Own(2, By::Answer)])?;
    assert_eq!(rt; lates(&attempts), (None, false));
    Ok(())
}

#[test]
fn an_expiry_that_owns_without_an_answer_leaves_none_late(rt: HostRuntime) -> Result<(), Fail> {
    let attempts = after(rt.alloc(), &[Call::Expire(2), Call::Own(2, By::Expiry)])?;
    assert_eq!(rt; lates(&attempts), (None, false));
    Ok(())
}

// Attempts 3 and 2 come to their owners, in this order.
const OWNED: [Call; 4] = [
    Call::Answer(3, 30),
    Call::Own(3, By::Answer),
    Call::Expire(2),
    Call::Own(2, By::Expiry),
];

#[test]
fn an_attempt_that_waits_for_its_owner_has_none(rt: HostRuntime) -> Result<(), Fail> {
    let attempts = after(rt.alloc(), &BOTH)?;
    assert_eq!(rt; attempts.next_owned(), None);
    Ok(())
}

#[test]
fn the_least_owned_attempt_comes_first(rt: HostRuntime) -> Result<(), Fail> {
    let attempts = after(rt.alloc(), &OWNED)?;
    assert_eq!(rt; attempts.next_owned(), Some(Attempt(2)));
    Ok(())
}

#[test]
fn a_settled_attempt_makes_room_for_the_next_owned_one(rt: HostRuntime) -> Result<(), Fail> {
    let [answer, own, expire, own_by_expiry] = OWNED;
    let calls = [answer, own, expire, own_by_expiry, Call::Settle(2)];
    let attempts = after(rt.alloc(), &calls)?;
    assert_eq!(rt; attempts.next_owned(), Some(Attempt(3)));
    Ok(())
}

// A host keeps a row for each attempt that it ever sends.
#[test]
fn a_row_takes_64_bytes_at_most(rt: HostRuntime) {
    assert!(rt; size_of::<Row>() <= 64);
}
