ghost use Rattle.std.specs.Prelude.{◌≡◌, ◌≤◌, true, false, List, [], ◌∷◌, ◌++◌, Some, slice_get, slice_set, vec_len, vec_capacity};
ghost use Rattle.attempt_table.specs.AttemptsAgree.{IsLessOne};
ghost use Rattle.mid_base.specs.declared.answers.BusyOf.{BusyOf as BusyOfSeen};
ghost use Rattle.mid_base.specs.declared.host_spec.HostSpec.{HostSpec as SpecSeen};
ghost use Rattle.mid_base.specs.declared.entries.Entry.{Entry as EntrySeen};
ghost use Rattle.mid_base.specs.declared.entries.Entry.TheVariants as entries;
ghost use Rattle.mid_base.specs.declared.names.CmdId.{CmdId as IdSeen};
ghost use Rattle.attempt_table.specs.Rows.{row_of, next_attempt, sent_row, turned_away, with_answer, expired, given_to, at_end, just_sent_in, wanting_in, open_in, due_in, owned_in, claims_by, tag_in, shown_in, wanting_row, is_unwanted, Becomes};

use crate::attempts::{keep, show};
use crate::claims::{claim, unclaim};
use crate::rows::{sent_row, write};
use crate::{Attempts, Row};
use mid_base::{Answer, Attempt, By, CmdId, Tag, TagState};

impl Attempts {
    ghost use Rattle.attempt_table.specs.AttemptsAgree.{AttemptsAgree, HasRoom, IsTied, Settles};

    /// An attempt is sent, with a tag that is free. Its number is the next one.
    pub fn send(&mut self, command: CmdId, place: usize, tag: Tag) -> Attempt
        requires room { HasRoom self.old }
        requires free { slice_get self.old.tags.items tag.0 ≡ Some TagState.Free }
        ensures number { result ≡ next_attempt self.old.rows.items }
        ensures tells { (s : SpecSeen) (P : List EntrySeen) → AttemptsAgree s P self.old → AttemptsAgree s (entries.Sent command result tag ∷ P) self.new }
        ensures rows { self.new.rows.items ≡ self.old.rows.items ++ sent_row command place tag ∷ [] }
        ensures tags { self.new.tags.items ≡ slice_set self.old.tags.items tag.0 (TagState.Armed result) }
    {
        let n = Attempt(self.rows.len() as u64 + 1);
        self.rows.push_reserved(sent_row(command, place, tag));
        show(&mut self.tags, tag, TagState::Armed(n));
        n
    }

    /// The lower layer turned an attempt away that was just sent: its tag is free again.
    pub fn bounce(&mut self, n: Attempt)
        requires { just_sent_in (row_of n.0 self.old.rows.items) ≡ true }
        ensures tells { (s : SpecSeen) (P : List EntrySeen) (c : IdSeen) (why : BusyOfSeen) → AttemptsAgree s P self.old → AttemptsAgree s (entries.Bounced c n why ∷ P) self.new }
        ensures rows { Becomes n.0 turned_away self.old.rows.items self.new.rows.items }
        ensures tags { self.new.tags.items ≡ slice_set self.old.tags.items (tag_in (row_of n.0 self.old.rows.items)).0 TagState.Free }
    {
        if let Some(row) = self.row(n) {
            write(&mut self.rows, n, Row { out: false, ..row });
            show(&mut self.tags, row.tag, TagState::Free);
        }
    }

    // The row of an attempt that is open and has no answer, None where it isn't such a one.
    fn wanting(&self, n: Attempt) -> Option<Row>
        ensures { result ≡ wanting_row (row_of n.0 self.now.rows.items) }
    {
        match self.row(n) {
            Some(row) if row.out && !row.answered => Some(row),
            _ => None,
        }
    }

    /// An answer came: the first one of an open attempt, which waits for its owner then, or one that is to be ignored.
    pub fn answer(&mut self, n: Attempt, a: Answer)
        requires { HasRoom self.old }
        ensures tells { (s : SpecSeen) (P : List EntrySeen) → AttemptsAgree s P self.old → AttemptsAgree s (entries.Ready n a ∷ P) self.new }
        ensures good { wanting_in (row_of n.0 self.old.rows.items) ≡ true → Becomes n.0 with_answer self.old.rows.items self.new.rows.items }
        ensures late { wanting_in (row_of n.0 self.old.rows.items) ≡ false → self.new.rows.items ≡ self.old.rows.items }
        ensures tags { self.new.tags.items ≡ self.old.tags.items }
    {
        match self.wanting(n) {
            Some(row) => {
                write(
                    &mut self.rows,
                    n,
                    Row {
                        answered: true,
                        ..row
                    },
                );
                keep(&mut self.kept, row.tag, a);
                claim(&mut self.claims, (row.tag, n, By::Answer));
            }
            None => self.lates.push_reserved(n.0),
        }
    }

    /// The time of an open attempt is up, and the lower layer left it at that: it waits for its owner.
    pub fn expire(&mut self, n: Attempt)
        requires room { HasRoom self.old }
        requires open { open_in (row_of n.0 self.old.rows.items) ≡ true }
        requires in_time { due_in (row_of n.0 self.old.rows.items) ≡ false }
        ensures tells { (s : SpecSeen) (P : List EntrySeen) → AttemptsAgree s P self.old → AttemptsAgree s (entries.Due n ∷ P) self.new }
        ensures rows { Becomes n.0 expired self.old.rows.items self.new.rows.items }
        ensures tags { self.new.tags.items ≡ self.old.tags.items }
    {
        if let Some(row) = self.row(n) {
            write(&mut self.rows, n, Row { due: true, ..row });
            claim(&mut self.claims, (row.tag, n, By::Expiry));
        }
    }

    /// An attempt that waits for its owner is given to its answer, or to its expiry. An answer of one that is given to its
    /// expiry is to be ignored.
    pub fn own(&mut self, n: Attempt, by: By)
        requires waits { claims_by by (row_of n.0 self.old.rows.items) ≡ true }
        requires tied { IsTied self.old }
        ensures tells { (s : SpecSeen) (P : List EntrySeen) → AttemptsAgree s P self.old → AttemptsAgree s (entries.Owned n by ∷ P) self.new }
        ensures rows { Becomes n.0 (given_to by) self.old.rows.items self.new.rows.items }
        ensures armed { slice_get self.old.tags.items (tag_in (row_of n.0 self.old.rows.items)).0 ≡ Some (TagState.Armed n) }
        ensures tags { self.new.tags.items ≡ slice_set self.old.tags.items (tag_in (row_of n.0 self.old.rows.items)).0 (TagState.Owned n by) }
    {
        if let Some(row) = self.row(n) {
            write(&mut self.rows, n, given_to(row, by));
            unclaim(&mut self.claims, n);
            show(&mut self.tags, row.tag, TagState::Owned(n, by));
            self.owned.push_reserved(n.0);
            if is_unwanted(row, by) {
                self.lates.push_reserved(n.0);
            }
        }
    }

    /// An attempt that has an owner is judged, set for an abort, or put on the failed list: its tag is shown as free.
    pub fn settle(&mut self, n: Attempt)
        requires { owned_in (row_of n.0 self.old.rows.items) ≡ true }
        ensures tells { (s : SpecSeen) (P : List EntrySeen) (e : EntrySeen) → Settles n.0 e → AttemptsAgree s P self.old → AttemptsAgree s (e ∷ P) self.new }
        ensures rows { Becomes n.0 at_end self.old.rows.items self.new.rows.items }
        ensures owned { (s : SpecSeen) (P : List EntrySeen) → AttemptsAgree s P self.old → slice_get self.old.tags.items (tag_in (row_of n.0 self.old.rows.items)).0 ≡ Some (shown_in n.0 (row_of n.0 self.old.rows.items)) }
        ensures tags { self.new.tags.items ≡ slice_set self.old.tags.items (tag_in (row_of n.0 self.old.rows.items)).0 TagState.Free }
    {
        if let Some(row) = self.row(n) {
            write(
                &mut self.rows,
                n,
                Row {
                    settled: true,
                    ..row
                },
            );
            show(&mut self.tags, row.tag, TagState::Free);
            drop_one(&mut self.owned, n.0);
        }
    }

    /// One answer of the attempt that is to be ignored is ignored. Where there is none, nothing changes.
    pub fn drop_late(&mut self, n: Attempt)
        ensures tells { (s : SpecSeen) (P : List EntrySeen) → AttemptsAgree s P self.old → AttemptsAgree s (entries.Late n ∷ P) self.new }
        ensures rows { self.new.rows.items ≡ self.old.rows.items }
        ensures tags { self.new.tags.items ≡ self.old.tags.items }
    {
        drop_one(&mut self.lates, n.0);
    }
}

// The row of an attempt that came to its owner.
fn given_to(row: Row, by: By) -> Row
    ensures { result ≡ given_to by row }
{
    Row {
        out: false,
        owner: Some(by),
        settled: false,
        ..row
    }
}

// Whether the attempt has an answer that nobody wants once it belongs to this owner.
fn is_unwanted(row: Row, by: By) -> bool
    ensures { result ≡ is_unwanted by row }
{
    row.answered && matches!(by, By::Expiry)
}

// Takes a number out once, where it stands.
fn drop_one(numbers: &mut Vec<u64>, n: u64)
    ensures numbers { IsLessOne n numbers.old.items numbers.new.items }
    ensures count { vec_len numbers.new ≤ vec_len numbers.old }
    ensures capacity { vec_capacity numbers.new ≡ vec_capacity numbers.old }
{
    match numbers.iter().position(|number| *number == n) {
        Some(place) => {
            let _ = numbers.remove(place);
        }
        None => {}
    }
}
