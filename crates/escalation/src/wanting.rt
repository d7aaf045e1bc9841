ghost use Rattle.std.specs.Prelude.{◌≡◌, ◌≤◌, find, map, drop, length, ◌&&◌};
ghost use Rattle.std.specs.List.{list_any};
ghost use Rattle.mid_base.specs.Address.{same_dev as same_dev_seen};
ghost use Rattle.mid_base.specs.Bytes.{sense_list};
ghost use Rattle.sense_data.specs.Grammar.{is_valid_sense};
ghost use Rattle.disposition.specs.Disp.{check_sense as check_sense_seen, is_fail};
ghost use Rattle.disposition.specs.Ladder.{wants_sense as wants_sense_seen, wants_start as wants_start_seen, is_of_kind as is_of_kind_seen, is_in_scope as is_in_scope_of, is_wanted_pair, beyond_pair};
ghost use Rattle.mid_base.specs.Levels.{level_of};
ghost use Rattle.escalation.specs.Rungs.{pair_at, level_at};

use crate::devices::is_in_scope;
use crate::rungs::{Rung, same_rung};
use disposition::{Todo, check_sense};
use mid_base::{Answer, CHECK_CONDITION, DID_OK, Disp, SenseBytes, same_dev};
use sense_data::SenseView;

/// Whether bytes are sense data.
pub(crate) fn is_valid(sense: &SenseBytes) -> bool
    ensures { result ≡ is_valid_sense (sense_list sense.now) }
{
    SenseView::read(sense.as_slice()).is_ok()
}

// Whether an answer lacks the sense data that its status says there is.
fn lacks_sense(answer: &Option<Answer>) -> bool
    ensures { result ≡ wants_sense_seen answer.now }
{
    match answer {
        Some(a) => a.host == DID_OK && a.status == CHECK_CONDITION && !is_valid(&a.sense),
        None => false,
    }
}

// Whether an answer's sense data asks for a start of the unit.
fn asks_for_start(answer: &Option<Answer>) -> bool
    ensures { result ≡ wants_start_seen answer.now }
{
    match answer {
        Some(a) => fails(&a.sense),
        None => false,
    }
}

fn fails(sense: &SenseBytes) -> bool
    ensures { result ≡ (is_valid_sense (sense_list sense.now) && is_fail (check_sense_seen (sense_list sense.now))) }
{
    match SenseView::read(sense.as_slice()) {
        Ok(view) => matches!(check_sense(&view), Disp::Fail),
        Err(_) => false,
    }
}

// Whether a command of the same device was cancelled.
fn has_cancelled(left: &[Todo], x: &Todo) -> bool
    ensures { result ≡ list_any (λ y. y.cancelled && same_dev_seen y.dev x.now.dev) left.now }
{
    left.iter().any(|y| is_cancelled_beside(y, x))
}

fn is_cancelled_beside(y: &Todo, x: &Todo) -> bool
    ensures { result ≡ (y.now.cancelled && same_dev_seen y.now.dev x.now.dev) }
{
    y.cancelled && same_dev(y.dev, x.dev)
}

// Whether a command is of the kind that a rung's level is for.
fn is_of_kind(rung: &Rung, left: &[Todo], aborts: bool, x: &Todo) -> bool
    ensures { result ≡ is_of_kind_seen aborts (level_at rung.now) left.now x.now }
{
    match rung {
        Rung::FetchSense(_) => !x.cancelled && lacks_sense(&x.answer),
        Rung::Abort(_) => x.cancelled && aborts,
        Rung::StartUnit(_) => asks_for_start(&x.answer) && !has_cancelled(left, x),
        _ => true,
    }
}

fn is_wanted_by(rung: &Rung, left: &[Todo], aborts: bool, x: &Todo) -> bool
    ensures { result ≡ (is_in_scope_of (pair_at rung.now).1 x.now && is_of_kind_seen aborts (level_of (pair_at rung.now).0) left.now x.now) }
{
    is_in_scope(rung.scope(), x) && is_of_kind(rung, left, aborts, x)
}

// Whether a command that is left wants a rung.
fn is_wanted(rung: &Rung, left: &[Todo], aborts: bool) -> bool
    ensures { result ≡ is_wanted_pair aborts left.now (pair_at rung.now) }
{
    left.iter().any(|x| is_wanted_by(rung, left, aborts, x))
}

/// The first rung that is wanted by a command that is left.
pub(crate) fn first_wanted(ahead: &[Rung], left: &[Todo], aborts: bool) -> Option<Rung>
    ensures { result ≡ find (λ r. is_wanted_pair aborts left.now (pair_at r)) ahead.now }
{
    ahead
        .iter()
        .copied()
        .find(|rung| is_wanted(rung, left, aborts))
}

/// How many rungs stand up to the last place of one: all where it has none.
pub(crate) fn passed(ahead: &[Rung], rung: &Rung) -> usize
    ensures beyond { map pair_at (drop result ahead.now) ≡ beyond_pair (pair_at rung.now) (map pair_at ahead.now) }
    ensures within { result ≤ length ahead.now }
{
    let mut behind = ahead.len();
    for (place, other) in ahead.iter().enumerate() {
        if same_rung(rung, other) {
            behind = place + 1;
        }
    }
    behind
}
