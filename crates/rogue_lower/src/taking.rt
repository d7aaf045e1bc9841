ghost use Rattle.std.specs.Prelude.{◌≡◌, drop};
ghost use Rattle.rogue_lower.specs.Said.{first_or, is_answer_due};

use mid_base::{Answer, Attempt, Tick};
use std::collections::VecDeque;

// Takes the first of a list, and says `otherwise` where it is empty.
pub(crate) fn take_first<T: Drop>(list: &mut VecDeque<T>, otherwise: T) -> T
    ensures first { result ≡ first_or otherwise list.old.items }
    ensures left { list.new.items ≡ drop 1 list.old.items }
{
    list.pop_front().unwrap_or(otherwise)
}

// Whether the first answer is due.
pub(crate) fn is_first_due(answers: &VecDeque<(Tick, Attempt, Answer)>, now: Tick) -> bool
    ensures { result ≡ is_answer_due now.0 answers.now.items }
{
    match answers.front() {
        Some((tick, _, _)) => tick.0 <= now.0,
        None => false,
    }
}
