ghost use Rattle.std.specs.Prelude.{◌≡◌, ◌≤◌, ◌<◌, ℕ, ◌+◌, ◌||◌, ◌∷◌, [], map, not, false, length, Option, vec_len, vec_capacity};
ghost use Rattle.std.specs.List.{list_any};
ghost use Rattle.std.specs.List.Sorted.{IsNonDecreasing};
ghost use Rattle.mid_base.specs.declared.answers.Answer.{Answer as AnswerSeen};
ghost use Rattle.escalation.specs.Climbing.{as_told as as_told_seen, sensed_by as sensed_by_seen, clears};
ghost use Rattle.escalation.specs.Acts.{AreCleared, is_id};

use disposition::Todo;
use mid_base::{Answer, Attempt, Entry};

/// The ids of the commands that these entries clear, in ascending order.
pub(crate) fn gather_cleared(ids: &mut Vec<u32>, entries: &[Entry])
    requires none { ids.old.items ≡ [] }
    requires room { length entries.now ≤ vec_capacity ids.old }
    ensures { AreCleared entries.now ids.new.items }
{
    for entry in entries {
        add_cleared(ids, entry);
    }
    ids.sort_unstable();
}

fn add_cleared(ids: &mut Vec<u32>, entry: &Entry)
    requires { vec_len ids.old < vec_capacity ids.old }
    ensures ids { (c : ℕ) → list_any (is_id c) ids.new.items ≡ (list_any (is_id c) ids.old.items || clears c entry.now) }
    ensures len { vec_len ids.new ≤ vec_len ids.old + 1 }
    ensures capacity { vec_capacity ids.new ≡ vec_capacity ids.old }
{
    if let Entry::Cleared(c, _) = entry {
        ids.push_reserved(c.0);
    }
}

/// Whether a command's id is none of these, which ascend.
pub(crate) fn is_left(cleared: &[u32], x: &Todo) -> bool
    ensures { IsNonDecreasing cleared.now → result ≡ not (list_any (is_id x.now.cmd.0) cleared.now) }
{
    match cleared.binary_search(&x.cmd.0) {
        Ok(_) => false,
        Err(_) => true,
    }
}

/// The answers of commands get the sense that was fetched for them.
pub(crate) fn take_sense(left: &mut Vec<Todo>, entries: &[Entry])
    ensures { left.new.items ≡ map (as_told_seen entries.now) left.old.items }
{
    for entry in entries {
        take_told(left, entry);
    }
}

fn take_told(left: &mut Vec<Todo>, entry: &Entry)
    ensures { left.new.items ≡ map (as_told_seen (entry.now ∷ [])) left.old.items }
{
    if tells_sense(entry) {
        give_sense(left, entry);
    }
}

// Where it is false, the entry changes no answer.
fn tells_sense(entry: &Entry) -> bool
    ensures { result ≡ false → (n : ℕ) (a : Option AnswerSeen) → sensed_by_seen n entry.now a ≡ a }
{
    match entry {
        Entry::Sensed(_, _, _) => true,
        _ => false,
    }
}

fn give_sense(left: &mut Vec<Todo>, entry: &Entry)
    ensures { left.new.items ≡ map (as_told_seen (entry.now ∷ [])) left.old.items }
{
    let count = left.as_slice().len();
    for place in 0..count {
        let x = left[place];
        left[place] = as_told(entry, x);
    }
}

fn as_told(entry: &Entry, x: Todo) -> Todo
    ensures { result ≡ as_told_seen (entry.now ∷ []) x }
{
    Todo {
        answer: sensed_by(entry, x.n, x.answer),
        ..x
    }
}

// An attempt's answer after an entry.
fn sensed_by(entry: &Entry, n: Attempt, before: Option<Answer>) -> Option<Answer>
    ensures { result ≡ sensed_by_seen n.0 entry.now before }
{
    match (entry, before) {
        (Entry::Sensed(_, m, sense), Some(answer)) if *m == n => Some(Answer {
            sense: *sense,
            ..answer
        }),
        _ => before,
    }
}
