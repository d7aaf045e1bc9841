ghost use Rattle.std.specs.Prelude.{◌≡◌, ◌+◌, ◌<◌, ◌≤◌, List, ◌∷◌};
ghost use Rattle.std.specs.HashMap.{spare};
ghost use Rattle.mid_base.specs.declared.entries.Entry.{Entry as EntrySeen};
ghost use Rattle.core_book.specs.Whose.{whose, command_of, KnowsSent};

use crate::maps::put;
use mid_base::{Attempt, Entry};
use std::collections::HashMap;

/// The command that an entry names, or that its attempt was sent for, by the map of what was sent before it.
pub(crate) fn whose(sent: &HashMap<u64, u32>, entry: &Entry) -> Option<u32>
    ensures { (P : List EntrySeen) → KnowsSent P sent.now → result ≡ whose entry.now P }
{
    match entry {
        Entry::Took(c)
        | Entry::Sent(c, _, _)
        | Entry::Bounced(c, _, _)
        | Entry::Judged(c, _, _)
        | Entry::AbortSet(c, _)
        | Entry::Aborted(c, _, _)
        | Entry::Failed(c, _, _)
        | Entry::Cleared(c, _)
        | Entry::Sensed(c, _, _)
        | Entry::Again(c, _)
        | Entry::Told(c, _) => Some(c.0),
        Entry::Ready(n, _)
        | Entry::Due(n)
        | Entry::Longer(n)
        | Entry::DoneSaid(n)
        | Entry::Owned(n, _)
        | Entry::Late(n) => Some(command_of(sent, *n)),
        _ => None,
    }
}

// The command that an attempt was sent for, or 0.
fn command_of(sent: &HashMap<u64, u32>, n: Attempt) -> u32
    ensures { result ≡ command_of sent.now n.0 }
{
    sent.get(&n.0).copied().unwrap_or(0)
}

/// Notes for which command an attempt is sent, where the entry sends one.
pub(crate) fn note(sent: &mut HashMap<u64, u32>, entry: &Entry)
    requires { 0 < spare sent.old }
    ensures sent { (P : List EntrySeen) → KnowsSent P sent.old → KnowsSent (entry.now ∷ P) sent.new }
    ensures room { spare sent.old ≤ spare sent.new + 1 }
{
    if let Entry::Sent(c, n, _) = entry {
        put(sent, n.0, c.0);
    }
}
