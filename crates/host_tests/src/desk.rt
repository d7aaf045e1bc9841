ghost use Rattle.std.specs.Prelude.{◌≡◌, true};
ghost use Rattle.host_tests.specs.Attempts.{below};

use mid_base::{Answer, Attempt, Entry, HostSpec, TagState};
use trace_model::Booked;

/// A small state: its journal has no rules, but that no attempt is numbered twice.
#[derive(Drop)]
pub struct Desk {
    pub(crate) about: HostSpec,
    pub(crate) entries: Vec<Entry>,
    pub(crate) tags: Vec<TagState>,
    // No attempt above it was sent or owned.
    pub(crate) last: u64,
    ghost bounded: { below last entries.items ≡ true },
}

impl Booked for Desk {
    ghost use Rattle.std.specs.Prelude.{[]};

    ghost spec = { λ d. d.about };

    ghost before = { λ _. [] };

    ghost journal = { λ d. d.entries.items };

    ghost tags = { λ d. d.tags.items };
}

/// An entry that arms and owns nothing.
#[derive(Clone, Copy)]
pub enum Note {
    Begun,
    Ended,
    Answered(Attempt, Answer),
    Overdue(Attempt),
}
