// What a seat knows, and the rule of a host's table. But for `Start`, none of these values is ever made: contracts alone
// speak of them.

use crate::WordSeen;
use atomic_table::TableRule;
use mid_base::{Attempt, By, DevAddr, Entry, HostSpec, Tag, TagState};
use std::collections::LinkedList;
use std::snapshot::Snapshot;
use trace_model::Booked;

/// What a host's journal begins from: its spec, and the numbers of probes that were made on devices before.
pub struct Origin {
    pub spec: HostSpec,
    pub before: LinkedList<(DevAddr, u64)>,
}

/// Places of the journal, from the first to before the second.
pub struct Range {
    pub from: u64,
    pub to: u64,
}

/// A claim that was won.
pub struct Win {
    pub tag: Tag,
    pub attempt: Attempt,
    pub by: By,
}

/// A claim that was lost, with the word that it met.
pub struct Loss {
    pub tag: Tag,
    pub attempt: Attempt,
    pub met: WordSeen,
}

/// The word of a tag, as a look showed it.
pub struct Shown {
    pub tag: Tag,
    pub word: WordSeen,
}

/// A tag that was armed for an attempt.
pub struct Arm {
    pub tag: Tag,
    pub attempt: Attempt,
}

/// What the seat that has the turn knows of it.
pub struct Turn {
    /// The journal that the turn found.
    pub base: LinkedList<Entry>,
    /// The states of the tags, as the turn found them and with what it armed and released.
    pub hand: LinkedList<TagState>,
    /// What its looks showed.
    pub shown: LinkedList<Shown>,
    pub armed: LinkedList<Arm>,
    pub released: LinkedList<Shown>,
}

/// Where a seat stands with its turn.
pub enum Stage {
    /// It has none and waits for none.
    Away,
    /// It has drawn this number.
    Waiting(u64),
    /// This number is served, so the seat has the turn.
    Holding(u64, Turn),
    /// The same, with the journal that it leaves.
    Leaving(u64, Turn, LinkedList<Entry>),
}

/// What a seat knows.
pub struct View {
    /// What the table's state begins from; None once the seat is spent.
    pub origin: Option<Origin>,
    /// How many tags the table has.
    pub tags: u16,
    /// All seats of a table together have a share of 65,536.
    pub share: u64,
    /// A journal that the kept one begins with.
    pub seen: LinkedList<Entry>,
    pub wins: LinkedList<Win>,
    pub losts: LinkedList<Loss>,
    /// The places of the journal that its turns filled.
    pub mine: LinkedList<Range>,
    pub stage: Stage,
}

/// What a table was made with: the state, and how many tags it has.
#[derive(Drop)]
pub struct Start<S> {
    pub state: Snapshot<S>,
    pub tags: u16,
}

/// The rule of a host's table.
pub struct InTurn;

impl<S: Booked> TableRule<Option<S>, View, Start<S>> for InTurn {
    ghost use Rattle.host_words.specs.Views.{origin_by, first_view};
    ghost use Rattle.host_words.specs.Hosted.{Hosted};

    ghost holds = { λ key. Hosted (origin_by S.spec S.before) S.journal S.tags (origin_by S.spec S.before key.state.value) key.tags };

    ghost first = { λ key. first_view (origin_by S.spec S.before key.state.value) key.tags (S.journal key.state.value) };
}
