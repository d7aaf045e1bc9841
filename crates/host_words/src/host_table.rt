ghost use Rattle.std.specs.Prelude.{◌≡◌, ◌+◌};

use crate::{InTurn, Start, View};
use atomic_table::Table;
use std::alloc::Global;
use trace_model::Booked;

/// A host's table: the state in turn, and a word for each tag. Threads share it by `&`, each with a seat of its own.
#[derive(Drop)]
pub struct HostTable<S: Booked> {
    // Word 0 is the number drawn next, word 1 the number served; then a word for each tag. The one slot has the state.
    pub(crate) table: Table<Option<S>, View, Start<S>, InTurn, Global>,
    ghost sizes: { (table.shared.table_id.words ≡ table.shared.key.tags + 2) × (table.shared.table_id.slots ≡ 1) },
}

// The places of the words.
pub(crate) const TICKET: usize = 0;

pub(crate) const SERVING: usize = 1;

pub(crate) const TAGS: usize = 2;
