ghost use Rattle.std.specs.Prelude.{◌≡◌, ◌≤◌, ◌++◌, List, length};
ghost use Rattle.mid_base.specs.declared.entries.Entry.{Entry as EntrySeen};
ghost use Rattle.host_state.specs.HostAgrees.{HostAgrees};
ghost use Rattle.trace_model.specs.Legal.{onto};
ghost use Rattle.verdict_table.specs.Taken.{AreTaken};

use core_book::CoreBook;
use host_state::Running;
use mid_base::{Entry, HostSpec};

/// Enters entries of recovery, one after the other, into the running state and the book, which has room for them.
pub(crate) fn tell_all(
    spec: &HostSpec,
    book: &mut CoreBook,
    running: &mut Running,
    entries: &[Entry],
)
    requires room { length entries.now ≤ book.old.spare }
    requires runs { (P : List EntrySeen) × HostAgrees spec.now P running.old × AreTaken spec.now P entries.now }
    ensures told { book.new.entries ≡ book.old.entries ++ entries.now }
    ensures runs { (P : List EntrySeen) → HostAgrees spec.now P running.old → AreTaken spec.now P entries.now → HostAgrees spec.now (onto entries.now P) running.new }
    ensures shown { running.new.attempts.tags.items ≡ running.old.attempts.tags.items }
{
    for entry in entries {
        running.enter(entry);
        book.push(*entry);
    }
}
