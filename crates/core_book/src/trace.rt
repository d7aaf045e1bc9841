ghost use Rattle.std.specs.Prelude.{◌≡◌, [], reverse};
ghost use Rattle.std.specs.Iterator.{YieldsFirst, item_count};
ghost use Rattle.trace_model.specs.Commands.{trace as trace_back};
ghost use Rattle.core_book.specs.Whose.{all_whose};
ghost use Rattle.core_book.specs.Places.{IsFirst, IsFollowed};

use mid_base::{CmdId, Entry};
use std::marker::Model;

/// What is left of the trace of a command: its entries and those of its attempts, the oldest first. A contract sees the
/// list of them.
#[derive(Debug, Drop)]
pub struct Trace<'a> {
    cmd: CmdId,
    entries: &'a [Entry],
    next: &'a [usize],
    place: usize,
}

impl<'a> Model for Trace<'a> {
    ghost use Rattle.std.specs.Prelude.{[], List, reverse, take, drop};
    ghost use Rattle.mid_base.specs.declared.entries.Entry.{Entry as EntrySeen};
    ghost use Rattle.core_book.specs.Whose.{all_whose};
    ghost use Rattle.core_book.specs.Places.{IsFollowed};
    ghost use Rattle.core_book.specs.Traces.{traced};

    ghost Value = { List EntrySeen };

    ghost view = { λ t. traced t.cmd.0 (reverse (take t.place t.entries.now)) (drop t.place t.entries.now) };

    ghost invariant = { λ t. IsFollowed (all_whose [] t.entries.now) t.cmd.0 t.next.now t.place };
}

impl<'a> Trace<'a> {
    // The whole trace of a command in these entries, where `next` leads from each of its places to the next one.
    pub(crate) fn new(
        cmd: CmdId,
        entries: &'a [Entry],
        next: &'a [usize],
        first: usize,
    ) -> Trace<'a>
        requires first { IsFirst (all_whose [] entries.now) cmd.0 first }
        requires followed { IsFollowed (all_whose [] entries.now) cmd.0 next.now first }
        ensures { result ≡ reverse (trace_back cmd.0 (reverse entries.now)) }
    {
        Trace {
            cmd,
            entries,
            next,
            place: first,
        }
    }
}

impl<'a> Iterator for Trace<'a> {
    type Item = Entry;

    ghost next_gives = { YieldsFirst (λ left. left) };

    ghost remaining = { item_count (λ left. left) };

    fn next(&mut self) -> Option<Entry> {
        match self.entries.get(self.place) {
            Some(entry) => {
                self.place = self.next[self.place];
                Some(*entry)
            }
            None => None,
        }
    }
}
