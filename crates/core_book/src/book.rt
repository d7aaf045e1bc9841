ghost use Rattle.std.specs.Prelude.{◌≡◌, ◌+◌, ◌<◌, ◌≤◌, [], ◌∷◌, ◌++◌, length, reverse, IfOk, IsOk, OnOk};
ghost use Rattle.trace_model.specs.Commands.{trace};

use crate::Trace;
use crate::links::Links;
use crate::whose::{note, whose};
use mid_base::{CmdId, Entry, NoMemory};
use std::alloc::Global;
use std::collections::HashMap;
use std::marker::Model;

/// A journal. Contracts see its entries, the oldest first, and for how many more there is room.
#[derive(Drop)]
pub struct CoreBook {
    items: Vec<Entry>,
    links: Links,
    sent: HashMap<u64, u32>,
    room: usize,
}

impl Model for CoreBook {
    ghost use Rattle.std.specs.Prelude.{◌+◌, ◌≤◌, [], reverse, vec_len, vec_capacity};
    ghost use Rattle.std.specs.HashMap.{spare as map_spare};
    ghost use Rattle.core_book.specs.Book.{Book};
    ghost use Rattle.core_book.specs.Whose.{all_whose, KnowsSent};
    ghost use Rattle.core_book.specs.Places.{IsLinked, HasRoom};

    ghost Value = { Book };

    ghost view = { λ b. record { entries = b.items.items; spare = b.room } };

    ghost invariant = { λ b. (vec_len b.items + b.room ≤ vec_capacity b.items) × HasRoom b.links b.room × (b.room ≤ map_spare b.sent)
        × IsLinked (all_whose [] b.items.items) b.links × KnowsSent (reverse b.items.items) b.sent };
}

impl CoreBook {
    /// An empty journal with room for `reserve` entries.
    pub fn new(alloc: Global, reserve: usize) -> Result<CoreBook, NoMemory>
        ensures empty { IfOk result (λ b. b.entries ≡ []) }
        ensures spare { IfOk result (λ b. reserve ≤ b.spare) }
    {
        let items = Vec::with_capacity(alloc, reserve).map_err(|_| NoMemory)?;
        let links = Links::new(alloc, reserve)?;
        let sent = HashMap::with_capacity(alloc, reserve).map_err(|_| NoMemory)?;
        Ok(CoreBook {
            items,
            links,
            sent,
            room: reserve,
        })
    }

    /// Makes room for `k` more entries. Where there is that room already, it takes no memory.
    pub fn reserve(&mut self, k: usize) -> Result<(), NoMemory>
        ensures entries { self.new.entries ≡ self.old.entries }
        ensures ok { OnOk result (k ≤ self.new.spare) }
        ensures kept { self.old.spare ≤ self.new.spare }
        ensures ready { k ≤ self.old.spare → IsOk result × (self.new ≡ self.old) }
    {
        if k <= self.room {
            return Ok(());
        }
        self.items.reserve(k).map_err(|_| NoMemory)?;
        self.links.reserve(k)?;
        self.sent.reserve(k).map_err(|_| NoMemory)?;
        self.room = k;
        Ok(())
    }

    /// Adds an entry at the end.
    pub fn push(&mut self, e: Entry)
        requires { 0 < self.old.spare }
        ensures entries { self.new.entries ≡ self.old.entries ++ e ∷ [] }
        ensures spare { self.new.spare + 1 ≡ self.old.spare }
    {
        self.links.push(whose(&self.sent, &e));
        note(&mut self.sent, &e);
        self.items.push_reserved(e);
        self.room -= 1;
    }

    /// The trace of a command: its entries and those of its attempts, the oldest first.
    pub fn of(&self, c: CmdId) -> Trace<'_>
        ensures { result ≡ reverse (trace c.0 (reverse self.now.entries)) }
    {
        Trace::new(c, &self.items, self.links.next(), self.links.first(c.0))
    }

    /// How many entries there are.
    pub fn len(&self) -> usize
        ensures { result ≡ length self.now.entries }
    {
        self.items.len()
    }

    /// The entries, the oldest first.
    pub fn entries(&self) -> &[Entry]
        ensures { result.now ≡ self.now.entries }
    {
        &self.items
    }
}

#[cfg(test)]
mod tests {
    use super::*;
    use mid_base::{Attempt, By, Tag};
    use std::test::Fail;

    #[test]
    fn a_journal_grows_at_its_end_within_its_room(rt: HostRuntime) -> Result<(), Fail> {
        let Ok(mut book) = CoreBook::new(rt.alloc(), 1) else {
            assert!(rt; false, "room for one entry");
            return Ok(());
        };
        assert_eq!(rt; book.entries(), [].as_slice());
        book.push(Entry::Took(CmdId(7)));
        assert_eq!(rt; book.entries(), [Entry::Took(CmdId(7))].as_slice());
        assert_eq!(rt; book.reserve(0), Ok(()));
        if book.reserve(2).is_err() {
            assert!(rt; false, "room for two more");
            return Ok(());
        }
        book.push(Entry::Tick);
        book.push(Entry::EhBegin);
        assert_eq!(rt;
            book.entries(),
            [Entry::Took(CmdId(7)), Entry::Tick, Entry::EhBegin].as_slice()
        );
        Ok(())
    }

    // A journal of two commands, whose entries interleave.
    const BOTH: [Entry; 9] = [
        Entry::Took(CmdId(1)),
        Entry::Took(CmdId(2)),
        Entry::Late(Attempt(1)),
        Entry::Sent(CmdId(1), Attempt(1), Tag(0)),
        Entry::Sent(CmdId(2), Attempt(2), Tag(1)),
        Entry::Tick,
        Entry::Due(Attempt(2)),
        Entry::Owned(Attempt(1), By::Answer),
        Entry::Again(CmdId(1), false),
    ];

    #[test]
    fn a_trace_has_the_entries_of_its_command_and_of_its_attempts(
        rt: HostRuntime,
    ) -> Result<(), Fail> {
        let Ok(mut book) = CoreBook::new(rt.alloc(), 9) else {
            assert!(rt; false, "room for nine entries");
            return Ok(());
        };
        for e in BOTH {
            if book.reserve(1).is_ok() {
                book.push(e);
            }
        }
        assert_eq!(rt; book.len(), 9);
        let mut first = book.of(CmdId(1));
        assert!(rt; first.next() == Some(BOTH[0]));
        assert!(rt; first.next() == Some(BOTH[3]));
        assert!(rt; first.next() == Some(BOTH[7]));
        assert!(rt; first.next() == Some(BOTH[8]));
        assert!(rt; first.next() == None);
        let mut second = book.of(CmdId(2));
        assert!(rt; second.next() == Some(BOTH[1]));
        assert!(rt; second.next() == Some(BOTH[4]));
        assert!(rt; second.next() == Some(BOTH[6]));
        assert!(rt; second.next() == None);
        assert!(rt; book.of(CmdId(3)).next() == None);
        Ok(())
    }
}
