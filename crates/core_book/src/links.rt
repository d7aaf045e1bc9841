ghost use Rattle.std.specs.Prelude.{◌≡◌, ℕ, ◌+◌, ◌<◌, ◌≤◌, List, [], ◌∷◌, ◌++◌, Option, IfOk, OnOk, MatchOption, length, nat_eq};
ghost use Rattle.std.specs.HashMap.{get};
ghost use Rattle.core_book.specs.Places.{nowhere, IsLinked, HasRoom, IsFirst};

use crate::maps::put;
use mid_base::NoMemory;
use std::alloc::Global;
use std::collections::HashMap;

/// The place that stands for none.
pub(crate) const NOWHERE: usize = usize::MAX;

// The first and the last place of a command.
#[derive(Clone, Copy, Debug)]
struct Ends {
    first: usize,
    last: usize,
}

/// Places one after the other, each of one command or of none. From each that is of a command they lead to the next one.
#[derive(Drop)]
pub(crate) struct Links {
    next: Vec<usize>,
    ends: HashMap<u32, Ends>,
}

impl Links {
    /// No places, with room for `reserve` of them.
    pub(crate) fn new(alloc: Global, reserve: usize) -> Result<Links, NoMemory>
        ensures links { IfOk result (IsLinked []) }
        ensures room { IfOk result (λ l. HasRoom l reserve) }
    {
        let next = Vec::with_capacity(alloc, reserve).map_err(|_| NoMemory)?;
        let ends = HashMap::with_capacity(alloc, reserve).map_err(|_| NoMemory)?;
        Ok(Links { next, ends })
    }

    /// Makes room for `k` more places.
    pub(crate) fn reserve(&mut self, k: usize) -> Result<(), NoMemory>
        ensures links { (os : List (Option ℕ)) → IsLinked os self.old → IsLinked os self.new }
        ensures ok { OnOk result (HasRoom self.new k) }
        ensures kept { (j : ℕ) → HasRoom self.old j → HasRoom self.new j }
    {
        self.next.reserve(k).map_err(|_| NoMemory)?;
        self.ends.reserve(k).map_err(|_| NoMemory)
    }

    /// Puts a place behind the others, which is of the command `whose`, or of none.
    pub(crate) fn push(&mut self, whose: Option<u32>)
        requires linked { (os : List (Option ℕ)) × IsLinked os self.old }
        requires room { HasRoom self.old 1 }
        ensures links { (os : List (Option ℕ)) → IsLinked os self.old → IsLinked (os ++ whose ∷ []) self.new }
        ensures room { (k : ℕ) → HasRoom self.old (k + 1) → HasRoom self.new k }
    {
        let place = self.next.len();
        self.next.push_reserved(NOWHERE);
        let Some(c) = whose else {
            return;
        };
        match self.ends.get(&c).copied() {
            Some(ends) => {
                self.next[ends.last] = place;
                put(
                    &mut self.ends,
                    c,
                    Ends {
                        first: ends.first,
                        last: place,
                    },
                );
            }
            None => put(
                &mut self.ends,
                c,
                Ends {
                    first: place,
                    last: place,
                },
            ),
        }
    }

    /// The first place of a command, or `NOWHERE`.
    pub(crate) fn first(&self, c: u32) -> usize
        ensures { (os : List (Option ℕ)) → IsLinked os self.now → IsFirst os c result }
    {
        match self.ends.get(&c) {
            Some(ends) => ends.first,
            None => NOWHERE,
        }
    }

    /// The next place of each.
    pub(crate) fn next(&self) -> &[usize]
        ensures { result.now ≡ self.now.next.items }
    {
        &self.next
    }
}
