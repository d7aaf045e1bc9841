ghost use Rattle.std.specs.Prelude.{◌≡◌, ◌<◌, [], ◌∷◌, ◌++◌, length, slice_get, IfOk, MatchOption};

use mid_base::{Attempt, CmdId, NoMemory};
use std::alloc::Global;
use std::collections::VecDeque;
use std::marker::Model;

/// The scheduled aborts of a host, each as its command and the attempt that is to be aborted. Contracts see those that
/// wait, in the order in which they are served, and how many there may be.
#[derive(Drop)]
pub struct AbortWork {
    waiting: VecDeque<(CmdId, Attempt)>,
    most: u16,
}

impl Model for AbortWork {
    ghost use Rattle.std.specs.Prelude.{◌≤◌};
    ghost use Rattle.std.specs.VecDeque.{deque_len, deque_capacity};
    ghost use Rattle.abort_work.specs.Scheduled.{Scheduled};

    ghost Value = { Scheduled };

    ghost view = { λ w. record { waiting = w.waiting.items; most = w.most } };

    ghost invariant = { λ w. (deque_len w.waiting ≤ w.most) × (w.most ≤ deque_capacity w.waiting) };
}

impl AbortWork {
    /// No scheduled abort, with room for `most` of them. NoMemory where that room can't be had.
    pub fn new(alloc: Global, most: u16) -> Result<AbortWork, NoMemory>
        ensures empty { IfOk result (λ w. w.waiting ≡ []) }
        ensures most { IfOk result (λ w. w.most ≡ most) }
    {
        match VecDeque::with_capacity(alloc, usize::from(most)) {
            Ok(waiting) => Ok(AbortWork { waiting, most }),
            Err(_) => Err(NoMemory),
        }
    }

    /// Schedules the abort of this attempt of the command, behind those that wait. There has to be room for one more.
    pub fn put(&mut self, c: CmdId, n: Attempt)
        requires { length self.old.waiting < self.old.most }
        ensures waiting { self.new.waiting ≡ self.old.waiting ++ (c, n) ∷ [] }
        ensures most { self.new.most ≡ self.old.most }
    {
        self.waiting.push_back_reserved((c, n));
    }

    /// The abort that was scheduled first, which stays. None comes exactly where none waits.
    pub fn first(&self) -> Option<(CmdId, Attempt)>
        ensures { result ≡ slice_get self.now.waiting 0 }
    {
        self.waiting.front().copied()
    }

    /// Takes out the abort that was scheduled first. None comes exactly where none waits.
    pub fn next(&mut self) -> Option<(CmdId, Attempt)>
        ensures waiting { MatchOption result ((self.old.waiting ≡ []) × (self.new.waiting ≡ [])) (λ first. self.old.waiting ≡ first ∷ self.new.waiting) }
        ensures most { self.new.most ≡ self.old.most }
    {
        self.waiting.pop_front()
    }
}
