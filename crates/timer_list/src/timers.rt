ghost use Rattle.std.specs.Prelude.{◌≡◌, ◌<◌, ◌+◌, [], None, Some, length, if◌then◌else◌, IfOk, IsSome, is_some};
ghost use Rattle.timer_list.specs.Timers.{deadline_of, Becomes, IsFirstDue};

use crate::rows::{find, first_by, place_by_deadline, place_by_number, put};
use mid_base::{Attempt, NoMemory, Tick};
use std::alloc::Global;
use std::marker::Model;

/// The running timers of a host, at most one for each attempt. Contracts see the deadline of each attempt, how many timers
/// run, and how many may.
#[derive(Drop)]
pub struct TimerList {
    // The timers by number, where an attempt's is found.
    by_number: Vec<(Attempt, Tick)>,
    // The same timers by deadline, and by number among equal ones: the first is due first.
    by_deadline: Vec<(Attempt, Tick)>,
    most: u16,
}

impl Model for TimerList {
    ghost use Rattle.std.specs.Prelude.{◌≤◌, vec_len, vec_capacity};
    ghost use Rattle.timer_list.specs.Timers.{Timers};
    ghost use Rattle.timer_list.specs.Orders.{AreKept};

    ghost Value = { Timers };

    ghost view = { λ l. record { timers = l.by_deadline.items; most = l.most } };

    ghost invariant = { λ l. AreKept l.by_number.items l.by_deadline.items × (vec_len l.by_deadline ≤ l.most) × (l.most ≤ vec_capacity l.by_number) × (l.most ≤ vec_capacity l.by_deadline) };
}

impl TimerList {
    /// No timer, with room for `most` of them. NoMemory where that room can't be had.
    pub fn new(alloc: Global, most: u16) -> Result<TimerList, NoMemory>
        ensures timers { IfOk result (λ l. l.timers ≡ []) }
        ensures most { IfOk result (λ l. l.most ≡ most) }
    {
        let Ok(by_number) = Vec::with_capacity(alloc, usize::from(most)) else {
            return Err(NoMemory);
        };
        let Ok(by_deadline) = Vec::with_capacity(alloc, usize::from(most)) else {
            return Err(NoMemory);
        };
        Ok(TimerList {
            by_number,
            by_deadline,
            most,
        })
    }

    /// Starts the timer of an attempt that has none, with the deadline `at`. There has to be room for one more.
    pub fn set(&mut self, n: Attempt, at: Tick)
        requires absent { deadline_of n.0 self.old.timers ≡ None }
        requires room { length self.old.timers < self.old.most }
        ensures deadlines { Becomes n.0 (Some at.0) self.old.timers self.new.timers }
        ensures count { length self.new.timers ≡ length self.old.timers + 1 }
        ensures most { self.new.most ≡ self.old.most }
    {
        let timer = (n, at);
        let place = place_by_number(&self.by_number, timer);
        put(&mut self.by_number, place, timer);
        let place = place_by_deadline(&self.by_deadline, timer);
        put(&mut self.by_deadline, place, timer);
    }

    /// Gives an attempt that has a timer the deadline `at` in place of its own.
    pub fn extend(&mut self, n: Attempt, at: Tick)
        requires { IsSome (deadline_of n.0 self.old.timers) }
        ensures deadlines { Becomes n.0 (Some at.0) self.old.timers self.new.timers }
        ensures count { length self.new.timers ≡ length self.old.timers }
        ensures most { self.new.most ≡ self.old.most }
    {
        self.drop_timer(n);
        self.set(n, at);
    }

    /// Stops the timer of an attempt; there is room for one more then. Where it has none, nothing changes.
    pub fn drop_timer(&mut self, n: Attempt)
        ensures deadlines { Becomes n.0 None self.old.timers self.new.timers }
        ensures count { length self.old.timers ≡ length self.new.timers + (if is_some (deadline_of n.0 self.old.timers) then 1 else 0) }
        ensures absent { deadline_of n.0 self.old.timers ≡ None → self.new ≡ self.old }
        ensures room { IsSome (deadline_of n.0 self.old.timers) → length self.new.timers < self.new.most }
        ensures most { self.new.most ≡ self.old.most }
    {
        let Some(place) = find(&self.by_number, n) else {
            return;
        };
        let timer = self.by_number.remove(place);
        let place = place_by_deadline(&self.by_deadline, timer);
        self.by_deadline.remove(place);
    }

    /// The attempt that is due first at the tick `now`: the one with the least deadline, and the least number among equal
    /// deadlines. None comes exactly where each deadline is after `now`.
    pub fn due(&self, now: Tick) -> Option<Attempt>
        ensures { IsFirstDue self.now.timers now.0 result }
    {
        let first = first_by(&self.by_deadline, now)?;
        Some(first.0)
    }
}
