ghost use Rattle.std.specs.Prelude.{◌≡◌, ◌<◌, ◌≤◌, ◌+◌, ◌↔◌, [], ◌∷◌, ◌++◌, false, length, slice_get, Some, IfOk, IsTrue};
ghost use Rattle.eh_queue.specs.Failures.{is_of, is_failed, without};

use mid_base::{Attempt, CmdId, NoMemory};
use std::alloc::Global;
use std::marker::Model;

/// The failed commands of a host in the order in which they failed, and the count of busy commands. Contracts see that
/// list, that count, and how many commands may be busy at once. The list is never longer than the count.
#[derive(Drop)]
pub struct EhQueue {
    failed: Vec<(CmdId, Attempt, bool)>,
    busy: u16,
    most: u16,
}

impl Model for EhQueue {
    ghost use Rattle.std.specs.Prelude.{◌<◌, ◌≤◌, ◌^◌, vec_len, vec_capacity};
    ghost use Rattle.eh_queue.specs.Failures.{Failures};

    ghost Value = { Failures };

    ghost view = { λ q. record { failed = q.failed.items; busy = q.busy; most = q.most } };

    ghost invariant = { λ q. (vec_len q.failed ≤ q.busy) × (q.busy ≤ q.most) × (q.most ≤ vec_capacity q.failed) × (q.most < 2 ^ 16) };
}

impl EhQueue {
    /// No busy command, with room for `most` of them. NoMemory where that room can't be had.
    pub fn new(alloc: Global, most: u16) -> Result<EhQueue, NoMemory>
        ensures failed { IfOk result (λ q. q.failed ≡ []) }
        ensures busy { IfOk result (λ q. q.busy ≡ 0) }
        ensures most { IfOk result (λ q. q.most ≡ most) }
    {
        match Vec::with_capacity(alloc, usize::from(most)) {
            Ok(failed) => Ok(EhQueue {
                failed,
                busy: 0,
                most,
            }),
            Err(_) => Err(NoMemory),
        }
    }

    /// A command was sent, and is busy from now on. Fewer than `most` have to be busy.
    pub fn sent(&mut self)
        requires { self.old.busy < self.old.most }
        ensures busy { self.new.busy ≡ self.old.busy + 1 }
        ensures failed { self.new.failed ≡ self.old.failed }
        ensures most { self.new.most ≡ self.old.most }
    {
        self.busy += 1;
    }

    /// This busy command has failed with its attempt `n`, which was cancelled or else answered: it is the last on the list
    /// from now on. It may not be on the list, and not all busy commands may be.
    pub fn add(&mut self, c: CmdId, n: Attempt, cancelled: bool)
        requires absent { is_failed c self.old.failed ≡ false }
        requires room { length self.old.failed < self.old.busy }
        ensures failed { self.new.failed ≡ self.old.failed ++ (c, n, cancelled) ∷ [] }
        ensures busy { self.new.busy ≡ self.old.busy }
        ensures most { self.new.most ≡ self.old.most }
    {
        self.failed.push_reserved((c, n, cancelled));
    }

    /// This busy command was given back or goes again: one command fewer is busy, and where it had failed, it is taken off
    /// the list. Where it hadn't, not all busy commands may be on the list.
    pub fn ended(&mut self, c: CmdId)
        requires { is_failed c self.old.failed ≡ false → length self.old.failed < self.old.busy }
        ensures busy { self.new.busy + 1 ≡ self.old.busy }
        ensures failed { self.new.failed ≡ without c self.old.failed }
        ensures most { self.new.most ≡ self.old.most }
    {
        self.failed.retain(|failure| !is_of(c, failure));
        self.busy -= 1;
    }

    /// How many commands are busy.
    pub fn busy(&self) -> u16
        ensures { result ≡ self.now.busy }
    {
        self.busy
    }

    /// How many of them have failed.
    pub fn failed(&self) -> u16
        ensures { result ≡ length self.now.failed }
    {
        self.failed.len() as u16
    }

    /// Whether the recovery thread may start: a command has failed, and so have all busy ones.
    pub fn may_start(&self) -> bool
        ensures { IsTrue result ↔ ((1 ≤ length self.now.failed) × (length self.now.failed ≡ self.now.busy)) }
    {
        self.failed() >= 1 && self.failed() == self.busy
    }

    /// Whether the command is on the list.
    pub fn has(&self, c: CmdId) -> bool
        ensures { is_failed c self.now.failed ≡ result }
    {
        self.failed.iter().any(|failure| is_of(c, failure))
    }

    /// The failed command at place `i` of the list, counted from 0, with its attempt and whether that was cancelled. There
    /// has to be such a place.
    pub fn at(&self, i: u16) -> (CmdId, Attempt, bool)
        requires { i < length self.now.failed }
        ensures { slice_get self.now.failed i ≡ Some result }
    {
        self.failed[usize::from(i)]
    }
}

fn is_of(c: CmdId, failure: &(CmdId, Attempt, bool)) -> bool
    ensures { result ≡ is_of c failure.now }
{
    failure.0 == c
}
