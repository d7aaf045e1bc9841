ghost use Rattle.std.specs.Prelude.{◌≡◌, ◌≤◌, ◌<◌, ◌+◌, IsOk};
ghost use Rattle.mid_base.specs.declared.steps.Step.TheVariants as steps;
ghost use Rattle.mid_core.specs.Choices.{has_cause, why_not};

use crate::Core;
use attempt_table::Row;
use host_template::HostTemplate;
use mid_base::{Attempt, By, Did, Entry, NoMemory, Why};

impl<A: HostTemplate> Core<A> {
    ghost use Rattle.mid_core.specs.Steps.{Answers};

    pub(crate) fn work(&mut self) -> Result<Did, NoMemory>
        ensures { Answers A.stands A.is_due A.means self.old self.new steps.Work result }
    {
        let now = self.running.now();
        if !self.lower.due(now) {
            return Ok(Did::Skipped(Why::NoWork));
        }
        self.book.reserve(1)?;
        self.running.reserve()?;
        match self.lower.work(now)? {
            Some((n, a)) => {
                self.book.push(Entry::Ready(n, a));
                self.running.answer(n, a);
                Ok(Did::Done)
            }
            None => unreachable!(),
        }
    }

    // An open attempt comes to belong to its answer, or to its expired timer.
    pub(crate) fn own(&mut self, n: Attempt, by: By) -> Result<Did, NoMemory>
        ensures answer { Answers A.stands A.is_due A.means self.old self.new (steps.Own n by) result }
        ensures room { 0 < self.old.spare → IsOk result × (self.old.spare ≤ self.new.spare + 1) }
    {
        let Some(row) = self.running.attempt(n) else {
            return Ok(Did::Skipped(Why::NotOpen));
        };
        if !row.out {
            return Ok(Did::Skipped(Why::NotOpen));
        }
        if !has_cause(row, by) {
            return Ok(Did::Skipped(why_not(by)));
        }
        self.book.reserve(1)?;
        self.book.push(Entry::Owned(n, by));
        self.running.own(n, by);
        Ok(Did::Done)
    }

    // One answer that is to be ignored is ignored.
    pub(crate) fn drop_late(&mut self, n: Attempt) -> Result<Did, NoMemory>
        ensures answer { Answers A.stands A.is_due A.means self.old self.new (steps.Drop n) result }
        ensures room { 0 < self.old.spare → IsOk result × (self.old.spare ≤ self.new.spare + 1) }
    {
        if !self.running.is_late(n) {
            return Ok(Did::Skipped(Why::NotLate));
        }
        self.book.reserve(1)?;
        self.book.push(Entry::Late(n));
        self.running.drop_late(n);
        Ok(Did::Done)
    }
}

// Whether the attempt has what it takes to belong to this owner.
fn has_cause(row: Row, by: By) -> bool
    ensures { result ≡ has_cause by row }
{
    match by {
        By::Answer => row.answered,
        By::Expiry => row.due,
    }
}

// What an open attempt lacks that can't belong to this owner.
fn why_not(by: By) -> Why
    ensures { result ≡ why_not by }
{
    match by {
        By::Answer => Why::NotReady,
        By::Expiry => Why::NotDue,
    }
}
