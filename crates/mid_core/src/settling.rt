ghost use Rattle.mid_base.specs.declared.steps.Step.TheVariants as steps;

use crate::Core;
use crate::expiring::settle_expired;
use crate::judging::{judge, settle_by};
use host_state::Owned;
use host_template::HostTemplate;
use mid_base::{Attempt, Did, Entry, NoMemory, Why};

impl<A: HostTemplate> Core<A> {
    ghost use Rattle.mid_core.specs.Steps.{Answers};

    // An attempt that its answer owns is judged, and its command is reported, waits again or has failed. One that its expired
    // timer owns is set for an abort, or its command has failed.
    pub(crate) fn settle(&mut self, n: Attempt) -> Result<Did, NoMemory>
        ensures { Answers A.stands A.is_due A.means self.old self.new (steps.Settle n) result }
    {
        match self.running.owned(n) {
            None => Ok(Did::Skipped(Why::NotOwned)),
            Some(Owned::Answered(row, answer)) => {
                let disposition = judge(&self.spec, &self.running, n, row, &answer);
                self.book.reserve(2)?;
                let follows = settle_by(&mut self.running, n, row, answer, disposition);
                self.book.push(Entry::Judged(row.command, n, disposition));
                self.book.push(follows);
                Ok(Did::Done)
            }
            Some(Owned::Expired(row)) => {
                self.book.reserve(1)?;
                let entry = settle_expired(&self.spec, &mut self.running, n, row);
                self.book.push(entry);
                Ok(Did::Done)
            }
        }
    }
}
