ghost use Rattle.std.specs.Prelude.{◌≡◌};
ghost use Rattle.mid_base.specs.declared.steps.Step.TheVariants as steps;

use crate::Core;
use crate::telling::tell_all;
use escalation::Acted;
use host_template::HostTemplate;
use mid_base::{Did, NoMemory, Why};

impl<A: HostTemplate> Core<A> {
    ghost use Rattle.mid_core.specs.Steps.{Answers};

    // Recovery acts once (`scsi_eh.rst`, "scsi_unjam_host").
    pub(crate) fn act(&mut self) -> Result<Did, NoMemory>
        ensures { Answers A.stands A.is_due A.means self.old self.new steps.EhAct result }
    {
        let Some(ladder) = &mut self.ladder else {
            return Ok(Did::Skipped(Why::EhIdle));
        };
        let left = ladder.left().len();
        if left == 0 {
            return Ok(Did::Skipped(Why::LadderDone));
        }
        self.book.reserve(left.saturating_mul(3).saturating_add(4))?;
        match ladder.next(&mut self.lower, &mut self.probes)? {
            Acted::Act { entries, .. } => {
                tell_all(&self.spec, &mut self.book, &mut self.running, &entries);
                Ok(Did::Done)
            }
            Acted::Finished => unreachable!(),
        }
    }
}
