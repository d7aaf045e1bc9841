ghost use Rattle.std.specs.Prelude.{◌≡◌};
ghost use Rattle.mid_base.specs.Answers.{no_connect};
ghost use Rattle.mid_base.specs.declared.steps.Step.TheVariants as steps;

use crate::Core;
use crate::choosing::{Handing, next_handing};
use host_template::HostTemplate;
use mid_base::{Answer, DID_NO_CONNECT, Did, Entry, GOOD, LaneNo, NoMemory, SenseBytes};

impl<A: HostTemplate> Core<A> {
    ghost use Rattle.mid_core.specs.Steps.{Answers};

    // The next command of a lane is taken, or reported where its device is on its way out.
    pub(crate) fn submit(&mut self, lane: LaneNo) -> Result<Did, NoMemory>
        ensures { Answers A.stands A.is_due A.means self.old self.new (steps.Submit lane) result }
    {
        match next_handing(&self.running, lane) {
            Err(why) => Ok(Did::Skipped(why)),
            Ok(Handing::Refuse(place)) => {
                let id = self.running.command(place).id;
                self.book.reserve(1)?;
                self.book.push(Entry::Told(id, not_connected()));
                self.running.refuse(place);
                Ok(Did::Done)
            }
            Ok(Handing::Take(place)) => {
                let id = self.running.command(place).id;
                self.book.reserve(1)?;
                self.running.take(place)?;
                self.book.push(Entry::Took(id));
                Ok(Did::Done)
            }
        }
    }
}

// What a command is told whose device isn't there.
pub(crate) fn not_connected() -> Answer
    ensures { result ≡ no_connect }
{
    Answer {
        host: DID_NO_CONNECT,
        status: GOOD,
        sense: SenseBytes::empty(),
        moved: 0,
        sum: 0,
    }
}
