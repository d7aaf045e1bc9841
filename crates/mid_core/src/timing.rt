ghost use Rattle.std.specs.Prelude.{◌≤◌, ◌<◌, ◌+◌, IsOk};
ghost use Rattle.mid_base.specs.declared.steps.Step.TheVariants as steps;

use crate::Core;
use device_states::set_device;
use host_template::HostTemplate;
use mid_base::{DevAddr, DeviceState, Did, Entry, LAST_NUMBER, NoMemory, Why};

impl<A: HostTemplate> Core<A> {
    ghost use Rattle.mid_core.specs.Steps.{Answers};

    pub(crate) fn tick(&mut self) -> Result<Did, NoMemory>
        ensures answer { Answers A.stands A.is_due A.means self.old self.new steps.Tick result }
        ensures room { 0 < self.old.spare → IsOk result × (self.old.spare ≤ self.new.spare + 1) }
    {
        let now = self.running.now();
        if self.lower.due(now) {
            return Ok(Did::Skipped(Why::WorkDue));
        }
        if self.running.has_answer_waiting() {
            return Ok(Did::Skipped(Why::AnswerWaiting));
        }
        if self.running.has_expired() {
            return Ok(Did::Skipped(Why::ExpiryWaiting));
        }
        if now.0 >= LAST_NUMBER {
            return Ok(Did::Skipped(Why::Spent));
        }
        self.book.reserve(1)?;
        self.book.push(Entry::Tick);
        self.running.tick();
        Ok(Did::Done)
    }

    pub(crate) fn set_state(&mut self, dev: DevAddr, state: DeviceState) -> Result<Did, NoMemory>
        ensures { Answers A.stands A.is_due A.means self.old self.new (steps.SetState dev state) result }
    {
        if self.ladder.is_some() {
            return Ok(Did::Skipped(Why::EhRunning));
        }
        let Some(place) = self.running.device_at(dev) else {
            return Ok(Did::Skipped(Why::Illegal));
        };
        match set_device(self.running.device_state(place), state) {
            Err(_) => Ok(Did::Skipped(Why::Illegal)),
            Ok(_) => {
                self.book.reserve(1)?;
                self.book.push(Entry::State(dev, state));
                self.running.set_state(place, state);
                Ok(Did::Done)
            }
        }
    }
}
