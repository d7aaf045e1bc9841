ghost use Rattle.std.specs.Prelude.{◌≡◌, List, IfOk, OnErr};
ghost use Rattle.mid_base.specs.declared.entries.Entry.{Entry as EntrySeen};
ghost use Rattle.mid_base.specs.declared.steps.Step.TheVariants as steps;
ghost use Rattle.host_template.specs.Meaning.{SameNature, SameMeaning, IfHonest};
ghost use Rattle.host_template.specs.Standing.{Before, Unchanged};
ghost use Rattle.host_state.specs.HostAgrees.{HostAgrees};
ghost use Rattle.held_laws.specs.Steps.{HonestGroup};
ghost use Rattle.mid_core.specs.Choices.{MayBeSent, IsHanded, ShowsHanded, StandsHanded, handed_group, who_was_busy};

use crate::Core;
use crate::choosing::{Turn, next_turn};
use crate::handing::not_connected;
use host_state::Running;
use host_template::{HostTemplate, Queued};
use mid_base::{Attempt, BusyOf, CmdId, Did, Entry, HostSpec, NoMemory, Tag};

/// What came of handing a command to the lower layer: the attempt, and who was busy where it was turned away.
#[derive(Clone, Copy, PartialEq, Eq, Debug)]
pub(crate) struct Handed {
    pub id: CmdId,
    pub attempt: Attempt,
    pub tag: Tag,
    pub busy: Option<BusyOf>,
}

impl<A: HostTemplate> Core<A> {
    ghost use Rattle.mid_core.specs.Steps.{Answers};

    // The command that goes next is sent, or reported where its device isn't online.
    pub(crate) fn send(&mut self) -> Result<Did, NoMemory>
        ensures { Answers A.stands A.is_due A.means self.old self.new steps.Send result }
    {
        match next_turn(&self.running) {
            Err(why) => Ok(Did::Skipped(why)),
            Ok(Turn::Report(place)) => {
                let id = self.running.command(place).id;
                self.book.reserve(1)?;
                self.book.push(Entry::Told(id, not_connected()));
                self.running.strand(place);
                Ok(Did::Done)
            }
            Ok(Turn::Send(place)) => {
                self.book.reserve(2)?;
                let handed = hand_over(&self.spec, &mut self.lower, &mut self.running, place)?;
                self.book
                    .push(Entry::Sent(handed.id, handed.attempt, handed.tag));
                match handed.busy {
                    None => Ok(Did::Done),
                    Some(why) => {
                        self.book
                            .push(Entry::Bounced(handed.id, handed.attempt, why));
                        Ok(Did::Done)
                    }
                }
            }
        }
    }
}

/// Hands the command at a place, whose turn it is, to the lower layer, and enters into the running state what came of it.
/// NoMemory changes nothing.
fn hand_over<A: HostTemplate>(
    spec: &HostSpec,
    lower: &mut A,
    running: &mut Running,
    place: usize,
) -> Result<Handed, NoMemory>
    requires { (P : List EntrySeen) × HostAgrees spec.now P running.old × MayBeSent spec.now P running.old place }
    ensures runs { IfOk result (λ h. (P : List EntrySeen) → HostAgrees spec.now P running.old → MayBeSent spec.now P running.old place → IsHanded spec.now P running.new place h) }
    ensures stands { IfOk result (λ h. (P : List EntrySeen) (b : Before) → HostAgrees spec.now P running.old → MayBeSent spec.now P running.old place → StandsHanded A.stands spec.now b lower.old lower.new h P) }
    ensures nature { SameNature (A.means lower.old) (A.means lower.new) }
    ensures honest { IfOk result (λ h. (P : List EntrySeen) → HostAgrees spec.now P running.old → MayBeSent spec.now P running.old place → IfHonest (HonestGroup spec.now P (handed_group h)) (A.means lower.old) (A.means lower.new)) }
    ensures shown { IfOk result (λ h. ShowsHanded running.old.attempts.tags.items running.new.attempts.tags.items h) }
    ensures same { OnErr result ((P : List EntrySeen) → HostAgrees spec.now P running.old → HostAgrees spec.now P running.new) }
    ensures kept { OnErr result (running.new.attempts.tags.items ≡ running.old.attempts.tags.items) }
    ensures lower { OnErr result (Unchanged (A.stands lower.old) (A.stands lower.new) (A.is_due lower.old) (A.is_due lower.new)) }
    ensures meaning { OnErr result (SameMeaning (A.means lower.old) (A.means lower.new)) }
{
    running.reserve()?;
    lower.reserve(1)?;
    let attempt = Attempt(running.count() + 1);
    let command = spec.cmds.as_slice()[place];
    let answer = lower.queue(
        attempt,
        command.dev,
        &command.cdb,
        command.fill,
        running.now(),
    )?;
    match busy_of(answer) {
        None => {
            let sending = running.send(place, command.timeout);
            Ok(Handed {
                id: command.id,
                attempt,
                tag: sending.tag,
                busy: None,
            })
        }
        Some(why) => {
            let sending = running.send_in_vain(place, command.timeout, why);
            Ok(Handed {
                id: command.id,
                attempt,
                tag: sending.tag,
                busy: Some(why),
            })
        }
    }
}

// Who was busy, where the lower layer didn't take the attempt.
fn busy_of(answer: Queued) -> Option<BusyOf>
    ensures { result ≡ who_was_busy answer }
{
    match answer {
        Queued::Taken => None,
        Queued::HostBusy => Some(BusyOf::Host),
        Queued::DeviceBusy => Some(BusyOf::Device),
    }
}
