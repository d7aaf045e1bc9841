ghost use Rattle.std.specs.Prelude.{◌≡◌, ◌<◌, ◌+◌, ◌^◌, ℕ, true, List, ◌∷◌, Some, slice_get, slice_set};
ghost use Rattle.mid_base.specs.declared.answers.Answer.{Answer as AnswerSeen};
ghost use Rattle.mid_base.specs.declared.answers.TagState.TheVariants as tag;
ghost use Rattle.mid_base.specs.declared.entries.Entry.{Entry as EntrySeen};
ghost use Rattle.mid_base.specs.declared.entries.Entry.TheVariants as entries;
ghost use Rattle.mid_base.specs.declared.host_spec.HostSpec.{HostSpec as SpecSeen};
ghost use Rattle.mid_base.specs.declared.names.CmdId.{CmdId as IdSeen};
ghost use Rattle.attempt_table.specs.Rows.{next_attempt};
ghost use Rattle.attempt_table.specs.AttemptsAgree.{HasRoom};
ghost use Rattle.command_table.specs.Rows.{id_at};
ghost use Rattle.trace_model.specs.Names.{command};
ghost use Rattle.trace_model.specs.Sending.{is_least_free};

use crate::Running;
use mid_base::{Attempt, BusyOf, Tag, Tick};

/// An attempt as it was sent: its number, and the tag that its command holds.
#[derive(Clone, Copy, PartialEq, Eq, Debug)]
pub struct Sending {
    pub attempt: Attempt,
    pub tag: Tag,
}

impl Running {
    ghost use Rattle.host_state.specs.HostAgrees.{HostAgrees};
    ghost use Rattle.host_state.specs.Picks.{CanStrand, CanSend};

    /// The command that goes next is reported, since its device is offline.
    pub fn strand(&mut self, place: usize)
        requires { CanStrand self.old place }
        ensures runs { (s : SpecSeen) (P : List EntrySeen) (c : IdSeen) (a : AnswerSeen) → id_at place self.old.commands.rows.items ≡ Some c → HostAgrees s P self.old → HostAgrees s (entries.Told c a ∷ P) self.new }
        ensures shown { self.new.attempts.tags.items ≡ self.old.attempts.tags.items }
    {
        self.commands.tell(place);
    }

    /// The command that goes next is sent, with its timeout in ticks.
    pub fn send(&mut self, place: usize, timeout: u32) -> Sending
        requires room { HasRoom self.old.attempts }
        requires can { CanSend self.old place }
        ensures attempt { result.attempt ≡ next_attempt self.old.attempts.rows.items }
        ensures runs { (s : SpecSeen) (P : List EntrySeen) (c : IdSeen) → id_at place self.old.commands.rows.items ≡ Some c → timeout ≡ (command s c.0).timeout → HostAgrees s P self.old → (is_least_free s P result.tag.0 ≡ true) × HostAgrees s (entries.Sent c result.attempt result.tag ∷ P) self.new }
        ensures shown { (slice_get self.old.attempts.tags.items result.tag.0 ≡ Some tag.Free) × (self.new.attempts.tags.items ≡ slice_set self.old.attempts.tags.items result.tag.0 (tag.Armed result.attempt)) }
    {
        let row = self.commands.row(place);
        let tag = self.devices.take_tag(row.device);
        let attempt = self.attempts.send(row.id, place, tag);
        self.deadlines.send(attempt, Tick(self.ticks), timeout);
        self.failures.send();
        self.commands.send(place, attempt, tag);
        Sending { attempt, tag }
    }

    /// The command that goes next is sent, and turned away by the lower layer.
    pub fn send_in_vain(&mut self, place: usize, timeout: u32, why: BusyOf) -> Sending
        requires room { HasRoom self.old.attempts }
        requires can { CanSend self.old place }
        ensures attempt { result.attempt ≡ next_attempt self.old.attempts.rows.items }
        ensures runs { (s : SpecSeen) (P : List EntrySeen) (c : IdSeen) → id_at place self.old.commands.rows.items ≡ Some c → timeout ≡ (command s c.0).timeout → HostAgrees s P self.old → (is_least_free s P result.tag.0 ≡ true) × HostAgrees s (entries.Bounced c result.attempt why ∷ entries.Sent c result.attempt result.tag ∷ P) self.new }
        ensures shown { self.new.attempts.tags.items ≡ self.old.attempts.tags.items }
    {
        let row = self.commands.row(place);
        let tag = self.devices.take_tag(row.device);
        let attempt = self.attempts.send(row.id, place, tag);
        self.deadlines.send(attempt, Tick(self.ticks), timeout);
        self.attempts.bounce(attempt);
        self.deadlines.bounce(attempt);
        self.failures.send();
        self.failures.bounce(row.id);
        self.devices.bounce(row.device, tag, why);
        Sending { attempt, tag }
    }
}
