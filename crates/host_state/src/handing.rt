ghost use Rattle.std.specs.Prelude.{◌≡◌, List, ◌∷◌, None, Some, OnOk, OnErr, MatchOption};
ghost use Rattle.mid_base.specs.declared.answers.Answer.{Answer as AnswerSeen};
ghost use Rattle.mid_base.specs.declared.entries.Entry.{Entry as EntrySeen};
ghost use Rattle.mid_base.specs.declared.entries.Entry.TheVariants as entries;
ghost use Rattle.mid_base.specs.declared.host_spec.HostSpec.{HostSpec as SpecSeen};
ghost use Rattle.mid_base.specs.declared.names.CmdId.{CmdId as IdSeen};
ghost use Rattle.trace_model.specs.Sending.{next_of_lane};
ghost use Rattle.command_table.specs.Rows.{id_at};
ghost use Rattle.command_table.specs.CommandsAgree.{IsNext};

use crate::Running;
use mid_base::{LaneNo, NoMemory};

impl Running {
    ghost use Rattle.host_state.specs.HostAgrees.{HostAgrees, CanBeHandedIn};

    /// The place of the next command of a lane, None where each is handed in.
    pub fn next_in(&self, lane: LaneNo) -> Option<usize>
        ensures { (s : SpecSeen) (P : List EntrySeen) → HostAgrees s P self.now → MatchOption result (next_of_lane s P lane.0 ≡ None) (IsNext s P self.now.commands lane.0) }
    {
        self.commands.next_in(lane)
    }

    /// The next command of a lane is taken. NoMemory changes nothing.
    pub fn take(&mut self, place: usize) -> Result<(), NoMemory>
        requires { CanBeHandedIn self.old place }
        ensures runs { OnOk result ((s : SpecSeen) (P : List EntrySeen) (c : IdSeen) → id_at place self.old.commands.rows.items ≡ Some c → HostAgrees s P self.old → HostAgrees s (entries.Took c ∷ P) self.new) }
        ensures same { OnErr result ((s : SpecSeen) (P : List EntrySeen) → HostAgrees s P self.old → HostAgrees s P self.new) }
        ensures shown { self.new.attempts.tags.items ≡ self.old.attempts.tags.items }
    {
        self.commands.take(place)
    }

    /// The next command of a lane is reported and not taken.
    pub fn refuse(&mut self, place: usize)
        requires { CanBeHandedIn self.old place }
        ensures runs { (s : SpecSeen) (P : List EntrySeen) (c : IdSeen) (a : AnswerSeen) → id_at place self.old.commands.rows.items ≡ Some c → HostAgrees s P self.old → HostAgrees s (entries.Told c a ∷ P) self.new }
        ensures shown { self.new.attempts.tags.items ≡ self.old.attempts.tags.items }
    {
        self.commands.refuse(place);
    }
}
