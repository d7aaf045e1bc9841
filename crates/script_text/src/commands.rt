use mid_base::{CmdSpec, LaneNo, NoMemory, Rows};
use std::alloc::Global;
use std::marker::Model;

/// The commands of a host, in the order of their lines, and which of its 64 lanes have one.
#[derive(Drop)]
pub struct Commands {
    items: Vec<CmdSpec>,
    lanes: [bool; 64],
}

impl Model for Commands {
    ghost use Rattle.std.specs.Prelude.{List};
    ghost use Rattle.mid_base.specs.declared.host_spec.CmdSpec.{CmdSpec};
    ghost use Rattle.script_text.specs.Said.{TellsLanes};

    ghost Value = { List CmdSpec };

    ghost view = { λ c. c.items.items };

    ghost invariant = { λ c. TellsLanes c.lanes c.items.items };
}

impl Commands {
    ghost use Rattle.std.specs.Prelude.{◌≡◌, ◌<◌, ◌++◌, ◌∷◌, [], OnOk};
    ghost use Rattle.script_text.specs.Said.{has_lane};

    /// No commands.
    #[tactic(auto, using(crate::proofs::Places::no_lanes))]
    pub fn new(alloc: Global) -> Commands
        ensures { result ≡ [] }
    {
        Commands {
            items: Vec::new(alloc),
            lanes: [false; 64],
        }
    }

    /// Whether some command is of this lane.
    pub fn has_lane(&self, lane: LaneNo) -> bool
        requires { lane.0 < 64 }
        ensures { result ≡ has_lane self.now lane.0 }
    {
        self.lanes[lane.0 as usize]
    }

    /// Puts a command behind the others.
    pub fn push(&mut self, command: CmdSpec) -> Result<(), NoMemory>
        requires { command.lane.0 < 64 }
        ensures { OnOk result (self.new ≡ self.old ++ command ∷ []) }
    {
        match self.items.push(command) {
            Ok(()) => {
                self.lanes[command.lane.0 as usize] = true;
                Ok(())
            }
            Err(_) => Err(NoMemory),
        }
    }

    pub fn into_rows(self) -> Rows<CmdSpec>
        ensures { result ≡ self }
    {
        Rows::from_vec(self.items)
    }
}
