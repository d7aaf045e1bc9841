use crate::commands::Commands;
use mid_base::{
    CmdSpec, DevAddr, Handlers, HostNo, HostSpec, LaneNo, LunSpec, NoMemory, PlanEntry, Rows,
    same_dev,
};
use std::alloc::Global;
use std::marker::Model;

/// What the lines so far say of a host.
#[derive(Drop)]
pub struct HostDraft {
    no: HostNo,
    can_queue: u16,
    handlers: Handlers,
    no_async_abort: bool,
    luns: Vec<LunSpec>,
    commands: Commands,
    plan: Vec<PlanEntry>,
}

impl Model for HostDraft {
    ghost use Rattle.mid_base.specs.declared.host_spec.HostSpec.{HostSpec};

    ghost Value = { HostSpec };

    ghost view = { λ h. record { no = h.no; can_queue = h.can_queue; handlers = h.handlers; no_async_abort = h.no_async_abort; luns = h.luns.items; cmds = h.commands; plan = h.plan.items } };
}

impl HostDraft {
    ghost use Rattle.std.specs.Prelude.{◌≡◌, ◌<◌, nat_lt, length, [], OnOk};
    ghost use Rattle.mid_base.specs.Address.{has_dev};
    ghost use Rattle.script_text.specs.Said.{has_lane, with_unit, with_planned, with_command};

    /// A host without units, commands and planned faults.
    pub fn new(
        alloc: Global,
        no: HostNo,
        can_queue: u16,
        handlers: Handlers,
        no_async_abort: bool,
    ) -> HostDraft
        ensures { result ≡ record { no = no; can_queue = can_queue; handlers = handlers; no_async_abort = no_async_abort; luns = []; cmds = []; plan = [] } }
    {
        HostDraft {
            no,
            can_queue,
            handlers,
            no_async_abort,
            luns: Vec::new(alloc),
            commands: Commands::new(alloc),
            plan: Vec::new(alloc),
        }
    }

    pub fn no(&self) -> HostNo
        ensures { result ≡ self.now.no }
    {
        self.no
    }

    /// Whether it may get one more unit.
    pub fn has_room(&self) -> bool
        ensures { result ≡ nat_lt (length self.now.luns) 256 }
    {
        self.luns.len() < 256
    }

    /// Whether a line has this unit of it.
    pub fn has_unit(&self, dev: DevAddr) -> bool
        ensures { result ≡ has_dev self.now.luns dev }
    {
        self.luns.iter().any(|l| same_dev(l.dev, dev))
    }

    /// Whether a command of this lane stands. Its lanes are 0 to 63.
    pub fn has_lane(&self, lane: LaneNo) -> bool
        requires { lane.0 < 64 }
        ensures { result ≡ has_lane self.now.cmds lane.0 }
    {
        self.commands.has_lane(lane)
    }

    pub fn add_unit(&mut self, unit: LunSpec) -> Result<(), NoMemory>
        ensures { OnOk result (self.new ≡ with_unit unit self.old) }
    {
        match self.luns.push(unit) {
            Ok(()) => Ok(()),
            Err(_) => Err(NoMemory),
        }
    }

    pub fn add_planned(&mut self, entry: PlanEntry) -> Result<(), NoMemory>
        ensures { OnOk result (self.new ≡ with_planned entry self.old) }
    {
        match self.plan.push(entry) {
            Ok(()) => Ok(()),
            Err(_) => Err(NoMemory),
        }
    }

    pub fn add_command(&mut self, command: CmdSpec) -> Result<(), NoMemory>
        requires { command.lane.0 < 64 }
        ensures { OnOk result (self.new ≡ with_command command self.old) }
    {
        self.commands.push(command)
    }

    /// The spec that its lines say.
    pub fn into_spec(self) -> HostSpec
        ensures { result ≡ self }
    {
        HostSpec {
            no: self.no,
            can_queue: self.can_queue,
            handlers: self.handlers,
            no_async_abort: self.no_async_abort,
            luns: Rows::from_vec(self.luns),
            cmds: self.commands.into_rows(),
            plan: Rows::from_vec(self.plan),
        }
    }
}
