ghost use Rattle.std.specs.Prelude.{◌≡◌, ◌<◌, ◌^◌, ℕ, [], true, false, List, IfOk, OnOk, OnErr, MatchOption, length, nat_lt, slice_get};
ghost use Rattle.std.specs.List.{list_all, list_any};
ghost use Rattle.mid_base.specs.declared.entries.Entry.{Entry as EntrySeen};
ghost use Rattle.mid_base.specs.declared.host_spec.HostSpec.{HostSpec as SpecSeen};
ghost use Rattle.mid_base.specs.Address.{has_dev};
ghost use Rattle.mid_base.specs.Limits.{KeepsLimits};
ghost use Rattle.attempt_table.specs.Rows.{row_of};
ghost use Rattle.attempt_table.specs.AttemptsAgree.{HasRoom};
ghost use Rattle.attempt_table.specs.Claims.{IsNextOwned};
ghost use Rattle.device_table.specs.Rows.{dev_at};
ghost use Rattle.trace_model.specs.Attempts.{late};
ghost use Rattle.trace_model.specs.Devices.{in_recovery};
ghost use Rattle.trace_model.specs.Drained.{is_done};
ghost use Rattle.trace_model.specs.Tags.{tag_states};
ghost use Rattle.trace_model.specs.Claims.{waiting_claims, IsNextLate};

use attempt_table::{Attempts, Row};
use command_table::{CommandRow, Commands};
use deadline_table::Deadlines;
use device_table::Devices;
use failure_table::Failures;
use mid_base::{Attempt, By, DevAddr, DeviceState, HostSpec, NoMemory, Tag, TagState, Tick};
use std::alloc::Global;
use verdict_table::Verdicts;

/// The running state of a host.
#[derive(Drop)]
pub struct Running {
    pub(crate) attempts: Attempts,
    pub(crate) commands: Commands,
    pub(crate) devices: Devices,
    pub(crate) deadlines: Deadlines,
    pub(crate) failures: Failures,
    pub(crate) verdicts: Verdicts,
    pub(crate) ticks: u64,
}

impl Running {
    ghost use Rattle.host_state.specs.HostAgrees.{HostAgrees};

    /// The state of an empty journal, for a spec within the limits.
    pub fn new(alloc: Global, spec: &HostSpec) -> Result<Running, NoMemory>
        requires { KeepsLimits spec.now }
        ensures { IfOk result (HostAgrees spec.now []) }
    {
        let luns = spec.luns.as_slice();
        Ok(Running {
            attempts: Attempts::new(alloc, spec.can_queue)?,
            commands: Commands::new(alloc, spec.cmds.as_slice(), luns)?,
            devices: Devices::new(alloc, spec.can_queue, luns)?,
            deadlines: Deadlines::new(alloc, spec.can_queue)?,
            failures: Failures::new(alloc, spec.can_queue)?,
            verdicts: Verdicts::new(alloc, spec.can_queue)?,
            ticks: 0,
        })
    }

    /// The present tick.
    pub fn now(&self) -> Tick
        ensures { result.0 ≡ self.now.ticks }
    {
        Tick(self.ticks)
    }

    /// Whether the host is in recovery.
    pub fn in_recovery(&self) -> bool
        ensures { (s : SpecSeen) (P : List EntrySeen) → HostAgrees s P self.now → in_recovery P ≡ result }
    {
        self.failures.in_recovery()
    }

    /// The state of each tag, in order.
    pub fn tag_states(&self) -> &[TagState]
        ensures shown { result.now ≡ self.now.attempts.tags.items }
        ensures states { (s : SpecSeen) (P : List EntrySeen) → HostAgrees s P self.now → result.now ≡ tag_states s P }
    {
        self.attempts.tag_states()
    }

    /// The attempts that wait for their owner, each with its tag, in ascending attempts.
    pub fn waiting_claims(&self) -> &[(Tag, Attempt, By)]
        ensures { (s : SpecSeen) (P : List EntrySeen) → HostAgrees s P self.now → result.now ≡ waiting_claims P }
    {
        self.attempts.waiting_claims()
    }

    /// The least attempt with an answer that is to be ignored.
    pub fn next_late(&self) -> Option<Attempt>
        ensures { (s : SpecSeen) (P : List EntrySeen) → HostAgrees s P self.now → IsNextLate P result }
    {
        self.attempts.next_late()
    }

    /// The least attempt that has an owner and isn't settled; None where there is none.
    pub fn next_owned(&self) -> Option<Attempt>
        ensures { (s : SpecSeen) (P : List EntrySeen) → HostAgrees s P self.now → IsNextOwned P result }
    {
        self.attempts.next_owned()
    }

    /// Whether an answer of this attempt is to be ignored.
    pub fn is_late(&self, n: Attempt) -> bool
        ensures { (s : SpecSeen) (P : List EntrySeen) → HostAgrees s P self.now → nat_lt 0 (late n.0 P) ≡ result }
    {
        self.attempts.is_late(n)
    }

    /// Whether each command is handed in, and each that was taken is reported.
    pub fn is_drained(&self) -> bool
        ensures { (s : SpecSeen) (P : List EntrySeen) → HostAgrees s P self.now → list_all (is_done P) s.cmds ≡ result }
    {
        self.commands.drained()
    }

    /// What is kept of an attempt, None where there is none of this number.
    pub fn attempt(&self, n: Attempt) -> Option<Row>
        ensures { result ≡ row_of n.0 self.now.attempts.rows.items }
    {
        self.attempts.row(n)
    }

    /// How many attempts there were; their numbers are those from 1 up to it.
    pub fn count(&self) -> u64
        ensures { result ≡ length self.now.attempts.rows.items }
    {
        self.attempts.count()
    }

    /// What is kept of the command at a place of the spec.
    pub fn command(&self, place: usize) -> CommandRow
        requires { place < length self.now.commands.rows.items }
        ensures { slice_get self.now.commands.rows.items place ≡ Some result }
    {
        self.commands.row(place)
    }

    /// The state of the device at a place among the spec's logical units.
    pub fn device_state(&self, place: usize) -> DeviceState
        requires { place < length self.now.devices.rows.items }
        ensures { (r : _) → slice_get self.now.devices.rows.items place ≡ Some r → result ≡ r.state }
    {
        self.devices.row(place).state
    }

    /// The place of a device among the spec's logical units, None where it is none of them.
    pub fn device_at(&self, dev: DevAddr) -> Option<usize>
        ensures { (s : SpecSeen) (P : List EntrySeen) → HostAgrees s P self.now → MatchOption result (has_dev s.luns dev ≡ false) (λ i. (dev_at i self.now.devices.rows.items ≡ Some dev) × (has_dev s.luns dev ≡ true)) }
    {
        self.devices.place_of(dev)
    }

    /// Takes room for one attempt and one answer more. It changes nothing else, also where it fails.
    pub fn reserve(&mut self) -> Result<(), NoMemory>
        ensures room { OnOk result (HasRoom self.new.attempts) }
        ensures same { (s : SpecSeen) (P : List EntrySeen) → HostAgrees s P self.old → HostAgrees s P self.new }
        ensures shown { self.new.attempts.tags.items ≡ self.old.attempts.tags.items }
        ensures commands { self.new.commands ≡ self.old.commands }
        ensures devices { self.new.devices ≡ self.old.devices }
        ensures deadlines { self.new.deadlines ≡ self.old.deadlines }
        ensures attempts { self.new.attempts.rows.items ≡ self.old.attempts.rows.items }
        ensures failures { (self.new.failures ≡ self.old.failures) × (self.new.verdicts ≡ self.old.verdicts) }
        ensures ticks { self.new.ticks ≡ self.old.ticks }
    {
        self.attempts.reserve()
    }
}
