ghost use Rattle.std.specs.Prelude.{◌≡◌, ◌↔◌, ◌≤◌, ◌<◌, ◌+◌, ◌^◌, true, [], reverse, length, IfOk, IsOk, OnOk, IsTrue};
ghost use Rattle.mid_base.specs.Address.{has_dev};
ghost use Rattle.mid_base.specs.Limits.{KeepsLimits};
ghost use Rattle.attempt_table.specs.Claims.{IsNextOwned};
ghost use Rattle.host_state.specs.HostAgrees.{HaveTags};
ghost use Rattle.held_laws.specs.Held.{IsRight};
ghost use Rattle.trace_model.specs.Attempts.{sends};
ghost use Rattle.trace_model.specs.Devices.{state};
ghost use Rattle.trace_model.specs.Drained.{Drained};
ghost use Rattle.trace_model.specs.Legal.{Legal};
ghost use Rattle.trace_model.specs.Tags.{tag_states};
ghost use Rattle.trace_model.specs.Claims.{waiting_claims, IsNextLate};

use core_book::CoreBook;
use escalation::Ladder;
use host_state::Running;
use host_template::HostTemplate;
use mid_base::{
    Attempt, By, DevAddr, DeviceState, Did, Entry, HostSpec, NoMemory, Rows, Step, Tag, TagState,
};
use std::alloc::Global;
use std::marker::Model;
use trace_model::Booked;

// The most that a probe brings: the list of 256 logical units that REPORT LUNS is asked for (SPC-4, 6.33), 8 bytes for each after a
// header of 8.
const PROBE_BYTES: usize = 2056;

/// The core of one host over its lower layer.
#[derive(Drop)]
pub struct Core<A: HostTemplate> {
    pub(crate) spec: HostSpec,
    pub(crate) before: Rows<(DevAddr, u32)>,
    pub(crate) lower: A,
    pub(crate) book: CoreBook,
    pub(crate) running: Running,
    // The climb of recovery, from EhBegin until EhEnd.
    pub(crate) ladder: Option<Ladder>,
    // What the probes of recovery read.
    pub(crate) probes: Vec<u8>,
}

impl<A: HostTemplate> Model for Core<A> {
    ghost use Rattle.std.specs.Prelude.{reverse};
    ghost use Rattle.mid_core.specs.View.{CoreView, IsCore};

    ghost Value = { CoreView A };

    ghost view = { λ c. record { spec = c.spec; before = c.before; journal = c.book.entries; tags = c.running.attempts.tags.items; spare = c.book.spare; lower = c.lower } };

    ghost invariant = { λ c. IsCore A.stands A.means c.spec c.before c.lower (reverse c.book.entries) c.running c.ladder c.probes.items };
}

impl<A: HostTemplate> Booked for Core<A> {
    ghost spec = { λ c. c.spec };

    ghost before = { λ c. c.before };

    ghost journal = { λ c. c.journal };

    ghost tags = { λ c. c.tags };
}

impl<A: HostTemplate> Core<A> {
    ghost use Rattle.mid_core.specs.View.{IsSpared};
    ghost use Rattle.mid_core.specs.Steps.{Answers, IsSame, HoldsNoEarlier};

    /// A core whose journal is empty, for a spec within the limits over a lower layer that stands at the empty journal.
    /// `before` has the numbers of probes that were made on devices before.
    pub fn new(
        alloc: Global,
        spec: HostSpec,
        before: Rows<(DevAddr, u32)>,
        lower: A,
    ) -> Result<Core<A>, NoMemory>
        requires limits { KeepsLimits spec }
        requires stands { A.stands lower spec before [] }
        ensures spec { IfOk result (λ c. c.spec ≡ spec) }
        ensures before { IfOk result (λ c. c.before ≡ before) }
        ensures journal { IfOk result (λ c. c.journal ≡ []) }
        ensures lower { IfOk result (λ c. c.lower ≡ lower) }
    {
        let running = Running::new(alloc, &spec)?;
        let book = CoreBook::new(alloc, 1)?;
        let probes = room_for_probes(alloc)?;
        Ok(Core {
            spec,
            before,
            lower,
            book,
            running,
            ladder: None,
            probes,
        })
    }

    /// The spec that `new` took.
    pub fn spec(&self) -> &HostSpec
        ensures { result.now ≡ self.now.spec }
    {
        &self.spec
    }

    /// The journal, the oldest entry first. Fewer than 2^60 attempts were sent, each with one of the host's tags. A lower layer
    /// that is honest and tells its attempts holds only such as the journal lets it hold.
    pub fn journal(&self) -> &[Entry]
        ensures entries { result.now ≡ self.now.journal }
        ensures few { sends (reverse self.now.journal) < 2 ^ 60 }
        ensures tagged { HaveTags self.now.spec.can_queue (reverse self.now.journal) }
        ensures legal { Legal self.now.spec self.now.journal }
        ensures stands { A.stands self.now.lower self.now.spec self.now.before (reverse self.now.journal) }
        ensures right { IsRight self.now.spec (reverse self.now.journal) (A.means self.now.lower) }
    {
        self.book.entries()
    }

    /// The state of each tag, in order: armed while an attempt that was sent with it is open, owned while such an attempt
    /// is owned and not settled, else free.
    pub fn tag_states(&self) -> &[TagState]
        ensures shown { result.now ≡ self.now.tags }
        ensures states { result.now ≡ tag_states self.now.spec (reverse self.now.journal) }
    {
        self.running.tag_states()
    }

    /// The open attempts that have an answer or an expired timer, each with its tag, in ascending attempts.
    pub fn waiting_claims(&self) -> &[(Tag, Attempt, By)]
        ensures { result.now ≡ waiting_claims (reverse self.now.journal) }
    {
        self.running.waiting_claims()
    }

    /// The least attempt with a late answer that wasn't ignored yet; None where there is none.
    pub fn next_late(&self) -> Option<Attempt>
        ensures { IsNextLate (reverse self.now.journal) result }
    {
        self.running.next_late()
    }

    /// The least attempt that has an owner and isn't settled; None where there is none.
    pub fn next_owned(&self) -> Option<Attempt>
        ensures { IsNextOwned (reverse self.now.journal) result }
    {
        self.running.next_owned()
    }

    /// The state of one of the host's devices.
    pub fn device_state(&self, dev: DevAddr) -> DeviceState
        requires { has_dev self.now.spec.luns dev ≡ true }
        ensures { result ≡ state self.now.spec dev (reverse self.now.journal) }
    {
        match self.running.device_at(dev) {
            Some(place) => self.running.device_state(place),
            None => DeviceState::Del,
        }
    }

    /// Whether each command of each lane is handed in, and each that was taken is reported.
    pub fn drained(&self) -> bool
        ensures { IsTrue result ↔ Drained self.now.spec self.now.journal }
    {
        self.running.is_drained()
    }

    /// Makes room for `entries` more entries. It changes nothing else, also where it fails.
    pub fn reserve(&mut self, entries: usize) -> Result<(), NoMemory>
        ensures same { IsSame A.stands A.is_due A.means self.old self.new }
        ensures ok { OnOk result (entries ≤ self.new.spare) }
    {
        self.book.reserve(entries)
    }

    /// Makes one step.
    ///
    /// Done adds a group of entries that begins with an opener of the step. Skipped names the first condition of the step
    /// that fails. Where there is room for one entry, Own, Drop and Tick take no memory, and at most that one place. At each
    /// Sent a lower layer that is honest and tells its attempts holds no earlier attempt of the command.
    pub fn step(&mut self, s: Step) -> Result<Did, NoMemory>
        ensures answer { Answers A.stands A.is_due A.means self.old self.new s result }
        ensures room { IsSpared s → 0 < self.old.spare → IsOk result × (self.old.spare ≤ self.new.spare + 1) }
        ensures legal { Legal self.new.spec self.new.journal }
        ensures stands { A.stands self.new.lower self.new.spec self.new.before (reverse self.new.journal) }
        ensures right { IsRight self.new.spec (reverse self.new.journal) (A.means self.new.lower) }
        ensures earlier { HoldsNoEarlier A.means self.old self.new }
        ensures tags { self.new.tags ≡ tag_states self.new.spec (reverse self.new.journal) }
    {
        // What holds of a core holds of what the step finds, and of what it leaves.
        let _ = self.journal();
        let answer = self.make(s);
        let _ = self.journal();
        let _ = self.tag_states();
        answer
    }

    fn make(&mut self, s: Step) -> Result<Did, NoMemory>
        ensures answer { Answers A.stands A.is_due A.means self.old self.new s result }
        ensures room { IsSpared s → 0 < self.old.spare → IsOk result × (self.old.spare ≤ self.new.spare + 1) }
    {
        match s {
            Step::Submit(lane) => self.submit(lane),
            Step::Send => self.send(),
            Step::Work => self.work(),
            Step::Due => self.due(),
            Step::Own(n, by) => self.own(n, by),
            Step::Settle(n) => self.settle(n),
            Step::Drop(n) => self.drop_late(n),
            Step::Abort => self.abort(),
            Step::EhBegin => self.begin_recovery(),
            Step::EhAct => self.act(),
            Step::EhFlush => self.flush(),
            Step::EhEnd => self.end_recovery(),
            Step::Tick => self.tick(),
            Step::SetState(dev, state) => self.set_state(dev, state),
        }
    }
}

// What a probe's answer is read into.
fn room_for_probes(alloc: Global) -> Result<Vec<u8>, NoMemory>
    ensures { IfOk result (λ v. length v.items ≡ 2056) }
{
    let Ok(probes) = vec![in alloc; 0u8; PROBE_BYTES] else {
        return Err(NoMemory);
    };
    Ok(probes)
}
