ghost use Rattle.debug_adapter.specs.Stands.{TimedTable};

use crate::DebugAdapter;
use adapter_tables::{
    Held, answer_held, busy_answer, fault_at, first_due, hold, is_any_due, let_go, next_number,
    probe_unit, reset, sent_attempt, set_due, timer_answer,
};
use fault_plan::Class;
use host_template::{EhSay, HostTemplate, Queued, TimerSay};
use mid_base::{Answer, Attempt, CdbBytes, DevAddr, NoMemory, ProbeSay, Scope, Tick};
use slab::Slab;

// Where it is said that an attempt is done, its answer is due now.
fn settle_time(held: &mut Slab<Held>, n: Attempt, now: u64, say: TimerSay)
    ensures { TimedTable n now say held.old held.new }
{
    match say {
        TimerSay::Done => set_due(held, n, now),
        TimerSay::ResetTimer | TimerSay::NotHandled => {}
    }
}

impl HostTemplate for DebugAdapter {
    ghost use Rattle.std.specs.Prelude.{◌≡◌};
    ghost use Rattle.adapter_tables.specs.Ties.{any_due};
    ghost use Rattle.adapter_tables.specs.TablesOf.{plan_of, rows_of, units_of};
    ghost use Rattle.adapter_tables.specs.Units.{data_in as data_of, probe_gives};
    ghost use Rattle.debug_adapter.specs.Means.{means_of};
    ghost use Rattle.debug_adapter.specs.Adapter.{AdapterStands};
    ghost use Rattle.debug_adapter.specs.Laws.{silent_law, tick_law, scan_law};

    ghost stands = { AdapterStands };

    // What its unit gives.
    ghost data_in = { λ s b P d code bytes. bytes ≡ data_of (probe_gives s b P d code) };

    ghost is_due = { λ x t. any_due x.held t };

    ghost means = { λ x. means_of x.held };

    fn queue(
        &mut self,
        n: Attempt,
        dev: DevAddr,
        cdb: &CdbBytes,
        fill: u8,
        now: Tick,
    ) -> Result<Queued, NoMemory> {
        let Ok(()) = self.held.reserve(1) else {
            return Err(NoMemory);
        };
        let_go(&mut self.held, n);
        let number = next_number(&mut self.rows, dev, Class::Queue);
        if let Some(fault) = fault_at(&self.plan, dev, Class::Queue, number) {
            return Ok(busy_answer(fault));
        }
        let h = sent_attempt(&self.plan, n, dev, cdb, fill, now.0, number);
        hold(&mut self.held, h);
        Ok(Queued::Taken)
    }

    fn reserve(&mut self, k: usize) -> Result<(), NoMemory> {
        self.held.reserve(k).map_err(|_| NoMemory)
    }

    fn due(&self, now: Tick) -> bool {
        is_any_due(&self.held, now.0)
    }

    fn work(&mut self, now: Tick) -> Result<Option<(Attempt, Answer)>, NoMemory> {
        let Some(h) = first_due(&self.held, now.0) else {
            return Ok(None);
        };
        let Ok(a) = answer_held(&mut self.units, &h, &mut self.buffer) else {
            return Err(NoMemory);
        };
        let_go(&mut self.held, h.n);
        Ok(Some((h.n, a)))
    }

    fn timed_out(&mut self, n: Attempt, dev: DevAddr, now: Tick) -> TimerSay {
        let number = next_number(&mut self.rows, dev, Class::Timer);
        let say = timer_answer(fault_at(&self.plan, dev, Class::Timer, number));
        settle_time(&mut self.held, n, now.0, say);
        say
    }

    fn abort(&mut self, n: Attempt, dev: DevAddr) -> EhSay {
        let number = next_number(&mut self.rows, dev, Class::Abort);
        if fault_at(&self.plan, dev, Class::Abort, number).is_some() {
            return EhSay::Failed;
        }
        let_go(&mut self.held, n);
        EhSay::Success
    }

    fn reset_device(&mut self, dev: DevAddr) -> EhSay {
        let scope = Scope::Dev(dev);
        reset(
            &self.plan,
            &mut self.held,
            &mut self.rows,
            &mut self.units,
            scope,
            Class::ResetDevice,
        )
    }

    fn reset_target(&mut self, channel: u8, target: u8) -> EhSay {
        let scope = Scope::Target(channel, target);
        reset(
            &self.plan,
            &mut self.held,
            &mut self.rows,
            &mut self.units,
            scope,
            Class::ResetTarget,
        )
    }

    fn reset_bus(&mut self, channel: u8) -> EhSay {
        let scope = Scope::Bus(channel);
        reset(
            &self.plan,
            &mut self.held,
            &mut self.rows,
            &mut self.units,
            scope,
            Class::ResetBus,
        )
    }

    fn reset_host(&mut self) -> EhSay {
        let scope = Scope::Host;
        reset(
            &self.plan,
            &mut self.held,
            &mut self.rows,
            &mut self.units,
            scope,
            Class::ResetHost,
        )
    }

    fn probe(&mut self, dev: DevAddr, cdb: &CdbBytes, into: &mut [u8]) -> ProbeSay {
        let number = next_number(&mut self.rows, dev, Class::Probe);
        if fault_at(&self.plan, dev, Class::Probe, number).is_some() {
            return ProbeSay::Silent;
        }
        probe_unit(&mut self.units, dev, cdb, &mut self.buffer, into)
    }

    ghost silent = { λ x. silent_law (plan_of x.plan) x.held (rows_of x.rows) (units_of x.units) };

    ghost quiet_tick = { λ x. tick_law (plan_of x.plan) x.held (rows_of x.rows) (units_of x.units) };

    ghost scans = { λ x. scan_law (plan_of x.plan) x.held (rows_of x.rows) (units_of x.units) };
}
