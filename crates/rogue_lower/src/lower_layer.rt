ghost use Rattle.std.specs.Prelude.{◌≡◌, ◌≤◌, [], drop, length};
ghost use Rattle.host_template.specs.declared.queued.Queued.TheVariants.{Taken};
ghost use Rattle.host_template.specs.declared.says.EhSay.TheVariants.{Success};
ghost use Rattle.host_template.specs.declared.says.TimerSay.TheVariants.{NotHandled};
ghost use Rattle.rogue_lower.specs.Said.{first_or, is_answer_due, answer_at, answers_after, probe_says, buffer_after};

use crate::RogueLower;
use crate::filling::fill;
use crate::taking::{is_first_due, take_first};
use host_template::{EhSay, HostTemplate, Queued, TimerSay};
use mid_base::{Answer, Attempt, CdbBytes, DevAddr, NoMemory, ProbeSay, Tick};

/// No call takes memory, and none looks at what it is asked about, but for the tick. A list that is empty says Taken,
/// NotHandled, Success or Silent, and nothing is due.
impl HostTemplate for RogueLower {
    ghost use Rattle.std.specs.Prelude.{[], false};
    ghost use Rattle.rogue_lower.specs.Said.{is_answer_due};

    // It stands wherever a journal leaves it.
    ghost stands = { λ x s b P. Unit {0} };

    // All bytes are data-in.
    ghost data_in = { λ s b P d code bytes. Unit {0} };

    ghost is_due = { λ x t. is_answer_due t x.answers };

    // It isn't honest, and tells nothing.
    ghost means = { λ x. record { honest = false; tells = false; holds = [] } };

    /// Says what the first of its list says.
    fn queue(
        &mut self,
        _n: Attempt,
        _dev: DevAddr,
        _cdb: &CdbBytes,
        _fill: u8,
        _now: Tick,
    ) -> Result<Queued, NoMemory>
        ensures says { result ≡ Ok (first_or Taken self.old.queues) }
        ensures left { self.new ≡ record self.old { queues = drop 1 self.old.queues } }
    {
        Ok(take_first(&mut self.queues, Queued::Taken))
    }

    /// There is room for each attempt, since none is kept.
    fn reserve(&mut self, _k: usize) -> Result<(), NoMemory>
        ensures room { result ≡ Ok tt }
        ensures left { self.new ≡ self.old }
    {
        Ok(())
    }

    /// Whether the first answer's tick has come. Those behind it wait for it.
    fn due(&self, now: Tick) -> bool
        ensures { result ≡ is_answer_due now.0 self.now.answers }
    {
        is_first_due(&self.answers, now)
    }

    /// Hands out the first answer, where its tick has come.
    fn work(&mut self, now: Tick) -> Result<Option<(Attempt, Answer)>, NoMemory>
        ensures hands { result ≡ Ok (answer_at now.0 self.old.answers) }
        ensures left { self.new ≡ record self.old { answers = answers_after now.0 self.old.answers } }
    {
        if !is_first_due(&self.answers, now) {
            return Ok(None);
        }
        match self.answers.pop_front() {
            Some((_, n, answer)) => Ok(Some((n, answer))),
            None => Ok(None),
        }
    }

    /// Says what the first of its list says.
    fn timed_out(&mut self, _n: Attempt, _dev: DevAddr, _now: Tick) -> TimerSay
        ensures says { result ≡ first_or NotHandled self.old.timers }
        ensures left { self.new ≡ record self.old { timers = drop 1 self.old.timers } }
    {
        take_first(&mut self.timers, TimerSay::NotHandled)
    }

    /// Says what the first of the list of aborts and resets says.
    fn abort(&mut self, _n: Attempt, _dev: DevAddr) -> EhSay
        ensures says { result ≡ first_or Success self.old.says }
        ensures left { self.new ≡ record self.old { says = drop 1 self.old.says } }
    {
        take_first(&mut self.says, EhSay::Success)
    }

    /// The same.
    fn reset_device(&mut self, _dev: DevAddr) -> EhSay
        ensures says { result ≡ first_or Success self.old.says }
        ensures left { self.new ≡ record self.old { says = drop 1 self.old.says } }
    {
        take_first(&mut self.says, EhSay::Success)
    }

    /// The same.
    fn reset_target(&mut self, _channel: u8, _target: u8) -> EhSay
        ensures says { result ≡ first_or Success self.old.says }
        ensures left { self.new ≡ record self.old { says = drop 1 self.old.says } }
    {
        take_first(&mut self.says, EhSay::Success)
    }

    /// The same.
    fn reset_bus(&mut self, _channel: u8) -> EhSay
        ensures says { result ≡ first_or Success self.old.says }
        ensures left { self.new ≡ record self.old { says = drop 1 self.old.says } }
    {
        take_first(&mut self.says, EhSay::Success)
    }

    /// The same.
    fn reset_host(&mut self) -> EhSay
        ensures says { result ≡ first_or Success self.old.says }
        ensures left { self.new ≡ record self.old { says = drop 1 self.old.says } }
    {
        take_first(&mut self.says, EhSay::Success)
    }

    /// Answers as the first of its list says. The bytes of an answer go into the front of the buffer, cut to its length and
    /// to 2,056, and the answer tells how many these are, and their sum.
    fn probe(&mut self, _dev: DevAddr, _cdb: &CdbBytes, into: &mut [u8]) -> ProbeSay
        ensures says { result ≡ probe_says self.old.probes into.old }
        ensures buffer { into.new ≡ buffer_after self.old.probes into.old }
        ensures left { self.new ≡ record self.old { probes = drop 1 self.old.probes } }
    {
        match self.probes.pop_front() {
            Some((ProbeSay::Answered(answer), bytes)) => ProbeSay::Answered(fill(
                answer, &bytes, into,
            )),
            _ => ProbeSay::Silent,
        }
    }

    ghost silent = { λ x s b P e quiet h. tt };

    ghost quiet_tick = { λ x s b P idle h. tt };

    ghost scans = { λ x s b c P only same h. tt };
}
