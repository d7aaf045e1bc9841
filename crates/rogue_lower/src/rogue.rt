ghost use Rattle.std.specs.Prelude.{◌≡◌};
ghost use Rattle.rogue_lower.specs.Lists.{lists_of};

use host_template::{EhSay, Queued, TimerSay};
use mid_base::{Answer, Attempt, ProbeSay, Tick};
use std::collections::VecDeque;
use std::marker::Model;

/// A lower layer that says what its five lists say, each from its front. Contracts see what is left of them.
#[derive(Drop)]
pub struct RogueLower {
    pub(crate) queues: VecDeque<Queued>,
    pub(crate) answers: VecDeque<(Tick, Attempt, Answer)>,
    pub(crate) timers: VecDeque<TimerSay>,
    pub(crate) says: VecDeque<EhSay>,
    pub(crate) probes: VecDeque<(ProbeSay, Vec<u8>)>,
}

impl Model for RogueLower {
    ghost use Rattle.rogue_lower.specs.Lists.{Lists, lists_of};

    ghost Value = { Lists };

    ghost view = { λ r. lists_of r.queues.items r.answers.items r.timers.items r.says.items r.probes.items };
}

impl RogueLower {
    /// One that says these things: what `queue` comes to; which attempts are answered, each with the tick from which on its
    /// answer is due and with that answer; what timers, and what aborts and resets of any scope come to; and what probes are
    /// answered, each with the bytes of its data-in.
    pub fn new(
        queues: Vec<Queued>,
        answers: Vec<(Tick, Attempt, Answer)>,
        timers: Vec<TimerSay>,
        says: Vec<EhSay>,
        probes: Vec<(ProbeSay, Vec<u8>)>,
    ) -> RogueLower
        ensures { result ≡ lists_of queues.items answers.items timers.items says.items probes.items }
    {
        RogueLower {
            queues: VecDeque::from_vec(queues),
            answers: VecDeque::from_vec(answers),
            timers: VecDeque::from_vec(timers),
            says: VecDeque::from_vec(says),
            probes: VecDeque::from_vec(probes),
        }
    }
}
