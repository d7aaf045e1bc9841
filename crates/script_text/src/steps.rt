ghost use Rattle.std.specs.Prelude.{◌≡◌};
ghost use Rattle.script_words.specs.Pieces.{words};
ghost use Rattle.script_text.specs.Said.{Said};
ghost use Rattle.script_text.specs.Adds.{eh_step};
ghost use Rattle.script_text.specs.Gives.{LastGives, StepGives};

use crate::ends::no_more;
use crate::host_draft::HostDraft;
use crate::names::{attempt_in, lane_in, unit_in};
use mid_base::{Attempt, LaneNo, Step};
use script_words::{EhName, Kind, StepName, Words, eh_name_in, owner_in, state_in, step_name_in};

/// The step of this host that these words name.
pub fn step_in(host: &HostDraft, rest: Words) -> Result<Step, Kind>
    ensures { (said : Said) → StepGives said host.now (words rest.entry.rest.now) result }
{
    let mut words = rest;
    match step_name_in(words.next())? {
        StepName::Submit => {
            let lane = lane_in(host, words.next())?;
            last(words, Step::Submit(LaneNo(lane as u8)))
        }
        StepName::Send => last(words, Step::Send),
        StepName::Work => last(words, Step::Work),
        StepName::Due => last(words, Step::Due),
        StepName::Own => {
            let attempt = attempt_in(words.next())?;
            let owner = owner_in(words.next())?;
            last(words, Step::Own(Attempt(attempt), owner))
        }
        StepName::Settle => {
            let attempt = attempt_in(words.next())?;
            last(words, Step::Settle(Attempt(attempt)))
        }
        StepName::Drop => {
            let attempt = attempt_in(words.next())?;
            last(words, Step::Drop(Attempt(attempt)))
        }
        StepName::Abort => last(words, Step::Abort),
        StepName::Eh => {
            let name = eh_name_in(words.next())?;
            last(words, eh_step(name))
        }
        StepName::Tick => last(words, Step::Tick),
        StepName::State => {
            let dev = unit_in(host, words.next())?;
            let state = state_in(words.next())?;
            last(words, Step::SetState(dev, state))
        }
    }
}

/// The step of recovery that has this name.
#[tactic(auto, unfolding(crate::specs::Adds::eh_step))]
fn eh_step(name: EhName) -> Step
    ensures { result ≡ eh_step name }
{
    match name {
        EhName::Begin => Step::EhBegin,
        EhName::Act => Step::EhAct,
        EhName::Flush => Step::EhFlush,
        EhName::End => Step::EhEnd,
    }
}

/// A step that is said whole: no word may follow.
fn last(rest: Words, step: Step) -> Result<Step, Kind>
    ensures { LastGives (λ k. k) step (words rest.entry.rest.now) result }
{
    let mut words = rest;
    no_more(words.next())?;
    Ok(step)
}
