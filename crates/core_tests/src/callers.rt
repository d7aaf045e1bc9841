ghost use Rattle.core_tests.specs.Facts.{WhereDone, Grows, HeldNoEarlier, Owns, Frees, SendsOne, KeepsTags, MovesNoTag};

use debug_adapter::DebugAdapter;
use host_template::HostTemplate;
use mid_base::{Attempt, By, Did, NoMemory, Step};
use mid_core::Core;

/// Sends the command that goes next. Where that is done, one attempt was sent, with a number above all earlier ones, and
/// one tag that was free is armed with it. Where the lower layer turned it away, or the command was reported in place of
/// it, no tag has changed.
pub fn sent<A: HostTemplate>(core: &mut Core<A>) -> Result<Did, NoMemory>
    ensures grows { Grows core.old core.new }
    ensures sends { WhereDone result (SendsOne core.old core.new) }
{
    // What was sent before has numbers up to the count of its sendings.
    let _ = core.journal();
    core.step(Step::Send)
}

/// Gives an attempt to its answer, or to its expired timer. Where that is done, one tag that was armed with the attempt is
/// owned, and no other tag has changed.
pub fn gave<A: HostTemplate>(core: &mut Core<A>, n: Attempt, by: By) -> Result<Did, NoMemory>
    ensures grows { Grows core.old core.new }
    ensures owns { WhereDone result (Owns core.old core.new n by) }
{
    core.step(Step::Own(n, by))
}

/// Settles an attempt. Where that is done, one tag that was owned is free, and no other tag has changed.
pub fn settled<A: HostTemplate>(core: &mut Core<A>, n: Attempt) -> Result<Did, NoMemory>
    ensures grows { Grows core.old core.new }
    ensures frees { WhereDone result (Frees core.old core.new n) }
{
    core.step(Step::Settle(n))
}

/// Makes a step that neither sends, owns nor settles. No tag has changed, whatever came of it.
pub fn made_no_tag_step<A: HostTemplate>(core: &mut Core<A>, step: Step) -> Result<Did, NoMemory>
    requires { MovesNoTag step }
    ensures grows { Grows core.old core.new }
    ensures tags { KeepsTags core.old core.new }
{
    core.step(step)
}

/// Makes a step over the simulated adapter, which is honest. At each Sent that was added it holds no earlier attempt of the
/// command.
pub fn made_simulated_step(core: &mut Core<DebugAdapter>, next: Step) -> Result<Did, NoMemory>
    ensures { HeldNoEarlier core.old core.new }
{
    core.step(next)
}
