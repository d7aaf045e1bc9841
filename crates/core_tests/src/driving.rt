use crate::{gave, keeps_limits, made_no_tag_step, sent, settled, simulated_core};
use debug_adapter::DebugAdapter;
use host_template::HostTemplate;
use mid_base::{By, Did, HostNo, HostSpec, LaneNo, NoMemory, Step, Why};
use mid_core::Core;
use mid_io::MemSink;
use report_text::{write_host, write_skips};
use script_text::{Reader, Script};
use std::alloc::Global;
use std::test::Fail;

pub(crate) fn script_of(alloc: Global, text: &str) -> Result<Script, Fail> {
    let mut reader = Reader::new(alloc);
    reader.feed(text.as_bytes())?;
    match reader.finish() {
        Ok(script) => Ok(script),
        Err(_) => Err("a good script".into()),
    }
}

// The first host of a script, and the script's step lines, each with its number.
pub(crate) fn host_of(
    alloc: Global,
    text: &str,
) -> Result<(HostSpec, Vec<(u64, HostNo, Step)>), Fail> {
    let Script { hosts, steps, .. } = script_of(alloc, text)?;
    match hosts.into_vec().into_iter().next() {
        Some(host) => Ok((host, steps.into_vec())),
        None => Err("a host".into()),
    }
}

// The core of a script's first host over the simulated adapter.
pub(crate) fn core_of(alloc: Global, text: &str) -> Result<Core<DebugAdapter>, Fail> {
    let (host, _) = host_of(alloc, text)?;
    if !keeps_limits(&host) {
        return Err("a host within the limits".into());
    }
    Ok(simulated_core(alloc, host)?)
}

// Makes a step, by the call that says what becomes of the tags.
pub(crate) fn make<A: HostTemplate>(core: &mut Core<A>, step: Step) -> Result<Did, NoMemory> {
    match step {
        Step::Submit(lane) => made_no_tag_step(core, Step::Submit(lane)),
        Step::Work => made_no_tag_step(core, Step::Work),
        Step::Tick => made_no_tag_step(core, Step::Tick),
        Step::SetState(dev, state) => made_no_tag_step(core, Step::SetState(dev, state)),
        Step::Due => made_no_tag_step(core, Step::Due),
        Step::Drop(n) => made_no_tag_step(core, Step::Drop(n)),
        Step::Abort => made_no_tag_step(core, Step::Abort),
        Step::EhBegin => made_no_tag_step(core, Step::EhBegin),
        Step::EhAct => made_no_tag_step(core, Step::EhAct),
        Step::EhFlush => made_no_tag_step(core, Step::EhFlush),
        Step::EhEnd => made_no_tag_step(core, Step::EhEnd),
        Step::Send => sent(core),
        Step::Own(n, by) => gave(core, n, by),
        Step::Settle(n) => settled(core, n),
    }
}

// Makes step lines. Gives the numbers of those that were skipped, with the causes.
pub(crate) fn make_all<A: HostTemplate>(
    alloc: Global,
    core: &mut Core<A>,
    steps: &[(u64, HostNo, Step)],
) -> Result<Vec<(u64, Why)>, Fail> {
    let mut skips = Vec::new(alloc);
    for (line, _, step) in steps {
        if let Did::Skipped(why) = make(core, *step)? {
            skips.push((*line, why))?;
        }
    }
    Ok(skips)
}

// Makes a step again and again while it isn't skipped, a hundred times at most.
fn make_while_done<A: HostTemplate>(core: &mut Core<A>, step: Step) -> Result<(), NoMemory> {
    for _ in 0..100 {
        if make(core, step)? != Did::Done {
            return Ok(());
        }
    }
    Ok(())
}

// A round: each lane is handed in, what can go is sent, what is due is answered, owned and settled, and a tick passes.
fn make_round<A: HostTemplate>(alloc: Global, core: &mut Core<A>) -> Result<(), Fail> {
    for lane in 0..64 {
        make_while_done(core, Step::Submit(LaneNo(lane)))?;
    }
    make_while_done(core, Step::Send)?;
    make_while_done(core, Step::Work)?;
    let claims = core.waiting_claims().to_vec(alloc)?;
    for (_, n, _) in claims.iter() {
        make(core, Step::Own(*n, By::Answer))?;
    }
    for (_, n, _) in claims.iter() {
        make(core, Step::Settle(*n))?;
    }
    if !core.drained() {
        make(core, Step::Tick)?;
    }
    Ok(())
}

// Makes rounds until the host is drained, so many at most.
pub(crate) fn make_rounds<A: HostTemplate>(
    alloc: Global,
    core: &mut Core<A>,
    most: u32,
) -> Result<(), Fail> {
    for _ in 0..most {
        if core.drained() {
            return Ok(());
        }
        make_round(alloc, core)?;
    }
    Ok(())
}

// What is printed of a core, and of step lines that were skipped.
pub(crate) fn text_of<A: HostTemplate>(
    alloc: Global,
    core: &Core<A>,
    skips: &[(u64, Why)],
) -> Result<MemSink, Fail> {
    let mut text = MemSink::new(alloc, 32768, Vec::new(alloc))?;
    let cmds = core.spec().cmds.as_slice();
    write_host(alloc, HostNo(0), cmds, core.journal(), &mut text)?;
    write_skips(alloc, skips, &mut text)?;
    Ok(text)
}
