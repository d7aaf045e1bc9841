ghost use Rattle.std.specs.Prelude.{◌≡◌, IfOk};
ghost use Rattle.mid_base.specs.Limits.{KeepsLimits};
ghost use Rattle.trace_model.specs.Legal.{Legal};
ghost use Rattle.script_text.specs.Playable.{IsPlayable};

use crate::lies::liar;
use mid_base::{Did, HostNo, HostSpec, NoMemory, Rows, Step, Why};
use mid_core::Core;
use mid_io::Sink;
use report_text::{WriteEnd, write_host, write_skips};
use rogue_lower::RogueLower;
use script_text::{ReadEnd, Reader, Script, good_scripts_are_playable};
use std::alloc::Global;

type StepLine = (u64, HostNo, Step);

/// Why a liar wasn't played.
#[derive(Clone, Copy, PartialEq, Eq, Debug)]
pub enum Unplayed {
    /// The script is bad.
    BadScript,
    /// The sink failed.
    Unwritten,
    NoMemory,
}

// What the bytes of a script say.
fn script_of(alloc: Global, bytes: &[u8]) -> Result<Script, Unplayed>
    ensures { IfOk result (λ script. IsPlayable script) }
{
    good_scripts_are_playable();
    let mut reader = Reader::new(alloc);
    match reader.feed(bytes) {
        Ok(()) => {}
        Err(NoMemory) => return Err(Unplayed::NoMemory),
    }
    match reader.finish() {
        Ok(script) => Ok(script),
        Err(ReadEnd::Bad(_)) => Err(Unplayed::BadScript),
        Err(ReadEnd::NoMemory) => Err(Unplayed::NoMemory),
    }
}

// Makes the step lines of a core's host. Gives the numbers of those that were skipped, and why.
fn make_all(
    alloc: Global,
    core: &mut Core<RogueLower>,
    steps: &[StepLine],
) -> Result<Vec<(u64, Why)>, NoMemory>
    ensures { core.new.spec ≡ core.old.spec }
{
    let mut skips = Vec::new(alloc);
    for (line, no, step) in steps {
        if *no == core.spec().no {
            note(&mut skips, *line, core.step(*step)?)?;
        }
    }
    Ok(skips)
}

// Keeps a step line that was skipped.
fn note(skips: &mut Vec<(u64, Why)>, line: u64, did: Did) -> Result<(), NoMemory> {
    match did {
        Did::Done => Ok(()),
        Did::Skipped(why) => match skips.push((line, why)) {
            Ok(()) => Ok(()),
            Err(_) => Err(NoMemory),
        },
    }
}

/// A host over a lower layer that says what it likes, after these steps: its journal is legal. With the steps that were skipped.
pub fn lied_to(
    alloc: Global,
    spec: HostSpec,
    steps: &[StepLine],
    lower: RogueLower,
) -> Result<(Core<RogueLower>, Vec<(u64, Why)>), NoMemory>
    requires { KeepsLimits spec }
    ensures { IfOk result (λ played. Legal spec played.0.journal) }
{
    let mut core = Core::new(alloc, spec, Rows::new(alloc), lower)?;
    let skips = make_all(alloc, &mut core, steps)?;
    let _ = core.journal();
    Ok((core, skips))
}

/// Plays each host of a script over the liar of a number, and writes for each its journal and the steps that were skipped.
pub fn write_lied<K: Sink>(
    alloc: Global,
    script: &[u8],
    number: u64,
    out: &mut K,
) -> Result<(), Unplayed> {
    let Script { hosts, steps, .. } = script_of(alloc, script)?;
    for spec in hosts.into_vec() {
        write_host_lied(alloc, spec, steps.as_slice(), number, out)?;
    }
    Ok(())
}

fn write_host_lied<K: Sink>(
    alloc: Global,
    spec: HostSpec,
    steps: &[StepLine],
    number: u64,
    out: &mut K,
) -> Result<(), Unplayed>
    requires { KeepsLimits spec }
{
    let Ok(lower) = liar(alloc, number) else {
        return Err(Unplayed::NoMemory);
    };
    let Ok((core, skips)) = lied_to(alloc, spec, steps, lower) else {
        return Err(Unplayed::NoMemory);
    };
    let cmds = core.spec().cmds.as_slice();
    told(write_host(alloc, core.spec().no, cmds, core.journal(), out))?;
    told(write_skips(alloc, &skips, out))
}

fn told(written: Result<(), WriteEnd>) -> Result<(), Unplayed> {
    match written {
        Ok(()) => Ok(()),
        Err(WriteEnd::Fault) => Err(Unplayed::Unwritten),
        Err(WriteEnd::NoMemory) => Err(Unplayed::NoMemory),
    }
}
