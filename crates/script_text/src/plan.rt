ghost use Rattle.std.specs.Prelude.{Option};
ghost use Rattle.mid_base.specs.declared.host_spec.HostSpec.{HostSpec};
ghost use Rattle.script_words.specs.Pieces.{words};
ghost use Rattle.script_text.specs.Said.{Said};
ghost use Rattle.script_text.specs.Gives.{FaultGives, CodesGive, LastGives};

use crate::ends::no_more;
use mid_base::{Fault, HostByte};
use script_words::{
    Kind, LineFault, PlanKind, Words, byte_in, bytes_in, half_in, number_in, sense_of,
};
use std::alloc::Global;

/// The fault of this kind that the words that are left give its values.
pub fn fault_in(alloc: Global, kind: PlanKind, rest: Words) -> Result<Fault, LineFault>
    ensures { (said : Said) (host : Option HostSpec) → FaultGives said host kind (words rest.entry.rest.now) result }
{
    match kind {
        PlanKind::HostBusy => last(rest, Fault::HostBusy),
        PlanKind::Busy => last(rest, Fault::Busy),
        PlanKind::Latency => latency_in(rest),
        PlanKind::Never => last(rest, Fault::Never),
        PlanKind::Check => {
            let (key, asc, ascq) = codes_in(rest).map_err(LineFault::Bad)?;
            Ok(Fault::Check(key, asc, ascq))
        }
        PlanKind::NoSense => {
            let (key, asc, ascq) = codes_in(rest).map_err(LineFault::Bad)?;
            Ok(Fault::NoSense(key, asc, ascq))
        }
        PlanKind::Raw => raw_in(alloc, rest),
        PlanKind::Status => status_in(rest),
        PlanKind::Longer => last(rest, Fault::Longer),
        PlanKind::TimerDone => last(rest, Fault::TimerDone),
        PlanKind::AbortFail => last(rest, Fault::AbortFail),
        PlanKind::Rdev => last(rest, Fault::Rdev),
        PlanKind::Rtgt => last(rest, Fault::Rtgt),
        PlanKind::Rbus => last(rest, Fault::Rbus),
        PlanKind::Rhost => last(rest, Fault::Rhost),
        PlanKind::Silent => last(rest, Fault::Silent),
    }
}

/// A fault without values: no word may follow.
fn last(rest: Words, fault: Fault) -> Result<Fault, LineFault>
    ensures { LastGives (λ k. LineFault.Bad k) fault (words rest.entry.rest.now) result }
{
    let mut words = rest;
    no_more(words.next()).map_err(LineFault::Bad)?;
    Ok(fault)
}

fn latency_in(rest: Words) -> Result<Fault, LineFault>
    ensures { (said : Said) (host : Option HostSpec) → FaultGives said host PlanKind.Latency (words rest.entry.rest.now) result }
{
    let mut words = rest;
    let ticks = number_in(words.next(), 1, 10_000).map_err(LineFault::Bad)?;
    no_more(words.next()).map_err(LineFault::Bad)?;
    Ok(Fault::Latency(ticks as u32))
}

/// Sense key, additional sense code and its qualifier.
fn codes_in(rest: Words) -> Result<(u8, u8, u8), Kind>
    ensures { (said : Said) (host : Option HostSpec) → CodesGive said host (words rest.entry.rest.now) result }
{
    let mut words = rest;
    let key = half_in(words.next())?;
    let asc = byte_in(words.next())?;
    let ascq = byte_in(words.next())?;
    no_more(words.next())?;
    Ok((key, asc, ascq))
}

fn raw_in(alloc: Global, rest: Words) -> Result<Fault, LineFault>
    ensures { (said : Said) (host : Option HostSpec) → FaultGives said host PlanKind.Raw (words rest.entry.rest.now) result }
{
    let mut words = rest;
    let bytes = bytes_in(alloc, words.next(), 252)?;
    no_more(words.next()).map_err(LineFault::Bad)?;
    Ok(Fault::Raw(sense_of(&bytes)))
}

fn status_in(rest: Words) -> Result<Fault, LineFault>
    ensures { (said : Said) (host : Option HostSpec) → FaultGives said host PlanKind.Status (words rest.entry.rest.now) result }
{
    let mut words = rest;
    let host = byte_in(words.next()).map_err(LineFault::Bad)?;
    let status = byte_in(words.next()).map_err(LineFault::Bad)?;
    no_more(words.next()).map_err(LineFault::Bad)?;
    Ok(Fault::Status(HostByte(host), status))
}
