ghost use Rattle.std.specs.Prelude.{◌≡◌, ◌<◌};
ghost use Rattle.script_words.specs.Pieces.{words};
ghost use Rattle.script_words.specs.declared.keywords.Keyword.TheVariants.{HostLine, LunLine, PlanLine, StepLine, BudgetLine, EndLine};
ghost use Rattle.script_text.specs.Adds.{start_state};
ghost use Rattle.script_text.specs.Script.{judge, judge_slots};
ghost use Rattle.script_text.specs.Gives.{seen, Judges};

use crate::command_line::command_line;
use crate::draft::Draft;
use crate::ends::{no_async_in, no_more, unit_flags_in};
use crate::host_draft::HostDraft;
use crate::names::{host_in, new_host_in, new_unit_in, roomy_host_in, unit_in};
use crate::plan::fault_in;
use crate::steps::step_in;
use mid_base::{DeviceState, HostNo, LunSpec, NoMemory, PlanEntry};
use script_words::{
    EndName, Keyword, Kind, LineFault, Words, end_name_in, handlers_in, keyword_of, number_in,
    plan_kind_in,
};

fn memory(_: NoMemory) -> LineFault
    ensures { result ≡ LineFault.Memory }
{
    LineFault::Memory
}

/// Adds what this line says.
#[tactic(auto, unfolding(crate::specs::Script::judge))]
pub fn take_line(draft: &mut Draft, line: &[u8]) -> Result<(), LineFault>
    ensures { Judges (seen draft.new) result (judge (seen draft.old) (words line.now)) }
{
    let mut words = Words { rest: line };
    match words.next() {
        None => Ok(()),
        Some([b'#', ..]) => Ok(()),
        Some(word) => match keyword_of(word) {
            None => Err(LineFault::Bad(Kind::Word)),
            Some(keyword) => match draft.bars(keyword) {
                Some(kind) => Err(LineFault::Bad(kind)),
                None => take_words(draft, keyword, words),
            },
        },
    }
}

/// Adds what the words behind the first one say.
fn take_words(draft: &mut Draft, keyword: Keyword, rest: Words) -> Result<(), LineFault>
    requires { keyword ≡ PlanLine → draft.old.plans < 65536 }
    ensures { Judges (seen draft.new) result (judge_slots (seen draft.old) keyword (words rest.entry.rest.now)) }
{
    match keyword {
        Keyword::HostLine => host_line(draft, rest),
        Keyword::LunLine => lun_line(draft, rest),
        Keyword::PlanLine => plan_line(draft, rest),
        Keyword::CommandLine => command_line(draft, rest),
        Keyword::StepLine => step_line(draft, rest),
        Keyword::BudgetLine => budget_line(draft, rest),
        Keyword::EndLine => end_line(draft, rest),
    }
}

fn host_line(draft: &mut Draft, rest: Words) -> Result<(), LineFault>
    ensures { Judges (seen draft.new) result (judge_slots (seen draft.old) HostLine (words rest.entry.rest.now)) }
{
    let mut words = rest;
    let number = new_host_in(draft, words.next()).map_err(LineFault::Bad)?;
    let can_queue = number_in(words.next(), 1, 1024).map_err(LineFault::Bad)?;
    let handlers = handlers_in(words.next()).map_err(LineFault::Bad)?;
    let no_async_abort = no_async_in(words).map_err(LineFault::Bad)?;
    let host = HostDraft::new(
        draft.alloc,
        HostNo(number as u8),
        can_queue as u16,
        handlers,
        no_async_abort,
    );
    draft.add_host(host).map_err(memory)
}

fn lun_line(draft: &mut Draft, rest: Words) -> Result<(), LineFault>
    ensures { Judges (seen draft.new) result (judge_slots (seen draft.old) LunLine (words rest.entry.rest.now)) }
{
    let mut words = rest;
    let host = roomy_host_in(draft, words.next()).map_err(LineFault::Bad)?;
    let no = host.no();
    let dev = new_unit_in(host, words.next()).map_err(LineFault::Bad)?;
    let blocks = number_in(words.next(), 1, 4_294_967_295).map_err(LineFault::Bad)?;
    let depth = number_in(words.next(), 1, 1024).map_err(LineFault::Bad)?;
    let flags = unit_flags_in(words).map_err(LineFault::Bad)?;
    let unit = LunSpec {
        dev,
        blocks: blocks as u32,
        depth: depth as u16,
        read_only: flags.read_only,
        stopped: flags.stopped,
        start: start_state(flags.scan),
    };
    draft.add_unit(no, unit, flags.scan).map_err(memory)
}

/// Where a device starts; one that is found by scanning has to be looked for first.
fn start_state(scan: bool) -> DeviceState
    ensures { result ≡ start_state scan }
{
    if scan {
        DeviceState::Created
    } else {
        DeviceState::Running
    }
}

fn plan_line(draft: &mut Draft, rest: Words) -> Result<(), LineFault>
    requires { draft.old.plans < 65536 }
    ensures { Judges (seen draft.new) result (judge_slots (seen draft.old) PlanLine (words rest.entry.rest.now)) }
{
    let mut words = rest;
    let host = host_in(draft, words.next()).map_err(LineFault::Bad)?;
    let no = host.no();
    let dev = unit_in(host, words.next()).map_err(LineFault::Bad)?;
    let kind = plan_kind_in(words.next()).map_err(LineFault::Bad)?;
    let first = number_in(words.next(), 1, 65_535).map_err(LineFault::Bad)?;
    let every = number_in(words.next(), 1, 65_535).map_err(LineFault::Bad)?;
    let uses = number_in(words.next(), 1, 65_535).map_err(LineFault::Bad)?;
    let fault = fault_in(draft.alloc, kind, words)?;
    let entry = PlanEntry {
        dev,
        fault,
        first: first as u32,
        every: every as u32,
        uses: uses as u32,
    };
    draft.add_planned(no, entry).map_err(memory)
}

fn step_line(draft: &mut Draft, rest: Words) -> Result<(), LineFault>
    ensures { Judges (seen draft.new) result (judge_slots (seen draft.old) StepLine (words rest.entry.rest.now)) }
{
    let mut words = rest;
    let host = host_in(draft, words.next()).map_err(LineFault::Bad)?;
    let no = host.no();
    let step = step_in(host, words).map_err(LineFault::Bad)?;
    draft.add_step(no, step).map_err(memory)
}

fn budget_line(draft: &mut Draft, rest: Words) -> Result<(), LineFault>
    ensures { Judges (seen draft.new) result (judge_slots (seen draft.old) BudgetLine (words rest.entry.rest.now)) }
{
    let mut words = rest;
    let rounds = number_in(words.next(), 1, 1_000_000_000_000_000_000).map_err(LineFault::Bad)?;
    no_more(words.next()).map_err(LineFault::Bad)?;
    draft.budget = Some(rounds as u64);
    Ok(())
}

fn end_line(draft: &mut Draft, rest: Words) -> Result<(), LineFault>
    ensures { Judges (seen draft.new) result (judge_slots (seen draft.old) EndLine (words rest.entry.rest.now)) }
{
    let mut words = rest;
    let name = end_name_in(words.next()).map_err(LineFault::Bad)?;
    no_more(words.next()).map_err(LineFault::Bad)?;
    draft.ended = true;
    draft.drain = name == EndName::Drain;
    Ok(())
}
