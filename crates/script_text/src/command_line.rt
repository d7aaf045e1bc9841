ghost use Rattle.script_words.specs.Pieces.{words};
ghost use Rattle.script_words.specs.declared.keywords.Keyword.TheVariants.{CommandLine};
ghost use Rattle.script_text.specs.Script.{judge_slots};
ghost use Rattle.script_text.specs.Gives.{seen, Judges};

use crate::draft::Draft;
use crate::ends::fill_in;
use crate::names::{host_in, new_command_in, unit_in};
use mid_base::{CmdId, CmdSpec, LaneNo};
use script_words::{LineFault, Words, bytes_in, cdb_of, failfast_in, number_in};

/// Adds the command that a `cmd` line says.
pub fn command_line(draft: &mut Draft, rest: Words) -> Result<(), LineFault>
    ensures { Judges (seen draft.new) result (judge_slots (seen draft.old) CommandLine (words rest.entry.rest.now)) }
{
    let mut words = rest;
    let id = new_command_in(draft, words.next()).map_err(LineFault::Bad)?;
    let host = host_in(draft, words.next()).map_err(LineFault::Bad)?;
    let no = host.no();
    let lane = number_in(words.next(), 0, 63).map_err(LineFault::Bad)?;
    let dev = unit_in(host, words.next()).map_err(LineFault::Bad)?;
    let timeout = number_in(words.next(), 1, 10_000).map_err(LineFault::Bad)?;
    let allowed = number_in(words.next(), 0, 20).map_err(LineFault::Bad)?;
    let failfast = failfast_in(words.next()).map_err(LineFault::Bad)?;
    let cdb = bytes_in(draft.alloc, words.next(), 16)?;
    let fill = fill_in(words).map_err(LineFault::Bad)?;
    let command = CmdSpec {
        id: CmdId(id as u32),
        lane: LaneNo(lane as u8),
        dev,
        cdb: cdb_of(&cdb),
        fill,
        timeout: timeout as u32,
        allowed: allowed as u8,
        failfast,
    };
    match draft.add_command(no, command) {
        Ok(()) => Ok(()),
        Err(_) => Err(LineFault::Memory),
    }
}
