ghost use Rattle.std.specs.Prelude.{◌≡◌, ◌+◌, ◌^◌, ◌<◌, not, true, false, IfOk};
ghost use Rattle.std.specs.List.{list_all};
ghost use Rattle.script_words.specs.Pieces.{lines, is_newline};
ghost use Rattle.script_text.specs.Script.{bad, whole, judge_lines};
ghost use Rattle.script_text.specs.Gives.{seen, EndsLine};
ghost use Rattle.script_text.specs.Reads.{Answers};

use crate::draft::Draft;
use crate::host_draft::HostDraft;
use crate::line::take_line;
use crate::script::{Bad, ReadEnd, Script};
use mid_base::{HostSpec, NoMemory, Rows};
use script_words::{Kind, LineFault};
use std::alloc::Global;

/// This line is the first bad one.
pub fn bad(line: u64, kind: Kind) -> Bad
    ensures { result ≡ bad line kind }
{
    Bad {
        line,
        kind: kind.number(),
    }
}

/// The specs of these hosts.
fn specs_of(alloc: Global, drafts: Vec<HostDraft>) -> Result<Rows<HostSpec>, NoMemory>
    ensures { IfOk result (λ rows. rows ≡ drafts.items) }
{
    let mut specs = Vec::new(alloc);
    for draft in drafts {
        if specs.push(draft.into_spec()).is_err() {
            return Err(NoMemory);
        }
    }
    Ok(Rows::from_vec(specs))
}

/// The script of these lines, where `line` is the number of the next one. It is bad where its last line lacks.
fn whole(draft: Draft, line: u64) -> Result<Script, ReadEnd>
    ensures { Answers (whole line (seen draft)) result }
{
    let Draft {
        alloc,
        hosts,
        scans,
        steps,
        budget,
        ended,
        drain,
        ..
    } = draft;
    if !ended {
        return Err(ReadEnd::Bad(bad(line, Kind::NoEnd)));
    }
    match specs_of(alloc, hosts) {
        Err(_) => Err(ReadEnd::NoMemory),
        Ok(hosts) => Ok(Script {
            hosts,
            scans: Rows::from_vec(scans),
            steps: Rows::from_vec(steps),
            budget,
            drain,
        }),
    }
}

/// Adds what this line says, which comes behind `before` others. If it is bad, that is the answer.
pub fn end_line(draft: &mut Draft, line: &[u8], before: u64) -> Result<Option<Bad>, NoMemory>
    requires { before < 2 ^ 32 }
    ensures { EndsLine (seen draft.old) (seen draft.new) line.now before result }
{
    draft.line = before + 1;
    match take_line(draft, line) {
        Ok(()) => Ok(None),
        Err(LineFault::Bad(kind)) => Ok(Some(bad(before + 1, kind))),
        Err(LineFault::Memory) => Err(NoMemory),
    }
}

/// The script that ends with this part of a line, without a newline. It comes behind `before` lines.
#[tactic(auto, using(crate::proofs::Telling::last_is, crate::proofs::Telling::no_lines), unfolding(crate::specs::Script::judge_lines))]
pub fn last_line(draft: Draft, part: &[u8], before: u64) -> Result<Script, ReadEnd>
    requires small { before < 2 ^ 32 }
    requires inside { list_all (λ b. not (is_newline b)) part.now ≡ true }
    ensures { Answers (judge_lines false (before + 1) (seen draft) (lines part.now)) result }
{
    if part.is_empty() {
        return whole(draft, before + 1);
    }
    let mut draft = draft;
    match end_line(&mut draft, part, before) {
        Err(_) => Err(ReadEnd::NoMemory),
        Ok(Some(bad)) => Err(ReadEnd::Bad(bad)),
        Ok(None) => whole(draft, before + 2),
    }
}
