ghost use Rattle.std.specs.Prelude.{◌≡◌, ◌≤◌, IfOk, OnOk};
ghost use Rattle.mid_io.specs.Whole.{TakesAtMost};
ghost use Rattle.play_top.specs.Reading.{ReadsScript, ScriptReads, most_bytes};

use mid_base::NoMemory;
use mid_io::{ReadFault, Source, read_all};
use script_text::{Bad, ReadEnd, Reader, Script};
use std::alloc::Global;

// The longest script and one byte more, which is enough to see that a script is too long.
const MOST_BYTES: usize = 16_777_217;

/// Why there is no script to play.
#[derive(Clone, Copy, PartialEq, Eq, Debug)]
pub enum Unread {
    /// The source failed.
    Fault,
    Bad(Bad),
    NoMemory,
}

/// Reads the script of a source, to its end or its limit.
pub fn read_script<S: Source>(alloc: Global, src: &mut S) -> Result<Script, Unread>
    ensures answer { ReadsScript (S.left src.old) (S.left src.new) (S.faults src.old) (S.faults src.new) result }
    ensures bound { TakesAtMost (S.left src.old) (S.left src.new) most_bytes }
    ensures later { S.faults src.old ≤ S.faults src.new }
{
    match read_all(alloc, src, MOST_BYTES) {
        Ok(bytes) => script_in(alloc, &bytes),
        Err(ReadFault::Failed) => Err(Unread::Fault),
        Err(ReadFault::NoMemory) => Err(Unread::NoMemory),
    }
}

// What the bytes say.
fn script_in(alloc: Global, bytes: &[u8]) -> Result<Script, Unread>
    ensures { ScriptReads bytes.now result }
{
    let mut reader = Reader::new(alloc);
    match reader.feed(bytes) {
        Ok(()) => {}
        Err(NoMemory) => return Err(Unread::NoMemory),
    }
    match reader.finish() {
        Ok(script) => Ok(script),
        Err(ReadEnd::Bad(bad)) => Err(Unread::Bad(bad)),
        Err(ReadEnd::NoMemory) => Err(Unread::NoMemory),
    }
}
