ghost use Rattle.std.specs.Prelude.{◌≤◌, ◌<◌, ◌^◌, IfOk};
ghost use Rattle.std.specs.Io.KnownBytes.{Consumes};
ghost use Rattle.mid_io.specs.Whole.{ReadsAll, TakesAtMost};

use crate::Source;
use std::alloc::Global;

const PIECE: usize = 4096;

/// Why a source wasn't read.
#[derive(Clone, Copy, PartialEq, Eq, Debug)]
pub enum ReadFault {
    /// A read failed; the source's count of faults rose.
    Failed,
    NoMemory,
}

/// All the bytes of a source, or its first `most` where it has more. It asks for no more than that, so it ends at a source
/// without an end too. Fewer than `most` bytes are all there are.
pub fn read_all<S: Source>(alloc: Global, source: &mut S, most: usize) -> Result<Vec<u8>, ReadFault>
    requires { most < 2 ^ 60 }
    ensures answer { ReadsAll (S.left source.old) most (S.faults source.old) (S.faults source.new) result }
    ensures whole { IfOk result (λ bytes. Consumes (S.left source.old) (S.left source.new) bytes.items) }
    ensures taken { TakesAtMost (S.left source.old) (S.left source.new) most }
    ensures later { S.faults source.old ≤ S.faults source.new }
{
    let mut bytes = Vec::new(alloc);
    let mut piece = [0u8; PIECE];
    'pieces: while bytes.as_slice().len() < most {
        let room = (most - bytes.as_slice().len()).min(PIECE);
        match source.read(&mut piece[..room]) {
            Ok(0) => return Ok(bytes),
            Ok(count) => {
                if bytes.extend_from_slice(&piece[..count]).is_err() {
                    return Err(ReadFault::NoMemory);
                }
            }
            Err(_) => return Err(ReadFault::Failed),
        }
    }
    Ok(bytes)
}

#[cfg(test)]
mod tests {
    use super::*;
    use crate::MemSource;
    use std::test::Fail;

    #[test]
    fn a_source_is_read_to_its_end_or_its_limit(rt: HostRuntime) -> Result<(), Fail> {
        // The piece, how many bytes at most, the call that fails, and what is read.
        let table: [(usize, usize, u64, Result<&[u8], ReadFault>); 6] = [
            (1, 100, 99, Ok(b"abcdefg")),
            (3, 7, 99, Ok(b"abcdefg")),
            (3, 5, 99, Ok(b"abcde")),
            (3, 0, 1, Ok(b"")),
            (3, 100, 2, Err(ReadFault::Failed)),
            (3, 100, 4, Err(ReadFault::Failed)),
        ];
        for (piece, most, fails, want) in table {
            assert!(rt; 1 <= piece && most <= 100);
            let bytes = b"abcdefg".to_vec(rt.alloc())?;
            let mut source = MemSource::new(bytes, piece, [fails].to_vec(rt.alloc())?);
            match (read_all(rt.alloc(), &mut source, most), want) {
                (Ok(read), Ok(want)) => assert_eq!(rt; read.as_slice(), want, "at most {most}"),
                (Err(end), Err(want)) => assert_eq!(rt; end, want, "call {fails} fails"),
                _ => assert!(rt; false, "pieces of {piece}, at most {most}"),
            }
        }
        Ok(())
    }
}
