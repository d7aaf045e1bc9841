ghost use Rattle.std.specs.Prelude.{◌≡◌, IfOk};
ghost use Rattle.std.specs.Io.KnownBytes.{Keeps};
ghost use Rattle.std.specs.Io.Buffered.{writer_buffer};

use crate::{Failed, NoMemory, Sink, StdSink};
use std::alloc::Global;
use std::io::{BufWriter, Write};

// How many bytes are gathered before they are written on.
const GATHERED: usize = 65_536;

impl<W: Write + Drop> StdSink<BufWriter<W>> {
    /// A sink that gathers bytes, up to 64 KiB, before the writer gets them. What it has taken goes out at the latest by
    /// `end`, which alone says whether it did.
    pub fn gathering(alloc: Global, inner: W) -> Result<StdSink<BufWriter<W>>, NoMemory>
        ensures written { IfOk result (λ s. Keeps (W.contents inner) (⟦<StdSink<BufWriter<W>> as Sink>⟧.written s)) }
        ensures faults { IfOk result (λ s. ⟦<StdSink<BufWriter<W>> as Sink>⟧.faults s ≡ 0) }
    {
        match BufWriter::with_capacity(alloc, GATHERED, inner) {
            Ok(writer) => Ok(StdSink::new(writer)),
            Err(_) => Err(NoMemory),
        }
    }

    /// The bytes that were taken and aren't written on yet.
    pub fn gathered(&self) -> &[u8]
        ensures { result.now ≡ writer_buffer self.now.inner }
    {
        self.inner.buffer()
    }

    /// Writes on what is gathered and gives the writer back, which then has all that the sink took. Fails where the writer
    /// takes no more.
    pub fn end(self) -> Result<W, Failed>
        ensures { IfOk result (λ w. Keeps (⟦<StdSink<BufWriter<W>> as Sink>⟧.written self) (W.contents w)) }
    {
        let StdSink { inner, .. } = self;
        match inner.into_inner() {
            Ok(writer) => Ok(writer),
            Err(_) => Err(Failed),
        }
    }
}

#[cfg(test)]
mod tests {
    use super::*;
    use std::test::Fail;

    #[test]
    fn bytes_are_gathered_until_the_end(rt: HostRuntime) -> Result<(), Fail> {
        let mut room = [0u8; 5];
        let mut sink = StdSink::gathering(rt.alloc(), room.as_mut_slice())?;
        assert_eq!(rt; sink.write(b"abc")?, 3);
        assert_eq!(rt; sink.write(b"de")?, 2);
        assert_eq!(rt; sink.gathered(), b"abcde".as_slice());
        assert!(rt; sink.end().is_ok());
        assert_eq!(rt; room, *b"abcde");
        Ok(())
    }

    #[test]
    fn a_writer_that_is_full_fails_at_the_end(rt: HostRuntime) -> Result<(), Fail> {
        let mut room = [0u8; 3];
        let mut sink = StdSink::gathering(rt.alloc(), room.as_mut_slice())?;
        assert_eq!(rt; sink.write(b"abcd")?, 4, "it is gathered");
        assert!(rt; sink.end().is_err(), "there is room for three");
        Ok(())
    }

    #[test]
    fn a_run_that_is_longer_than_the_room_fails_on_the_way(rt: HostRuntime) -> Result<(), Fail> {
        let mut room = [0u8; 3];
        let mut sink = StdSink::gathering(rt.alloc(), room.as_mut_slice())?;
        let piece = [b'x'; 4096];
        let mut last_taken = 0;
        for nth in 1..=17 {
            if sink.write(&piece).is_ok() {
                last_taken = nth;
            }
        }
        assert_eq!(rt; last_taken, 16, "64 KiB are gathered");
        Ok(())
    }
}
