ghost use Rattle.std.specs.Prelude.{◌≡◌, if◌then◌else◌, is_err};
ghost use Rattle.std.specs.Io.{ReadsAtMost, WritesAtMost};
ghost use Rattle.std.specs.Io.KnownBytes.{ReadConsumes, WriteAppends};
ghost use Rattle.mid_io.specs.Causes.{HasCause, TakesSome, counted_on};

use crate::{Failed, Sink, Source};
use std::io::{Read, Write};

/// A reader, such as standard input, as a source. It tells what the reader tells of its bytes: of standard input nothing.
#[derive(Drop)]
pub struct StdSource<R: Read + Drop> {
    inner: R,
    faults: u64,
}

impl<R: Read + Drop> StdSource<R> {
    /// Without faults as yet.
    pub fn new(inner: R) -> StdSource<R>
        ensures left { ⟦<StdSource<R> as Source>⟧.left result ≡ R.remaining inner }
        ensures faults { ⟦<StdSource<R> as Source>⟧.faults result ≡ 0 }
    {
        StdSource { inner, faults: 0 }
    }
}

impl<R: Read + Drop> Source for StdSource<R> {
    ghost left = { λ s. R.remaining s.inner };

    ghost faults = { λ s. s.faults };

    /// Fails exactly where the reader's `read` does.
    fn read(&mut self, buf: &mut [u8]) -> Result<usize, Failed>
        ensures bound { ReadsAtMost result buf.new }
        ensures bytes { ReadConsumes (⟦<StdSource<R> as Source>⟧.left self.old) (⟦<StdSource<R> as Source>⟧.left self.new) result buf.new }
        ensures cause { HasCause (⟦<StdSource<R> as Source>⟧.faults self.old) (⟦<StdSource<R> as Source>⟧.faults self.new) result }
        ensures counted { let before = ⟦<StdSource<R> as Source>⟧.faults self.old in
            ⟦<StdSource<R> as Source>⟧.faults self.new ≡ (if is_err result then counted_on before else before) }
    {
        match self.inner.read(buf) {
            Ok(count) => Ok(count),
            Err(_) => {
                self.faults = self.faults.saturating_add(1);
                Err(Failed)
            }
        }
    }
}

/// A writer, such as standard output, as a sink. It tells what the writer tells of its bytes: of standard output nothing.
#[derive(Drop)]
pub struct StdSink<W: Write + Drop> {
    pub(crate) inner: W,
    faults: u64,
}

impl<W: Write + Drop> StdSink<W> {
    /// Without faults as yet.
    pub fn new(inner: W) -> StdSink<W>
        ensures written { ⟦<StdSink<W> as Sink>⟧.written result ≡ W.contents inner }
        ensures faults { ⟦<StdSink<W> as Sink>⟧.faults result ≡ 0 }
    {
        StdSink { inner, faults: 0 }
    }
}

impl<W: Write + Drop> Sink for StdSink<W> {
    ghost written = { λ s. W.contents s.inner };

    ghost faults = { λ s. s.faults };

    /// Fails where the writer's `write` does, and where that takes nothing of a piece that isn't empty.
    fn write(&mut self, bytes: &[u8]) -> Result<usize, Failed>
        ensures bound { WritesAtMost result bytes.now }
        ensures some { TakesSome result bytes.now }
        ensures bytes { WriteAppends (⟦<StdSink<W> as Sink>⟧.written self.old) (⟦<StdSink<W> as Sink>⟧.written self.new) result bytes.now }
        ensures cause { HasCause (⟦<StdSink<W> as Sink>⟧.faults self.old) (⟦<StdSink<W> as Sink>⟧.faults self.new) result }
        ensures counted { let before = ⟦<StdSink<W> as Sink>⟧.faults self.old in
            ⟦<StdSink<W> as Sink>⟧.faults self.new ≡ (if is_err result then counted_on before else before) }
    {
        match self.inner.write(bytes) {
            Ok(count) if count > 0 || bytes.is_empty() => Ok(count),
            _ => {
                self.faults = self.faults.saturating_add(1);
                Err(Failed)
            }
        }
    }
}

#[cfg(test)]
mod tests {
    use super::*;
    use std::test::Fail;

    #[test]
    fn a_reader_is_read_to_its_end(rt: HostRuntime) -> Result<(), Fail> {
        let mut source = StdSource::new(b"abc".as_slice());
        let mut buf = [0u8; 2];
        assert_eq!(rt; source.read(&mut buf)?, 2);
        assert_eq!(rt; buf, *b"ab");
        assert_eq!(rt; source.read(&mut buf)?, 1);
        assert_eq!(rt; source.read(&mut buf)?, 0, "the end");
        Ok(())
    }

    #[test]
    fn a_full_writer_fails_at_a_piece_that_is_not_empty(rt: HostRuntime) -> Result<(), Fail> {
        let mut room = [0u8; 3];
        let mut sink = StdSink::new(room.as_mut_slice());
        assert_eq!(rt; sink.write(b"abcde")?, 3, "what fits");
        assert_eq!(rt; sink.write(b"de"), Err(Failed));
        assert_eq!(rt; sink.write(b"")?, 0);
        Ok(())
    }
}
