ghost use Rattle.std.specs.Prelude.{◌≡◌, ◌++◌, ◌+◌, ◌-◌, ◌≤◌, ◌↔◌, min, length, drop, take, Some, IfOk, OnErr, IsErr};
ghost use Rattle.std.specs.Io.{ReadsAtMost, WritesAtMost};
ghost use Rattle.std.specs.Io.KnownBytes.{ReadConsumes, WriteAppends};
ghost use Rattle.mid_io.specs.Causes.{HasCause, TakesSome};
ghost use Rattle.mid_io.specs.Memory.{IsCounted, ReadFails, WriteFails, given_to, new_sink, new_source};

use crate::{Failed, NoMemory, Sink, Source};
use std::alloc::Global;
use std::marker::Model;

/// Bytes in memory that are given in pieces.
///
/// Its calls are numbered from 1, and one whose number stands in `fail_at` fails. Failed calls have a number too. The
/// numbers stop at the last `u64`, which then is the number of each further call.
#[derive(Drop)]
pub struct MemSource {
    bytes: Vec<u8>,
    place: usize,
    piece: usize,
    fail_at: Vec<u64>,
    calls: u64,
    faults: u64,
}

impl Model for MemSource {
    ghost use Rattle.std.specs.Prelude.{◌≤◌, drop, length};
    ghost use Rattle.mid_io.specs.Memory.{MemSourceView};

    ghost Value = { MemSourceView };

    ghost view = { λ s. record { left = drop s.place s.bytes.items; piece = s.piece; fail_at = s.fail_at.items; calls = s.calls; faults = s.faults } };

    ghost invariant = { λ s. (s.place ≤ length s.bytes.items) × (1 ≤ s.piece) };
}

impl MemSource {
    /// A source of these bytes. No read gives more than `piece` of them.
    pub fn new(bytes: Vec<u8>, piece: usize, fail_at: Vec<u64>) -> MemSource
        requires { 1 ≤ piece }
        ensures { result ≡ new_source bytes.items piece fail_at.items }
    {
        MemSource {
            bytes,
            place: 0,
            piece,
            fail_at,
            calls: 0,
            faults: 0,
        }
    }
}

// Copies the next piece.
fn copy_piece(bytes: &[u8], place: usize, piece: usize, buf: &mut [u8]) -> usize
    requires within { place ≤ length bytes.now }
    requires some { 1 ≤ piece }
    ensures count { result ≡ min (min piece (length buf.new)) (length bytes.now - place) }
    ensures bytes { drop place bytes.now ≡ take result buf.new ++ drop (place + result) bytes.now }
    ensures beyond { drop result buf.new ≡ drop result buf.old }
{
    let rest = &bytes[place..];
    let count = piece.min(buf.len()).min(rest.len());
    buf[..count].copy_from_slice(&rest[..count]);
    count
}

impl Source for MemSource {
    ghost left = { λ s. Some s.left };

    ghost faults = { λ s. s.faults };

    /// Gives the least of the piece, the buffer's length and what is left.
    fn read(&mut self, buf: &mut [u8]) -> Result<usize, Failed>
        ensures bound { ReadsAtMost result buf.new }
        ensures bytes { ReadConsumes (Some self.old.left) (Some self.new.left) result buf.new }
        ensures cause { HasCause self.old.faults self.new.faults result }
        ensures fails { IsErr result ↔ ReadFails self.old }
        ensures gives { IfOk result (λ k. k ≡ given_to self.old (length buf.old)) }
        ensures beyond { IfOk result (λ k. drop k buf.new ≡ drop k buf.old) }
        ensures untouched { OnErr result (buf.new ≡ buf.old) }
        ensures counted { IsCounted self.old.calls self.old.faults self.new.calls self.new.faults result }
        ensures piece { self.new.piece ≡ self.old.piece }
        ensures fail_at { self.new.fail_at ≡ self.old.fail_at }
    {
        self.calls = self.calls.saturating_add(1);
        if self.fail_at.contains(&self.calls) {
            self.faults = self.faults.saturating_add(1);
            return Err(Failed);
        }
        let count = copy_piece(&self.bytes, self.place, self.piece, buf);
        self.place += count;
        Ok(count)
    }
}

/// Bytes that are kept in memory, in a room that is taken when the sink is made.
///
/// Its calls are numbered as those of a `MemSource`.
#[derive(Drop)]
pub struct MemSink {
    bytes: Vec<u8>,
    room: usize,
    fail_at: Vec<u64>,
    calls: u64,
    faults: u64,
}

impl Model for MemSink {
    ghost use Rattle.std.specs.Prelude.{◌≤◌, ◌+◌, vec_capacity, vec_len};
    ghost use Rattle.mid_io.specs.Memory.{MemSinkView};

    ghost Value = { MemSinkView };

    ghost view = { λ s. record { bytes = s.bytes.items; room = s.room; fail_at = s.fail_at.items; calls = s.calls; faults = s.faults } };

    ghost invariant = { λ s. vec_len s.bytes + s.room ≤ vec_capacity s.bytes };
}

impl MemSink {
    /// A sink that takes `room` bytes.
    pub fn new(alloc: Global, room: usize, fail_at: Vec<u64>) -> Result<MemSink, NoMemory>
        ensures { IfOk result (λ s. s ≡ new_sink room fail_at.items) }
    {
        let Ok(bytes) = Vec::with_capacity(alloc, room) else {
            return Err(NoMemory);
        };
        Ok(MemSink {
            bytes,
            room,
            fail_at,
            calls: 0,
            faults: 0,
        })
    }

    /// The bytes that it took.
    pub fn bytes(&self) -> &[u8]
        ensures { result.now ≡ self.now.bytes }
    {
        &self.bytes
    }
}

impl Sink for MemSink {
    ghost written = { λ s. Some s.bytes };

    ghost faults = { λ s. s.faults };

    /// Takes the whole piece, or fails where the call's number says so or the piece is longer than the room that is left.
    /// It takes no memory.
    fn write(&mut self, bytes: &[u8]) -> Result<usize, Failed>
        ensures bound { WritesAtMost result bytes.now }
        ensures some { TakesSome result bytes.now }
        ensures bytes { WriteAppends (Some self.old.bytes) (Some self.new.bytes) result bytes.now }
        ensures cause { HasCause self.old.faults self.new.faults result }
        ensures fails { IsErr result ↔ WriteFails self.old (length bytes.now) }
        ensures whole { IfOk result (λ k. k ≡ length bytes.now) }
        ensures room { IfOk result (λ k. self.new.room + k ≡ self.old.room) }
        ensures room_kept { OnErr result (self.new.room ≡ self.old.room) }
        ensures counted { IsCounted self.old.calls self.old.faults self.new.calls self.new.faults result }
        ensures fail_at { self.new.fail_at ≡ self.old.fail_at }
    {
        self.calls = self.calls.saturating_add(1);
        if bytes.len() > self.room || self.fail_at.contains(&self.calls) {
            self.faults = self.faults.saturating_add(1);
            return Err(Failed);
        }
        let _ = self.bytes.extend_from_slice(bytes);
        self.room -= bytes.len();
        Ok(bytes.len())
    }
}

#[cfg(test)]
mod tests {
    use super::*;
    use std::test::Fail;

    #[test]
    fn a_source_gives_pieces_and_fails_by_number(rt: HostRuntime) -> Result<(), Fail> {
        // The piece, the buffer's length, the call that fails, and what each call answers.
        let table: [(usize, usize, u64, &[Result<usize, Failed>]); 4] = [
            (1, 4, 9, &[Ok(1), Ok(1), Ok(1), Ok(1), Ok(0), Ok(0)]),
            (3, 4, 2, &[Ok(3), Err(Failed), Ok(1), Ok(0)]),
            (3, 2, 1, &[Err(Failed), Ok(2), Ok(2), Ok(0)]),
            (9, 9, 3, &[Ok(4), Ok(0), Err(Failed), Ok(0)]),
        ];
        for (piece, room, fails, answers) in table {
            assert!(rt; 1 <= piece && room <= 9);
            let bytes = b"abcd".to_vec(rt.alloc())?;
            let mut source = MemSource::new(bytes, piece, [fails].to_vec(rt.alloc())?);
            let mut buf = [0u8; 9];
            for want in answers {
                assert_eq!(rt;
                    source.read(&mut buf[..room]),
                    *want,
                    "pieces of {piece} into {room}"
                );
            }
        }
        Ok(())
    }

    #[test]
    fn a_sink_fails_by_number_and_where_it_is_full(rt: HostRuntime) -> Result<(), Fail> {
        let alloc = rt.alloc();
        let mut sink = MemSink::new(alloc, 5, [2].to_vec(alloc)?)?;
        let table: [(&[u8], Result<usize, Failed>, &[u8]); 6] = [
            (b"abc", Ok(3), b"abc"),
            (b"d", Err(Failed), b"abc"),
            (b"def", Err(Failed), b"abc"),
            (b"", Ok(0), b"abc"),
            (b"de", Ok(2), b"abcde"),
            (b"f", Err(Failed), b"abcde"),
        ];
        for (piece, want, held) in table {
            assert_eq!(rt; sink.write(piece), want, "at {piece:?}");
            assert_eq!(rt; sink.bytes(), held, "at {piece:?}");
        }
        Ok(())
    }
}
