ghost use Rattle.std.specs.Prelude.{Some};

use super::*;
use std::test::Fail;

// Takes two bytes of a piece at most, and fails at one call.
#[derive(Drop)]
struct Sips {
    bytes: Vec<u8>,
    fails: u64,
    calls: u64,
    faults: u64,
}

impl Sink for Sips {
    ghost written = { λ s. Some s.bytes.items };

    ghost faults = { λ s. s.faults };

    fn write(&mut self, bytes: &[u8]) -> Result<usize, Failed> {
        self.calls = self.calls.saturating_add(1);
        let count = bytes.len().min(2);
        if self.calls == self.fails || self.bytes.extend_from_slice(&bytes[..count]).is_err() {
            self.faults = self.faults.saturating_add(1);
            return Err(Failed);
        }
        Ok(count)
    }
}

#[test]
fn the_rest_of_a_piece_is_offered_on(rt: HostRuntime) -> Result<(), Fail> {
    // The call that fails, the answer, and what is out then.
    let table: [(u64, Result<(), Failed>, &[u8]); 4] = [
        (9, Ok(()), b"abcde"),
        (1, Err(Failed), b""),
        (2, Err(Failed), b"ab"),
        (3, Err(Failed), b"abcd"),
    ];
    for (fails, want, out) in table {
        let mut sink = Sips {
            bytes: Vec::new(rt.alloc()),
            fails,
            calls: 0,
            faults: 0,
        };
        assert_eq!(rt; write_all(&mut sink, b"abcde"), want, "call {fails} fails");
        assert_eq!(rt; sink.bytes.as_slice(), out, "call {fails} fails");
    }
    Ok(())
}
