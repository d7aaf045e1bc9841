ghost use Rattle.std.specs.Prelude.{List, ℕ, Option};
ghost use Rattle.std.specs.Io.{ReadsAtMost, WritesAtMost};
ghost use Rattle.std.specs.Io.KnownBytes.{ReadConsumes, WriteAppends};
ghost use Rattle.mid_io.specs.Causes.{HasCause, TakesSome};

/// A read or a write failed. Nothing was taken or given then.
#[derive(Clone, Copy, PartialEq, Eq, Debug)]
pub struct Failed;

/// An allocation failed.
#[derive(Clone, Copy, PartialEq, Eq, Debug)]
pub struct NoMemory;

/// Where bytes come from.
pub trait Source: Drop {
    /// The bytes that are left, where it tells them.
    ghost left: { Self → Option (List ℕ) };

    /// How often it has failed. The count stops at the last value of a `u64`.
    ghost faults: { Self → ℕ };

    /// Puts the next bytes at the front of `buf` and says how many. None for a `buf` that isn't empty is the end.
    /// A failure is counted, and takes nothing from what is left.
    fn read(&mut self, buf: &mut [u8]) -> Result<usize, Failed>
        ensures bound { ReadsAtMost result buf.new }
        ensures bytes { ReadConsumes (left self.old) (left self.new) result buf.new }
        ensures cause { HasCause (faults self.old) (faults self.new) result };
}

/// Where bytes go.
pub trait Sink: Drop {
    /// The bytes that it took, where it tells them.
    ghost written: { Self → Option (List ℕ) };

    /// How often it has failed. The count stops at the last value of a `u64`.
    ghost faults: { Self → ℕ };

    /// Takes bytes from the front of the piece and says how many: at least one, where there is one.
    /// A failure is counted, and takes nothing.
    fn write(&mut self, bytes: &[u8]) -> Result<usize, Failed>
        ensures bound { WritesAtMost result bytes.now }
        ensures some { TakesSome result bytes.now }
        ensures bytes { WriteAppends (written self.old) (written self.new) result bytes.now }
        ensures cause { HasCause (faults self.old) (faults self.new) result };
}
