ghost use Rattle.std.specs.Prelude.{Some};
ghost use Rattle.mid_base.specs.Bytes.{sense_list};
ghost use Rattle.report_text.specs.Pieces.{address_text, answer_text, hex_byte, hex_text, scope_text, sense_text};

use mid_base::{Answer, DevAddr, Scope, SenseBytes};
use std::fmt;

/// An address as `C:T:L`.
#[derive(Clone, Copy)]
pub struct Address(pub DevAddr);

impl fmt::Display for Address {
    ghost output = { λ t. Some (address_text t.0) };

    fn fmt<W: fmt::Write>(&self, f: &mut fmt::Formatter<W>) -> fmt::Result {
        let DevAddr {
            channel,
            target,
            lun,
        } = self.0;
        write!(f, "{channel}:{target}:{lun}")
    }
}

/// A byte as two lower-case hex digits.
#[derive(Clone, Copy)]
pub struct HexByte(pub u8);

impl fmt::Display for HexByte {
    ghost output = { λ t. Some (hex_byte t.0) };

    fn fmt<W: fmt::Write>(&self, f: &mut fmt::Formatter<W>) -> fmt::Result {
        let byte = self.0;
        write!(f, "{byte:02x}")
    }
}

/// Bytes in lower-case hex.
#[derive(Clone, Copy)]
pub struct Hex<'a>(pub &'a [u8]);

impl<'a> fmt::Display for Hex<'a> {
    ghost output = { λ t. Some (hex_text t.0.now) };

    fn fmt<W: fmt::Write>(&self, f: &mut fmt::Formatter<W>) -> fmt::Result {
        for b in self.0 {
            write!(f, "{}", HexByte(*b))?;
        }
        Ok(())
    }
}

/// The sense of an answer: hex, or `-` where it has none.
#[derive(Clone, Copy)]
pub struct Sense(pub SenseBytes);

impl fmt::Display for Sense {
    ghost output = { λ t. Some (sense_text (sense_list t.0)) };

    fn fmt<W: fmt::Write>(&self, f: &mut fmt::Formatter<W>) -> fmt::Result {
        let bytes = self.0.as_slice();
        if bytes.is_empty() {
            write!(f, "-")
        } else {
            write!(f, "{}", Hex(bytes))
        }
    }
}

/// An answer as `HH SS MOVED SUM SENSE`: host byte and status in hex, the bytes moved, their sum, and the sense.
#[derive(Clone, Copy)]
pub struct Reply(pub Answer);

impl fmt::Display for Reply {
    ghost output = { λ t. Some (answer_text t.0) };

    fn fmt<W: fmt::Write>(&self, f: &mut fmt::Formatter<W>) -> fmt::Result {
        let a = &self.0;
        write!(
            f,
            "{} {} {} ",
            HexByte(a.host.0),
            HexByte(a.status),
            a.moved
        )?;
        write!(f, "{} {}", a.sum, Sense(a.sense))
    }
}

/// What an act of recovery is aimed at: a command, `C:T:L`, `C:T`, `C`, or `-` for the host.
#[derive(Clone, Copy)]
pub struct Aim(pub Scope);

impl fmt::Display for Aim {
    ghost output = { λ t. Some (scope_text t.0) };

    fn fmt<W: fmt::Write>(&self, f: &mut fmt::Formatter<W>) -> fmt::Result {
        match self.0 {
            Scope::Cmd(c) => write!(f, "{}", c.0),
            Scope::Dev(dev) => write!(f, "{}", Address(dev)),
            Scope::Target(channel, target) => write!(f, "{channel}:{target}"),
            Scope::Bus(channel) => write!(f, "{channel}"),
            Scope::Host => write!(f, "-"),
        }
    }
}
