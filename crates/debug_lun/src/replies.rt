ghost use Rattle.std.specs.Prelude.{◌≡◌, ◌<◌, ◌≤◌, ◌++◌, length, take, drop, sum};
ghost use Rattle.debug_lun.specs.Units.{LogicalUnit, reply_of};
ghost use Rattle.debug_lun.specs.Serving.{refusal_reply, data_reply, write_reply};

use crate::Sense;
use mid_base::{Answer, CHECK_CONDITION, DID_OK, GOOD, SenseBytes};
use sense_data::build_fixed;

// CHECK CONDITION with sense data of the fixed form.
pub(crate) fn check(sense: Sense) -> Answer
    requires { sense.key < 16 }
    ensures { reply_of result ≡ refusal_reply sense }
{
    Answer {
        host: DID_OK,
        status: CHECK_CONDITION,
        sense: build_fixed(sense.key, sense.asc, sense.ascq, None, false),
        moved: 0,
        sum: 0,
    }
}

// GOOD, after this data came in.
pub(crate) fn good(bytes: &[u8]) -> Answer
    requires { length bytes.now ≤ 131072 }
    ensures { reply_of result ≡ data_reply bytes.now }
{
    Answer {
        host: DID_OK,
        status: GOOD,
        sense: SenseBytes::empty(),
        moved: bytes.len() as u32,
        sum: sum_of(bytes),
    }
}

// GOOD, after this data was written.
pub(crate) fn written(bytes: &[u8]) -> Answer
    requires { length bytes.now ≤ 131072 }
    ensures { reply_of result ≡ write_reply bytes.now }
{
    Answer {
        host: DID_OK,
        status: GOOD,
        sense: SenseBytes::empty(),
        moved: bytes.len() as u32,
        sum: 0,
    }
}

fn sum_of(bytes: &[u8]) -> u32
    requires { length bytes.now ≤ 131072 }
    ensures { result ≡ sum bytes.now }
{
    bytes.iter().map(|byte| u32::from(*byte)).sum()
}

// Puts data into the front of the buffer, cut to the allocation length; what is behind it stays.
pub(crate) fn give(bytes: &[u8], allocation: usize, buf: &mut [u8]) -> Answer
    requires size { length bytes.now ≤ 131072 }
    requires room { length bytes.now ≤ length buf.old }
    ensures reply { reply_of result ≡ data_reply (take allocation bytes.now) }
    ensures front { buf.new ≡ take allocation bytes.now ++ drop (length (take allocation bytes.now)) buf.old }
{
    let count = bytes.len().min(allocation);
    buf[..count].copy_from_slice(&bytes[..count]);
    good(&bytes[..count])
}
