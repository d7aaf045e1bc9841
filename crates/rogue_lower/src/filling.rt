ghost use Rattle.std.specs.Prelude.{◌≡◌, ◌≤◌, length, sum};
ghost use Rattle.rogue_lower.specs.Said.{put, counted, onto};

use mid_base::Answer;

// The most that a probe brings: so long is the longest list of logical units that is asked for.
const MOST: usize = 2056;

// Puts the bytes into the front of the buffer, cut to its length and to 2,056, and says so in the answer.
pub(crate) fn fill(answer: Answer, bytes: &[u8], into: &mut [u8]) -> Answer
    ensures answer { result ≡ counted answer (put (length into.old) bytes.now) }
    ensures buffer { into.new ≡ onto (put (length into.old) bytes.now) into.old }
{
    let room = into.len().min(MOST);
    let front = &bytes[..bytes.len().min(room)];
    into[..front.len()].copy_from_slice(front);
    Answer {
        moved: front.len() as u32,
        sum: sum_of(front),
        ..answer
    }
}

fn sum_of(bytes: &[u8]) -> u32
    requires { length bytes.now ≤ 2056 }
    ensures { result ≡ sum bytes.now }
{
    bytes.iter().map(|byte| u32::from(*byte)).sum()
}
