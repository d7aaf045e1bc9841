ghost use Rattle.std.specs.Prelude.{◌≡◌, ◌==◌, map, slice_index, string_bytes};
ghost use Rattle.play_words.specs.Words.{IsFew, joined, make, mode_of};

use crate::Mode;
use script_words::number_in;

// A generated script has no more commands.
const MOST_COMMANDS: u128 = 20_000;

/// What the words of a command line, without the program's name, ask for. It takes no memory.
///
/// No words ask for the script; `--make N` and `--make=N` for N commands, where N is one to five digits without a leading
/// zero, 1 to 20,000. Each may be followed by a last word `--`. Any other list is None.
pub fn listed(words: &[String]) -> Option<Mode>
    ensures mode { result ≡ mode_of (map string_bytes words.now) }
    ensures few { IsFew result }
{
    match words {
        [] => Some(Mode::Script),
        [word] if word.as_str() == "--" => Some(Mode::Script),
        [word] => joined_in(word.as_bytes()),
        [word, end] if end.as_str() == "--" => joined_in(word.as_bytes()),
        [name, word] if name.as_str() == "--make" => make_of(word.as_bytes()),
        [name, word, end] if name.as_str() == "--make" && end.as_str() == "--" => {
            make_of(word.as_bytes())
        }
        _ => None,
    }
}

// One word, in which the number stands behind the sign.
fn joined_in(word: &[u8]) -> Option<Mode>
    ensures mode { result ≡ joined word.now }
    ensures few { IsFew result }
{
    if !word.starts_with(b"--make=") {
        return None;
    }
    make_of(&word[7..])
}

// A word that is a number of commands.
fn make_of(word: &[u8]) -> Option<Mode>
    ensures mode { result ≡ make word.now }
    ensures few { IsFew result }
{
    if word.len() > 5 || begins_with_zero(word) {
        return None;
    }
    match number_in(Some(word), 1, MOST_COMMANDS) {
        Ok(count) => Some(Mode::Make(count as u32)),
        Err(_) => None,
    }
}

fn begins_with_zero(word: &[u8]) -> bool
    ensures { result ≡ (slice_index word.now 0 == 48) }
{
    match word.first() {
        Some(digit) => *digit == b'0',
        None => false,
    }
}
