ghost use Rattle.std.specs.Prelude.{◌≡◌, ◌<◌, ◌^◌};
ghost use Rattle.host_words.specs.Words.{code, claimed_word};
ghost use Rattle.host_words.specs.declared.words.WordSeen.{WordSeen};

use mid_base::{Attempt, By};

/// What the word of a tag says: no attempt is out under it; this one is and has no owner yet; this one was claimed for its
/// answer; this one was claimed for its expired timer.
#[derive(Clone, Copy, PartialEq, Eq, Debug)]
pub enum WordSeen {
    Free,
    Armed(Attempt),
    Done(Attempt),
    Expired(Attempt),
}

/// What came of a claim, with the word that it met where it was lost.
#[derive(Clone, Copy, PartialEq, Eq, Debug)]
pub enum Claim {
    Won,
    Lost(WordSeen),
}

// An exchange works on one number, so a word is kept as four times its attempt and its kind.

// What a number says, as far as it is the number of a word.
pub(crate) fn read_word(number: u64) -> WordSeen
    ensures { (w : WordSeen) → number ≡ code w → result ≡ w }
{
    let attempt = Attempt(number / 4);
    match number % 4 {
        0 => WordSeen::Free,
        1 => WordSeen::Armed(attempt),
        2 => WordSeen::Done(attempt),
        _ => WordSeen::Expired(attempt),
    }
}

pub(crate) fn armed_number(n: Attempt) -> u64
    requires { n.0 < 2 ^ 60 }
    ensures { result ≡ code (WordSeen.Armed n) }
{
    4 * n.0 + 1
}

pub(crate) fn claimed_number(n: Attempt, by: By) -> u64
    requires { n.0 < 2 ^ 60 }
    ensures { result ≡ code (claimed_word n by) }
{
    match by {
        By::Answer => 4 * n.0 + 2,
        By::Expiry => 4 * n.0 + 3,
    }
}
