ghost use Rattle.std.specs.Prelude.{◌≡◌, ℕ, List, ◌∷◌, None, Some};
ghost use Rattle.script_words.specs.Words.{handlers, bits_from, some_letters};

use bitflags::Flags;
use mid_base::Handlers;

// The letters of the callbacks in their order, each with its bit.
const LETTERS: [(u8, u8); 5] = [(b'a', 1), (b'd', 2), (b't', 4), (b'b', 8), (b'h', 16)];

/// Takes this letter off the front of the word, if it is there, and adds its bit then.
fn take_letter(bits: u8, word: &[u8], letter: u8, bit: u8) -> (u8, &[u8])
    ensures { (ls : List (ℕ × ℕ)) → bits_from bits ((letter, bit) ∷ ls) word.now ≡ bits_from result.0 ls result.1.now }
{
    match word {
        [first, rest @ ..] if *first == letter => (bits | bit, rest),
        _ => (bits, word),
    }
}

/// The bits of at least one letter; the letters stand in their order, each at most once.
#[tactic(auto, using(crate::proofs::Letters::letters_over))]
fn letters(word: &[u8]) -> Option<u8>
    ensures { result ≡ some_letters word.now }
{
    if word.is_empty() {
        return None;
    }
    let mut bits = 0;
    let mut rest = word;
    for (letter, bit) in &LETTERS {
        (bits, rest) = take_letter(bits, rest, *letter, *bit);
    }
    if rest.is_empty() { Some(bits) } else { None }
}

/// The callbacks that a word names: `-` for none, or the letters of the callbacks: abort, device, target, bus and host reset.
#[tactic(auto, unfolding(crate::specs::Words::handlers))]
pub fn handlers_of(word: &[u8]) -> Option<Handlers>
    ensures { result ≡ handlers word.now }
{
    if word == b"-".as_slice() {
        return Some(Handlers::from_bits_retain(0));
    }
    match letters(word) {
        None => None,
        Some(bits) => Some(Handlers::from_bits_retain(bits)),
    }
}
