ghost use Rattle.std.specs.Prelude.{◌≡◌, ◌≢◌, ℕ, ◌*◌, ◌<◌, ◌^◌, length, MatchOption};
ghost use Rattle.std.specs.Int.{bit_at};
ghost use Rattle.tag_pool.specs.Words.{bit_of, AreClear, IsLeastSet};

// Words are lists of bits, 64 to a word, the lowest first.

pub fn least_set(words: &[u64]) -> Option<usize>
    requires { length words.now < 2 ^ 16 }
    ensures { MatchOption result (AreClear words.now) (λ t. IsLeastSet t words.now) }
{
    for i in 0..words.len() {
        let word = words[i];
        if word != 0 {
            return Some(64 * i + word.trailing_zeros() as usize);
        }
    }
    None
}

pub fn set_bit(words: &mut [u64], t: usize)
    requires { t < 64 * length words.old }
    ensures set { bit_of t words.new ≡ 1 }
    ensures others { (k : ℕ) → k ≢ t → bit_of k words.new ≡ bit_of k words.old }
{
    words[t / 64] = with_bit(words[t / 64], (t % 64) as u32);
}

pub fn clear_bit(words: &mut [u64], t: usize)
    requires { t < 64 * length words.old }
    ensures clear { bit_of t words.new ≡ 0 }
    ensures others { (k : ℕ) → k ≢ t → bit_of k words.new ≡ bit_of k words.old }
{
    words[t / 64] = without_bit(words[t / 64], (t % 64) as u32);
}

fn with_bit(word: u64, k: u32) -> u64
    requires { k < 64 }
    ensures set { bit_at result k ≡ 1 }
    ensures others { (i : ℕ) → i ≢ k → bit_at result i ≡ bit_at word i }
{
    word | (1 << k)
}

fn without_bit(word: u64, k: u32) -> u64
    requires { k < 64 }
    ensures clear { bit_at result k ≡ 0 }
    ensures others { (i : ℕ) → i < 64 → i ≢ k → bit_at result i ≡ bit_at word i }
{
    word & !(1 << k)
}
