ghost use Rattle.std.specs.Prelude.{◌<◌, ◌≡◌, ℕ, length, slice_get, Some};

use rand_pcg::Pcg32;
use rand_pcg::rand_core::Rng;

/// Numbers in an order of their own for each liar, the same in each run.
#[derive(Drop)]
pub struct Dice {
    generator: Pcg32,
}

impl Dice {
    /// Those of a liar.
    pub fn of(liar: u64) -> Dice {
        Dice {
            generator: Pcg32::new(liar, 1),
        }
    }

    /// The next number below this one.
    pub fn below(&mut self, most: u32) -> u32
        requires { 0 < most }
        ensures { result < most }
    {
        self.generator.next_u32() % most
    }

    /// One of these.
    pub fn one_of<T: Copy>(&mut self, all: &[T]) -> T
        requires some { 0 < length all.now }
        requires few { length all.now < 256 }
        ensures { (k : ℕ) × (slice_get all.now k ≡ Some result) }
    {
        all[self.below(all.len() as u32) as usize]
    }
}

#[cfg(test)]
mod tests {
    use super::*;

    #[test]
    fn numbers_are_below_what_was_asked_for(rt: HostRuntime) {
        let mut dice = Dice::of(7);
        for most in [1, 2, 6, 1000] {
            assert!(rt; dice.below(most) < most, "below {most}");
        }
    }

    #[test]
    fn the_only_one_is_picked(rt: HostRuntime) {
        assert_eq!(rt; Dice::of(7).one_of(&[5]), 5);
    }
}
