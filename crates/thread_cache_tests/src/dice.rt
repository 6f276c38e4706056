//! Random choices.

ghost use Rattle.std.specs.Prelude.{◌<◌};

use rand_core::Rng;
use rand_pcg::Lcg64Xsh32;
use size_table::{LAST_CLASS, size_of};

/// The least class that is drawn: superblocks of smaller ones have many blocks.
const LEAST_CLASS: u8 = 12;

/// How many classes there are from that one on.
const CLASSES: u64 = (LAST_CLASS - LEAST_CLASS) as u64 + 1;

/// A source of numbers.
#[derive(Drop)]
pub struct Dice {
    generator: Lcg64Xsh32,
}

impl Dice {
    /// The numbers that follow from the seed.
    pub fn new(seed: u64) -> Dice {
        Dice {
            generator: Lcg64Xsh32::new(seed, 0),
        }
    }

    /// A number below a bound.
    pub fn below(&mut self, bound: u64) -> u64
        requires { 0 < bound }
        ensures { result < bound }
    {
        self.generator.next_u64() % bound
    }

    /// The size of a block of a class.
    pub fn size(&mut self) -> u64 {
        size_of(LEAST_CLASS + self.below(CLASSES) as u8)
    }
}
