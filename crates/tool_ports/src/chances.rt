//! Where the numbers come from that decide what a crash leaves.
ghost use Rattle.std.specs.Prelude.{◌≡◌, ◌-◌, ◌^◌, ℕ, ⊤};

use line_memory::{Chance, ConstantChance};

/// A source of chance for each worker, and of words for what a crash leaves at random. Nothing is
/// promised of any number, but what its kind says that it gives.
pub trait Chances {
    /// The chance of one worker, which may move to its thread.
    type One: Chance + Send;

    /// What a seed makes of them: the chances before, the seed, the chances after. By default
    /// anything, as of the other two.
    ghost seed_gives: { Self → ℕ → Self → Type 0 } = { λ _ _ _. ⊤ };

    /// What a worker is given: the chances before, its number, its chance, the chances after.
    ghost chance_gives: { Self → ℕ → Self.One → Self → Type 0 } = { λ _ _ _ _. ⊤ };

    /// What the next word is: the chances before, the word, the chances after.
    ghost word_gives: { Self → ℕ → Self → Type 0 } = { λ _ _ _. ⊤ };

    /// Begins anew, by this seed.
    fn seed(&mut self, seed: u64)
        ensures { seed_gives self.old seed self.new };

    /// The chance of a worker, by its number from 0.
    fn chance(&mut self, worker: usize) -> Self::One
        ensures { chance_gives self.old worker result self.new };

    /// The next word for what a crash leaves at random.
    fn word(&mut self) -> u64
        ensures { word_gives self.old result self.new };
}

/// The same number for each worker; words that a crash leaves with any value have all bits.
impl Chances for ConstantChance {
    type One = ConstantChance;

    ghost seed_gives = { λ old _ new. new ≡ old };

    ghost chance_gives = { λ old _ one new. (one ≡ old) × (new ≡ old) };

    ghost word_gives = { λ old word new. (word ≡ 2 ^ 64 - 1) × (new ≡ old) };

    fn seed(&mut self, _: u64)
        ensures { self.new ≡ self.old }
    {}

    fn chance(&mut self, _: usize) -> ConstantChance
        ensures same { result ≡ self.old }
        ensures unchanged { self.new ≡ self.old }
    {
        *self
    }

    fn word(&mut self) -> u64
        ensures all { result ≡ 2 ^ 64 - 1 }
        ensures unchanged { self.new ≡ self.old }
    {
        u64::MAX
    }
}
