//! Chances by a generator with a seed, so that a run can be had again.
ghost use Rattle.std.specs.Prelude.{◌≡◌};
ghost use Rattle.tool_ports.specs.Seeded.{begun, seed_of, words_of, generator_of, GivesNext, BeginsBy, GivesChance, GivesWord};

use crate::chances::Chances;
use line_memory::Chance;
use rand_core::Rng;
use rand_pcg::Lcg64Xsh32;

/// Chances by PCG generators (XSH RR 64/32) with the seed as their state: for worker W the stream
/// W + 1, and stream 0 for the words.
#[derive(Drop)]
pub struct SeededChances {
    seed: u64,
    words: Lcg64Xsh32,
}

/// The chance of one worker.
#[derive(Drop)]
pub struct SeededChance {
    generator: Lcg64Xsh32,
}

impl SeededChances {
    /// Chances by the seed 0.
    pub fn new() -> Self
        ensures seed { seed_of result ≡ 0 }
        ensures words { words_of result ≡ begun 0 0 }
    {
        SeededChances {
            seed: 0,
            words: Lcg64Xsh32::new(0, 0),
        }
    }
}

impl Chances for SeededChances {
    type One = SeededChance;

    ghost seed_gives = { λ _ seed new. BeginsBy seed new };

    ghost chance_gives = { GivesChance };

    ghost word_gives = { GivesWord };

    fn seed(&mut self, seed: u64) {
        self.seed = seed;
        self.words = Lcg64Xsh32::new(seed, 0);
    }

    fn chance(&mut self, worker: usize) -> SeededChance {
        let stream = (worker as u64).saturating_add(1);
        SeededChance {
            generator: Lcg64Xsh32::new(self.seed, stream),
        }
    }

    fn word(&mut self) -> u64 {
        self.words.next_u64()
    }
}

impl Chance for SeededChance {
    ghost draw_gives = { λ old number new. GivesNext (generator_of old) number (generator_of new) };

    fn draw(&mut self) -> u64 {
        self.generator.next_u64()
    }
}
