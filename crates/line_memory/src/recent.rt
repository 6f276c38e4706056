//! The words of the last stores.
ghost use Rattle.std.specs.Prelude.{◌≡◌, ℕ, List, [], ◌∷◌, ◌≤◌, take, slice_get, IfOk};
ghost use Rattle.line_memory.specs.Steps.{early_word};

use std::alloc::{AllocError, Global};
use std::collections::VecDeque;
use std::marker::Model;

/// How many stores are remembered.
const REMEMBERED: usize = 16;

/// The words of the last sixteen stores, the latest first.
#[derive(Drop)]
pub struct RecentStores {
    words: VecDeque<u64>,
}

impl Model for RecentStores {
    ghost use Rattle.std.specs.Prelude.{List, ℕ, ◌≤◌, length};
    ghost use Rattle.std.specs.VecDeque.{deque_len, deque_capacity};

    ghost Value = { List ℕ };

    ghost view = { λ r. r.words.items };

    ghost invariant = { λ r. (deque_len r.words ≤ 16) × (16 ≤ deque_capacity r.words) };
}

impl RecentStores {
    pub fn new(alloc: Global) -> Result<RecentStores, AllocError>
        ensures { IfOk result (λ r. r ≡ []) }
    {
        Ok(RecentStores {
            words: VecDeque::with_capacity(alloc, REMEMBERED)?,
        })
    }

    /// The word of the store `number` stores before the latest.
    pub fn get(&self, number: usize) -> Option<u64>
        ensures { result ≡ slice_get self.now number }
    {
        self.words.get(number).copied()
    }

    /// The word that a draw of the number writes back early, if it names one: an odd number names
    /// one of the last sixteen stores, by the four bits above its lowest.
    pub fn early_word(&self, number: u64) -> Option<u64>
        ensures { result ≡ early_word number self.now }
    {
        if number % 2 == 1 {
            self.get((number / 2 % REMEMBERED as u64) as usize)
        } else {
            None
        }
    }

    pub fn push(&mut self, word: u64)
        ensures { self.new ≡ take 16 (word ∷ self.old) }
    {
        self.words.truncate(REMEMBERED - 1);
        self.words.push_front_reserved(word);
    }
}
