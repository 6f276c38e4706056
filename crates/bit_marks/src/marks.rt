//! Marks, one bit each, in words of 64.

ghost use Rattle.std.specs.Prelude.{◌≡◌, ◌≢◌, ◌<◌, ◌*◌, ◌/◌, ℕ, get_or, length, replicate, slice_set, true, false, IfOk, IfSome, IsNone};
ghost use Rattle.bit_marks.specs.Marks.{is_one};

use std::alloc::{AllocError, Global};
use std::marker::Model;

/// How many marks a word holds.
const WORD: u64 = 64;

/// The marks of eight numbers.
const EIGHT: u64 = 255;

/// A mark for each number below a length.
#[derive(Drop)]
pub struct BitMarks {
    words: Vec<u64>,
    below: u64,
}

impl Model for BitMarks {
    ghost use Rattle.std.specs.Prelude.{List, Bool, ◌≤◌, ◌*◌, length};
    ghost use Rattle.bit_marks.specs.Marks.{marks_of};

    ghost Value = { List Bool };

    ghost view = { λ m. marks_of m.words.items m.below };

    ghost invariant = { λ m. m.below ≤ 64 * length m.words.items };
}

impl BitMarks {
    /// No mark below the length.
    pub fn new(alloc: Global, length: u64) -> Result<BitMarks, AllocError>
        ensures { IfOk result (λ m. m ≡ replicate length false) }
    {
        let words = vec![in alloc; 0; length.div_ceil(WORD) as usize]?;
        Ok(BitMarks {
            words,
            below: length,
        })
    }

    /// How many numbers there are.
    pub fn len(&self) -> u64
        ensures { result ≡ length self.now }
    {
        self.below
    }

    /// Whether the number is marked.
    pub fn get(&self, n: u64) -> bool
        requires { n < length self.now }
        ensures { result ≡ get_or self.now n false }
    {
        is_set(self.words[(n / WORD) as usize], n % WORD)
    }

    /// The first marked number of a group of 64, as 64 to 127 are those of group 1.
    pub fn first_in(&self, group: u64) -> Option<u64>
        ensures some { IfSome result (λ n. (get_or self.now n false ≡ true) × (n / 64 ≡ group)) }
        ensures none { IsNone result → (n : ℕ) → n / 64 ≡ group → get_or self.now n false ≡ false }
    {
        if group >= self.below.div_ceil(WORD) {
            return None;
        }
        let word = self.words[group as usize];
        if word == 0 {
            return None;
        }
        let n = WORD * group + lowest_bit(word);
        if n >= self.below {
            return None;
        }
        Some(n)
    }

    /// Marks the number.
    pub fn set(&mut self, n: u64)
        requires { n < length self.old }
        ensures { self.new ≡ slice_set self.old n true }
    {
        let at = (n / WORD) as usize;
        self.words[at] = self.words[at] | 1 << (n % WORD);
    }

    /// Marks the numbers of a group of eight, as 8 to 15 are those of group 1.
    pub fn set_eight(&mut self, eight: u64)
        requires { 8 * eight < length self.old }
        ensures len { length self.new ≡ length self.old }
        ensures inside { (n : ℕ) → n < length self.old → n / 8 ≡ eight
            → get_or self.new n false ≡ true }
        ensures others { (n : ℕ) → n / 8 ≢ eight → get_or self.new n false ≡ get_or self.old n false }
    {
        let at = (eight / 8) as usize;
        self.words[at] = self.words[at] | EIGHT << (8 * (eight % 8));
    }

    /// Takes the number's mark back.
    pub fn clear(&mut self, n: u64)
        requires { n < length self.old }
        ensures { self.new ≡ slice_set self.old n false }
    {
        let at = (n / WORD) as usize;
        self.words[at] = self.words[at] & !(1 << (n % WORD));
    }
}

/// Whether a bit of a word is one.
fn is_set(word: u64, bit: u64) -> bool
    requires { bit < 64 }
    ensures { result ≡ is_one word bit }
{
    word >> bit & 1 == 1
}

/// The lowest bit of a word that is one.
fn lowest_bit(word: u64) -> u64
    requires { 0 < word }
    ensures below { result < 64 }
    ensures one { is_one word result ≡ true }
    ensures lowest { (bit : ℕ) → bit < result → is_one word bit ≡ false }
{
    word.trailing_zeros() as u64
}
