//! A growing set of pairs of a block and a kind, each with a mark bit by which it is found again.
ghost use Rattle.std.specs.Prelude.{◌≡◌, ◌+◌, ◌*◌, ℕ, ◌<◌, ◌≤◌, ◌^◌, [], true, false, IsTrue, length, slice_index_or, IfOk, IfErr, OnOk};
ghost use Rattle.std.specs.List.{All};
ghost use Rattle.filter_trace.specs.Pairs.{mark_of, HasMarks};

use bit_marks::BitMarks;
use heap_model::Block;
use std::alloc::{AllocError, Global};

/// Pairs of a block and a kind.
#[derive(Drop)]
pub struct PairSet {
    /// Kinds lie below this.
    pub kinds: u32,
    /// The pairs, in the order in which they came.
    pub pairs: Vec<(Block, u32)>,
    /// For each word of the image and each kind, whether the block that begins there is in the set.
    pub marks: BitMarks,
}

impl PairSet {
    ghost use Rattle.filter_trace.specs.Steps.{Adds, HasSamePairs, IsMarkedAt};

    /// The empty set, for the blocks of an image of so many words.
    pub fn new(alloc: Global, words: usize, kinds: u32) -> Result<Self, AllocError>
        requires { words < 2 ^ 31 }
        ensures kinds { IfOk result (λ set. set.kinds ≡ kinds) }
        ensures empty { IfOk result (λ set. set.pairs.items ≡ []) }
        ensures room { IfOk result (λ set. HasMarks words kinds set.marks) }
        ensures clear { IfOk result (λ set. All (λ mark. mark ≡ false) set.marks) }
    {
        Ok(PairSet {
            kinds,
            pairs: Vec::new(alloc),
            marks: BitMarks::new(alloc, words as u64 * kinds as u64)?,
        })
    }

    /// Adds the pair, unless it is there. Where memory runs out the set stays as it was.
    pub fn insert(&mut self, block: Block, kind: u32) -> Result<(), AllocError>
        requires here { mark_of self.old.kinds block kind < length self.old.marks }
        requires short { length self.old.marks < 2 ^ 64 }
        ensures kinds { self.new.kinds ≡ self.old.kinds }
        ensures ok { OnOk result (Adds block kind self.old self.new) }
        ensures err { IfErr result (λ _. HasSamePairs self.old self.new) }
    {
        let mark = mark_at(self.kinds, block.first_word, kind) as u64;
        if self.marks.get(mark) {
            return Ok(());
        }
        self.pairs.push((block, kind))?;
        self.marks.set(mark);
        Ok(())
    }

    /// Whether the pair is marked.
    pub fn has(&self, block: Block, kind: u32) -> bool
        requires here { mark_of self.now.kinds block kind < length self.now.marks }
        requires short { length self.now.marks < 2 ^ 64 }
        ensures { result ≡ slice_index_or self.now.marks (mark_of self.now.kinds block kind) false }
    {
        let mark = mark_at(self.kinds, block.first_word, kind);
        self.marks.get(mark as u64)
    }

    /// Whether some kind is marked at the word.
    pub fn holds_at(&self, word: u64) -> bool
        requires early { word < 2 ^ 32 }
        requires short { length self.now.marks < 2 ^ 64 }
        ensures some { IsTrue result → (kind : ℕ) × (kind < self.now.kinds)
            × IsMarkedAt self.now word kind }
        ensures each { (kind : ℕ) → kind < self.now.kinds → IsMarkedAt self.now word kind
            → IsTrue result }
    {
        for kind in 0..self.kinds {
            let mark = mark_at(self.kinds, word, kind) as u64;
            if mark < self.marks.len() && self.marks.get(mark) {
                return true;
            }
        }
        false
    }
}

/// The index of the mark of a block that begins at the word, as one of the kind, where each word
/// has a mark for each of so many kinds.
pub fn mark_at(kinds: u32, word: u64, kind: u32) -> usize
    requires { word * kinds + kind < 2 ^ 64 }
    ensures { result ≡ word * kinds + kind }
{
    (word * kinds as u64 + kind as u64) as usize
}
