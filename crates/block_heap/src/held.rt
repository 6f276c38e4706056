//! Which blocks are held, in room that is taken once: one mark for every two words.
ghost use Rattle.std.specs.Prelude.{◌≡◌, ◌+◌, ◌*◌, ◌<◌, ◌^◌, length, IfOk, replicate, false};
ghost use Rattle.heap_model.specs.Geometry.{superblock_words};
ghost use Rattle.block_heap.specs.Begun.{superblock_marks, IsBegun};

use heap_model::Block;
use std::alloc::{AllocError, Global};
use super_block::{Geometry, Info, LARGEST_CAPACITY, Ready, SUPERBLOCK_WORDS, block_words};

/// No block is smaller, and each begins at a multiple of it from the first superblock on.
const SMALLEST_WORDS: u64 = 2;

/// The held blocks: a mark where one begins, and how many words the blocks of each superblock have.
#[derive(Drop)]
pub(crate) struct HeldBlocks {
    start: u64,
    marks: Vec<bool>,
    words: Vec<u64>,
    ghost long: { length marks.items ≡ superblock_marks * length words.items },
    ghost short: { start + superblock_words * length words.items < 2 ^ 48 },
}

impl HeldBlocks {
    ghost use Rattle.std.specs.Prelude.{◌≡◌, ◌≢◌, ◌≤◌, ◌<◌, ◌+◌, ◌*◌, ◌/◌, ◌-◌, ◌%◌, ℕ, [], IfOk, IfSome, IfNone, length, slice_index, slice_set, Contains};
    ghost use Rattle.heap_model.specs.Geometry.{start_word};
    ghost use Rattle.heap_model.specs.declared.block.Block.{Block};
    ghost use Rattle.line_memory.specs.Marks.{IsMarked};
    ghost use Rattle.block_heap.specs.Begun.{superblock_marks};
    ghost use Rattle.block_heap.specs.Opening.{IsHeldOf};
    ghost use Rattle.block_heap.specs.Held.{held_of, HasMark, at_mark};
    ghost use Rattle.heap_shape.specs.Moves.{AddsTo, TakesFrom};

    /// No block, in a heap of this layout.
    pub(crate) fn new(alloc: Global, geometry: Geometry) -> Result<HeldBlocks, AllocError>
        ensures held { IfOk result (λ h. held_of h ≡ []) }
        ensures start { IfOk result (λ h. h.start ≡ start_word geometry.capacity 0) }
        ensures words { IfOk result (λ h. length h.words.items ≡ geometry.capacity) }
    {
        let capacity = geometry.capacity();
        let marks = capacity * (SUPERBLOCK_WORDS / SMALLEST_WORDS);
        Ok(HeldBlocks {
            start: geometry.start(0),
            marks: clear_marks(alloc, marks as usize)?,
            words: vec![in alloc; 0; capacity as usize]?,
        })
    }

    /// The held blocks of a heap at rest.
    pub(crate) fn of(alloc: Global, ready: &Ready) -> Result<HeldBlocks, AllocError>
        ensures { IfOk result (λ h. IsHeldOf ready.now.words ready.now.held h) }
    {
        let geometry = ready.geometry();
        let mut blocks = HeldBlocks::new(alloc, geometry)?;
        for d in 0..geometry.capacity() {
            let info = ready.words()[geometry.info(d) as usize];
            blocks.divide(d, words_begun(info));
        }
        for b in ready.held() {
            blocks.add(b.first_word);
        }
        Ok(blocks)
    }

    /// From now on the blocks of superblock `d`, of which none is held, have so many words.
    pub(crate) fn divide(&mut self, d: u64, words: u64)
        requires superblock { d < length self.old.words.items }
        requires none { (mark : ℕ) → IsMarked self.old.marks.items mark
            → mark / superblock_marks ≢ d }
        ensures held { held_of self.new ≡ held_of self.old }
        ensures words { self.new.words.items ≡ slice_set self.old.words.items d words }
        ensures start { self.new.start ≡ self.old.start }
    {
        self.words[d as usize] = words;
    }

    /// Holds the block that begins at the word.
    pub(crate) fn add(&mut self, first_word: u64)
        requires { HasMark self.old first_word }
        ensures held { AddsTo (at_mark self.old first_word) (held_of self.old) (held_of self.new) }
        ensures words { self.new.words.items ≡ self.old.words.items }
        ensures start { self.new.start ≡ self.old.start }
    {
        let mark = self.mark_of(first_word);
        self.marks[mark] = true;
    }

    /// Holds the block that begins at the word no more.
    pub(crate) fn remove(&mut self, first_word: u64)
        requires { HasMark self.old first_word }
        ensures held { TakesFrom (at_mark self.old first_word)
            (held_of self.old) (held_of self.new) }
        ensures words { self.new.words.items ≡ self.old.words.items }
        ensures start { self.new.start ≡ self.old.start }
    {
        let mark = self.mark_of(first_word);
        self.marks[mark] = false;
    }

    /// The block that begins at the word.
    pub(crate) fn at(&self, first_word: u64) -> Block
        requires { HasMark self.now first_word }
        ensures { result ≡ at_mark self.now first_word }
    {
        let d = (first_word - self.start) / SUPERBLOCK_WORDS;
        Block {
            first_word,
            words: self.words[d as usize],
        }
    }

    /// The held block that begins at the word, if one does.
    pub(crate) fn find(&self, first_word: u64) -> Option<Block>
        ensures some { IfSome result (λ b. Contains (held_of self.now) b
            × (b.first_word ≡ first_word)) }
        ensures none { IfNone result ((b : Block) → Contains (held_of self.now) b
            → b.first_word ≢ first_word) }
    {
        if first_word < self.start {
            return None;
        }
        let behind = first_word - self.start;
        let mark = (behind / SMALLEST_WORDS) as usize;
        if behind % SMALLEST_WORDS == 0 && mark < self.marks.len() && self.marks[mark] {
            Some(self.at(first_word))
        } else {
            None
        }
    }

    /// The number of the word's mark.
    fn mark_of(&self, first_word: u64) -> usize
        requires { HasMark self.now first_word }
        ensures within { result < length self.now.marks.items }
        ensures at { self.now.start + 2 * result ≡ first_word }
    {
        ((first_word - self.start) / SMALLEST_WORDS) as usize
    }
}

/// So many marks that are not set.
fn clear_marks(alloc: Global, count: usize) -> Result<Vec<bool>, AllocError>
    ensures { IfOk result (λ marks. marks.items ≡ replicate count false) }
{
    vec![in alloc; false; count]
}

/// How many words the blocks of a superblock of this info have; 0 where it says nothing.
#[tactic(auto, using(super_block::proofs::ConstantLemmas::largest_capacity_is))]
fn words_begun(info: u64) -> u64
    ensures { IsBegun info result }
{
    match Info::unpack(info) {
        Info::Class(class) => block_words(class),
        Info::Large(count) if count <= LARGEST_CAPACITY => SUPERBLOCK_WORDS * count,
        _ => 0,
    }
}
