//! Which block a byte offset names.

ghost use Rattle.std.specs.Prelude.{◌≡◌, ◌<◌, ◌≤◌, ◌+◌, ◌*◌, ◌^◌, ℕ, length, slice_index, IfSome, IfNone};
ghost use Rattle.heap_model.specs.declared.block.Block.{Block};
ghost use Rattle.heap_model.specs.Header.{IsWellFormed};
ghost use Rattle.heap_model.specs.Blocks.{Layout, Names, NamesIn};
ghost use Rattle.heap_model.specs.Recovered.{IsBlockOfClass};
ghost use Rattle.heap_model.specs.Geometry.{start_word, largest_capacity};
ghost use Rattle.heap_model.specs.Sizes.{blocks_of};
ghost use Rattle.super_block.specs.Division.{IsPlaceOf, IsFound};

use crate::division::{Division, class_division, division_at};
use crate::geometry::Geometry;
use crate::layout::{
    CAPACITY_WORD, DESCRIPTOR_WORDS, FIXED_WORDS, SUPERBLOCK_WORDS, USED_WORD, WORD_BYTES,
};
use heap_model::Block;
use size_table::SizeClass;

/// A word of a superblock: which superblock, and how many words from its start.
#[derive(Clone, Copy)]
pub(crate) struct Place {
    pub(crate) superblock: u64,
    pub(crate) within: u64,
}

/// The block that the byte offset names, or `None` where it names nothing: it is no block's first
/// byte. The header is well formed.
pub fn name(words: &[u64], offset: u64) -> Option<Block>
    requires { IsWellFormed (8 * length words.now) (slice_index words.now) }
    ensures some { IfSome result (Names (slice_index words.now) offset) }
    ensures none { IfNone result ((b : Block) → Names (slice_index words.now) offset b → ⊥) }
{
    let capacity = words[CAPACITY_WORD as usize];
    let Some(place) = place_of(capacity, offset) else {
        return None;
    };
    if place.superblock >= words[USED_WORD as usize] {
        return None;
    }
    let Some(division) = division_at(words, place.superblock) else {
        return None;
    };
    block_in(capacity, place, division)
}

/// Where the byte offset lies, or `None` where it is no word of a superblock.
pub(crate) fn place_of(capacity: u64, offset: u64) -> Option<Place>
    requires { capacity ≤ largest_capacity }
    ensures some { IfSome result (IsPlaceOf capacity offset) }
    ensures none { IfNone result ((d within : ℕ)
        → offset ≡ 8 * (start_word capacity d + within) → ⊥) }
{
    let start = FIXED_WORDS + DESCRIPTOR_WORDS * capacity;
    let word = offset / WORD_BYTES;
    if offset % WORD_BYTES != 0 || word < start {
        return None;
    }
    Some(Place {
        superblock: (word - start) / SUPERBLOCK_WORDS,
        within: (word - start) % SUPERBLOCK_WORDS,
    })
}

/// The block that begins at the place, where its superblock is divided so.
pub(crate) fn block_in(capacity: u64, place: Place, division: Division) -> Option<Block>
    requires capacity { capacity ≤ largest_capacity }
    requires superblock { place.superblock < 2 ^ 48 }
    requires inside { place.within < 2 ^ 48 }
    requires words { 1 ≤ division.words }
    ensures some { (l : Layout) (offset : ℕ) → IsFound l offset capacity place division
        → IfSome result (NamesIn l offset) }
    ensures none { (l : Layout) (offset : ℕ) → IsFound l offset capacity place division
        → IfNone result ((b : Block) → NamesIn l offset b → ⊥) }
{
    if place.within % division.words != 0 {
        return None;
    }
    if place.within / division.words >= division.count {
        return None;
    }
    Some(Block {
        first_word: start_of(capacity, place.superblock) + place.within,
        words: division.words,
    })
}

/// The first word of the superblock.
pub(crate) fn start_of(capacity: u64, superblock: u64) -> u64
    requires capacity { capacity ≤ largest_capacity }
    requires superblock { superblock < 2 ^ 48 }
    ensures { result ≡ start_word capacity superblock }
{
    FIXED_WORDS + DESCRIPTOR_WORDS * capacity + SUPERBLOCK_WORDS * superblock
}

/// Block `index` of superblock `d` when that is divided into blocks of the class.
pub fn block_at(geometry: &Geometry, d: u64, index: u64, class: SizeClass) -> Block
    requires superblock { d < geometry.now.capacity }
    requires index { index < blocks_of class.number }
    ensures { IsBlockOfClass geometry.now.capacity class.number d index result }
{
    let words = class_division(class).words;
    Block {
        first_word: geometry.start(d) + index * words,
        words,
    }
}
