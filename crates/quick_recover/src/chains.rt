//! The blocks of a superblock of a class that its anchor tells to be free.
ghost use Rattle.std.specs.Prelude.{◌≡◌, ◌+◌, ◌*◌, ◌<◌, ◌≤◌, ℕ, IfOk, IfSome, IfNone, MatchOption, slice_index};
ghost use Rattle.heap_model.specs.Header.{used_of};
ghost use Rattle.heap_model.specs.Sizes.{blocks_of};
ghost use Rattle.heap_at_rest.specs.Orderly.{HasOrderlyAnchor};
ghost use Rattle.quick_recover.specs.Anchored.{IsReadable, TellsFree, HasChain, HasNoChain, block_word};

use anchor_word::{Anchor, FULL, State, pack, unpack};
use bit_marks::BitMarks;
use size_table::{SizeClass, blocks_of};
use std::alloc::{AllocError, Global};
use super_block::{Geometry, block_words};

/// Which blocks of a superblock are free.
#[derive(Drop)]
pub enum FreeBlocks {
    /// All of them.
    All,
    /// Not all: those whose index is marked.
    Marked(BitMarks),
}

/// The blocks of superblock `d`, of the class, that its anchor tells to be free, or `None` where
/// the anchor can't be relied on. Of a full superblock no word is read.
pub fn free_blocks(
    alloc: Global,
    words: &[u64],
    geometry: &Geometry,
    d: u64,
    class: SizeClass,
) -> Result<Option<FreeBlocks>, AllocError>
    requires readable { IsReadable words.now geometry.now.capacity
        (used_of (slice_index words.now)) }
    requires superblock { d < geometry.now.capacity }
    ensures ok { IfOk result (λ found. MatchOption found
        (HasOrderlyAnchor (slice_index words.now) class.number d → ⊥)
        (TellsFree (slice_index words.now) class.number d)) }
{
    let word = words[geometry.anchor(d) as usize];
    if word == pack(&FULL) {
        let none = BitMarks::new(alloc, blocks_of(class.number))?;
        return Ok(Some(FreeBlocks::Marked(none)));
    }
    let Some(anchor) = unpack(word) else {
        return Ok(None);
    };
    match anchor.state {
        State::Empty => Ok(Some(FreeBlocks::All)),
        State::Full => Ok(None),
        State::Partial => {
            match chained_blocks(alloc, words, geometry, d, class, &anchor)? {
                Some(marks) => Ok(Some(FreeBlocks::Marked(marks))),
                None => Ok(None),
            }
        }
    }
}

/// Marks on the blocks of the chain that a partial anchor leads along, or `None` where it leads to
/// another word than the first one of a block of this superblock, or to one twice, or counts none
/// or all.
fn chained_blocks(
    alloc: Global,
    words: &[u64],
    geometry: &Geometry,
    d: u64,
    class: SizeClass,
    anchor: &Anchor,
) -> Result<Option<BitMarks>, AllocError>
    requires readable { IsReadable words.now geometry.now.capacity
        (used_of (slice_index words.now)) }
    requires superblock { d < geometry.now.capacity }
    requires first { anchor.now.first < 2147483648 }
    ensures ok { IfOk result (λ found. MatchOption found
        (HasNoChain (slice_index words.now) geometry.now.capacity class.number d
        anchor.now.first anchor.now.count)
        (HasChain (slice_index words.now) geometry.now.capacity class.number d
        anchor.now.first anchor.now.count)) }
{
    let blocks = blocks_of(class.number);
    if anchor.count == 0 || anchor.count >= blocks {
        return Ok(None);
    }
    let mut marks = BitMarks::new(alloc, blocks)?;
    let mut next = geometry.start(d) + anchor.first * block_words(class);
    for _count in 0..anchor.count {
        let Some(index) = index_of(geometry, d, class, next) else {
            return Ok(None);
        };
        if marks.get(index) {
            return Ok(None);
        }
        marks.set(index);
        next = words[next as usize];
    }
    Ok(Some(marks))
}

/// The index of the block of superblock `d`, of the class, that begins with the word.
fn index_of(geometry: &Geometry, d: u64, class: SizeClass, word: u64) -> Option<u64>
    requires superblock { d < geometry.now.capacity }
    ensures some { IfSome result (λ index. (index < blocks_of class.number)
        × (word ≡ block_word geometry.now.capacity class.number d index)) }
    ensures none { IfNone result ((index : ℕ) → index < blocks_of class.number
        → word ≡ block_word geometry.now.capacity class.number d index → ⊥) }
{
    let start = geometry.start(d);
    let size = block_words(class);
    if word < start || (word - start) % size != 0 {
        return None;
    }
    let index = (word - start) / size;
    if index < blocks_of(class.number) {
        return Some(index);
    }
    None
}
