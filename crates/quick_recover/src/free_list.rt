//! The free list of an image, followed from its head.
ghost use Rattle.std.specs.Prelude.{◌≡◌, ◌↔◌, ◌<◌, ℕ, List, true, IfOk, MatchOption, length, slice_index};
ghost use Rattle.heap_model.specs.Geometry.{image_words};
ghost use Rattle.heap_model.specs.Words.{anchor_state, empty_state};
ghost use Rattle.quick_recover.specs.Anchored.{IsReadable, IsDisorderly, HasFreeList};

use anchor_word::{State, unpack};
use bit_marks::BitMarks;
use std::alloc::{AllocError, Global};
use super_block::{Geometry, HEAD_WORD, ListHead, ListLink};

/// Marks on the superblocks of the free list, or `None` where the list has one that was not taken,
/// one with another anchor than an empty one, or one twice.
pub fn free_superblocks(
    alloc: Global,
    words: &[u64],
    geometry: &Geometry,
    used: u64,
) -> Result<Option<BitMarks>, AllocError>
    requires readable { IsReadable words.now geometry.now.capacity used }
    ensures ok { IfOk result (λ found. MatchOption found (IsDisorderly (slice_index words.now))
        (λ marks. HasFreeList (slice_index words.now) marks)) }
{
    let mut marks = BitMarks::new(alloc, used)?;
    let mut next = ListHead::unpack(words[HEAD_WORD as usize]).first;
    for _count in 0..used + 1 {
        let d = match next {
            Some(d) => d,
            None => return Ok(Some(marks)),
        };
        if d >= used || marks.get(d) || !is_empty(words[geometry.anchor(d) as usize]) {
            return Ok(None);
        }
        marks.set(d);
        next = ListLink::unpack(words[geometry.link(d) as usize]).next;
    }
    Ok(None)
}

/// Whether the anchor says that all blocks are free.
fn is_empty(anchor: u64) -> bool
    ensures { (result ≡ true) ↔ (anchor_state anchor ≡ empty_state) }
{
    match unpack(anchor) {
        Some(parts) => match parts.state {
            State::Empty => true,
            State::Partial | State::Full => false,
        },
        None => false,
    }
}
