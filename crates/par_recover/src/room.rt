//! Room for the held blocks, made beside the trace.
ghost use Rattle.std.specs.Prelude.{◌≡◌, ◌*◌, ◌≤◌, [], IfOk, length, slice_index};
ghost use Rattle.heap_model.specs.Header.{IsWellFormed};

use anchor_word::{Anchor, State, unpack};
use size_table::blocks_of;
use std::alloc::{AllocError, Global};
use super_block::{Block, CAPACITY_WORD, Geometry, Info, USED_WORD};

/// What room is filled with first.
const NO_BLOCK: Block = Block {
    first_word: 0,
    words: 0,
};

/// How many blocks an image is expected to hold: those of its superblocks that no anchor tells to be
/// free. A crash may leave other anchors, so it is a guess, and no more than the image has words.
pub fn expected_blocks(words: &[u64]) -> usize
    requires { IsWellFormed (8 * length words.now) (slice_index words.now) }
    ensures { result ≤ length words.now }
{
    let geometry = Geometry::new(words[CAPACITY_WORD as usize]);
    let mut blocks = 0u64;
    for d in 0..words[USED_WORD as usize] {
        let info = words[geometry.info(d) as usize];
        blocks = blocks.saturating_add(expected_in(info, words[geometry.anchor(d) as usize]));
    }
    words.len().min(blocks as usize)
}

/// The same of a superblock with this info and this anchor.
fn expected_in(info: u64, anchor: u64) -> u64 {
    let blocks = match Info::unpack(info) {
        Info::Class(class) => blocks_of(class.number),
        Info::Large(_) => 1,
        Info::Nothing => 0,
    };
    match unpack(anchor) {
        Some(
            Anchor {
                state: State::Partial,
                count,
                ..
            },
        ) => blocks.saturating_sub(count),
        _ => blocks,
    }
}

/// Room for so many blocks, all of which has been written once: the first write to a page takes
/// longer than what is then stored in it.
pub fn room_for(alloc: Global, blocks: usize) -> Result<Vec<Block>, AllocError>
    ensures { IfOk result (λ room. room.items ≡ []) }
{
    let mut room = vec![in alloc; NO_BLOCK; blocks]?;
    room.clear();
    Ok(room)
}
