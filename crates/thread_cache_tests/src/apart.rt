//! Blocks that have no word in common.

use super_block::Block;

/// Whether no word is of both blocks.
fn are_apart(a: Block, b: Block) -> bool {
    a.first_word.saturating_add(a.words) <= b.first_word
        || b.first_word.saturating_add(b.words) <= a.first_word
}

/// Whether the block is apart from each of these.
fn is_apart(b: Block, others: &[Block]) -> bool {
    for other in others {
        if !are_apart(b, *other) {
            return false;
        }
    }
    true
}

/// Whether no two of the blocks have a word in common.
pub fn are_all_apart(blocks: &[Block]) -> bool {
    for (index, b) in blocks.iter().enumerate() {
        if !is_apart(*b, blocks.get(..index).unwrap_or(&[])) {
            return false;
        }
    }
    true
}

/// Whether the last block is apart from the other ones, and from those of the other seat.
pub fn last_is_apart(given: &[Block], others: &[Block]) -> bool {
    match given.split_last() {
        Some((last, before)) => is_apart(*last, before) && is_apart(*last, others),
        None => true,
    }
}
