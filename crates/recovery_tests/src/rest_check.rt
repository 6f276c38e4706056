//! A plain slow check of what a heap at rest is: nothing of recovery or of its proof stands in it.
use anchor_word::{State, unpack};
use heap_recover::Recovered;
use region_header::read_header;
use size_table::{SizeClass, blocks_of};
use super_block::{
    Block, CAPACITY_WORD, DESCRIPTOR_WORDS, FIXED_WORDS, HEAD_WORD, Info, LISTS, SUPERBLOCK_WORDS,
    USED_WORD, VERSION, block_words,
};

fn word(words: &[u64], at: u64) -> u64 {
    words.get(at as usize).copied().unwrap_or(0)
}

// A word of the descriptor of superblock d: the info is word 0, the anchor 1, the link 2.
fn descriptor(words: &[u64], d: u64, at: u64) -> u64 {
    word(
        words,
        d.wrapping_mul(DESCRIPTOR_WORDS)
            .wrapping_add(FIXED_WORDS)
            .wrapping_add(at),
    )
}

/// The first word of superblock d of an image of this capacity.
pub fn start(capacity: u64, d: u64) -> u64 {
    capacity
        .wrapping_mul(DESCRIPTOR_WORDS)
        .wrapping_add(d.wrapping_mul(SUPERBLOCK_WORDS))
        .wrapping_add(FIXED_WORDS)
}

// The class for which superblock d has been taken, if for one.
fn class_in(words: &[u64], d: u64) -> Option<SizeClass> {
    match Info::unpack(descriptor(words, d, 0)) {
        Info::Class(class) => Some(class),
        _ => None,
    }
}

// Whether a block of the class begins at the word, in superblock d.
fn begins_block(words: &[u64], d: u64, class: SizeClass, at: u64) -> bool {
    let size = block_words(class);
    let offset = at.wrapping_sub(start(word(words, CAPACITY_WORD), d));
    offset.checked_rem(size) == Some(0) && offset < size.wrapping_mul(blocks_of(class.number))
}

// Whether the image has this block.
fn is_block(words: &[u64], block: &Block) -> bool {
    let capacity = word(words, CAPACITY_WORD);
    let d = block.first_word.wrapping_sub(start(capacity, 0)) / SUPERBLOCK_WORDS;
    let used = word(words, USED_WORD);
    if d >= used {
        return false;
    }
    match Info::unpack(descriptor(words, d, 0)) {
        Info::Nothing => false,
        Info::Class(class) => {
            block.words == block_words(class) && begins_block(words, d, class, block.first_word)
        }
        Info::Large(count) => {
            block.first_word == start(capacity, d)
                && block.words == count.wrapping_mul(SUPERBLOCK_WORDS)
                && count <= used.wrapping_sub(d)
                && (1..count).all(|i| descriptor(words, d.wrapping_add(i), 0) == 0)
        }
    }
}

// Whether the held blocks are blocks of the image, from the lowest to the highest.
fn are_held(words: &[u64], held: &[Block]) -> bool {
    let mut last = 0;
    for block in held {
        if block.first_word <= last || !is_block(words, block) {
            return false;
        }
        last = block.first_word;
    }
    true
}

// How often the list has superblock d, or more than once where its numbers do not ascend to a 0.
fn times_listed(words: &[u64], list: u64, d: u64) -> u64 {
    let mut number = word(words, list.wrapping_add(HEAD_WORD));
    let mut last = 0;
    let mut times = 0u64;
    for _ in 0..word(words, CAPACITY_WORD) {
        if number == 0 {
            return times;
        }
        if number <= last || number > word(words, USED_WORD) {
            return 2;
        }
        if number.wrapping_sub(1) == d {
            times = times.wrapping_add(1);
        }
        last = number;
        number = descriptor(words, number.wrapping_sub(1), 2);
    }
    if number == 0 { times } else { 2 }
}

// Whether superblock d is in this list alone, or in none at `LISTS`.
fn is_listed_in(words: &[u64], list: u64, d: u64) -> bool {
    (0..LISTS).all(|other| times_listed(words, other, d) == u64::from(other == list))
}

// Whether the anchor of superblock d leads along ascending blocks of the class that are not held.
fn is_chained(words: &[u64], held: &[Block], d: u64, class: SizeClass) -> bool {
    let Some(anchor) = unpack(descriptor(words, d, 1)) else {
        return false;
    };
    let first = anchor.first.wrapping_mul(block_words(class));
    let mut at = start(word(words, CAPACITY_WORD), d).wrapping_add(first);
    let mut last = 0;
    for _ in 0..anchor.count {
        let is_free = begins_block(words, d, class, at)
            && !held.iter().any(|block| block.first_word == at);
        if at <= last || !is_free {
            return false;
        }
        last = at;
        at = word(words, at);
    }
    true
}

// Whether superblock d, which has been taken, is as in a heap at rest: each of its blocks is held,
// or in its chain.
fn is_right(words: &[u64], held: &[Block], d: u64) -> bool {
    let begin = start(word(words, CAPACITY_WORD), d);
    let end = begin.wrapping_add(SUPERBLOCK_WORDS);
    let Some(anchor) = unpack(descriptor(words, d, 1)) else {
        return false;
    };
    let is_full = anchor.state == State::Full && anchor.first == 0 && anchor.count == 0;
    let inside = held
        .iter()
        .filter(|block| block.first_word < end
            && begin < block.first_word.wrapping_add(block.words))
        .count() as u64;
    if inside == 0 {
        return (0..2u64).all(|at| descriptor(words, d, at) == 0) && is_listed_in(words, 0, d);
    }
    let Some(class) = class_in(words, d) else {
        return is_full && is_listed_in(words, LISTS, d);
    };
    let free = blocks_of(class.number).wrapping_sub(inside);
    if free == 0 {
        return is_full && is_listed_in(words, LISTS, d);
    }
    anchor.state == State::Partial
        && anchor.count == free
        && is_listed_in(words, u64::from(class.number), d)
        && is_chained(words, held, d, class)
}

// Whether superblock d, which has not been taken, is so: its descriptor is clear, and in no list.
fn is_untaken(words: &[u64], d: u64) -> bool {
    (0..3u64).all(|at| descriptor(words, d, at) == 0) && is_listed_in(words, LISTS, d)
}

/// Whether what recovery gave back is a heap at rest that has been opened.
pub fn is_at_rest(recovered: &Recovered) -> bool {
    let words = recovered.heap.words();
    let held = recovered.heap.held();
    let used = word(words, USED_WORD);
    read_header(words, Some(3)).is_ok_and(|header| header.version == VERSION && !header.clean)
        && are_held(words, held)
        && (0..used).all(|d| is_right(words, held, d))
        && (used..word(words, CAPACITY_WORD)).all(|d| is_untaken(words, d))
}
