//! An image in which two blocks of the last class are held.
use crate::words::write;
use std::alloc::Global;
use std::test::Fail;
use super_block::{Block, CLEAN, MAGIC, VERSION};

/// The two blocks that are held, the first and the third.
pub const HELD: [Block; 2] = [
    Block {
        first_word: 1_072,
        words: 1_792,
    },
    Block {
        first_word: 4_656,
        words: 1_792,
    },
];

/// Words of theirs.
pub const WORDS: [(usize, u64); 4] = [(1_072, 7), (2_000, 11), (4_656, 3), (6_447, 13)];

/// The image, of one superblock: roots 8 and 9 lead to the two blocks, and a block beside them has
/// a word too. All roots have kind 0.
pub fn image(alloc: Global) -> Result<Vec<u64>, Fail> {
    let mut image = vec![in alloc; 0; 10_288]?;
    let words = [
        (0, MAGIC),
        (1, VERSION),
        (2, 1),
        (3, CLEAN),
        (8, 1),
        (48, 0x5250_0000_0000_2180),
        (49, 0x5250_0000_0000_9180),
        (1_064, 20),
        (1_065, 9),
        (2_864, 5),
    ];
    write(&mut image, &words);
    write(&mut image, &WORDS);
    Ok(image)
}
