//! A block of the heap, by its first word and its size.

/// A block: `words` words of 8 bytes from word `first_word` of the image on.
#[derive(Clone, Copy, PartialEq, Eq, Debug)]
pub struct Block {
    /// The index in the image of the block's first word.
    pub first_word: u64,
    /// How many words it has.
    pub words: u64,
}
