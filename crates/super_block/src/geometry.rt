//! The word indices that depend on the capacity of an image.
ghost use Rattle.std.specs.Prelude.{◌≡◌, ◌<◌, ◌≤◌};
ghost use Rattle.heap_model.specs.Geometry.{largest_capacity, info_word, anchor_word, link_word, start_word, kind_word, roots, image_words, old_image_words, superblock_of, superblocks_end};

use crate::layout::{
    ANCHOR_OFFSET, DESCRIPTOR_WORDS, FIXED_WORDS, LINK_OFFSET, ROOTS, SUPERBLOCK_WORDS,
};

/// The layout of an image of `capacity` superblocks. Its superblocks are numbered from 0.
#[derive(Clone, Copy, PartialEq, Eq, Debug)]
pub struct Geometry {
    /// How many superblocks the image has.
    pub capacity: u64,
    pub ghost some: { 1 ≤ capacity },
    pub ghost small: { capacity ≤ largest_capacity },
}

impl Geometry {
    /// The layout of an image of so many superblocks.
    pub fn new(capacity: u64) -> Self
        requires some { 1 ≤ capacity }
        requires small { capacity ≤ largest_capacity }
        ensures { result.capacity ≡ capacity }
    {
        Geometry { capacity }
    }

    /// How many superblocks the image has.
    pub fn capacity(self) -> u64
        ensures { result ≡ self.capacity }
    {
        self.capacity
    }

    /// How many words the image has.
    pub fn length(self) -> u64
        ensures { result ≡ image_words self.capacity }
    {
        self.end() + ROOTS
    }

    /// How many words an image of the old version has, which ends with its superblocks.
    pub fn old_length(self) -> u64
        ensures { result ≡ old_image_words self.capacity }
    {
        self.end()
    }

    /// The first word behind the last superblock.
    pub fn end(self) -> u64
        ensures { result ≡ superblocks_end self.capacity }
    {
        FIXED_WORDS + (DESCRIPTOR_WORDS + SUPERBLOCK_WORDS) * self.capacity
    }

    /// The word that has the kind of root `i`.
    pub fn kind(self, i: u64) -> u64
        requires { i < roots }
        ensures { result ≡ kind_word self.capacity i }
    {
        self.end() + i
    }

    /// The word that says what superblock `d` holds, the first of its descriptor.
    pub fn info(self, d: u64) -> u64
        requires { d < self.capacity }
        ensures { result ≡ info_word d }
    {
        FIXED_WORDS + DESCRIPTOR_WORDS * d
    }

    /// The word that says which blocks of superblock `d` are free.
    pub fn anchor(self, d: u64) -> u64
        requires { d < self.capacity }
        ensures { result ≡ anchor_word d }
    {
        self.info(d) + ANCHOR_OFFSET
    }

    /// The word that links superblock `d` to the next one of its list.
    pub fn link(self, d: u64) -> u64
        requires { d < self.capacity }
        ensures { result ≡ link_word d }
    {
        self.info(d) + LINK_OFFSET
    }

    /// The first word of superblock `d`.
    pub fn start(self, d: u64) -> u64
        requires { d < self.capacity }
        ensures { result ≡ start_word self.capacity d }
    {
        FIXED_WORDS + DESCRIPTOR_WORDS * self.capacity + SUPERBLOCK_WORDS * d
    }

    /// The superblock that has the word, where one does: of words behind the last superblock it is
    /// at least the capacity.
    pub fn superblock_of(self, word: u64) -> u64
        requires { start_word self.capacity 0 ≤ word }
        ensures { result ≡ superblock_of self.capacity word }
    {
        (word - self.start(0)) / SUPERBLOCK_WORDS
    }
}
