//! A heap at rest, which is what recovery leaves and what an allocator begins with.

ghost use Rattle.std.specs.Prelude.{◌≡◌, ◌≤◌, ℕ, [], slice_index};
ghost use Rattle.heap_model.specs.Geometry.{largest_capacity};
ghost use Rattle.heap_model.specs.Header.{capacity_of, empty_words};
ghost use Rattle.heap_model.specs.Rest.{IsReady};

use crate::geometry::Geometry;
use crate::layout::CAPACITY_WORD;
use heap_model::Block;
use std::marker::Model;

/// A heap at rest: its words, and the blocks that are held, in order of offset. Every other block
/// is free: it stands in its superblock's chain, or its superblock in the list of the free ones.
#[derive(Drop)]
pub struct Ready {
    words: Vec<u64>,
    held: Vec<Block>,
}

impl Model for Ready {
    ghost use Rattle.heap_model.specs.Rest.{IsReady};
    ghost use Rattle.super_block.specs.Contents.{Contents};

    ghost Value = { Contents };

    ghost view = { λ a. record { words = a.words.items; held = a.held.items } };

    ghost invariant = { λ a. IsReady a.words.items a.held.items };
}

impl Ready {
    /// The heap of these words and held blocks.
    pub fn new(words: Vec<u64>, held: Vec<Block>) -> Ready
        requires { IsReady words.items held.items }
        ensures words { result.words ≡ words.items }
        ensures held { result.held ≡ held.items }
    {
        Ready { words, held }
    }

    /// The words of the image.
    pub fn words(&self) -> &[u64]
        ensures words { result.now ≡ self.now.words }
        ensures ready { IsReady self.now.words self.now.held }
    {
        &self.words
    }

    /// The held blocks, in order of offset.
    pub fn held(&self) -> &[Block]
        ensures held { result.now ≡ self.now.held }
        ensures ready { IsReady self.now.words self.now.held }
    {
        &self.held
    }

    /// The layout of the image.
    pub fn geometry(&self) -> Geometry
        ensures { result.capacity ≡ capacity_of (slice_index self.now.words) }
    {
        Geometry::new(self.words[CAPACITY_WORD as usize])
    }

    /// The words and the held blocks, which are the caller's from now on.
    pub fn into_parts(self) -> (Vec<u64>, Vec<Block>)
        ensures words { result.0.items ≡ self.words }
        ensures held { result.1.items ≡ self.held }
        ensures ready { IsReady self.words self.held }
    {
        (self.words, self.held)
    }
}

/// An empty heap is at rest, with no block held.
pub fn an_empty_heap_is_ready()
    ensures { (capacity : ℕ) → 1 ≤ capacity → capacity ≤ largest_capacity
        → IsReady (empty_words capacity) [] }
{}
