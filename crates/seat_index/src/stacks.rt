//! The first words of a cache's blocks, as a stack, so that the next one is told with no load.

ghost use Rattle.std.specs.Prelude.{◌≡◌, ◌<◌, ◌≤◌, ◌+◌, ◌*◌, ℕ, List, ◌∷◌, drop, length, IfOk, IfSome};
ghost use Rattle.core_model.specs.Effects.{first_of, rest_of, steps};
ghost use Rattle.seat_index.specs.Stacks.{IsTopOf};

use std::alloc::{AllocError, Global};

/// The topmost blocks of a cache, from `top` on, the first one first; in room for as many as a
/// superblock has of the class. What lies deeper is found by loads. A word's place fits 32 bits.
#[derive(Drop)]
pub struct Stack {
    pub blocks: Vec<u32>,
    pub top: usize,
}

impl Stack {
    /// An empty one.
    pub(crate) fn new(alloc: Global, room: usize) -> Result<Stack, AllocError>
        ensures room { IfOk result (λ s. length s.blocks.items ≡ room) }
        ensures empty { IfOk result (λ s. s.top ≡ room) }
    {
        let blocks = vec![in alloc; 0; room]?;
        Ok(Stack { blocks, top: room })
    }

    /// The blocks.
    pub fn cached(&self) -> &[u32]
        requires { self.now.top ≤ length self.now.blocks.items }
        ensures { result.now ≡ drop self.now.top self.now.blocks.items }
    {
        &self.blocks[self.top..]
    }

    /// The second block, if it is there.
    pub fn second(&self) -> Option<u64>
        requires { self.now.top ≤ length self.now.blocks.items }
        ensures { (cache : List ℕ) → IsTopOf self.now cache
            → IfSome result (λ b. first_of (rest_of cache) ≡ b) }
    {
        if self.blocks.len() - self.top < 2 {
            return None;
        }
        Some(self.blocks[self.top + 1] as u64)
    }

    /// Takes the first block off.
    pub(crate) fn pop(&mut self)
        ensures blocks { self.new.blocks ≡ self.old.blocks }
        ensures rest { (cache : List ℕ) → IsTopOf self.old cache
            → IsTopOf self.new (rest_of cache) }
    {
        if self.top < self.blocks.len() {
            self.top += 1;
        }
    }

    /// Puts a block in front; where there is no room, the others are left to loads.
    pub(crate) fn push(&mut self, block: u64)
        requires inside { self.old.top ≤ length self.old.blocks.items }
        requires some { 1 ≤ length self.old.blocks.items }
        requires fits { block < 4294967296 }
        ensures room { length self.new.blocks.items ≡ length self.old.blocks.items }
        ensures front { (cache : List ℕ) → IsTopOf self.old cache
            → IsTopOf self.new (block ∷ cache) }
    {
        self.make_room();
        self.top -= 1;
        self.blocks[self.top] = block as u32;
    }

    /// Leaves all blocks to loads, if there is no room for one more.
    fn make_room(&mut self)
        requires some { 1 ≤ length self.old.blocks.items }
        ensures blocks { self.new.blocks ≡ self.old.blocks }
        ensures room { 1 ≤ self.new.top }
        ensures inside { self.old.top ≤ length self.old.blocks.items
            → self.new.top ≤ length self.new.blocks.items }
        ensures same { (cache : List ℕ) → IsTopOf self.old cache → IsTopOf self.new cache }
    {
        if self.top == 0 {
            self.top = self.blocks.len();
        }
    }

    /// Holds blocks from one on, so many words apart, as many as there is room for.
    pub(crate) fn fill(&mut self, first: u64, apart: u64)
        requires { first + length self.old.blocks.items * apart < 4294967296 }
        ensures blocks { self.new.blocks.items
            ≡ steps first apart (length self.old.blocks.items) }
        ensures top { self.new.top ≡ 0 }
    {
        let mut block = first;
        for i in 0..self.blocks.len() {
            self.blocks[i] = block as u32;
            block += apart;
        }
        self.top = 0;
    }
}
