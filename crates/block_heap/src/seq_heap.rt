//! An open heap for one thread.
ghost use Rattle.std.specs.Prelude.{◌≡◌};
ghost use Rattle.block_heap.specs.declared.seq_heap.DrainFault.TheVariants.{Memory as MemoryFault, Stopped as StoppedFault};
ghost use Rattle.block_heap.specs.Held.{held_of};
ghost use Rattle.block_heap.specs.MediumView.{medium_view};
ghost use Rattle.block_heap.specs.AllocatorWords.{IsLasting};

use crate::alloc::Asked;
use crate::arena::Arena;
use heap_model::Block;
use heap_seat::Looks;
use line_memory::{Chance, Closed, Stopped};
use size_table::{SizeClass, blocks_of, size_of};
use std::alloc::{AllocError, Global};
use std::marker::Model;
use super_block::{Ready, WORD_BYTES};

/// A heap for one thread over a `PlainMemory`.
#[derive(Drop)]
pub struct SeqHeap<C> {
    pub(crate) arena: Arena<C>,
    pub(crate) stopped: Option<u64>,
    pub(crate) small_calls: u64,
    pub(crate) large_calls: u64,
    pub(crate) refusals: u64,
    pub(crate) refused_bytes: u64,
    pub(crate) refused_looks: Looks,
    ghost lasts: { ∥ IsLasting arena.geometry.capacity (medium_view arena.medium)
        (held_of arena.held) stopped ∥₁ },
}

/// Why a class was not drained.
#[derive(Clone, Copy, PartialEq, Eq, Debug)]
pub enum DrainFault {
    /// The budget of steps is used up.
    Stopped(Stopped),
    /// Memory ran out.
    Memory,
}

impl<C> Model for SeqHeap<C> {
    ghost use Rattle.block_heap.specs.Parts.{parts_of};
    ghost use Rattle.block_heap.specs.SeqState.{SeqState, IsSeqHeap};

    ghost Value = { SeqState };

    ghost view = { λ s. record {
      parts = parts_of s.arena;
      stopped = s.stopped;
      small_calls = s.small_calls;
      large_calls = s.large_calls;
      refusals = s.refusals;
      refused_bytes = s.refused_bytes;
      refused_looks = s.refused_looks;
      lasts = s.lasts;
    } };

    ghost invariant = { λ s. IsSeqHeap (record {
      parts = parts_of s.arena;
      stopped = s.stopped;
      small_calls = s.small_calls;
      large_calls = s.large_calls;
      refusals = s.refusals;
      refused_bytes = s.refused_bytes;
      refused_looks = s.refused_looks;
      lasts = s.lasts;
    }) };
}

impl From<AllocError> for DrainFault {
    ghost from_gives = { λ _ fault. fault ≡ MemoryFault };

    fn from(_error: AllocError) -> DrainFault {
        DrainFault::Memory
    }
}

impl From<Stopped> for DrainFault {
    ghost from_gives = { λ stopped fault. fault ≡ StoppedFault stopped };

    fn from(stopped: Stopped) -> DrainFault {
        DrainFault::Stopped(stopped)
    }
}

impl<C: Chance> SeqHeap<C> {
    ghost use Rattle.std.specs.Prelude.{◌≡◌, ◌≢◌, ◌+◌, ◌*◌, ◌<◌, ◌≤◌, ◌^◌, IfOk, OnOk, IfErr, IfSome, IfNone, None, Some, Contains, slice_index};
    ghost use Rattle.heap_model.specs.declared.block.Block.{Block};
    ghost use Rattle.heap_model.specs.Durability.{IsCrashImage, IsClosedImage, NamesAreDurable};
    ghost use Rattle.line_memory.specs.ClosedWords.{volatile_words, durable_words};
    ghost use Rattle.line_memory.specs.View.{volatile_at, durable_at};
    ghost use Rattle.line_memory.specs.declared.memory.Stopped.{Stopped};
    ghost use Rattle.heap_model.specs.Geometry.{used_word};
    ghost use Rattle.heap_model.specs.Image.{Image};
    ghost use Rattle.heap_model.specs.Sizes.{IsClass};
    ghost use Rattle.block_heap.specs.Parts.{held_in};
    ghost use Rattle.block_heap.specs.Requests.{IsDrainableFor, Drains, KeepsHeld, HoldsDrained, StopsDrain};
    ghost use Rattle.block_heap.specs.Serving.{HasRoom};
    ghost use Rattle.block_heap.specs.SeqState.{MayLeave};
    ghost use Rattle.heap_seat.specs.Words.{NamesAll};
    ghost use Rattle.block_heap.specs.Closing.{IsOpened, KeepsFixed};

    /// Opens the heap with a budget of so many steps.
    pub fn new(alloc: Global, heap: Ready, budget: u64, chance: C) -> Result<SeqHeap<C>, AllocError>
        requires { budget < 2 ^ 40 }
        ensures { IfOk result (λ s. IsOpened heap.words heap.held budget s) }
    {
        Ok(SeqHeap {
            arena: Arena::new(alloc, heap, budget, chance)?,
            stopped: None,
            small_calls: 0,
            large_calls: 0,
            refusals: 0,
            refused_bytes: 0,
            refused_looks: Looks {
                class_head: 0,
                free_head: 0,
                used: 0,
            },
        })
    }

    /// The held block that begins at the byte offset, if one does: what `free` and a spot ask for.
    pub fn held_at(&self, offset: u64) -> Option<Block>
        ensures some { IfSome result (λ b. Contains (held_in self.now.parts) b
            × (offset ≡ 8 * b.first_word)) }
        ensures none { IfNone result ((b : Block) → Contains (held_in self.now.parts) b
            → offset ≢ 8 * b.first_word) }
    {
        if offset % WORD_BYTES != 0 {
            return None;
        }
        self.arena.held.find(offset / WORD_BYTES)
    }

    /// Closes the heap, and gives what loads saw and what a crash would have left.
    pub fn finish(self) -> Closed
        ensures volatile { volatile_words result ≡ self.parts.words.volatile }
        ensures durable { durable_words result ≡ self.parts.words.durable }
        ensures used { volatile_at self.parts.words used_word ≤ self.parts.capacity }
        ensures used_durable { durable_at self.parts.words used_word ≤ self.parts.capacity }
        ensures named { (image : Image) → MayLeave self image
            → NamesAll image (held_in self.parts) }
        ensures mixed { NamesAreDurable (slice_index (volatile_words result))
            (slice_index (durable_words result)) (Contains (held_in self.parts)) }
        ensures crashed { (image : Image)
            → IsCrashImage (slice_index (durable_words result)) image → MayLeave self image }
        ensures closed { (image : Image)
            → IsClosedImage (slice_index (volatile_words result)) image → MayLeave self image }
    {
        self.arena.medium.finish()
    }

    /// Allocates in the class until there is no room, and gives the byte offsets of the blocks.
    pub fn drain(&mut self, alloc: Global, class: u8) -> Result<Vec<u64>, DrainFault>
        requires { IsClass class }
        ensures ok { IsDrainableFor class self.old
            → IfOk result (λ offsets. Drains class offsets.items self.old) }
        ensures full { OnOk result (HasRoom self.new.parts class → ⊥) }
        ensures memory { IfErr result (λ fault. fault ≡ DrainFault.Memory
            → self.new ≡ self.old) }
        ensures stopped { IfErr result (λ fault. (e : Stopped) → fault ≡ DrainFault.Stopped e
            → self.new.stopped ≡ Some e.step) }
        ensures few { self.new.parts.words.drawn < self.old.parts.words.drawn + 2 ^ 32 }
        ensures above { IfErr result (λ fault. (e : Stopped) → fault ≡ DrainFault.Stopped e
            → self.old.stopped ≡ None → (self.old.parts.words.budget ≤ e.step)
            × (e.step < self.old.parts.words.drawn + 2 ^ 32)) }
        ensures kept { KeepsFixed self.old self.new }
        ensures stops { IfErr result (λ fault. (e : Stopped) → fault ≡ DrainFault.Stopped e
            → StopsDrain e.step self.old self.new) }
        ensures keeps { KeepsHeld self.old self.new }
        ensures holds { IfOk result (λ offsets.
            HoldsDrained class offsets.items self.old self.new) }
    {
        let most = self.arena.geometry.capacity() * blocks_of(class);
        let asked = Asked {
            bytes: size_of(class),
            class: Some(SizeClass::new(class)),
        };
        let mut offsets = Vec::with_capacity(alloc, most as usize)?;
        while let Some(b) = self.request(asked)? {
            match offsets.push(WORD_BYTES * b.first_word) {
                Ok(()) => {}
                Err(e) => return Err(AllocError::from(e).into()),
            }
        }
        Ok(offsets)
    }
}
