//! A request of any size.
ghost use Rattle.std.specs.Prelude.{◌≡◌, ◌<◌, None, Some};
ghost use Rattle.heap_model.specs.Sizes.{IsLeastClassFor, largest_small};
ghost use Rattle.size_table.specs.declared.size_class.SizeClass.{SizeClass};

use crate::arena::Arena;
use heap_model::Block;
use heap_seat::Looks;
use line_memory::{Chance, Stopped};
use size_table::{SizeClass, span_of};
use super_block::{FREE_LIST, WORD_BYTES};

/// How many bytes a request asks for, and the class that serves it, if one does.
#[derive(Clone, Copy)]
pub(crate) struct Asked {
    pub(crate) bytes: u64,
    pub(crate) class: Option<SizeClass>,
    pub(crate) ghost served: { (c : SizeClass) → class ≡ Some c → IsLeastClassFor bytes c.number },
    pub(crate) ghost unserved: { class ≡ None → largest_small < bytes },
}

impl<C: Chance> Arena<C> {
    ghost use Rattle.std.specs.Prelude.{◌≡◌, ◌<◌, ◌≤◌, ◌+◌, ℕ, Contains, Some, length, IfOk, OnOk, IfErr, OnErr, true};
    ghost use Rattle.heap_model.specs.Geometry.{lists};
    ghost use Rattle.heap_model.specs.Sizes.{IsClass, IsLeastClassFor, size_of, span_of};
    ghost use Rattle.heap_shape.specs.Moves.{TakesFrom};
    ghost use Rattle.block_heap.specs.Accounts.{AreAccounted};
    ghost use Rattle.block_heap.specs.Medium.{RunsWithin, StopsWithin};
    ghost use Rattle.block_heap.specs.Order.{Stocked, ServesInOrder};
    ghost use Rattle.block_heap.specs.Returns.{ComesBack};
    ghost use Rattle.block_heap.specs.Parts.{parts_of, held_in};
    ghost use Rattle.block_heap.specs.Running.{IsRunning, CachesAreShort, LeavesHeld};
    ghost use Rattle.block_heap.specs.Steps.{IsRefilling};
    ghost use Rattle.block_heap.specs.Refill.{Refills, Stocks};
    ghost use Rattle.block_heap.specs.Serving.{Answers, AnswersInClass, DrainsAs, IsLooksOf};
    ghost use Rattle.block_heap.specs.Draws.{most_free_draws, most_refill_draws, most_small_draws};

    /// A block for the request, if there is room.
    pub(crate) fn alloc(&mut self, asked: Asked) -> Result<Option<Block>, Stopped>
        requires running { IsRunning (parts_of self.old) }
        requires short { CachesAreShort (parts_of self.old) 0 }
        ensures ok { IfOk result (λ answer. Answers asked.bytes answer
            (parts_of self.old) (parts_of self.new)) }
        ensures drains { (class : ℕ) → IsClass class → asked.bytes ≡ size_of class
            → IfOk result (λ answer. DrainsAs class answer
            (parts_of self.old) (parts_of self.new)) }
        ensures order { (class : ℕ) → IsLeastClassFor asked.bytes class
            → IfOk result (λ answer. ServesInOrder class answer
            (parts_of self.old) (parts_of self.new)) }
        ensures runs_within { OnOk result (RunsWithin most_small_draws
            (parts_of self.old).words (parts_of self.new).words) }
        ensures stopped { IfErr result (λ e. StopsWithin e.step most_small_draws
            (parts_of self.old).words (parts_of self.new).words) }
        ensures leaves_held { LeavesHeld (held_in (parts_of self.old))
            (parts_of self.old) (parts_of self.new) }
        ensures held { OnErr result
            (held_in (parts_of self.new) ≡ held_in (parts_of self.old)) }
        ensures few { (parts_of self.new).taken ≤ (parts_of self.old).taken
            + span_of asked.bytes }
    {
        match asked.class {
            Some(class) => self.alloc_small(class),
            None => self.alloc_large(span_of(asked.bytes)),
        }
    }

    /// A block of the class, if there is room.
    fn alloc_small(&mut self, class: SizeClass) -> Result<Option<Block>, Stopped>
        requires running { IsRunning (parts_of self.old) }
        requires short { CachesAreShort (parts_of self.old) 0 }
        ensures ok { IfOk result (λ answer. AnswersInClass class.number answer
            (parts_of self.old) (parts_of self.new)) }
        ensures drains { IfOk result (λ answer. DrainsAs class.number answer
            (parts_of self.old) (parts_of self.new)) }
        ensures order { IfOk result (λ answer. ServesInOrder class.number answer
            (parts_of self.old) (parts_of self.new)) }
        ensures runs_within { OnOk result (RunsWithin most_small_draws
            (parts_of self.old).words (parts_of self.new).words) }
        ensures stopped { IfErr result (λ e. StopsWithin e.step most_small_draws
            (parts_of self.old).words (parts_of self.new).words) }
        ensures leaves_held { LeavesHeld (held_in (parts_of self.old))
            (parts_of self.old) (parts_of self.new) }
        ensures held { OnErr result
            (held_in (parts_of self.new) ≡ held_in (parts_of self.old)) }
        ensures few { (parts_of self.new).taken ≤ (parts_of self.old).taken + 1 }
    {
        if !self.stock(class)? {
            return Ok(None);
        }
        Ok(Some(self.pop_block(class)?))
    }

    /// Sees to it that the cache of the class has a block; `false` where there is no room.
    fn stock(&mut self, class: SizeClass) -> Result<bool, Stopped>
        requires { IsRunning (parts_of self.old) }
        ensures ok { IfOk result (λ some. Refills class.number some
            (parts_of self.old) (parts_of self.new)) }
        ensures order { IfOk result (λ some. some ≡ true → Stocked class.number
            (parts_of self.old) (parts_of self.new)) }
        ensures refilling { OnOk result (IsRefilling class.number
            (parts_of self.old) (parts_of self.new)) }
        ensures left { IfOk result (λ some. Stocks class.number some
            (parts_of self.old) (parts_of self.new)) }
        ensures steps { OnOk result ((parts_of self.new).words.drawn
            ≤ (parts_of self.old).words.drawn + most_refill_draws) }
        ensures stopped { IfErr result (λ e. StopsWithin e.step most_refill_draws
            (parts_of self.old).words (parts_of self.new).words) }
        ensures leaves_held { LeavesHeld (held_in (parts_of self.old))
            (parts_of self.old) (parts_of self.new) }
        ensures held { held_in (parts_of self.new) ≡ held_in (parts_of self.old) }
        ensures few { (parts_of self.new).taken ≤ (parts_of self.old).taken + 1 }
    {
        if self.caches[class.number as usize].count == 0 {
            return self.refill(class);
        }
        Ok(true)
    }

    /// Frees a held block.
    pub(crate) fn free(&mut self, b: Block) -> Result<(), Stopped>
        requires running { IsRunning (parts_of self.old) }
        requires short { CachesAreShort (parts_of self.old) 0 }
        requires holds { Contains (held_in (parts_of self.old)) b }
        ensures running { OnOk result (IsRunning (parts_of self.new)) }
        ensures short { OnOk result (CachesAreShort (parts_of self.new) 0) }
        ensures runs_within { OnOk result (RunsWithin most_free_draws
            (parts_of self.old).words (parts_of self.new).words) }
        ensures stopped { IfErr result (λ e. StopsWithin e.step most_free_draws
            (parts_of self.old).words (parts_of self.new).words) }
        ensures freed { TakesFrom b (held_in (parts_of self.old)) (held_in (parts_of self.new)) }
        ensures order { OnOk result (ComesBack b (parts_of self.old) (parts_of self.new)) }
        ensures leaves_held { LeavesHeld (held_in (parts_of self.new))
            (parts_of self.old) (parts_of self.new) }
        ensures taken { (parts_of self.new).taken ≡ (parts_of self.old).taken }
        ensures accounted { OnOk result (AreAccounted (parts_of self.old)
            → AreAccounted (parts_of self.new)) }
    {
        match SizeClass::for_bytes(WORD_BYTES * b.words) {
            Some(class) => self.free_small(b, class),
            None => self.free_large(b),
        }
    }

    /// What a request of so many bytes read last, which found no room.
    pub(crate) fn looks(&self, bytes: u64) -> Looks
        requires { length (parts_of self.now).head_looks ≡ lists }
        ensures { IsLooksOf bytes result (parts_of self.now) }
    {
        match SizeClass::for_bytes(bytes) {
            Some(class) => Looks {
                class_head: self.head_looks[class.number as usize].seen,
                free_head: self.head_looks[FREE_LIST as usize].seen,
                used: self.used_look.seen,
            },
            None => Looks {
                class_head: 0,
                free_head: 0,
                used: self.used_look.seen,
            },
        }
    }
}
