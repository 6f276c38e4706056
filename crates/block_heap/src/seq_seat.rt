//! The calls of the heap for one thread.
ghost use Rattle.std.specs.Prelude.{◌≡◌, ◌≤◌, OnOk, IfErr, None, Some};

use crate::alloc::Asked;
use crate::seq_heap::SeqHeap;
use heap_model::Block;
use heap_seat::{AllocFault, HeapSeat, Spot};
use line_memory::{Chance, Stopped};
use size_table::SizeClass;
use super_block::WORD_BYTES;

impl<C: Chance> HeapSeat for SeqHeap<C> {
    ghost use Rattle.block_heap.specs.SeqState.{seat_of, MayLeave};
    ghost use Rattle.block_heap.specs.Order.{IsServedInOrder};
    ghost use Rattle.block_heap.specs.Returns.{ComesBack};
    ghost use Rattle.block_heap.specs.Serving.{HasRoomFor, RefusesAs, ServesLarge};
    ghost use Rattle.block_heap.specs.Laws.{seat_law, mixed_law, named_law, stored_law, keeps_none_law, keeps_row_law, may_be_law};
    ghost use Rattle.block_heap.specs.Closing.{KeepsFixed};

    ghost view = { seat_of };

    ghost images = { MayLeave };

    ghost has_room = { λ s t bytes. HasRoomFor s.parts bytes
        × IsServedInOrder bytes s.parts t.parts × ServesLarge bytes s.parts t.parts };

    ghost has_none = { λ s t bytes looks. RefusesAs bytes looks s.parts t.parts };

    ghost gives_back = { λ s t b. ComesBack b s.parts t.parts };

    ghost keeps = { KeepsFixed };

    fn alloc(&mut self, bytes: u64) -> Result<Block, AllocFault> {
        let asked = Asked {
            bytes,
            class: SizeClass::for_bytes(bytes),
        };
        match self.request(asked)? {
            Some(block) => Ok(block),
            None => {
                self.refusals += 1;
                self.refused_bytes = bytes;
                self.refused_looks = self.arena.looks(bytes);
                Err(AllocFault::Full(self.refused_looks))
            }
        }
    }

    fn free(&mut self, b: Block) -> Result<(), Stopped> {
        self.check_running()?;
        let answer = self.arena.free(b);
        self.large_calls += 1;
        self.stopped = stop_of(&answer);
        answer
    }

    fn load(&mut self, s: Spot) -> Result<u64, Stopped> {
        self.check_running()?;
        let answer = self.arena.medium.load(s.word());
        self.small_calls += 1;
        self.stopped = stop_of(&answer);
        answer
    }

    fn store(&mut self, s: Spot, value: u64) -> Result<(), Stopped> {
        self.check_running()?;
        let answer = self.arena.medium.store(s.word(), value);
        self.small_calls += 1;
        self.stopped = stop_of(&answer);
        answer
    }

    fn write_back(&mut self, s: Spot) -> Result<(), Stopped> {
        self.check_running()?;
        let answer = self.arena.medium.write_back(s.word());
        self.small_calls += 1;
        self.stopped = stop_of(&answer);
        answer
    }

    fn fence(&mut self) -> Result<(), Stopped> {
        self.check_running()?;
        let answer = self.arena.medium.fence();
        self.small_calls += 1;
        self.stopped = stop_of(&answer);
        answer
    }

    fn block(&self, offset: u64) -> Block {
        self.arena.held.at(offset / WORD_BYTES)
    }

    ghost seat = { seat_law };

    ghost mixed = { mixed_law };

    ghost stored_kinds = { stored_law };

    ghost named = { named_law };

    ghost keeps_none = { keeps_none_law };

    ghost keeps_row = { keeps_row_law };

    ghost may_be = { may_be_law };
}

/// The ticket at which a heap with this answer stopped.
fn stop_of<T>(answer: &Result<T, Stopped>) -> Option<u64>
    ensures ok { OnOk answer.now (result ≡ None) }
    ensures stopped { IfErr answer.now (λ e. result ≡ Some e.step) }
{
    match answer {
        Ok(_) => None,
        Err(stopped) => Some(stopped.step),
    }
}

impl<C: Chance> SeqHeap<C> {
    ghost use Rattle.std.specs.Prelude.{ℕ, ◌+◌, ◌<◌, IfOk, OnErr};
    ghost use Rattle.heap_model.specs.Sizes.{IsClass, IsLeastClassFor, size_of, span_of};
    ghost use Rattle.heap_seat.specs.Calls.{IsLargeCall};
    ghost use Rattle.block_heap.specs.Closing.{KeepsFixed};
    ghost use Rattle.block_heap.specs.Order.{ServesInOrder};
    ghost use Rattle.block_heap.specs.Parts.{held_in};
    ghost use Rattle.block_heap.specs.Requests.{KeepsWords};
    ghost use Rattle.block_heap.specs.Serving.{Answers, DrainsAs};
    ghost use Rattle.block_heap.specs.SeqState.{seat_of};
    ghost use Rattle.block_heap.specs.Draws.{most_small_draws};
    ghost use Rattle.heap_seat.specs.Tickets.{Runs, Stops};

    /// A block for the request, if there is room. A refusal is not counted.
    pub(crate) fn request(&mut self, asked: Asked) -> Result<Option<Block>, Stopped>
        ensures ok { IfOk result (λ answer.
            Answers asked.bytes answer self.old.parts self.new.parts) }
        ensures drains { (class : ℕ) → IsClass class → asked.bytes ≡ size_of class
            → IfOk result (λ answer. DrainsAs class answer self.old.parts self.new.parts) }
        ensures order { (class : ℕ) → IsLeastClassFor asked.bytes class
            → IfOk result (λ answer. ServesInOrder class answer self.old.parts self.new.parts) }
        ensures runs { OnOk result (Runs (seat_of self.old) (seat_of self.new)) }
        ensures stopped { IfErr result (λ e. Stops e.step (seat_of self.old) (seat_of self.new)) }
        ensures held { OnErr result (held_in self.new.parts ≡ held_in self.old.parts) }
        ensures words { KeepsWords (seat_of self.old) (seat_of self.new) }
        ensures counted { IsLargeCall (span_of asked.bytes) (seat_of self.old) (seat_of self.new) }
        ensures draws { self.new.parts.words.drawn ≤ self.old.parts.words.drawn + most_small_draws }
        ensures refusable { OnOk result (self.new.refusals < self.new.large_calls) }
        ensures kept { KeepsFixed self.old self.new }
        ensures idle { (ticket : ℕ) → self.old.stopped ≡ Some ticket → self.new ≡ self.old }
    {
        self.check_running()?;
        let answer = self.arena.alloc(asked);
        self.large_calls += 1;
        self.stopped = stop_of(&answer);
        answer
    }

    /// Refuses the call if the heap has stopped.
    fn check_running(&self) -> Result<(), Stopped>
        ensures ok { OnOk result (self.now.stopped ≡ None) }
        ensures stopped { IfErr result (λ e. self.now.stopped ≡ Some e.step) }
    {
        match self.stopped {
            Some(step) => Err(Stopped { step }),
            None => Ok(()),
        }
    }
}
