//! The words of an open heap, and which step comes next on them.
ghost use Rattle.std.specs.Prelude.{◌≡◌, ◌<◌, ◌^◌, None};
ghost use Rattle.line_memory.specs.Plain.{view_of};

use line_memory::{Chance, Closed, LineMemory, PlainMemory, Stopped};
use std::alloc::{AllocError, Global};
use super_block::LINE_WORDS;

/// A memory that knows its next ticket.
#[derive(Drop)]
pub(crate) struct Medium<C> {
    memory: PlainMemory<C>,
    next: u64,
    ghost bounded: { (view_of memory).budget < 2 ^ 40 },
    ghost counts: { (view_of memory).stopped ≡ None → next ≡ (view_of memory).drawn },
}

impl<C: Chance> Medium<C> {
    ghost use Rattle.std.specs.Prelude.{IfOk, OnOk, IfErr, OnErr};
    ghost use Rattle.line_memory.specs.View.{opened, word_count, volatile_at};
    ghost use Rattle.line_memory.specs.Crash.{MayLeaveStore};
    ghost use Rattle.line_memory.specs.ClosedWords.{volatile_words, durable_words};
    ghost use Rattle.block_heap.specs.MediumView.{medium_view};
    ghost use Rattle.block_heap.specs.Medium.{StoresOnly, RunsWithin, StopsWithin, IsLoaded, IsStored, IsWritten, IsFenced, IsPersisted};

    /// A memory of these words, all durable, that allows `budget` steps.
    pub(crate) fn new(
        alloc: Global,
        words: Vec<u64>,
        budget: u64,
        chance: C,
    ) -> Result<Medium<C>, AllocError>
        requires { budget < 2 ^ 40 }
        ensures { IfOk result (λ m. medium_view m ≡ opened words.items budget) }
    {
        let memory = PlainMemory::new(alloc, words, budget, chance)?;
        Ok(Medium { memory, next: 0 })
    }

    /// Closes the memory, and gives what loads saw and what a crash would have left.
    pub(crate) fn finish(self) -> Closed
        ensures volatile { volatile_words result ≡ (medium_view self).volatile }
        ensures durable { durable_words result ≡ (medium_view self).durable }
    {
        self.memory.finish()
    }

    /// The ticket that the next step draws.
    pub(crate) fn next_ticket(&self) -> u64
        requires { (medium_view self.now).stopped ≡ None }
        ensures { result ≡ (medium_view self.now).drawn }
    {
        self.next
    }

    /// What loads see of the word.
    pub(crate) fn load(&mut self, word: u64) -> Result<u64, Stopped>
        requires running { (medium_view self.old).stopped ≡ None }
        requires within { word < word_count (medium_view self.old) }
        ensures ok { IfOk result (λ value. IsLoaded word value
            (medium_view self.old) (medium_view self.new)) }
        ensures stopped { IfErr result (λ e. StopsWithin e.step 1
            (medium_view self.old) (medium_view self.new)) }
        ensures unchanged { StoresOnly (λ _. ⊥) (medium_view self.old) (medium_view self.new) }
    {
        let value = self.memory.load(word)?;
        self.next += 1;
        Ok(value)
    }

    /// Changes what loads see of the word.
    pub(crate) fn store(&mut self, word: u64, value: u64) -> Result<(), Stopped>
        requires running { (medium_view self.old).stopped ≡ None }
        requires within { word < word_count (medium_view self.old) }
        ensures ok { OnOk result (IsStored word value
            (medium_view self.old) (medium_view self.new)) }
        ensures stopped { IfErr result (λ e. StopsWithin e.step 1
            (medium_view self.old) (medium_view self.new)) }
        ensures others { StoresOnly (λ other. other ≡ word)
            (medium_view self.old) (medium_view self.new) }
        ensures crash { MayLeaveStore word value (medium_view self.old) (medium_view self.new) }
        ensures refused { OnErr result (StoresOnly (λ _. ⊥)
            (medium_view self.old) (medium_view self.new)) }
    {
        self.memory.store(word, value)?;
        self.next += 1;
        Ok(())
    }

    /// Asks for the words of the word's line to be made durable.
    pub(crate) fn write_back(&mut self, word: u64) -> Result<(), Stopped>
        requires running { (medium_view self.old).stopped ≡ None }
        requires within { word < word_count (medium_view self.old) }
        ensures ok { OnOk result (IsWritten word (medium_view self.old) (medium_view self.new)) }
        ensures stopped { IfErr result (λ e. StopsWithin e.step 1
            (medium_view self.old) (medium_view self.new)) }
        ensures unchanged { StoresOnly (λ _. ⊥) (medium_view self.old) (medium_view self.new) }
    {
        self.memory.write_back(word / LINE_WORDS)?;
        self.next += 1;
        Ok(())
    }

    /// Waits until each word that was written back is durable.
    pub(crate) fn fence(&mut self) -> Result<(), Stopped>
        requires running { (medium_view self.old).stopped ≡ None }
        ensures ok { OnOk result (IsFenced (medium_view self.old) (medium_view self.new)) }
        ensures stopped { IfErr result (λ e. StopsWithin e.step 1
            (medium_view self.old) (medium_view self.new)) }
        ensures unchanged { StoresOnly (λ _. ⊥) (medium_view self.old) (medium_view self.new) }
    {
        self.memory.fence()?;
        self.next += 1;
        Ok(())
    }

    /// Stores the value and makes it durable: a crash after `Ok` leaves it.
    pub(crate) fn persist(&mut self, word: u64, value: u64) -> Result<(), Stopped>
        requires running { (medium_view self.old).stopped ≡ None }
        requires within { word < word_count (medium_view self.old) }
        ensures ok { OnOk result (IsPersisted word value
            (medium_view self.old) (medium_view self.new)) }
        ensures stopped { IfErr result (λ e. StopsWithin e.step 3
            (medium_view self.old) (medium_view self.new)) }
        ensures others { StoresOnly (λ other. other ≡ word)
            (medium_view self.old) (medium_view self.new) }
        ensures crash { MayLeaveStore word value (medium_view self.old) (medium_view self.new) }
    {
        self.store(word, value)?;
        self.write_back(word)?;
        self.fence()
    }
}
