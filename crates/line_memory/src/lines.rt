//! The words of a memory, and its steps without a source of chance.
ghost use Rattle.std.specs.Prelude.{◌≡◌, ◌≢◌, ℕ, ◌+◌, ◌<◌, ◌≤◌, Some, None, length, slice_index, OnOk, OnErr, IfOk, IfErr, Option, IsNone};
ghost use Rattle.line_memory.specs.Steps.{durable_after};
ghost use Rattle.line_memory.specs.View.{AllBelow};

use crate::closed::Closed;
use crate::memory::Stopped;
use crate::pending::Pending;
use crate::recent::RecentStores;
use std::alloc::{AllocError, Global};

/// The words of a memory with what is pending. Whatever room it needs is taken by `new`.
#[derive(Drop)]
pub struct Lines {
    volatile: Vec<u64>,
    durable: Vec<u64>,
    pending: Pending,
    recent: RecentStores,
    /// How many tickets were allowed, which is also the next ticket.
    allowed: u64,
    budget: u64,
    stopped: Option<u64>,
    ghost lengths: { length durable.items ≡ length volatile.items },
    ghost marks: { length pending ≡ length volatile.items },
    ghost recent_within: { AllBelow recent (length volatile.items) },
    ghost recent_few: { length recent ≤ 16 },
    ghost running: { allowed ≤ budget },
    ghost stopping: { (ticket : ℕ) → stopped ≡ Some ticket → budget ≤ ticket },
    ghost last_ticket: { (ticket : ℕ) → stopped ≡ Some ticket → allowed ≡ ticket },
}

impl Lines {
    ghost use Rattle.line_memory.specs.View.{opened, word_count, HasLine, volatile_at};
    ghost use Rattle.line_memory.specs.Steps.{after_draw, stopped_at, IsStore, IsWriteBack, IsFence};
    ghost use Rattle.line_memory.specs.ClosedWords.{volatile_words, durable_words};
    ghost use Rattle.line_memory.specs.LinesView.{lines_view};

    pub fn new(alloc: Global, words: Vec<u64>, budget: u64) -> Result<Lines, AllocError>
        ensures { IfOk result (λ l. lines_view l ≡ opened words.items budget) }
    {
        let pending = Pending::new(alloc, words.len())?;
        let recent = RecentStores::new(alloc)?;
        let durable = Vec::from_slice(alloc, words.as_slice())?;
        Ok(Lines {
            volatile: words,
            durable,
            pending,
            recent,
            allowed: 0,
            budget,
            stopped: None,
        })
    }

    pub fn finish(self) -> Closed
        ensures volatile { volatile_words result ≡ (lines_view self).volatile }
        ensures durable { durable_words result ≡ (lines_view self).durable }
    {
        Closed {
            now: self.volatile,
            kept: self.durable,
        }
    }

    /// The ticket at which it stopped.
    pub fn stopped(&self) -> Option<u64>
        ensures { result ≡ (lines_view self.now).stopped }
    {
        self.stopped
    }

    /// Draws the ticket of one step, with the number that chance gave.
    pub fn draw(&mut self, number: u64) -> Result<(), Stopped>
        requires { (lines_view self.old).stopped ≡ None }
        ensures ok { OnOk result ((lines_view self.old).drawn < (lines_view self.old).budget) }
        ensures drawn { let drawn = after_draw number (lines_view self.old) in
            OnOk result (lines_view self.new ≡ drawn) }
        ensures above { OnErr result ((lines_view self.old).budget ≤ (lines_view self.old).drawn) }
        ensures ticket { IfErr result (λ e. e.step ≡ (lines_view self.old).drawn) }
        ensures stopped { let drawn = after_draw number (lines_view self.old) in
            IfErr result (λ e. lines_view self.new ≡ stopped_at e.step drawn) }
    {
        write_back_early(number, &self.recent, &self.volatile, &mut self.durable);
        if self.allowed < self.budget {
            self.allowed += 1;
            Ok(())
        } else {
            self.stopped = Some(self.allowed);
            Err(Stopped { step: self.allowed })
        }
    }

    pub fn load(&self, word: u64) -> u64
        requires { word < word_count (lines_view self.now) }
        ensures { result ≡ volatile_at (lines_view self.now) word }
    {
        self.volatile[word as usize]
    }

    pub fn store(&mut self, word: u64, value: u64)
        requires { word < word_count (lines_view self.old) }
        ensures { IsStore word value (lines_view self.old) (lines_view self.new) }
    {
        self.volatile[word as usize] = value;
        self.pending.unmark(word as usize);
        self.recent.push(word);
    }

    pub fn write_back(&mut self, line: u64)
        requires { HasLine (lines_view self.old) line }
        ensures { IsWriteBack line (lines_view self.old) (lines_view self.new) }
    {
        self.pending.mark_line(line);
    }

    pub fn fence(&mut self)
        ensures { IsFence (lines_view self.old) (lines_view self.new) }
    {
        self.pending.complete(&self.volatile, &mut self.durable);
    }
}

/// Writes back the recent store that the number names, if it names one.
fn write_back_early(number: u64, recent: &RecentStores, volatile: &[u64], durable: &mut [u64])
    requires within { AllBelow recent.now (length volatile.now) }
    requires lengths { length durable.old ≡ length volatile.now }
    ensures { durable.new ≡ durable_after number recent.now volatile.now durable.old }
{
    if let Some(word) = recent.early_word(number) {
        durable[word as usize] = volatile[word as usize];
    }
}
