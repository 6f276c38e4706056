//! A memory for one thread.
ghost use Rattle.std.specs.Prelude.{◌≡◌, ◌<◌, OnOk, IfOk, IfErr, IsSome};
ghost use Rattle.line_memory.specs.View.{opened, word_count, HasLine};
ghost use Rattle.line_memory.specs.Steps.{IsLoad, IsStore, IsWriteBack, IsFence};
ghost use Rattle.line_memory.specs.ClosedWords.{volatile_words, durable_words};
ghost use Rattle.line_memory.specs.Plain.{view_of, chance_of, DrawsBy, PlainTakes, PlainRefuses};
ghost use Rattle.line_memory.specs.Sound.{lines_sound};

use crate::chance::Chance;
use crate::closed::Closed;
use crate::lines::Lines;
use crate::memory::{LineMemory, Stopped};
use std::alloc::{AllocError, Global};

/// A memory of words for one thread. No call but `new` takes room.
#[derive(Drop)]
pub struct PlainMemory<C> {
    lines: Lines,
    chance: C,
}

impl<C: Chance> PlainMemory<C> {
    /// A memory of these words, all durable, that allows `budget` steps.
    pub fn new(
        alloc: Global,
        words: Vec<u64>,
        budget: u64,
        chance: C,
    ) -> Result<PlainMemory<C>, AllocError>
        ensures ok { IfOk result (λ m. view_of m ≡ opened words.items budget) }
        ensures chance { IfOk result (λ m. chance_of m ≡ chance) }
    {
        Ok(PlainMemory {
            lines: Lines::new(alloc, words, budget)?,
            chance,
        })
    }

    /// Closes the memory, and gives what loads saw and what a crash would have left.
    pub fn finish(self) -> Closed
        ensures volatile { volatile_words result ≡ (view_of self).volatile }
        ensures durable { durable_words result ≡ (view_of self).durable }
    {
        self.lines.finish()
    }

    /// Draws the ticket of one step.
    fn take_ticket(&mut self) -> Result<(), Stopped>
        ensures ok { OnOk result (PlainTakes C.draw_gives (λ v w. w ≡ v) self.old self.new) }
        ensures stopped { IfErr result (λ e. PlainRefuses C.draw_gives e.step self.old self.new) }
        ensures unchanged { IsSome (view_of self.old).stopped → self.new ≡ self.old }
    {
        if let Some(step) = self.lines.stopped() {
            return Err(Stopped { step });
        }
        let number = self.chance.draw();
        self.lines.draw(number)
    }
}

impl<C: Chance> LineMemory for PlainMemory<C> {
    ghost view = { view_of };

    ghost draws = { DrawsBy C.draw_gives };

    fn load(&mut self, word: u64) -> Result<u64, Stopped>
        requires { word < word_count (view_of self.old) }
        ensures ok { IfOk result (λ value. PlainTakes C.draw_gives (IsLoad word value)
            self.old self.new) }
        ensures stopped { IfErr result (λ e. PlainRefuses C.draw_gives e.step self.old self.new) }
        ensures unchanged { IsSome (view_of self.old).stopped → self.new ≡ self.old }
    {
        self.take_ticket()?;
        Ok(self.lines.load(word))
    }

    fn store(&mut self, word: u64, value: u64) -> Result<(), Stopped>
        requires { word < word_count (view_of self.old) }
        ensures ok { OnOk result (PlainTakes C.draw_gives (IsStore word value) self.old self.new) }
        ensures stopped { IfErr result (λ e. PlainRefuses C.draw_gives e.step self.old self.new) }
        ensures unchanged { IsSome (view_of self.old).stopped → self.new ≡ self.old }
    {
        self.take_ticket()?;
        self.lines.store(word, value);
        Ok(())
    }

    fn write_back(&mut self, line: u64) -> Result<(), Stopped>
        requires { HasLine (view_of self.old) line }
        ensures ok { OnOk result (PlainTakes C.draw_gives (IsWriteBack line) self.old self.new) }
        ensures stopped { IfErr result (λ e. PlainRefuses C.draw_gives e.step self.old self.new) }
        ensures unchanged { IsSome (view_of self.old).stopped → self.new ≡ self.old }
    {
        self.take_ticket()?;
        self.lines.write_back(line);
        Ok(())
    }

    fn fence(&mut self) -> Result<(), Stopped>
        ensures ok { OnOk result (PlainTakes C.draw_gives IsFence self.old self.new) }
        ensures stopped { IfErr result (λ e. PlainRefuses C.draw_gives e.step self.old self.new) }
        ensures unchanged { IsSome (view_of self.old).stopped → self.new ≡ self.old }
    {
        self.take_ticket()?;
        self.lines.fence();
        Ok(())
    }

    ghost sound = { λ m. lines_sound m.lines };
}
