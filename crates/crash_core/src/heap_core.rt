//! The core: a heap opened for some seats, that takes their steps in any order.

ghost use Rattle.std.specs.Prelude.{◌≡◌, ◌<◌, ◌≤◌, ◌+◌, ℕ, List, length, map, slice_index, IfOk, IfErr, Contains};
ghost use Rattle.heap_model.specs.Geometry.{image_words};
ghost use Rattle.heap_model.specs.Durability.{IsCrashImage};
ghost use Rattle.core_model.specs.declared.event.Event.{Event};
ghost use Rattle.core_model.specs.Held.{durable_image, volatile_image};
ghost use Rattle.core_model.specs.Memory.{memory_of};
ghost use Rattle.core_model.specs.Opening.{AreOwners, setup_of, opened_state};
ghost use Rattle.core_model.specs.Steps.{TableState};
ghost use Rattle.core_model.specs.View.{Setup};
ghost use Rattle.crash_image.specs.Crash.{GivesAll, transient_words};
ghost use Rattle.crash_core.specs.Standing.{Accepts, Represents, Follows, Offers, RunsOn};

use crate::accepting::accept;
use crate::crash::durable_words;
use crate::handing::offer;
use crate::opened::opened_core;
use crate::runs::run;
use crate::state::CoreState;
use crate::steps::step;
use core_model::{Event, StepAnswer};
use crash_image::crash_image;
use line_memory::Chance;
use seat_state::{Owners, ticket_place};
use std::alloc::{AllocError, Global};
use std::marker::Model;
use super_block::Ready;

/// A heap opened for some seats.
#[derive(Drop)]
pub struct Core {
    state: CoreState,
    spare: usize,
}

impl Model for Core {
    ghost use Rattle.crash_core.specs.Opened.{Opened};
    ghost use Rattle.crash_core.specs.Standing.{IsStanding};

    ghost Value = { Opened };

    ghost view = { λ a. record { state = a.state; spare = a.spare } };

    ghost invariant = { λ a. IsStanding a.state };
}

impl Core {
    /// The heap, opened for 1 to 8 seats within a budget of tickets: each held block and each root
    /// belongs to the seat that the owners name.
    pub fn of(
        alloc: Global,
        heap: &Ready,
        owners: &Owners,
        seats: usize,
        budget: u64,
    ) -> Result<Core, AllocError>
        requires owners { AreOwners heap.now.held seats owners.now.held owners.now.roots }
        requires some { 1 ≤ seats }
        requires seats { seats ≤ 8 }
        requires budget { budget < 1099511627776 }
        ensures ok { IfOk result (λ core. Represents core.state (setup_of heap.now.words budget seats)
            (opened_state (setup_of heap.now.words budget seats) heap.now.held
            owners.now.held owners.now.roots seats)) }
        ensures seats { IfOk result (λ core. length core.state.seats.items ≡ seats) }
    {
        let state = opened_core(alloc, heap, owners, seats, budget)?;
        Ok(Core { state, spare: 0 })
    }

    /// Makes room for so many steps.
    pub fn reserve(&mut self, events: usize) -> Result<(), AllocError>
        ensures same { self.new.state ≡ self.old.state }
        ensures spare { IfOk result (λ _. events ≤ self.new.spare) }
    {
        self.spare = self.spare.max(events);
        Ok(())
    }

    /// Takes a step of a seat, if it may be taken now.
    pub fn step(&mut self, seat: usize, event: Event) -> StepAnswer
        requires seat { seat < length self.old.state.seats.items }
        requires spare { 1 ≤ self.old.spare }
        ensures follows { Follows self.old.state seat event result self.new.state }
        ensures seats { length self.new.state.seats.items ≡ length self.old.state.seats.items }
        ensures spare { self.new.spare + 1 ≡ self.old.spare }
    {
        self.spare -= 1;
        step(&mut self.state, seat, event)
    }

    /// Offers the held block that begins at a word to a new carrier, if the seat may do so now: it has
    /// a ticket in hand, and holds such a block. The carriers are numbered in the order in which they
    /// were made, from the number of seats on.
    pub fn offer(&mut self, seat: usize, block: u64) -> StepAnswer
        requires seat { seat < length self.old.state.seats.items }
        requires spare { 1 ≤ self.old.spare }
        ensures follows { Offers self.old.state seat block result self.new.state }
        ensures seats { length self.new.state.seats.items ≡ length self.old.state.seats.items }
        ensures spare { self.new.spare + 1 ≡ self.old.spare }
    {
        self.spare -= 1;
        offer(&mut self.state, seat, block)
    }

    /// Accepts what a carrier has, by its number, if the seat may do so now: it has a ticket in hand,
    /// and the carrier has its block. It takes time by the words of the image, whatever the block.
    pub fn accept(&mut self, seat: usize, carrier: usize) -> StepAnswer
        requires seat { seat < length self.old.state.seats.items }
        requires spare { 1 ≤ self.old.spare }
        ensures follows { Accepts self.old.state seat carrier result self.new.state }
        ensures seats { length self.new.state.seats.items ≡ length self.old.state.seats.items }
        ensures spare { self.new.spare + 1 ≡ self.old.spare }
    {
        self.spare -= 1;
        accept(&mut self.state, seat, carrier)
    }

    /// Tries the events in their order, and gives the answer of each. Where memory runs out, none
    /// has been tried.
    pub fn replay(
        &mut self,
        alloc: Global,
        events: &[(usize, Event)],
    ) -> Result<Vec<StepAnswer>, AllocError>
        requires seats { (e : ℕ × Event) → Contains events.now e
            → e.0 < length self.old.state.seats.items }
        ensures runs { IfOk result (λ answers.
            RunsOn self.old.state events.now answers.items self.new.state) }
        ensures refused { IfErr result (λ _. self.new.state ≡ self.old.state) }
        ensures seats { length self.new.state.seats.items ≡ length self.old.state.seats.items }
    {
        run(&mut self.state, alloc, events)
    }

    /// An image that a crash may leave of the state. Each head, anchor and link is a number of
    /// `scramble`, in the order of word index. Where memory runs out, `scramble` was not asked.
    pub fn image<C: Chance>(&self, alloc: Global, scramble: &mut C) -> Result<Vec<u64>, AllocError>
        ensures ok { IfOk result (λ image. (k : Setup) (s : TableState)
            → Represents self.now.state k s
            → IsCrashImage (durable_image k.capacity s.words) (slice_index image.items)) }
        ensures length { IfOk result (λ image. (k : Setup) (s : TableState)
            → Represents self.now.state k s → length image.items ≡ image_words k.capacity) }
        ensures drawn { IfOk result (λ image. (k : Setup) (s : TableState)
            → Represents self.now.state k s → GivesAll C.draw_gives scramble.old
            (map (slice_index image.items) (transient_words k.capacity)) scramble.new) }
        ensures refused { IfErr result (λ _. scramble.new ≡ scramble.old) }
        ensures asked { (numbers : List ℕ)
            × GivesAll C.draw_gives scramble.old numbers scramble.new }
    {
        let words = durable_words(alloc, &self.state.words, self.state.geometry)?;
        Ok(crash_image(words, self.state.geometry, scramble))
    }

    /// What loads see of a word of the image; 0 beyond.
    pub fn volatile(&self, word: u64) -> u64
        ensures { (k : Setup) (s : TableState) → Represents self.now.state k s
            → result ≡ volatile_image k.capacity s.words word }
    {
        if word >= self.state.geometry.length() {
            return 0;
        }
        self.state.words[word as usize]
    }

    /// How many tickets were drawn.
    pub fn tickets(&self) -> u64
        ensures { (k : Setup) (s : TableState) → Represents self.now.state k s
            → result ≡ (memory_of k.capacity s.words).drawn }
    {
        self.state.words[ticket_place(self.state.geometry) as usize]
    }

    /// How many seats there are.
    pub fn seats(&self) -> usize
        ensures { result ≡ length self.now.state.seats.items }
    {
        self.state.seats.len()
    }
}
