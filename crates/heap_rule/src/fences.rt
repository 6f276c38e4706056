//! Write-backs of a seat, and the fence that makes the written-back words durable.

ghost use Rattle.std.specs.Prelude.{◌≡◌, ◌<◌, ℕ, None, true, false};
ghost use Rattle.heap_model.specs.Geometry.{image_words};
ghost use Rattle.heap_table.specs.AtTable.{LearnsOwn};
ghost use Rattle.core_model.specs.declared.event.Event.TheVariants.{Settle};
ghost use Rattle.heap_rule.specs.Fences.{IsLineMarked, IsSeatFence, SettlesOwn};
ghost use Rattle.heap_rule.specs.Seated.{KeepsStores, IsSeatOf};
ghost use Rattle.heap_rule.specs.Shown.{Can};

use crate::seat::Seat;
use core_model::Event;
use heap_table::{Shared, learn_own, stands};
use super_block::LINE_WORDS;

impl Seat {
    /// Writes back the words of an own word's line: the next fence makes them durable.
    pub fn write_back(&mut self, shared: &Shared, word: u64)
        requires seat { IsSeatOf shared.now self.old }
        requires can { Can self.old.view (Settle word) }
        ensures marked { IsLineMarked word self.old self.new }
        ensures seat { IsSeatOf shared.now self.new }
    {
        let _seats = shared;
        self.pending.mark_line(word / LINE_WORDS);
    }

    /// Makes the words durable that were written back and are own; nothing is pending then.
    pub fn fence(&mut self, shared: &Shared)
        requires seat { IsSeatOf shared.now self.old }
        requires going { self.old.view.stopped ≡ None }
        ensures fence { IsSeatFence self.old self.new }
        ensures seat { IsSeatOf shared.now self.new }
    {
        while let Some(word) = self.pending.take_marked() {
            self.settle_own(shared, word);
        }
    }

    /// Makes a word durable where it is own.
    #[inline(always)]
    pub(crate) fn settle_own(&mut self, shared: &Shared, word: u64)
        requires seat { IsSeatOf shared.now self.old }
        requires going { self.old.view.stopped ≡ None }
        ensures done { SettlesOwn word self.old self.new }
        ensures stores { KeepsStores self.old self.new }
        ensures seat { IsSeatOf shared.now self.new }
    {
        if word >= self.geometry.length() {
            return;
        }
        if self.agrees(shared, word) {
            return;
        }
        self.settle_found(shared, word);
    }

    /// The same with no look first. It is a function of its own, so that the looks are inlined.
    #[inline(never)]
    fn settle_found(&mut self, shared: &Shared, word: u64)
        requires seat { IsSeatOf shared.now self.old }
        requires going { self.old.view.stopped ≡ None }
        ensures done { SettlesOwn word self.old self.new }
        ensures stores { KeepsStores self.old self.new }
        ensures seat { IsSeatOf shared.now self.new }
    {
        if !self.owns(word) {
            return;
        }
        self.settle(shared, word);
    }

    /// Whether a crash leaves of a word what loads see of it. Then an own word is settled by that
    /// look; else what loads see of it is recorded.
    #[inline(always)]
    fn agrees(&mut self, shared: &Shared, word: u64) -> bool
        requires seat { IsSeatOf shared.now self.old }
        requires going { self.old.view.stopped ≡ None }
        requires inside { word < image_words self.old.view.setup.capacity }
        ensures agrees { result ≡ true → SettlesOwn word self.old self.new }
        ensures differs { result ≡ false
            → (found : ℕ) × LearnsOwn word found self.old.view self.new.view }
        ensures stores { KeepsStores self.old self.new }
        ensures seat { IsSeatOf shared.now self.new }
    {
        let value = learn_own(shared, &mut self.table_seat, word);
        let place = self.geometry.length() + word;
        stands(
            shared,
            &mut self.table_seat,
            place,
            value,
            Event::Settle { word },
        )
    }
}
