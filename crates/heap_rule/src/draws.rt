//! The draw of a ticket with a number by chance, by which a word may become durable early.

ghost use Rattle.std.specs.Prelude.{◌≡◌, ℕ, None, Some};
ghost use Rattle.core_model.specs.declared.event.Event.TheVariants.{Tick};
ghost use Rattle.heap_rule.specs.Fences.{SettlesEarly};
ghost use Rattle.heap_table.specs.Plays.{IsEvent};
ghost use Rattle.heap_rule.specs.Seated.{SeatView, KeepsStores, IsSeatOf, TellsDraw};
ghost use Rattle.heap_rule.specs.Shown.{Can};

use crate::seat::Seat;
use core_model::Shift;
use heap_table::Shared;
use line_memory::{Chance, Stopped};

impl Seat {
    /// Draws a ticket, as `tick` does, after it has asked chance for a number: by that, the word of
    /// one of the last sixteen stores may become durable. A seat that has stopped doesn't ask.
    pub fn draw<C: Chance>(
        &mut self,
        shared: &Shared,
        shift: Option<Shift>,
        chance: &mut C,
    ) -> Result<(), Stopped>
        requires seat { IsSeatOf shared.now self.old }
        requires can { self.old.view.stopped ≡ None → Can self.old.view (Tick shift) }
        ensures event { self.old.view.stopped ≡ None
            → (r : ℕ) × C.draw_gives chance.old r chance.new
            × ((early : SeatView) × SettlesEarly r self.old early
            × (found : ℕ) × IsEvent (Tick shift) early.view found self.new.view) }
        ensures had_stopped { (step : ℕ) → self.old.view.stopped ≡ Some step
            → (self.new ≡ self.old) × (chance.new ≡ chance.old) }
        ensures told { TellsDraw self.new.view result }
        ensures seat { IsSeatOf shared.now self.new }
        ensures stores { KeepsStores self.old self.new }
    {
        if let Some(step) = self.notes.stopped {
            return Err(Stopped { step });
        }
        let number = chance.draw();
        self.settle_early(shared, number);
        self.tick(shared, shift)
    }

    /// Makes the word of the recent store durable that the number names, where there is one and its
    /// word is still own.
    fn settle_early(&mut self, shared: &Shared, number: u64)
        requires seat { IsSeatOf shared.now self.old }
        requires going { self.old.view.stopped ≡ None }
        ensures early { SettlesEarly number self.old self.new }
        ensures stores { KeepsStores self.old self.new }
        ensures seat { IsSeatOf shared.now self.new }
    {
        if let Some(word) = self.recent.early_word(number) {
            self.settle_own(shared, word);
        }
    }
}
