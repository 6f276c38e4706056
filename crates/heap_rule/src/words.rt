//! What a seat does to words of its own: stores, and making one durable.

ghost use Rattle.std.specs.Prelude.{ℕ};
ghost use Rattle.core_model.specs.declared.event.Event.TheVariants.{Store, Settle};
ghost use Rattle.heap_table.specs.Plays.{IsEvent};
ghost use Rattle.heap_rule.specs.Seated.{KeepsStores, IsSeatOf, HasNewStore};
ghost use Rattle.heap_rule.specs.Shown.{Can};

use crate::seat::Seat;
use core_model::Event;
use heap_table::{Shared, learn, store};

impl Seat {
    /// Stores to a word of its own.
    pub fn store_word(&mut self, shared: &Shared, word: u64, value: u64)
        requires seat { IsSeatOf shared.now self.old }
        requires can { Can self.old.view (Store word value) }
        ensures event { (found : ℕ) × IsEvent (Store word value) self.old.view found self.new.view }
        ensures seat { IsSeatOf shared.now self.new }
        ensures stores { HasNewStore word self.old self.new }
    {
        let event = Event::Store { word, value };
        store(shared, &mut self.table_seat, word, value, event);
        self.notes.ticket = None;
        self.notes.batch.linked = self.notes.batch.is_linked_after(word);
        self.recent.push(word);
        self.pending.unmark(word as usize);
    }

    /// Makes a word of its own durable: it is read, and its durable value becomes what was read.
    pub fn settle(&mut self, shared: &Shared, word: u64)
        requires seat { IsSeatOf shared.now self.old }
        requires can { Can self.old.view (Settle word) }
        ensures event { (found : ℕ) × IsEvent (Settle word) self.old.view found self.new.view }
        ensures seat { IsSeatOf shared.now self.new }
        ensures stores { KeepsStores self.old self.new }
    {
        let value = learn(shared, &mut self.table_seat, word);
        let place = self.geometry.length() + word;
        let event = Event::Settle { word };
        store(shared, &mut self.table_seat, place, value, event);
    }
}
