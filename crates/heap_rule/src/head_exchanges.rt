//! The steps of a seat that exchange the head of a list.
//!
//! Linearization point: the one exchange of the head. From there on the descriptor is the seat's
//! (pop), or in front of the list for all seats (push).
//!
//! A lost race: as `exchange_seen` says.
//!
//! A head that came back: it counts its pops. With as many as were seen, no descriptor has left the
//! list, so the first one is still in it and its link is as it was read. A push may take a head that
//! came back: its link leads to the first descriptor that this head names, which is all it needs.

ghost use Rattle.std.specs.Prelude.{ℕ};
ghost use Rattle.core_model.specs.declared.event.Event.TheVariants.{Pop, Push};
ghost use Rattle.core_model.specs.Effects.{seen_word};
ghost use Rattle.heap_table.specs.Plays.{IsEvent};
ghost use Rattle.heap_rule.specs.Seated.{KeepsStores, IsSeatOf, Tells};
ghost use Rattle.heap_rule.specs.Shown.{Can};

use crate::exchanges::exchange_seen;
use crate::seat::Seat;
use core_model::Event;
use heap_table::Shared;
use seat_index::Ownership;
use seat_state::{Seen, head_after_pop, head_after_push, head_first};
use super_block::HEAD_WORD;

impl Seat {
    /// Claims the first descriptor of the list whose head and link were seen, if the head is as it
    /// was seen; else tells it.
    pub fn try_pop(&mut self, shared: &Shared) -> Result<(), u64>
        requires seat { IsSeatOf shared.now self.old }
        requires can { Can self.old.view Pop }
        ensures event { (found : ℕ) × IsEvent Pop self.old.view found self.new.view
            × Tells (seen_word self.old.view.seen_head) found result }
        ensures seat { IsSeatOf shared.now self.new }
        ensures stores { KeepsStores self.old self.new }
    {
        let Some(head) = self.notes.seen_head else {
            unreachable!();
        };
        let Some(link) = self.notes.seen_link else {
            unreachable!();
        };
        let place = HEAD_WORD + head.of;
        let new = head_after_pop(head.word, link);
        let event = Event::Pop;
        exchange_seen(
            shared,
            &mut self.table_seat,
            &mut self.notes,
            place,
            head.word,
            new,
            event,
        )?;
        let d = head_first(head.word).saturating_sub(1);
        self.notes.seen_head = None;
        self.notes.seen_link = None;
        self.notes.seen_anchor = Seen::cleared(self.notes.seen_anchor, d, 1);
        self.owned.ownerships[d as usize] = Ownership::listed(head.of);
        Ok(())
    }

    /// Puts a claimed descriptor in front of the list whose head was seen, if the head is as it was
    /// seen; else tells it.
    pub fn try_push(&mut self, shared: &Shared, d: u64) -> Result<(), u64>
        requires seat { IsSeatOf shared.now self.old }
        requires can { Can self.old.view (Push d) }
        ensures event { (found : ℕ) × IsEvent (Push d) self.old.view found self.new.view
            × Tells (seen_word self.old.view.seen_head) found result }
        ensures seat { IsSeatOf shared.now self.new }
        ensures stores { KeepsStores self.old self.new }
    {
        let Some(head) = self.notes.seen_head else {
            unreachable!();
        };
        let place = HEAD_WORD + head.of;
        let new = head_after_push(head.word, d);
        let event = Event::Push { d };
        exchange_seen(
            shared,
            &mut self.table_seat,
            &mut self.notes,
            place,
            head.word,
            new,
            event,
        )?;
        self.notes.seen_head = None;
        self.notes.seen_anchor = Seen::cleared(self.notes.seen_anchor, d, 1);
        self.owned.ownerships[d as usize] = Ownership::Nothing;
        Ok(())
    }
}
