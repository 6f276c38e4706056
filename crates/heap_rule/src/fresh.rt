//! The steps of a seat on the mark below which superblocks have been taken.
//!
//! Linearization point: the one exchange of the mark, from which on the superblocks are the seat's;
//! for the durable mark its raise, which is never lost.
//!
//! A lost race: as `exchange_seen` says.
//!
//! The mark only rises, so it never comes back: where it is as it was read, nothing was taken since.

ghost use Rattle.std.specs.Prelude.{ℕ};
ghost use Rattle.core_model.specs.declared.event.Event.TheVariants.{TakeFresh, KeepUsed};
ghost use Rattle.core_model.specs.Effects.{seen};
ghost use Rattle.heap_table.specs.Plays.{IsEvent};
ghost use Rattle.heap_rule.specs.Seated.{KeepsStores, IsSeatOf, Tells};
ghost use Rattle.heap_rule.specs.Shown.{Can};

use crate::exchanges::exchange_seen;
use crate::seat::Seat;
use core_model::Event;
use heap_table::{Shared, raise};
use seat_index::{Ownership, own_range};
use seat_state::Seen;
use super_block::USED_WORD;

impl Seat {
    /// Takes `n` superblocks that were never taken, if the mark is as it was read; else tells it.
    pub fn try_take_fresh(&mut self, shared: &Shared, n: u64) -> Result<(), u64>
        requires seat { IsSeatOf shared.now self.old }
        requires can { Can self.old.view (TakeFresh n) }
        ensures event { (found : ℕ) × IsEvent (TakeFresh n) self.old.view found self.new.view
            × Tells (seen self.old.view.seen_used) found result }
        ensures seat { IsSeatOf shared.now self.new }
        ensures stores { KeepsStores self.old self.new }
    {
        let Some(used) = self.notes.seen_used else {
            unreachable!();
        };
        let event = Event::TakeFresh { n };
        let new = used + n;
        exchange_seen(
            shared,
            &mut self.table_seat,
            &mut self.notes,
            USED_WORD,
            used,
            new,
            event,
        )?;
        self.notes.seen_used = Some(new);
        self.notes.seen_anchor = Seen::cleared(self.notes.seen_anchor, used, n);
        own_range(&mut self.owned.ownerships, used, n, Ownership::Unclassed);
        Ok(())
    }

    /// Makes the mark durable as far as it was read.
    pub fn keep_used(&mut self, shared: &Shared)
        requires seat { IsSeatOf shared.now self.old }
        requires can { Can self.old.view KeepUsed }
        ensures event { (found : ℕ) × IsEvent KeepUsed self.old.view found self.new.view }
        ensures seat { IsSeatOf shared.now self.new }
        ensures stores { KeepsStores self.old self.new }
    {
        let Some(used) = self.notes.seen_used else {
            unreachable!();
        };
        let place = self.geometry.length() + USED_WORD;
        raise(shared, &mut self.table_seat, place, used, Event::KeepUsed);
        self.notes.ticket = None;
    }
}
