//! The next node comes out of the tray.

ghost use Rattle.std.specs.Prelude.{◌≡◌, ◌⊎◌, IfErr, IfOk, OnErr};
ghost use Rattle.heap_seat.specs.Calls.{IsSmallCall};
ghost use Rattle.heap_seat.specs.Tickets.{Stops};
ghost use Rattle.heap_seat.specs.Words.{KeepsOwn};
ghost use Rattle.seat_model.specs.CacheState.{heap_view};
ghost use Rattle.shard_moves.specs.Inboxes.{IsLeft, TakesNext};
ghost use Rattle.seat_parcels.specs.Going.{AcceptsAtMost};
ghost use Rattle.seat_parcels.specs.Parcels.{all_sent_of};
ghost use Rattle.seat_parcels.specs.Trays.{IsInStepWith};

use crate::intray::{ArrivalsOf, InTray};
use crate::parcel::Parcel;
use dict_requests::a_node_goes_with_its_value;
use heap_model::Block;
use line_memory::{Chance, Stopped};
use shard_moves::Inbox;
use thread_cache::CacheSeat;

/// The block of the next parcel, which the seat holds from now on, with its key; or `None` where none
/// is left. That makes no call.
///
/// After `Stopped` the same parcels are left.
fn bring_next<'b, K: ArrivalsOf, C: Chance>(
    tray: &mut InTray<K>,
    seat: &mut CacheSeat<'b, C>,
) -> Result<Option<(u64, Block)>, Stopped>
    requires ready { IsInStepWith K.came tray.old seat.old.state }
    ensures ok { IfOk result (λ next. TakesNext (λ s. heap_view s.state) next
        (all_sent_of tray.old) (all_sent_of tray.new) seat.old seat.new) }
    ensures cause { IfErr result (λ e. Stops e.step
        (heap_view seat.old.state) (heap_view seat.new.state)) }
    ensures unchanged { OnErr result (KeepsOwn
        (heap_view seat.old.state) (heap_view seat.new.state)) }
    ensures some { OnErr result (IsLeft (all_sent_of tray.old)) }
    ensures back { OnErr result (tray.new ≡ tray.old) }

    // At every exit.
    ensures counted { IsLeft (all_sent_of tray.old)
        → IsSmallCall (heap_view seat.old.state) (heap_view seat.new.state) }
    ensures goes_on { AcceptsAtMost C.draw_gives seat.old seat.new }
    ensures ready_on { IsInStepWith K.came tray.new seat.new.state }
{
    a_node_goes_with_its_value();
    let Some(parcel) = tray.left.pop_front() else {
        return Ok(None);
    };
    let Parcel {
        number,
        key,
        carrier,
    } = parcel;
    match seat.accept(carrier) {
        Ok(block) => Ok(Some((key, block))),
        Err((stopped, carrier)) => {
            tray.left.push_front_reserved(Parcel {
                number,
                key,
                carrier,
            });
            Err(stopped)
        }
    }
}

impl<'b, K: ArrivalsOf, C: Chance> Inbox<CacheSeat<'b, C>> for InTray<K> {
    ghost use Rattle.seat_parcels.specs.Going.{AcceptsAtMost};
    ghost use Rattle.seat_parcels.specs.Laws.{may_take_law, takes_kept_law, takes_none_law, takes_then_law};
    ghost use Rattle.seat_parcels.specs.Parcels.{all_sent_of};
    ghost use Rattle.seat_parcels.specs.Trays.{IsInStepWith};

    ghost left = { all_sent_of };

    ghost goes = { AcceptsAtMost C.draw_gives };

    ghost ready = { λ i s. IsInStepWith K.came i s.state };

    fn next(&mut self, seat: &mut CacheSeat<'b, C>) -> Result<Option<(u64, Block)>, Stopped> {
        bring_next(self, seat)
    }

    ghost goes_none = { takes_none_law C.draw_gives };

    ghost goes_then = { takes_then_law C.draw_gives };

    ghost goes_kept = { takes_kept_law C.draw_gives };

    ghost ready_kept = { may_take_law C.draw_gives K.came };
}
