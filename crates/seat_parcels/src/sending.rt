//! A node goes into the box.

ghost use Rattle.std.specs.Prelude.{◌≡◌};

use crate::fact::{HeapOf, QueuesOf};
use crate::parcel::Parcel;
use crate::postbox::PostBox;
use dict_requests::a_node_goes_with_its_value;
use heap_model::Block;
use line_memory::{Chance, Stopped};
use shard_moves::Outbox;
use thread_cache::CacheSeat;

impl<'a, 'b, J: HeapOf, Q: QueuesOf, C: Chance> Outbox<CacheSeat<'b, C>> for PostBox<'a, J, Q> {
    ghost use Rattle.seat_parcels.specs.Boxes.{IsInStep, sent_by};
    ghost use Rattle.seat_parcels.specs.Going.{OffersAtMost};
    ghost use Rattle.seat_parcels.specs.Laws.{may_send_law, sends_kept_law, sends_none_law, sends_then_law};

    ghost sent = { sent_by };

    ghost room = { λ o. o.spare };

    ghost goes = { OffersAtMost C.draw_gives };

    ghost ready = { λ o s. IsInStep J.table o s.state };

    fn send(
        &mut self,
        seat: &mut CacheSeat<'b, C>,
        number: usize,
        key: u64,
        node: Block,
    ) -> Result<(), Stopped> {
        a_node_goes_with_its_value();
        if !self.has_room() {
            return Ok(());
        }
        let carrier = seat.offer(node)?;
        self.put(Parcel {
            number,
            key,
            carrier,
        });
        Ok(())
    }

    ghost goes_none = { sends_none_law C.draw_gives };

    ghost goes_then = { sends_then_law C.draw_gives };

    ghost goes_kept = { sends_kept_law C.draw_gives };

    ghost ready_kept = { may_send_law C.draw_gives J.table };
}
