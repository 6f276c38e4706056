//! An outbox for requests without a move.

use heap_model::Block;
use heap_seat::HeapSeat;
use line_memory::Stopped;
use shard_moves::Outbox;

/// An outbox that has no room, and sends nothing: for requests of which none is a move.
#[derive(Drop)]
pub struct NoOutbox;

impl<H: HeapSeat> Outbox<H> for NoOutbox {
    ghost use Rattle.std.specs.Prelude.{[], ⊤};

    ghost sent = { λ o. [] };

    ghost room = { λ o. 0 };

    ghost goes = { H.keeps };

    ghost ready = { λ o s. ⊤ };

    fn send(
        &mut self,
        _seat: &mut H,
        _number: usize,
        _key: u64,
        _node: Block,
    ) -> Result<(), Stopped> {
        Ok(())
    }

    ghost goes_none = { H.keeps_none };

    ghost goes_then = { H.keeps_row };

    ghost goes_kept = { λ s t kept. kept };

    ghost ready_kept = { λ o s t kept ready. tt };
}
