//! Where a node goes that was taken out of its shard.
ghost use Rattle.std.specs.Prelude.{◌≡◌, ℕ, ◌+◌, ◌≤◌, List, OnOk, OnErr, IfErr};
ghost use Rattle.heap_seat.specs.Calls.{IsSmallCall};
ghost use Rattle.heap_seat.specs.Handing.{Offers};
ghost use Rattle.heap_seat.specs.Tickets.{Stops};
ghost use Rattle.heap_seat.specs.View.{View};
ghost use Rattle.heap_seat.specs.Words.{KeepsOwn};
ghost use Rattle.dict_requests.specs.Moving.{IsNodeOf};
ghost use Rattle.dict_requests.specs.Removal.{IsLoose};
ghost use Rattle.run_model.specs.Sending.{Sent};
ghost use Rattle.shard_moves.specs.Outboxes.{AddsNode};

use heap_model::Block;
use heap_seat::HeapSeat;
use line_memory::Stopped;

/// Where a seat's nodes go: each with the number of its request and the key that is to have its
/// value.
pub trait Outbox<H: HeapSeat> {
    // What was sent, in whatever order it is told.
    ghost sent: { Self → List Sent };

    // For how many more nodes there is room.
    ghost room: { Self → ℕ };

    // What goes on of the seat, over its calls and over what it sends.
    ghost goes: { H → H → Type 0 };

    // That the seat may send by it.
    ghost ready: { Self → H → Type 0 };

    /// Offers a node that no root meets any more: the seat holds it no longer. Where there is no
    /// room the clauses promise nothing of the node.
    ///
    /// After `Stopped` it is held still, and nothing was sent.
    fn send(&mut self, seat: &mut H, number: usize, key: u64, node: Block) -> Result<(), Stopped>
        requires ready { ready self.old seat.old }
        requires loose { IsLoose node (H.view seat.old) }
        requires node { (value : List ℕ) × IsNodeOf (H.view seat.old) node value }
        ensures ok { OnOk result (1 ≤ room self.old
            → Offers node (H.view seat.old) (H.view seat.new)) }
        ensures added { OnOk result (1 ≤ room self.old → AddsNode number key node
            (H.view seat.old) (sent self.old) (sent self.new)) }
        ensures cause { IfErr result (λ e. Stops e.step (H.view seat.old) (H.view seat.new)) }
        ensures unchanged { OnErr result (KeepsOwn (H.view seat.old) (H.view seat.new)) }
        ensures unsent { OnErr result (sent self.new ≡ sent self.old) }

        // At every exit.
        ensures counted { 1 ≤ room self.old → IsSmallCall (H.view seat.old) (H.view seat.new) }
        ensures room_left { room self.old ≤ room self.new + 1 }
        ensures goes_on { goes seat.old seat.new }
        ensures ready_on { ready self.new seat.new };

    ghost goes_none: { (s : H) → goes s s };

    ghost goes_then: { (s t u : H) → goes s t → goes t u → goes s u };

    ghost goes_kept: { (s t : H) → H.keeps s t → goes s t };

    ghost ready_kept: { (o : Self) (s t : H) → H.keeps s t → ready o s → ready o t };
}
