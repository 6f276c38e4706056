//! What has arrived for a worker's shards.
ghost use Rattle.std.specs.Prelude.{◌≡◌, ℕ, List, Option, IfOk, OnErr, IfErr};
ghost use Rattle.heap_seat.specs.Calls.{IsSmallCall};
ghost use Rattle.heap_seat.specs.Tickets.{Stops};
ghost use Rattle.heap_seat.specs.View.{View};
ghost use Rattle.heap_seat.specs.Words.{KeepsOwn};
ghost use Rattle.shard_moves.specs.Inboxes.{TakesNext, IsLeft};
ghost use Rattle.run_model.specs.Sending.{Sent};

use heap_model::Block;
use heap_seat::HeapSeat;
use line_memory::Stopped;

/// Nodes that have arrived for a seat, in the order in which they are to be brought in.
pub trait Inbox<H: HeapSeat> {
    // What is left of them.
    ghost left: { Self → List Sent };

    // What goes on of the seat, over its calls and over what it accepts.
    ghost goes: { H → H → Type 0 };

    // That the seat may accept from it.
    ghost ready: { Self → H → Type 0 };

    /// The next node, which the seat holds from now on, with the key that is to have its value; or
    /// `None` where none is left, and nothing changes.
    ///
    /// After `Stopped` the same nodes are left.
    fn next(&mut self, seat: &mut H) -> Result<Option<(u64, Block)>, Stopped>
        requires ready { ready self.old seat.old }
        ensures ok { IfOk result (λ next. TakesNext H.view next (left self.old) (left self.new)
            seat.old seat.new) }
        ensures cause { IfErr result (λ e. Stops e.step (H.view seat.old) (H.view seat.new)) }
        ensures unchanged { OnErr result (KeepsOwn (H.view seat.old) (H.view seat.new)) }
        ensures some { OnErr result (IsLeft (left self.old)) }
        ensures back { OnErr result (left self.new ≡ left self.old) }

        // At every exit. Where nothing is left no call is made.
        ensures counted { IsLeft (left self.old) → IsSmallCall (H.view seat.old) (H.view seat.new) }
        ensures goes_on { goes seat.old seat.new }
        ensures ready_on { ready self.new seat.new };

    ghost goes_none: { (s : H) → goes s s };

    ghost goes_then: { (s t u : H) → goes s t → goes t u → goes s u };

    ghost goes_kept: { (s t : H) → H.keeps s t → goes s t };

    ghost ready_kept: { (o : Self) (s t : H) → H.keeps s t → ready o s → ready o t };
}
