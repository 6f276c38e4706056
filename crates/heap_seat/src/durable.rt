//! What a caller of any open heap does to publish a word.
ghost use Rattle.std.specs.Prelude.{◌≡◌, ℕ, OnOk, IfErr, Some};
ghost use Rattle.heap_seat.specs.View.{View, word_of};
ghost use Rattle.heap_seat.specs.Words.{IsOwnSpot, MayHaveStored};
ghost use Rattle.heap_seat.specs.Tickets.{Runs, Stops};
ghost use Rattle.heap_seat.specs.Calls.{SameRefusals};
ghost use Rattle.heap_seat.specs.Rows.{IsRow, Settles};

use crate::seat::HeapSeat;
use crate::spot::Spot;
use line_memory::Stopped;

/// Stores the value at the spot and makes it durable, with each own word whose write-back is
/// pending: a crash after `Ok` leaves them.
pub fn persist<H: HeapSeat>(heap: &mut H, s: Spot, value: u64) -> Result<(), Stopped>
    requires { IsOwnSpot (H.view heap.old) s }
    ensures runs { OnOk result (Runs (H.view heap.old) (H.view heap.new)) }
    ensures ok { OnOk result ((H.view heap.new).volatile (word_of s) ≡ Some value) }
    ensures durable { OnOk result ((H.view heap.new).durable (word_of s) ≡ Some value) }
    ensures settled { OnOk result (Settles (H.view heap.old) (H.view heap.new)) }
    ensures cause { IfErr result (λ e. Stops e.step (H.view heap.old) (H.view heap.new)) }
    ensures calls { IsRow 3 0 0 (H.view heap.old) (H.view heap.new) }
    ensures refusals { SameRefusals (H.view heap.old) (H.view heap.new) }
    ensures idle { (ticket : ℕ) → (H.view heap.old).stopped ≡ Some ticket → heap.new ≡ heap.old }
    ensures kept { H.keeps heap.old heap.new }

    // At every exit a crash leaves what it could before, or the value in the word.
    ensures crash { MayHaveStored (word_of s) value (H.view heap.old) (H.view heap.new) }
{
    heap.store(s, value)?;
    heap.write_back(s)?;
    heap.fence()
}
