//! What has arrived is brought in.
ghost use Rattle.std.specs.Prelude.{◌≡◌, ◌⊎◌, ℕ, ◌+◌, ◌*◌, List, [], ◌++◌, length, IfOk, OnOk, OnErr, IfErr};
ghost use Rattle.heap_model.specs.Image.{Image};
ghost use Rattle.heap_seat.specs.Calls.{SameRefusals};
ghost use Rattle.heap_seat.specs.Rows.{IsRow};
ghost use Rattle.heap_seat.specs.Tickets.{Runs, Stops};
ghost use Rattle.heap_seat.specs.View.{View};
ghost use Rattle.dict_model.specs.Requests.{Request, Reply};
ghost use Rattle.dict_requests.specs.Reached.{ReachesAllHeld};
ghost use Rattle.run_model.specs.Progress.{HasAnswered};
ghost use Rattle.run_model.specs.Working.{TakesRequests};
ghost use Rattle.run_model.specs.Sending.{puts_of};
ghost use Rattle.shard_moves.specs.Arriving.{HaveTables, ListAllKeys, ArrivesNext, StopsAtFirst, StopsInOne};

use crate::inbox::Inbox;
use dict_model::SHARDS;
use dict_requests::Shard;
use heap_seat::HeapSeat;
use line_memory::Stopped;

/// Brings in the next of what has arrived, and tells whether there was one.
fn bring_next<H: HeapSeat, I: Inbox<H>>(seat: &mut H, inbox: &mut I) -> Result<bool, Stopped>
    requires ready { I.ready inbox.old seat.old }
    requires tables { HaveTables (I.left inbox.old) (H.view seat.old) }
    ensures ok { IfOk result (λ more. ArrivesNext H.view more (I.left inbox.old) (I.left inbox.new)
        seat.old seat.new) }
    ensures exact { OnOk result (ReachesAllHeld (H.view seat.old)
        → ReachesAllHeld (H.view seat.new)) }
    ensures cause { IfErr result (λ e. Stops e.step (H.view seat.old) (H.view seat.new)) }
    ensures stopped { OnErr result (StopsAtFirst (I.left inbox.old) (I.left inbox.new)
        (H.view seat.old) (H.view seat.new)) }

    // At every exit.
    ensures taken { (H.view seat.new).taken ≡ (H.view seat.old).taken }
    ensures refusals { SameRefusals (H.view seat.old) (H.view seat.new) }
    ensures goes_on { I.goes seat.old seat.new }
    ensures ready_on { I.ready inbox.new seat.new }
{
    let Some((key, node)) = inbox.next(seat)? else {
        return Ok(false);
    };
    Shard::at(key % SHARDS).bring(seat, key, node)?;
    Ok(true)
}

/// Brings in all that has arrived, in the order of the inbox: each key gets its value, and a node
/// that it had is freed.
///
/// After `Stopped` those before one are brought in, and that one may be or not.
pub fn bring_in<H: HeapSeat, I: Inbox<H>>(seat: &mut H, inbox: &mut I) -> Result<(), Stopped>
    requires ready { I.ready inbox.old seat.old }
    requires tables { HaveTables (I.left inbox.old) (H.view seat.old) }
    ensures answered { OnOk result ((image : Image) (rs : List (Request × Reply))
        → HasAnswered image rs (H.view seat.old)
        → HasAnswered image (rs ++ puts_of (I.left inbox.old)) (H.view seat.new)) }
    ensures empty { OnOk result (I.left inbox.new ≡ []) }
    ensures exact { OnOk result (ReachesAllHeld (H.view seat.old)
        → ReachesAllHeld (H.view seat.new)) }
    ensures runs { OnOk result ((H.view seat.new ≡ H.view seat.old)
        ⊎ Runs (H.view seat.old) (H.view seat.new)) }
    ensures cause { IfErr result (λ e. Stops e.step (H.view seat.old) (H.view seat.new)) }
    ensures steps { OnOk result (TakesRequests H.view I.goes H.has_none
        (puts_of (I.left inbox.old)) seat.old seat.new) }
    ensures stopped { OnErr result (StopsInOne H.view I.goes H.has_none
        (I.left inbox.old) (I.left inbox.new) seat.old seat.new) }

    // At every exit.
    ensures calls { (keys : List ℕ) → ListAllKeys (I.left inbox.old) (H.view seat.old) keys
        → IsRow (length (I.left inbox.old) * (512 + 4 * length keys))
        (length (I.left inbox.old)) 0 (H.view seat.old) (H.view seat.new) }
    ensures taken { (H.view seat.new).taken ≡ (H.view seat.old).taken }
    ensures refusals { SameRefusals (H.view seat.old) (H.view seat.new) }
    ensures roots { (H.view seat.new).roots ≡ (H.view seat.old).roots }
    ensures goes_on { I.goes seat.old seat.new }
    ensures ready_on { I.ready inbox.new seat.new }
{
    while bring_next(seat, inbox)? {}
    Ok(())
}
