//! A move's first part: the node goes out of its shard, and is sent.
ghost use Rattle.std.specs.Prelude.{◌≡◌, ℕ, ◌+◌, ◌≤◌, true, false, IfOk, OnOk, OnErr, IfErr};
ghost use Rattle.heap_seat.specs.Calls.{SameRefusals};
ghost use Rattle.heap_seat.specs.Tickets.{Runs, Stops};
ghost use Rattle.heap_seat.specs.View.{View};
ghost use Rattle.dict_model.specs.Nodes.{shard_of};
ghost use Rattle.dict_model.specs.Requests.{move, without_key};
ghost use Rattle.dict_requests.specs.Changes.{MayChange};
ghost use Rattle.dict_requests.specs.Reached.{ReachesAllHeld};
ghost use Rattle.dict_requests.specs.Removal.{IsShard};
ghost use Rattle.run_model.specs.Progress.{Answers, MayAnswer};
ghost use Rattle.run_model.specs.Working.{MakesCalls};
ghost use Rattle.shard_moves.specs.declared.away.MoveAnswer.TheVariants.{Full, Done};
ghost use Rattle.shard_moves.specs.Moves.{reply_of, SendsFor};

use crate::outbox::Outbox;
use dict_model::SHARDS;
use dict_requests::Shard;
use heap_seat::HeapSeat;
use line_memory::Stopped;

/// What a move is told.
#[derive(Clone, Copy)]
pub enum MoveAnswer {
    /// The node was taken out and sent.
    Done,
    /// The key is there, but the other key's shard has no table, for want of room.
    Full,
    /// The key is not there.
    Missing,
}

/// Takes the key's node out and sends it.
fn send_away<H: HeapSeat, O: Outbox<H>>(
    seat: &mut H,
    outbox: &mut O,
    number: usize,
    key: u64,
    to: u64,
) -> Result<MoveAnswer, Stopped>
    requires shard { IsShard (H.view seat.old) (shard_of key) }
    requires ready { O.ready outbox.old seat.old }
    requires room { 1 ≤ O.room outbox.old }
    ensures ok { IfOk result (λ told. Answers (move key to) (reply_of told)
        (H.view seat.old) (H.view seat.new)) }
    ensures sent { IfOk result (λ told. SendsFor number key to told
        (O.sent outbox.old) (O.sent outbox.new) (H.view seat.old)) }
    ensures full { IfOk result (λ told. told ≡ Full → ⊥) }
    ensures runs { OnOk result (Runs (H.view seat.old) (H.view seat.new)) }
    ensures exact { OnOk result (ReachesAllHeld (H.view seat.old)
        → ReachesAllHeld (H.view seat.new)) }
    ensures cause { IfErr result (λ e. Stops e.step (H.view seat.old) (H.view seat.new)) }
    ensures unsent { OnErr result (O.sent outbox.new ≡ O.sent outbox.old) }

    // At every exit.
    ensures crash { MayAnswer (move key to) (H.view seat.old) (H.view seat.new) }
    ensures taken { (H.view seat.new).taken ≡ (H.view seat.old).taken }
    ensures calls { MakesCalls (move key to) (H.view seat.old) (H.view seat.new) }
    ensures refusals { SameRefusals (H.view seat.old) (H.view seat.new) }
    ensures room_left { O.room outbox.old ≤ O.room outbox.new + 1 }
    ensures goes_on { O.goes seat.old seat.new }
    ensures ready_on { O.ready outbox.new seat.new }
{
    let mut shard = Shard::at(key % SHARDS);
    let Some(node) = shard.take(seat, key)? else {
        return Ok(MoveAnswer::Missing);
    };
    outbox.send(seat, number, to, node)?;
    Ok(MoveAnswer::Done)
}

/// Tells of a move that finds no table: that there is no room, or that the key isn't there.
fn refuse<H: HeapSeat>(seat: &mut H, key: u64) -> Result<MoveAnswer, Stopped>
    requires shard { IsShard (H.view seat.old) (shard_of key) }
    ensures ok { IfOk result (λ told. (to : ℕ) → Answers (move key to) (reply_of told)
        (H.view seat.old) (H.view seat.new)) }
    ensures done { IfOk result (λ told. told ≡ Done → ⊥) }
    ensures runs { OnOk result (Runs (H.view seat.old) (H.view seat.new)) }
    ensures cause { IfErr result (λ e. Stops e.step (H.view seat.old) (H.view seat.new)) }

    // At every exit.
    ensures exact { ReachesAllHeld (H.view seat.old) → ReachesAllHeld (H.view seat.new) }
    ensures crash { MayChange (shard_of key) (λ map. without_key map key)
        (H.view seat.old) (H.view seat.new) }
    ensures taken { (H.view seat.new).taken ≡ (H.view seat.old).taken }
    ensures calls { (to : ℕ) → MakesCalls (move key to) (H.view seat.old) (H.view seat.new) }
    ensures refusals { SameRefusals (H.view seat.old) (H.view seat.new) }
    ensures kept { H.keeps seat.old seat.new }
{
    let shard = Shard::at(key % SHARDS);
    if shard.has(seat, key)? {
        Ok(MoveAnswer::Full)
    } else {
        Ok(MoveAnswer::Missing)
    }
}

/// Takes the key's node out of its shard and sends it to the other key, if that key's shard has a
/// table. The seat holds it no longer then. `number` is the request's in the trace.
///
/// After `Stopped` a crash leaves the map with the key or without it, and nothing was sent.
pub fn move_away<H: HeapSeat, O: Outbox<H>>(
    seat: &mut H,
    outbox: &mut O,
    number: usize,
    key: u64,
    to: u64,
    has_table: bool,
) -> Result<MoveAnswer, Stopped>
    requires shard { IsShard (H.view seat.old) (shard_of key) }
    requires ready { O.ready outbox.old seat.old }
    requires room { 1 ≤ O.room outbox.old }
    ensures ok { IfOk result (λ told. Answers (move key to) (reply_of told)
        (H.view seat.old) (H.view seat.new)) }
    ensures sent { IfOk result (λ told. SendsFor number key to told
        (O.sent outbox.old) (O.sent outbox.new) (H.view seat.old)) }
    ensures full { IfOk result (λ told. told ≡ Full → has_table ≡ false) }
    ensures done { IfOk result (λ told. told ≡ Done → has_table ≡ true) }
    ensures runs { OnOk result (Runs (H.view seat.old) (H.view seat.new)) }
    ensures exact { OnOk result (ReachesAllHeld (H.view seat.old)
        → ReachesAllHeld (H.view seat.new)) }
    ensures cause { IfErr result (λ e. Stops e.step (H.view seat.old) (H.view seat.new)) }
    ensures unsent { OnErr result (O.sent outbox.new ≡ O.sent outbox.old) }

    // At every exit.
    ensures crash { MayAnswer (move key to) (H.view seat.old) (H.view seat.new) }
    ensures taken { (H.view seat.new).taken ≡ (H.view seat.old).taken }
    ensures calls { MakesCalls (move key to) (H.view seat.old) (H.view seat.new) }
    ensures refusals { SameRefusals (H.view seat.old) (H.view seat.new) }
    ensures room_left { O.room outbox.old ≤ O.room outbox.new + 1 }
    ensures goes_on { O.goes seat.old seat.new }
    ensures ready_on { O.ready outbox.new seat.new }
{
    if has_table {
        send_away(seat, outbox, number, key, to)
    } else {
        refuse(seat, key)
    }
}
