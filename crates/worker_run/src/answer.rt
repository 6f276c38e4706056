//! The reply to one request.
ghost use Rattle.std.specs.Prelude.{◌≡◌, ◌≢◌, ℕ, ◌+◌, ◌*◌, ◌≤◌, List, length, Some, IfOk, OnOk, OnErr, IfErr};
ghost use Rattle.heap_seat.specs.View.{View};
ghost use Rattle.heap_seat.specs.Tickets.{Runs, Stops};
ghost use Rattle.heap_seat.specs.Calls.{SameRefusals};
ghost use Rattle.dict_model.specs.Nodes.{shard_of, largest_value};
ghost use Rattle.dict_model.specs.Requests.{put, get, del, move, full};
ghost use Rattle.dict_requests.specs.Reached.{ReachesAllHeld};
ghost use Rattle.dict_requests.specs.Removal.{IsShard};
ghost use Rattle.run_model.specs.Progress.{MayAnswer};
ghost use Rattle.run_model.specs.Spending.{IsPut};
ghost use Rattle.run_model.specs.Workers.{shard_asked};
ghost use Rattle.run_model.specs.Working.{Fits, Replied, MakesCalls, WasRefused};
ghost use Rattle.shard_moves.specs.Tables.{is_flagged};
ghost use Rattle.worker_run.specs.Said.{request_of, reply_of, IsShort};
ghost use Rattle.worker_run.specs.Sending.{GoesByTables, HasSent, needs_room};
ghost use Rattle.worker_run.specs.Taking.{MayTake};

use dict_model::SHARDS;
use dict_requests::Shard;
use heap_seat::{AllocFault, HeapSeat};
use line_memory::Stopped;
use region_header::Bytes;
use shard_moves::{MoveAnswer, Outbox, ShardFlags, move_away};
use trace_text::{Reply, Request};

/// Sets a key, and tells that it is done or that there is no room.
fn put_reply<H: HeapSeat>(seat: &mut H, key: u64, value: &[u8]) -> Result<Reply, Stopped>
    requires shard { IsShard (H.view seat.old) (shard_of key) }
    requires short { length value.now ≤ largest_value }
    ensures ok { IfOk result (λ reply. Replied (put key value.now) (reply_of reply)
        (H.view seat.old) (H.view seat.new)) }
    ensures runs { OnOk result (Runs (H.view seat.old) (H.view seat.new)) }
    ensures refused { IfOk result (λ reply. reply_of reply ≡ Some full
        → WasRefused H.view H.keeps H.has_none (put key value.now) seat.old seat.new) }
    ensures granted { IfOk result (λ reply.
        (IsPut (put key value.now) → reply_of reply ≡ Some full → ⊥)
        → SameRefusals (H.view seat.old) (H.view seat.new)) }
    ensures exact { OnOk result (ReachesAllHeld (H.view seat.old)
        → ReachesAllHeld (H.view seat.new)) }
    ensures cause { IfErr result (λ e. Stops e.step (H.view seat.old) (H.view seat.new)) }

    // At every exit.
    ensures crash { MayAnswer (put key value.now) (H.view seat.old) (H.view seat.new) }
    ensures taken { MayTake (put key value.now) (H.view seat.old) (H.view seat.new) }
    ensures calls { MakesCalls (put key value.now) (H.view seat.old) (H.view seat.new) }
    ensures kept { H.keeps seat.old seat.new }
{
    let mut shard = Shard::at(key % SHARDS);
    match shard.put(seat, key, value) {
        Ok(()) => Ok(Reply::Ok),
        Err(AllocFault::Full(_)) => Ok(Reply::Full),
        Err(AllocFault::Stopped(stopped)) => Err(stopped),
    }
}

/// Reads a key's value into the room, and tells it or that the key isn't there.
fn get_reply<H: HeapSeat>(seat: &mut H, key: u64, mut room: Vec<u8>) -> Result<Reply, Stopped>
    requires shard { IsShard (H.view seat.old) (shard_of key) }
    requires fits { Fits (H.view seat.old) (get key) (length room.items) }
    ensures ok { IfOk result (λ reply. Replied (get key) (reply_of reply)
        (H.view seat.old) (H.view seat.new)) }
    ensures runs { OnOk result (Runs (H.view seat.old) (H.view seat.new)) }
    ensures refused { IfOk result (λ reply. reply_of reply ≡ Some full
        → WasRefused H.view H.keeps H.has_none (get key) seat.old seat.new) }
    ensures granted { OnOk result (SameRefusals (H.view seat.old) (H.view seat.new)) }
    ensures exact { OnOk result (ReachesAllHeld (H.view seat.old)
        → ReachesAllHeld (H.view seat.new)) }
    ensures cause { IfErr result (λ e. Stops e.step (H.view seat.old) (H.view seat.new)) }

    // At every exit.
    ensures crash { MayAnswer (get key) (H.view seat.old) (H.view seat.new) }
    ensures taken { MayTake (get key) (H.view seat.old) (H.view seat.new) }
    ensures calls { MakesCalls (get key) (H.view seat.old) (H.view seat.new) }
    ensures kept { H.keeps seat.old seat.new }
{
    let shard = Shard::at(key % SHARDS);
    let Some(length) = shard.get(seat, key, &mut room)? else {
        return Ok(Reply::None);
    };
    room.truncate(length);
    Ok(Reply::Value(Bytes::from_vec(room)))
}

/// Takes a key out, and tells that it is done or that the key isn't there.
fn del_reply<H: HeapSeat>(seat: &mut H, key: u64) -> Result<Reply, Stopped>
    requires shard { IsShard (H.view seat.old) (shard_of key) }
    ensures ok { IfOk result (λ reply. Replied (del key) (reply_of reply)
        (H.view seat.old) (H.view seat.new)) }
    ensures runs { OnOk result (Runs (H.view seat.old) (H.view seat.new)) }
    ensures refused { IfOk result (λ reply. reply_of reply ≡ Some full
        → WasRefused H.view H.keeps H.has_none (del key) seat.old seat.new) }
    ensures granted { OnOk result (SameRefusals (H.view seat.old) (H.view seat.new)) }
    ensures exact { OnOk result (ReachesAllHeld (H.view seat.old)
        → ReachesAllHeld (H.view seat.new)) }
    ensures cause { IfErr result (λ e. Stops e.step (H.view seat.old) (H.view seat.new)) }

    // At every exit.
    ensures crash { MayAnswer (del key) (H.view seat.old) (H.view seat.new) }
    ensures taken { MayTake (del key) (H.view seat.old) (H.view seat.new) }
    ensures calls { MakesCalls (del key) (H.view seat.old) (H.view seat.new) }
    ensures kept { H.keeps seat.old seat.new }
{
    let mut shard = Shard::at(key % SHARDS);
    let found = shard.del(seat, key)?;
    Ok(if found { Reply::Ok } else { Reply::None })
}

/// Moves a key's node out of its shard, and tells that it is done, that there is no table for it, or
/// that the key isn't there.
fn move_reply<H: HeapSeat, O: Outbox<H>>(
    seat: &mut H,
    outbox: &mut O,
    number: usize,
    key: u64,
    to: u64,
    tables: &ShardFlags,
) -> Result<Reply, Stopped>
    requires shard { IsShard (H.view seat.old) (shard_of key) }
    requires ready { O.ready outbox.old seat.old }
    requires room { 1 ≤ O.room outbox.old }
    ensures ok { IfOk result (λ reply. Replied (move key to) (reply_of reply)
        (H.view seat.old) (H.view seat.new)) }
    ensures sent { IfOk result (λ reply. HasSent number (move key to) (reply_of reply)
        (O.sent outbox.old) (O.sent outbox.new) (H.view seat.old)) }
    ensures tables { IfOk result (λ reply. GoesByTables (is_flagged tables.now) (move key to)
        (reply_of reply)) }
    ensures runs { OnOk result (Runs (H.view seat.old) (H.view seat.new)) }
    ensures exact { OnOk result (ReachesAllHeld (H.view seat.old)
        → ReachesAllHeld (H.view seat.new)) }
    ensures cause { IfErr result (λ e. Stops e.step (H.view seat.old) (H.view seat.new)) }
    ensures unsent { OnErr result (O.sent outbox.new ≡ O.sent outbox.old) }

    // At every exit.
    ensures crash { MayAnswer (move key to) (H.view seat.old) (H.view seat.new) }
    ensures taken { (H.view seat.new).taken ≡ (H.view seat.old).taken }
    ensures calls { MakesCalls (move key to) (H.view seat.old) (H.view seat.new) }
    ensures refusals { SameRefusals (H.view seat.old) (H.view seat.new) }
    ensures room_left { O.room outbox.old ≤ O.room outbox.new + 1 }
    ensures goes_on { O.goes seat.old seat.new }
    ensures ready_on { O.ready outbox.new seat.new }
{
    let has_table = tables[(to % SHARDS) as usize];
    let answer = move_away(seat, outbox, number, key, to, has_table)?;
    Ok(match answer {
        MoveAnswer::Done => Reply::Ok,
        MoveAnswer::Full => Reply::Full,
        MoveAnswer::Missing => Reply::None,
    })
}

/// Works off one request, which has this number in the trace. A value that is read goes into the
/// room; a node that is moved goes out by the outbox, if the other key's shard has a table.
pub(crate) fn answer<H: HeapSeat, O: Outbox<H>>(
    seat: &mut H,
    outbox: &mut O,
    number: usize,
    request: &Request,
    tables: &ShardFlags,
    room: Vec<u8>,
) -> Result<Reply, Stopped>
    requires shard { IsShard (H.view seat.old) (shard_asked (request_of request.now)) }
    requires short { IsShort (request_of request.now) }
    requires fits { Fits (H.view seat.old) (request_of request.now) (length room.items) }
    requires ready { O.ready outbox.old seat.old }
    requires room { needs_room (request_of request.now) ≤ O.room outbox.old }
    ensures ok { IfOk result (λ reply. Replied (request_of request.now) (reply_of reply)
        (H.view seat.old) (H.view seat.new)) }
    ensures sent { IfOk result (λ reply. HasSent number (request_of request.now) (reply_of reply)
        (O.sent outbox.old) (O.sent outbox.new) (H.view seat.old)) }
    ensures tables { IfOk result (λ reply. GoesByTables (is_flagged tables.now)
        (request_of request.now) (reply_of reply)) }
    ensures runs { OnOk result (Runs (H.view seat.old) (H.view seat.new)) }
    ensures refused { IfOk result (λ reply. IsPut (request_of request.now)
        → reply_of reply ≡ Some full
        → WasRefused H.view O.goes H.has_none (request_of request.now) seat.old seat.new) }
    ensures granted { IfOk result (λ reply.
        (IsPut (request_of request.now) → reply_of reply ≡ Some full → ⊥)
        → SameRefusals (H.view seat.old) (H.view seat.new)) }
    ensures exact { OnOk result (ReachesAllHeld (H.view seat.old)
        → ReachesAllHeld (H.view seat.new)) }
    ensures cause { IfErr result (λ e. Stops e.step (H.view seat.old) (H.view seat.new)) }
    ensures unsent { OnErr result (O.sent outbox.new ≡ O.sent outbox.old) }

    // At every exit.
    ensures crash { MayAnswer (request_of request.now) (H.view seat.old) (H.view seat.new) }
    ensures taken { MayTake (request_of request.now) (H.view seat.old) (H.view seat.new) }
    ensures calls { MakesCalls (request_of request.now) (H.view seat.old) (H.view seat.new) }
    ensures room_left { O.room outbox.old
        ≤ O.room outbox.new + needs_room (request_of request.now) }
    ensures goes_on { O.goes seat.old seat.new }
    ensures ready_on { O.ready outbox.new seat.new }
{
    match request {
        Request::Put(key, value) => put_reply(seat, *key, value.as_slice()),
        Request::Get(key) => get_reply(seat, *key, room),
        Request::Del(key) => del_reply(seat, *key),
        Request::Move(key, to) => move_reply(seat, outbox, number, *key, *to, tables),
    }
}
