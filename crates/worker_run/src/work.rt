//! The requests of one worker, worked off one after the other.
ghost use Rattle.std.specs.Prelude.{◌≡◌, ℕ, ◌+◌, ◌*◌, ◌≤◌, ◌<◌, List, [], ◌++◌, length, sum_by, None, Some, IsTrue, IsFalse, Contains};
ghost use Rattle.std.specs.List.Sorted.{IsPermutation};
ghost use Rattle.std.specs.Vec.{vec_capacity};
ghost use Rattle.heap_model.specs.Image.{Image};
ghost use Rattle.heap_seat.specs.View.{View};
ghost use Rattle.dict_model.specs.Links.{shards};
ghost use Rattle.dict_model.specs.Requests.{Request as Asked, Reply as Answer};
ghost use Rattle.dict_model.specs.Shards.{Map};
ghost use Rattle.dict_requests.specs.Reached.{ReachesAllHeld};
ghost use Rattle.run_model.specs.Arrivals.{IsWholeMap};
ghost use Rattle.run_model.specs.Needs.{ListsKeysOf, put_into};
ghost use Rattle.run_model.specs.Opened.{HasMaps};
ghost use Rattle.run_model.specs.Progress.{HasAnswered};
ghost use Rattle.run_model.specs.Runs.{answered, unanswered};
ghost use Rattle.run_model.specs.Sending.{all_sent, worker_numbered};
ghost use Rattle.run_model.specs.Spending.{AreFullRightly, HasTakenFew, MakeFew, tables_missing};
ghost use Rattle.run_model.specs.Workers.{worker_of, worker_requests};
ghost use Rattle.run_model.specs.Working.{HasWorked, HasStopped, HaveRoom, IsUnderWay, TakesRequests, large_calls_of};
ghost use Rattle.shard_moves.specs.Tables.{is_flagged};
ghost use Rattle.worker_run.specs.Said.{requests_of, replies_of, ValuesAreShort};
ghost use Rattle.worker_run.specs.Sending.{GoesByTables, rooms_needed};

use crate::answer::answer;
use crate::worker::Worker;
use heap_seat::HeapSeat;
use region_header::Bytes;
use shard_moves::{Outbox, ShardFlags};
use std::collections::VecDeque;
use tool_ports::Gate;
use trace_text::{Reply, Request};

/// Works off the worker's requests in order until all are answered or the heap stops, and tells
/// whether it stopped. The gate is told of each of them, by its number in the trace. A node that is
/// moved goes out by the outbox, if `tables` tells that the other key's shard has a table.
pub fn work_off<H: HeapSeat, G: Gate, O: Outbox<H>>(
    seat: &mut H,
    worker: Worker,
    requests: &[Request],
    tables: &ShardFlags,
    mut rooms: VecDeque<Bytes>,
    outbox: &mut O,
    replies: &mut Vec<Reply>,
    gate: &G,
) -> bool
    ghost image: { Image }
    requires some { 1 ≤ worker.workers }
    requires begun { HasAnswered image [] (H.view seat.old) }
    requires shards { (shard : ℕ) → shard < shards → worker_of worker.workers shard ≡ worker.number
        → Contains (H.view seat.old).roots shard }
    requires maps { HasMaps image }
    requires rooms { HaveRoom image (requests_of requests.now)
        (worker_requests worker.workers worker.number (requests_of requests.now)) rooms.items }
    requires short { ValuesAreShort (requests_of requests.now) }
    requires empty { replies.old.items ≡ [] }
    requires reserved { length (worker_requests worker.workers worker.number
        (requests_of requests.now)) ≤ vec_capacity replies.old }
    requires ready { O.ready outbox.old seat.old }
    requires outgoing { rooms_needed (worker_requests worker.workers worker.number
        (requests_of requests.now)) ≤ O.room outbox.old }
    ensures answered { IsFalse result → HasWorked image
        (worker_requests worker.workers worker.number (requests_of requests.now)) []
        (replies_of replies.new.items) (H.view seat.new) }
    ensures stopped { IsTrue result → HasStopped image
        (worker_requests worker.workers worker.number (requests_of requests.now))
        (replies_of replies.new.items) (H.view seat.new) }
    ensures cause { IsTrue result → (ticket : ℕ) × ((H.view seat.new).stopped ≡ Some ticket) }
    ensures going { IsFalse result → (H.view seat.old).stopped ≡ None
        → (H.view seat.new).stopped ≡ None }
    ensures exact { IsFalse result → ReachesAllHeld (H.view seat.old)
        → ReachesAllHeld (H.view seat.new) }

    // At every exit.
    ensures sent { (whole : Map) → IsWholeMap image whole → IsPermutation
        (all_sent whole (worker_numbered worker.workers worker.number (requests_of requests.now))
        (replies_of replies.new.items) ++ O.sent outbox.old) (O.sent outbox.new) }
    ensures tables { (request : Asked) (answer : Answer) → Contains
        (answered (worker_requests worker.workers worker.number (requests_of requests.now))
        (replies_of replies.new.items)) (request, answer)
        → GoesByTables (is_flagged tables.now) request (Some answer) }
    ensures full { AreFullRightly H.view O.goes (tables_missing
        (put_into (worker_requests worker.workers worker.number (requests_of requests.now)))
        (H.view seat.old))
        (answered (worker_requests worker.workers worker.number (requests_of requests.now))
        (replies_of replies.new.items)) seat.old seat.new }
    ensures taken { HasTakenFew (tables_missing
        (put_into (worker_requests worker.workers worker.number (requests_of requests.now)))
        (H.view seat.old))
        (answered (worker_requests worker.workers worker.number (requests_of requests.now))
        (replies_of replies.new.items))
        (unanswered (worker_requests worker.workers worker.number (requests_of requests.now))
        (replies_of replies.new.items)) (H.view seat.old) (H.view seat.new) }
    ensures calls { (keys : List ℕ) → ListsKeysOf image keys → MakeFew
        (length (worker_requests worker.workers worker.number (requests_of requests.now)))
        (33280 + 4 * (length keys + length (worker_requests worker.workers worker.number
        (requests_of requests.now))))
        (sum_by large_calls_of (worker_requests worker.workers worker.number
        (requests_of requests.now))) (H.view seat.old) (H.view seat.new) }
    ensures steps { (u : H) × TakesRequests H.view O.goes H.has_none
        (answered (worker_requests worker.workers worker.number (requests_of requests.now))
        (replies_of replies.new.items)) seat.old u
        × IsUnderWay (unanswered (worker_requests worker.workers worker.number
        (requests_of requests.now)) (replies_of replies.new.items)) (H.view u) (H.view seat.new)
        × O.goes u seat.new }
    ensures roots { (H.view seat.new).roots ≡ (H.view seat.old).roots }
    ensures room { vec_capacity replies.new ≡ vec_capacity replies.old }
    ensures goes_on { O.goes seat.old seat.new }
    ensures ready_on { O.ready outbox.new seat.new }
{
    let mut left = requests;
    while let Some((request, rest)) = left.split_first() {
        if worker.has(request) {
            let Some(room) = rooms.pop_front() else {
                unreachable!();
            };
            let number = requests.len() - left.len();
            gate.pass(worker.number, number);
            let answered = answer(seat, outbox, number, request, tables, room.into_vec());
            gate.done(worker.number, number);
            let Ok(reply) = answered else {
                return true;
            };
            replies.push_reserved(reply);
        }
        left = rest;
    }
    false
}
