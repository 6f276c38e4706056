//! A worker's requests are worked off.

ghost use Rattle.std.specs.Prelude.{◌≡◌, ◌<◌, ◌≤◌, ℕ, ◌++◌, true, false, [], length, slice_index, None, Contains};
ghost use Rattle.std.specs.List.Sorted.{IsPermutation};
ghost use Rattle.std.specs.Vec.{vec_capacity};
ghost use Rattle.heap_model.specs.Image.{Image};
ghost use Rattle.dict_model.specs.Links.{shards};
ghost use Rattle.dict_model.specs.Shards.{Map};
ghost use Rattle.dict_requests.specs.Reached.{ReachesAllHeld};
ghost use Rattle.run_model.specs.Arrivals.{IsWholeMap};
ghost use Rattle.run_model.specs.Needs.{is_target_of};
ghost use Rattle.run_model.specs.Opened.{HasMaps};
ghost use Rattle.run_model.specs.Progress.{HasAnswered};
ghost use Rattle.run_model.specs.Sending.{all_sent, worker_numbered};
ghost use Rattle.run_model.specs.Workers.{worker_of, worker_requests};
ghost use Rattle.run_model.specs.Working.{HaveRoom};
ghost use Rattle.seat_model.specs.CacheState.{CacheValue};
ghost use Rattle.shard_moves.specs.Tables.{is_flagged};
ghost use Rattle.worker_run.specs.Said.{requests_of, replies_of, ValuesAreShort};
ghost use Rattle.worker_run.specs.Sending.{rooms_needed};
ghost use Rattle.worker_parts.specs.Asking.{HasExecutedOf};
ghost use Rattle.worker_parts.specs.Going.{GoesOn};
ghost use Rattle.worker_parts.specs.Jobs.{IsBegunOf, IsAskedOf, image_of};

use crate::beginning::Begun;
use heap_rule::Shared;
use heap_seat::HeapSeat;
use line_memory::Chance;
use region_header::Bytes;
use shard_moves::{Outbox, ShardFlags};
use std::collections::VecDeque;
use thread_cache::CacheSeat;
use tool_ports::Gate;
use trace_text::{Reply, Request};
use worker_run::{Worker, work_off};

/// A worker whose requests were worked off, with its replies, or that was stopped in one.
#[derive(Drop)]
pub struct Asked<'a, C> {
    pub worker: Worker,
    pub seat: CacheSeat<'a, C>,
    pub replies: Vec<Reply>,
    pub stopped: bool,
}

/// Works off the requests of a worker that has begun. What its moves take out goes by the outbox,
/// where `tables`, of the shards of all workers, tells that the other key's shard has a table.
pub fn ask<'a, C: Chance, G: Gate, O: Outbox<CacheSeat<'a, C>>>(
    begun: Begun<'a, C>,
    _shared: &Shared,
    requests: &[Request],
    tables: &ShardFlags,
    outbox: &mut O,
    gate: &G,
) -> Asked<'a, C>
    requires begun { IsBegunOf _shared.now (requests_of requests.now) begun }
    requires going { begun.stopped ≡ false }
    requires short { ValuesAreShort (requests_of requests.now) }
    requires tables { (shard : ℕ) → shard < shards → is_target_of begun.worker.workers
        begun.worker.number (requests_of requests.now) shard ≡ true
        → is_flagged tables.now shard ≡ is_flagged begun.tables shard }
    requires goes { (s t : CacheValue C) → O.goes s t → GoesOn s.state t.state }
    requires ready { O.ready outbox.old begun.seat }
    requires room { rooms_needed (worker_requests begun.worker.workers begun.worker.number
        (requests_of requests.now)) ≤ O.room outbox.old }
    ensures worker { result.worker ≡ begun.entry.worker }
    ensures asked { IsAskedOf _shared.now (requests_of requests.now) (is_flagged tables.now) result }
    ensures sent { (whole : Map) → IsWholeMap (image_of _shared.now) whole → IsPermutation
        (all_sent whole (worker_numbered begun.entry.worker.workers begun.entry.worker.number
        (requests_of requests.now)) (replies_of result.replies.items) ++ O.sent outbox.old)
        (O.sent outbox.new) }
    ensures goes_on { O.goes begun.entry.seat result.seat }
    ensures ready_on { O.ready outbox.new result.seat }
{
    let Begun {
        worker,
        mut seat,
        rooms,
        mut replies,
        tables: _,
        stopped: _,
    } = begun;
    let stopped = ask_seat(
        &mut seat,
        worker,
        requests,
        tables,
        rooms,
        outbox,
        &mut replies,
        gate,
    );
    Asked {
        worker,
        seat,
        replies,
        stopped,
    }
}

/// A seat of a heap that was opened over an image.
trait Opened {
    ghost image: { Self → Image };
}

impl<'a, C: Chance> Opened for CacheSeat<'a, C> {
    ghost image = { λ s. slice_index s.state.view.setup.opened };
}

/// Works off a worker's requests by a seat of any kind and tells whether it was stopped.
fn ask_seat<H: HeapSeat + Opened, G: Gate, O: Outbox<H>>(
    seat: &mut H,
    worker: Worker,
    requests: &[Request],
    tables: &ShardFlags,
    rooms: VecDeque<Bytes>,
    outbox: &mut O,
    replies: &mut Vec<Reply>,
    gate: &G,
) -> bool
    requires some { 1 ≤ worker.workers }
    requires begun { HasAnswered (H.image seat.old) [] (H.view seat.old) }
    requires going { (H.view seat.old).stopped ≡ None }
    requires exact { ReachesAllHeld (H.view seat.old) }
    requires shards { (shard : ℕ) → shard < shards → worker_of worker.workers shard ≡ worker.number
        → Contains (H.view seat.old).roots shard }
    requires maps { HasMaps (H.image seat.old) }
    requires rooms { HaveRoom (H.image seat.old) (requests_of requests.now)
        (worker_requests worker.workers worker.number (requests_of requests.now)) rooms.items }
    requires short { ValuesAreShort (requests_of requests.now) }
    requires empty { replies.old.items ≡ [] }
    requires reserved { length (worker_requests worker.workers worker.number
        (requests_of requests.now)) ≤ vec_capacity replies.old }
    requires ready { O.ready outbox.old seat.old }
    requires outgoing { rooms_needed (worker_requests worker.workers worker.number
        (requests_of requests.now)) ≤ O.room outbox.old }
    ensures asked { HasExecutedOf H.view O.goes H.has_none (H.image seat.old)
        (worker_requests worker.workers worker.number (requests_of requests.now))
        (is_flagged tables.now) (replies_of replies.new.items) result seat.old seat.new }
    ensures sent { (whole : Map) → IsWholeMap (H.image seat.old) whole → IsPermutation
        (all_sent whole (worker_numbered worker.workers worker.number (requests_of requests.now))
        (replies_of replies.new.items) ++ O.sent outbox.old) (O.sent outbox.new) }
    ensures ready_on { O.ready outbox.new seat.new }
{
    work_off(seat, worker, requests, tables, rooms, outbox, replies, gate)
}
