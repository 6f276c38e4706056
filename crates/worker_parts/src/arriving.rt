//! What came for a worker is brought in, and its caches are emptied.

ghost use Rattle.std.specs.Prelude.{◌≡◌, ◌++◌, ℕ, All, Bool, true, false, List, []};
ghost use Rattle.run_model.specs.Sending.{Sent};
ghost use Rattle.seat_model.specs.CacheState.{CacheValue};
ghost use Rattle.shard_moves.specs.Tables.{is_flagged};
ghost use Rattle.thread_cache.specs.Keeps.{KeepsSeat};
ghost use Rattle.worker_run.specs.Said.{requests_of};
ghost use Rattle.worker_parts.specs.Going.{GoesOn, HasSettled};
ghost use Rattle.worker_parts.specs.Jobs.{AreLeftOf, HasTableFor, IsAskedOf, IsBegunOf, IsWorkedOf};

use crate::asking::Asked;
use crate::beginning::Begun;
use heap_rule::{Seat, Shared};
use line_memory::Chance;
use shard_moves::{Inbox, ShardFlags, bring_in};
use thread_cache::CacheSeat;
use trace_text::{Reply, Request};
use worker_run::Worker;

/// What a worker ends with: its seat, the replies to its first requests, and whether it was stopped.
#[derive(Drop)]
pub struct Worked {
    pub worker: Worker,
    pub seat: Seat,
    pub replies: Vec<Reply>,
    pub stopped: bool,
}

/// Empties the caches of a seat, unless it has stopped, and tells whether it has stopped by now.
fn empty_caches<C: Chance>(seat: &mut CacheSeat<'_, C>, stopped: bool) -> bool
    ensures settled { HasSettled stopped result seat.old.state seat.new.state }
    ensures kept { KeepsSeat C.draw_gives seat.old seat.new }
{
    stopped || seat.quiet().is_err()
}

/// Brings in what came for a worker that has answered all its requests, and empties its caches, so
/// that nothing is lost to the heap.
pub fn arrive<'a, C: Chance, I: Inbox<CacheSeat<'a, C>>>(
    asked: Asked<'a, C>,
    inbox: &mut I,
    _shared: &Shared,
    _requests: &[Request],
    _tables: &ShardFlags,
) -> Worked
    requires asked { IsAskedOf _shared.now (requests_of _requests.now) (is_flagged _tables.now) asked }
    requires going { asked.stopped ≡ false }
    requires goes { (s t : CacheValue C) → I.goes s t → GoesOn s.state t.state }
    requires ready { I.ready inbox.old asked.seat }
    requires tables { All (λ s. HasTableFor (is_flagged _tables.now) (requests_of _requests.now)
        asked.worker.workers asked.worker.number s.key) (I.left inbox.old) }
    ensures worker { result.worker ≡ asked.entry.worker }
    ensures replies { result.replies ≡ asked.entry.replies }
    ensures worked { (brought later : List Sent) × (I.left inbox.old ≡ brought ++ later)
        × AreLeftOf later (I.left inbox.new) × IsWorkedOf _shared.now (requests_of _requests.now)
        (is_flagged _tables.now) (I.left inbox.old) brought false result }
    ensures empty { result.stopped ≡ false → I.left inbox.new ≡ [] }
    ensures ends { (s t : CacheValue C) × I.goes asked.entry.seat s × I.ready inbox.new s
        × KeepsSeat C.draw_gives s t × (t.state.view ≡ result.seat.view) }
{
    let Asked {
        worker,
        mut seat,
        replies,
        stopped: _,
    } = asked;
    let stopped = bring_in(&mut seat, inbox).is_err();
    let stopped = empty_caches(&mut seat, stopped);
    Worked {
        worker,
        seat: seat.into_seat(),
        replies,
        stopped,
    }
}

/// A worker that was stopped in a request ends as it is: what came for it is not brought in.
pub fn leave<C: Chance>(
    asked: Asked<'_, C>,
    _shared: &Shared,
    _requests: &[Request],
    _tables: &ShardFlags,
) -> Worked
    requires asked { IsAskedOf _shared.now (requests_of _requests.now) (is_flagged _tables.now) asked }
    requires stopped { asked.stopped ≡ true }
    ensures worker { result.worker ≡ asked.entry.worker }
    ensures replies { result.replies ≡ asked.entry.replies }
    ensures worked { (came : List Sent) → IsWorkedOf _shared.now (requests_of _requests.now)
        (is_flagged _tables.now) came [] false result }
    ensures view { result.seat.view ≡ asked.entry.seat.state.view }
    ensures stopped { result.stopped ≡ true }
{
    Worked {
        worker: asked.worker,
        seat: asked.seat.into_seat(),
        replies: asked.replies,
        stopped: true,
    }
}

/// A worker that has begun ends before its first request, since one was stopped until then.
pub fn leave_begun<C: Chance>(
    begun: Begun<'_, C>,
    _shared: &Shared,
    _requests: &[Request],
) -> Worked
    requires begun { IsBegunOf _shared.now (requests_of _requests.now) begun }
    ensures worker { result.worker ≡ begun.entry.worker }
    ensures replies { result.replies ≡ begun.entry.replies }
    ensures worked { (tables : ℕ → Bool) → IsWorkedOf _shared.now (requests_of _requests.now)
        tables [] [] true result }
    ensures view { result.seat.view ≡ begun.entry.seat.state.view }
    ensures stopped { result.stopped ≡ begun.entry.stopped }
{
    Worked {
        worker: begun.worker,
        seat: begun.seat.into_seat(),
        replies: begun.replies,
        stopped: begun.stopped,
    }
}
