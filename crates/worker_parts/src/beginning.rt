//! A worker begins: it makes the tables of its shards that values are moved to.

ghost use Rattle.std.specs.Prelude.{◌≡◌, ◌<◌, ℕ};
ghost use Rattle.dict_model.specs.Links.{shards};
ghost use Rattle.run_model.specs.Needs.{is_moved_to};
ghost use Rattle.shard_moves.specs.Tables.{is_flagged};
ghost use Rattle.worker_run.specs.Said.{requests_of};
ghost use Rattle.worker_parts.specs.Jobs.{IsJobOf, IsBegunOf};

use crate::targets::own_targets;
use heap_rule::{Seat, Shared};
use line_memory::Chance;
use region_header::Bytes;
use shard_moves::{ShardFlags, make_tables};
use std::collections::VecDeque;
use thread_cache::CacheSeat;
use trace_text::{Reply, Request};
use worker_run::Worker;

/// What a worker begins with: its seat and chance, room for each of its requests' values, and room
/// for its replies.
#[derive(Drop)]
pub struct Job<C> {
    pub worker: Worker,
    pub seat: Seat,
    pub chance: C,
    pub rooms: VecDeque<Bytes>,
    pub replies: Vec<Reply>,
}

/// A worker whose tables are made, with each shard of its own that was to have one: whether it has.
/// Where it was stopped in that, nothing is told of them.
#[derive(Drop)]
pub struct Begun<'a, C> {
    pub worker: Worker,
    pub seat: CacheSeat<'a, C>,
    pub rooms: VecDeque<Bytes>,
    pub replies: Vec<Reply>,
    pub tables: ShardFlags,
    pub stopped: bool,
}

/// Makes the tables of the worker's shards that values are moved to, as far as there is room.
pub fn begin<'a, C: Chance>(
    job: Job<C>,
    shared: &'a Shared,
    _requests: &[Request],
    targets: &ShardFlags,
) -> Begun<'a, C>
    requires job { IsJobOf shared.now (requests_of _requests.now) job }
    requires targets { (shard : ℕ) → shard < shards
        → is_flagged targets.now shard ≡ is_moved_to (requests_of _requests.now) shard }
    ensures worker { result.worker ≡ job.worker }
    ensures begun { IsBegunOf shared.now (requests_of _requests.now) result }
{
    let Job {
        worker,
        seat,
        chance,
        rooms,
        replies,
    } = job;
    let mut seat = CacheSeat::new(shared, seat, chance);
    let own = own_targets(worker, targets);
    let mut tables = [false; 8];
    let stopped = make_tables(&mut seat, &own, &mut tables).is_err();
    Begun {
        worker,
        seat,
        rooms,
        replies,
        tables,
        stopped,
    }
}
