//! The work of a run is dealt out to its workers.

ghost use Rattle.std.specs.Prelude.{◌≡◌, ◌<◌, ◌≤◌, ℕ, ◌+◌, All, IfOk, length, slice_index};
ghost use Rattle.heap_rule.specs.Seated.{SeatView};
ghost use Rattle.heap_table.specs.Rule.{setup_for};
ghost use Rattle.dict_model.specs.Links.{shards};
ghost use Rattle.dictionary.specs.Reading.{AreMaps};
ghost use Rattle.run_model.specs.Opened.{HasMaps};
ghost use Rattle.worker_run.specs.Said.{requests_of};
ghost use Rattle.worker_run.specs.Rooms.{AreLongest};
ghost use Rattle.tool_ports.specs.Chances.{ComesFrom};
ghost use Rattle.worker_parts.specs.Jobs.{IsJobOf};
ghost use Rattle.run_rows.specs.Turns.{AreInTurn};
ghost use Rattle.shared_run.specs.Dealing.{AreFresh};
ghost use Rattle.shared_run.specs.Dealt.{AreGiven};

use heap_rule::{Seat, Shared};
use region_header::Bytes;
use std::alloc::{AllocError, Global};
use std::collections::BTreeMap;
use tool_ports::Chances;
use trace_text::Request;
use worker_parts::Job;
use worker_run::{Worker, make_rooms};

/// What a trace may read of a heap: the maps of its shards, and by key the longest value that the
/// trace puts.
#[derive(Clone, Copy)]
pub(crate) struct Reading<'a> {
    pub maps: &'a [BTreeMap<u64, Bytes>],
    pub longest: &'a BTreeMap<u64, usize>,
}

/// A job for each of the workers, the last one first.
pub(crate) fn deal<C: Chances>(
    alloc: Global,
    _shared: &Shared,
    mut seats: Vec<Seat>,
    requests: &[Request],
    reading: &Reading,
    chances: &mut C,
) -> Result<Vec<Job<C::One>>, AllocError>
    requires maps { HasMaps (slice_index (setup_for _shared.now.opening).opened) }
    requires read { AreMaps (slice_index (setup_for _shared.now.opening).opened) shards
        reading.now.maps.now }
    requires longest { AreLongest (requests_of requests.now) reading.now.longest.now }
    requires fresh { AreFresh _shared.now (length seats.items) seats.items }
    ensures jobs { IfOk result (λ jobs. All (IsJobOf _shared.now (requests_of requests.now))
        jobs.items) }
    ensures turns { IfOk result (λ jobs. AreInTurn (λ job. job.worker) (length seats.items)
        jobs.items) }
    ensures count { IfOk result (λ jobs. length jobs.items ≡ length seats.items) }
    ensures chances { ComesFrom C.chance_gives C.word_gives chances.old chances.new }
    ensures given { IfOk result (λ jobs. AreGiven C.chance_gives chances.old jobs.items
        chances.new) }
{
    let workers = seats.len();
    let mut jobs = Vec::with_capacity(alloc, workers)?;
    while let Some(seat) = seats.pop() {
        let worker = Worker {
            number: seats.len(),
            workers,
        };
        let rooms = make_rooms(alloc, reading.maps, reading.longest, worker, requests)?;
        let replies = Vec::with_capacity(alloc, rooms.len())?;
        jobs.push_reserved(Job {
            worker,
            seat,
            chance: chances.chance(worker.number),
            rooms,
            replies,
        });
    }
    Ok(jobs)
}
