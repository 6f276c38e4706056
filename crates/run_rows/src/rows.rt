//! The three rows of a run: tables first, then the requests, then what the workers sent each other.

ghost use Rattle.std.specs.Prelude.{◌≡◌, ◌≤◌, ◌<◌, ℕ, List, [], false, true, All, IfOk, get_or, length};
ghost use Rattle.dict_model.specs.Links.{shards};
ghost use Rattle.dict_model.specs.Requests.{Request as RequestView};
ghost use Rattle.parcel_queue.specs.Account.{all_parts};
ghost use Rattle.run_model.specs.Needs.{is_moved_to};
ghost use Rattle.seat_parcels.specs.Boxes.{all_put};
ghost use Rattle.shard_moves.specs.Tables.{is_flagged};
ghost use Rattle.worker_run.specs.Said.{requests_of, ValuesAreShort};
ghost use Rattle.worker_parts.specs.declared.beginning.Begun.{Begun as BegunView};
ghost use Rattle.worker_parts.specs.Jobs.{IsBegunOf, IsJobOf};
ghost use Rattle.run_rows.specs.Ended.{HaveEnded};
ghost use Rattle.run_rows.specs.Posts.{ArePassesTo};
ghost use Rattle.run_rows.specs.Rows.{AgreesWith};
ghost use Rattle.run_rows.specs.Turns.{AreInTurn};

use crate::arriving::{Ended, arrive_together};
use crate::handing::hand_over;
use crate::posts::{Posts, open_posts};
use crate::sending::{answer_together, with_passes};
use heap_rule::Shared;
use line_memory::Chance;
use parcel_queue::Pass;
use seat_parcels::{HeapOf, Parcel, Post, QueuesOf};
use std::alloc::{AllocError, Global};
use std::marker::Brand;
use std::sync::Wait;
use std::thread;
use std::thread::Threads;
use tool_ports::Gate;
use trace_text::Request;
use worker_parts::{Begun, Job, begin, leave_begun, targets_of_moves};

/// All workers make the tables of their shards that values are moved to, each in a thread of its
/// own where one can be made.
fn begin_together<'a, R: Threads + Sync, C: Chance + Send>(
    rt: &R,
    shared: &'a Shared,
    jobs: Vec<Job<C>>,
    requests: &[Request],
    targets: &[bool; 8],
) -> Result<Vec<Begun<'a, C>>, AllocError>
    requires jobs { All (IsJobOf shared.now (requests_of requests.now)) jobs.items }
    requires turns { AreInTurn (λ job. job.worker) (length jobs.items) jobs.items }
    requires targets { (shard : ℕ) → shard < shards
        → is_flagged targets.now shard ≡ is_moved_to (requests_of requests.now) shard }
    ensures begun { IfOk result (λ all. All (IsBegunOf shared.now (requests_of requests.now))
        all.items) }
    ensures turns { IfOk result (λ all. AreInTurn (λ one. one.worker) (length jobs.items)
        all.items) }
    ensures count { IfOk result (λ all. length all.items ≡ length jobs.items) }
{
    let all = thread::map_vec(
        rt,
        jobs,
        &|job: Job<C>| -> Begun<C>
            requires { IsJobOf shared.now (requests_of requests.now) job
                × ((shard : ℕ) → shard < shards
                → is_flagged targets.now shard ≡ is_moved_to (requests_of requests.now) shard) }
            ensures worker { result.worker ≡ job.worker }
            ensures begun { IsBegunOf shared.entry.now (requests_of requests.entry.now) result }
        { begin(job, shared, requests, targets) },
    )?;
    Ok(all)
}

/// What the workers were told of the shards, each of its own.
fn tables_of<C: Chance>(all: &[Begun<'_, C>], workers: usize) -> [bool; 8]
    requires some { 1 ≤ workers }
    requires count { length all.now ≡ workers }
    requires turns { AreInTurn (λ one. one.worker) workers all.now }
    ensures { (requests : List RequestView)
        → All (AgreesWith (is_flagged result) requests) all.now }
{
    let mut tables = [false; 8];
    for shard in 0..8 {
        let owner = shard % workers;
        tables[shard] = all[workers - 1 - owner].tables[shard];
    }
    tables
}

/// Whether a worker was stopped before its first request.
fn any_stopped<C: Chance>(all: &[Begun<'_, C>]) -> bool
    ensures none { result ≡ false → All (λ one. one.stopped ≡ false) all.now }
    ensures some { result ≡ true → (at : ℕ) × (at < length all.now)
        × ((any : BegunView C) → (get_or all.now at any).stopped ≡ true) }
{
    all.iter().any(|one| one.stopped)
}

/// All workers end before their first request, since one was stopped until then.
fn leave_all<C: Chance>(
    alloc: Global,
    shared: &Shared,
    all: Vec<Begun<'_, C>>,
    requests: &[Request],
) -> Result<Vec<Ended>, AllocError>
    requires begun { All (IsBegunOf shared.now (requests_of requests.now)) all.items }
    requires turns { AreInTurn (λ one. one.worker) (length all.items) all.items }
    requires stopped { (at : ℕ) × (at < length all.items)
        × ((any : BegunView C) → (get_or all.items at any).stopped ≡ true) }
    ensures ended { IfOk result (λ ended. HaveEnded shared.now (requests_of requests.now)
        (length all.entry.items) ended.items) }
{
    let mut ended = Vec::with_capacity(alloc, all.len())?;
    for begun in all {
        ended.push_reserved(Ended {
            worked: leave_begun(begun, shared, requests),
            carriers: Vec::new(alloc),
        });
    }
    Ok(ended)
}

/// The workers work off their requests, and bring in what they sent each other.
fn exchange<
    'a,
    J: HeapOf + Sync,
    Q: QueuesOf + Sync,
    R: Threads + Wait + Sync,
    G: Gate + Sync,
    C: Chance + Send,
>(
    rt: &R,
    alloc: Global,
    shared: &Shared,
    queues: &[Post<J>],
    mut owners: Vec<Pass<Parcel>>,
    all: Vec<Begun<'a, C>>,
    requests: &[Request],
    tables: &[bool; 8],
    gate: &G,
) -> Result<Vec<Ended>, AllocError>
    requires heap { J.table ≡ shared.now.table }
    requires queues { queues.now ≡ Q.queues }
    requires each { length queues.now ≡ length all.items }
    requires some { 1 ≤ length all.items }
    requires few { length all.items ≤ 8 }
    requires owners { ArePassesTo all_parts queues.now owners.items }
    requires nothing { all_put owners.items ≡ [] }
    requires begun { All (IsBegunOf shared.now (requests_of requests.now)) all.items }
    requires going { All (λ one. one.stopped ≡ false) all.items }
    requires turns { AreInTurn (λ one. one.worker) (length all.items) all.items }
    requires short { ValuesAreShort (requests_of requests.now) }
    requires tables { All (AgreesWith (is_flagged tables.now) (requests_of requests.now))
        all.items }
    ensures ended { IfOk result (λ ended. HaveEnded shared.now (requests_of requests.now)
        (length all.entry.items) ended.items) }
{
    let senders = with_passes(alloc, shared, queues, &mut owners, all, requests)?;
    let answered = answer_together::<J, Q, R, G, C>(
        rt, shared, queues, senders, requests, tables, gate,
    )?;
    let arriving = hand_over(alloc, shared, queues, owners, answered, requests, tables)?;
    arrive_together::<J, R, C>(rt, alloc, shared, queues, arriving, requests, tables)
}

/// All rows, over the heap that `J` tells of.
fn run_over<'a, J: HeapOf + Sync, R: Threads + Wait + Sync, G: Gate + Sync, C: Chance + Send>(
    rt: &R,
    alloc: Global,
    shared: &'a Shared,
    jobs: Vec<Job<C>>,
    requests: &[Request],
    gate: &G,
) -> Result<Vec<Ended>, AllocError>
    requires heap { J.table ≡ shared.now.table }
    requires some { 1 ≤ length jobs.items }
    requires few { length jobs.items ≤ 8 }
    requires jobs { All (IsJobOf shared.now (requests_of requests.now)) jobs.items }
    requires turns { AreInTurn (λ job. job.worker) (length jobs.items) jobs.items }
    requires short { ValuesAreShort (requests_of requests.now) }
    ensures ended { IfOk result (λ ended. HaveEnded shared.now (requests_of requests.now)
        (length jobs.items) ended.items) }
{
    let workers = jobs.len();
    let targets = targets_of_moves(requests);
    let all = begin_together(rt, shared, jobs, requests, &targets)?;
    if any_stopped(&all) {
        return leave_all(alloc, shared, all, requests);
    }
    let tables = tables_of(&all, workers);
    let Posts { queues, owners } = open_posts::<J>(alloc, requests, workers)?;
    exchange::<J, Brand, R, G, C>(
        rt, alloc, shared, &queues, owners, all, requests, &tables, gate,
    )
}

/// The rows of a run over one heap, whose jobs come with the last worker first: all make the tables
/// of their shards that values are moved to; all work off their requests; all bring in what came
/// for them, in the order of the requests' numbers. If one is stopped while tables are made no
/// request is begun. What the workers ended with comes with the last one first too.
///
/// `Err` only where memory is short.
pub fn run_rows<'a, R: Threads + Wait + Sync, G: Gate + Sync, C: Chance + Send>(
    rt: &R,
    alloc: Global,
    shared: &'a Shared,
    jobs: Vec<Job<C>>,
    requests: &[Request],
    gate: &G,
) -> Result<Vec<Ended>, AllocError>
    requires some { 1 ≤ length jobs.items }
    requires few { length jobs.items ≤ 8 }
    requires jobs { All (IsJobOf shared.now (requests_of requests.now)) jobs.items }
    requires turns { AreInTurn (λ job. job.worker) (length jobs.items) jobs.items }
    requires short { ValuesAreShort (requests_of requests.now) }
    ensures ended { IfOk result (λ ended. HaveEnded shared.now (requests_of requests.now)
        (length jobs.items) ended.items) }
{
    run_over::<Brand, R, G, C>(rt, alloc, shared, jobs, requests, gate)
}
