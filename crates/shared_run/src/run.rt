//! A whole run of a trace by several workers: from a recovered heap to the replies and the image
//! that is left.

ghost use Rattle.std.specs.Prelude.{◌≡◌, ◌^◌, ◌<◌, ◌≤◌, ◌↔◌, ℕ, All, List, Contains, false, true, IfOk, IfSome, IsSome, length, map, slice_index};
ghost use Rattle.heap_model.specs.Header.{capacity_of};
ghost use Rattle.heap_model.specs.Rest.{IsReady};
ghost use Rattle.dict_model.specs.Links.{shards};
ghost use Rattle.seat_state.specs.OwnerLists.{OwnerLists};
ghost use Rattle.dictionary.specs.Reading.{AreMaps};
ghost use Rattle.run_model.specs.Opened.{IsDictionary};
ghost use Rattle.run_model.specs.Runs.{AnswerInOrder, IsFullRightly, answered, LeavesHeader, LeavesMaps, LeavesOthers, LeavesState, LeavesUsed, RepliesRightly, StopsRightly};
ghost use Rattle.worker_run.specs.Left.{AreWholeImage};
ghost use Rattle.worker_run.specs.Said.{requests_of, replies_of, ValuesAreShort};
ghost use Rattle.tool_ports.specs.Chances.{ComesFrom};
ghost use Rattle.crash_image.specs.Crash.{GivesAll, transient_words};
ghost use Rattle.run_outcome.specs.Closed.{LeavesOrderly};
ghost use Rattle.run_rows.specs.Turns.{AreInTurn};
ghost use Rattle.shared_run.specs.Dealt.{AreGiven, DealsThenScrambles};
ghost use Rattle.shared_run.specs.Following.{AreAfterRun, FollowMapsOf};
ghost use Rattle.worker_parts.specs.Jobs.{IsJobOf};
ghost use Rattle.shared_run.specs.Scrambled.{IsScrambled};
ghost use Rattle.seat_owners.specs.Owning.{AreOwnersByRoot};
ghost use Rattle.run_outcome.specs.Together.{HaveWorked, IsLeftOf, opening_for};

use crate::deal::{Reading, deal};
use crate::follow::follow;
use crate::gather::{Gathered, gather, put_in_order};
use dictionary::MappedHeap;
use heap_rule::{Shared, close_shared, open_shared};
use line_memory::{Chance, Closed};
use region_header::Bytes;
use run_outcome::{what_the_workers_answered, what_the_workers_left, what_the_workers_spent};
use run_rows::run_rows;
use seat_owners::owners_of_mapped;
use std::alloc::{AllocError, Global};
use std::collections::BTreeMap;
use std::sync::Wait;
use std::thread::Threads;
use super_block::Geometry;
use tool_ports::{Chances, Gate};
use trace_text::{Reply, Request};
use worker_parts::Job;
use worker_run::{closed_image, left_by_crash, longest_puts};

/// What a run of a trace gives.
#[derive(Drop)]
pub struct Outcome {
    /// The reply to each request, in the order of the trace.
    pub replies: Vec<Reply>,
    /// Whether a worker was stopped at the budget.
    pub stopped: bool,
    /// The words of the image that is left: that of a close or, where a worker was stopped, of a
    /// crash.
    pub image: Vec<u64>,
    /// The maps of that image's shards; none where a worker was stopped, since how far requests and
    /// arrivals under way came stands in the image alone.
    pub maps: Option<Vec<BTreeMap<u64, Bytes>>>,
}

/// The image that is left of a heap: that of a close or, where it was stopped, of a crash.
fn image_left<C: Chances>(
    closed: Closed,
    stopped: bool,
    geometry: Geometry,
    chances: &mut C,
) -> Vec<u64>
    requires whole { AreWholeImage closed.now }
    requires kept { AreWholeImage closed.kept }
    requires layout { geometry.capacity ≡ capacity_of (slice_index closed.now) }
    requires same { geometry.capacity ≡ capacity_of (slice_index closed.kept) }
    ensures left { IsLeftOf stopped closed.now closed.kept result.items }
    ensures long { length closed.kept ≡ length closed.now
        → length result.items ≡ length closed.now }
    ensures chances { ComesFrom C.chance_gives C.word_gives chances.old chances.new }
    ensures scrambled { stopped ≡ true → GivesAll C.word_gives chances.old
        (map (slice_index result.items) (transient_words geometry.capacity)) chances.new }
    ensures unasked { stopped ≡ false → chances.new ≡ chances.old }
{
    let Closed { now, kept } = closed;
    if stopped {
        left_by_crash(kept, geometry, chances)
    } else {
        closed_image(now)
    }
}

/// What a run works with: the heap that its workers share, a job for each of them, the last one
/// first, and the maps of the shards.
#[derive(Drop)]
struct Opened<C> {
    shared: Shared,
    jobs: Vec<Job<C>>,
    maps: Vec<BTreeMap<u64, Bytes>>,
}

/// The heap is opened for so many workers.
fn open<C: Chances>(
    alloc: Global,
    mapped: MappedHeap,
    requests: &[Request],
    workers: usize,
    budget: u64,
    chances: &mut C,
) -> Result<Opened<C::One>, AllocError>
    requires some { 1 ≤ workers }
    requires few { workers ≤ 8 }
    requires budget { budget < 2 ^ 40 }
    requires dictionary { IsDictionary (slice_index mapped.words)
        (Contains mapped.held) }
    requires short { ValuesAreShort (requests_of requests.now) }
    ensures ready { IsReady mapped.words mapped.held }
    ensures opening { IfOk result (λ r. (owners : OwnerLists)
        × AreOwnersByRoot (slice_index mapped.words) mapped.held workers owners.held
        owners.roots
        × (r.shared.opening
        ≡ opening_for mapped.words mapped.held owners workers budget)) }
    ensures seats { IfOk result (λ r. r.shared.opening.seats ≡ workers) }
    ensures jobs { IfOk result (λ r.
        All (IsJobOf r.shared (requests_of requests.now)) r.jobs.items) }
    ensures turns { IfOk result (λ r. AreInTurn (λ job. job.worker) workers r.jobs.items) }
    ensures count { IfOk result (λ r. length r.jobs.items ≡ workers) }
    ensures maps { IfOk result (λ r.
        AreMaps (slice_index mapped.words) shards r.maps.items) }
    ensures chances { ComesFrom C.chance_gives C.word_gives chances.old chances.new }
    ensures given { IfOk result (λ r. AreGiven C.chance_gives chances.old r.jobs.items
        chances.new) }
{
    let longest = longest_puts(alloc, requests)?;
    let owners = owners_of_mapped(alloc, &mapped, workers)?;
    let (heap, maps) = mapped.into_parts();
    let (shared, seats) = open_shared(alloc, heap, &owners, workers, budget)?;
    let reading = Reading {
        maps: &maps,
        longest: &longest,
    };
    let jobs = deal(alloc, &shared, seats, requests, &reading, chances)?;
    Ok(Opened { shared, jobs, maps })
}

/// The maps of the shards after a run, unless it was stopped.
fn maps_after(
    alloc: Global,
    mut maps: Vec<BTreeMap<u64, Bytes>>,
    stopped: bool,
    requests: &[Request],
    replies: &[Reply],
) -> Result<Option<Vec<BTreeMap<u64, Bytes>>>, AllocError>
    requires shards { length maps.items ≡ shards }
    requires long { length replies.now ≡ length requests.now }
    ensures after { IfOk result (λ found. IfSome found (λ new. AreAfterRun
        (answered (requests_of requests.now) (replies_of replies.now)) maps.items new.items)) }
    ensures known { IfOk result (λ found. IsSome found ↔ (stopped ≡ false)) }
{
    if !stopped {
        follow(alloc, &mut maps, requests, replies)?;
        return Ok(Some(maps));
    }
    Ok(None)
}

/// A run, with the states that its workers' seats went through.
fn run_workers<R: Threads + Wait + Sync, G: Gate + Sync, C: Chances>(
    rt: &R,
    alloc: Global,
    mapped: MappedHeap,
    requests: &[Request],
    workers: usize,
    budget: u64,
    gate: &G,
    chances: &mut C,
) -> Result<Outcome, AllocError>
    requires some { 1 ≤ workers }
    requires few { workers ≤ 8 }
    requires budget { budget < 2 ^ 40 }
    requires dictionary { IsDictionary (slice_index mapped.words)
        (Contains mapped.held) }
    requires short { ValuesAreShort (requests_of requests.now) }
    ensures worked { IfOk result (λ o. (now kept : List ℕ) × HaveWorked mapped.words
        mapped.held workers budget (requests_of requests.now) (replies_of o.replies.items)
        o.stopped now kept o.image.items) }
    ensures after { IfOk result (λ o. IfSome o.maps (λ new. FollowMapsOf
        (slice_index mapped.words)
        (answered (requests_of requests.now) (replies_of o.replies.items)) new.items)) }
    ensures known { IfOk result (λ o. IsSome o.maps ↔ (o.stopped ≡ false)) }
    ensures chances { ComesFrom C.chance_gives C.word_gives chances.old chances.new }
    ensures scrambled { IfOk result (λ o. o.stopped ≡ true → IsScrambled C.chance_gives C.word_gives
        (capacity_of (slice_index mapped.words)) (slice_index o.image.items)
        chances.old chances.new) }
    ensures asked { IfOk result (λ o. DealsThenScrambles C.chance_gives C.word_gives workers
        o.stopped (capacity_of (slice_index mapped.words)) (slice_index o.image.items)
        chances.old chances.new) }
{
    let geometry = mapped.heap().geometry();
    let mut replies = Vec::with_capacity(alloc, requests.len())?;
    let Opened { shared, jobs, maps } = open(alloc, mapped, requests, workers, budget, chances)?;
    let ended = run_rows(rt, alloc, &shared, jobs, requests, gate)?;
    let Gathered {
        seats,
        told,
        carriers,
        stopped,
    } = gather(alloc, &shared, requests, ended)?;
    put_in_order(requests, told, &mut replies);
    let closed = close_shared(alloc, shared, seats, carriers)?;
    let image = image_left(closed, stopped, geometry, chances);
    let maps = maps_after(alloc, maps, stopped, requests, &replies)?;
    Ok(Outcome {
        replies,
        stopped,
        image,
        maps,
    })
}

/// Works off a trace over a recovered heap in which nothing is outside and each shard has a map, by
/// one to eight workers, each of which has its shards and its part of the heap. What their moves
/// take out goes to the workers of the other keys, which bring it in once all requests are worked
/// off. The gate is told of each request before and after it. All workers together draw so many
/// tickets as the budget says; what is written back early, and what a crash leaves of words without
/// a durable value, comes from the chances. It fails only where memory runs out.
pub fn run_trace<R: Threads + Wait + Sync, G: Gate + Sync, C: Chances>(
    rt: &R,
    alloc: Global,
    mapped: MappedHeap,
    requests: &[Request],
    workers: usize,
    budget: u64,
    gate: &G,
    chances: &mut C,
) -> Result<Outcome, AllocError>
    requires some { 1 ≤ workers }
    requires few { workers ≤ 8 }
    requires budget { budget < 2 ^ 40 }
    requires dictionary { IsDictionary (slice_index mapped.words) (Contains mapped.held) }
    requires short { ValuesAreShort (requests_of requests.now) }

    // The states that the workers' seats went through, and the heap that they left.
    ensures worked { IfOk result (λ o. (now kept : List ℕ) × HaveWorked mapped.words mapped.held
        workers budget (requests_of requests.now) (replies_of o.replies.items) o.stopped now kept
        o.image.items) }

    // Which requests are answered, and with which replies.
    ensures answers { IfOk result (λ o. AnswerInOrder workers (requests_of requests.now)
        (replies_of o.replies.items)) }
    ensures stops { IfOk result (λ o. StopsRightly (slice_index mapped.words) workers
        (requests_of requests.now) budget (replies_of o.replies.items) o.stopped) }
    ensures replies { IfOk result (λ o. RepliesRightly (slice_index mapped.words)
        (requests_of requests.now) (replies_of o.replies.items)) }
    ensures full { IfOk result (λ o. IsFullRightly (slice_index mapped.words) workers
        (requests_of requests.now) (replies_of o.replies.items)) }

    // What image is left.
    ensures maps { IfOk result (λ o. LeavesMaps (slice_index mapped.words) workers
        (requests_of requests.now) (replies_of o.replies.items) o.stopped
        (slice_index o.image.items)) }
    ensures header { IfOk result (λ o. LeavesHeader (slice_index mapped.words)
        (length o.image.items) (slice_index o.image.items)) }
    ensures others { IfOk result (λ o. LeavesOthers (slice_index mapped.words)
        (slice_index o.image.items)) }
    ensures used { IfOk result (λ o. LeavesUsed (slice_index mapped.words) workers
        (requests_of requests.now) (replies_of o.replies.items) (slice_index o.image.items)) }
    ensures state { IfOk result (λ o. LeavesState o.stopped (slice_index o.image.items)) }
    ensures shards { IfOk result (λ o. IfSome o.maps (λ maps.
        AreMaps (slice_index o.image.items) shards maps.items)) }
    ensures known { IfOk result (λ o. IsSome o.maps ↔ (o.stopped ≡ false)) }
    ensures orderly { IfOk result (λ o. LeavesOrderly o.stopped (length o.image.items)
        (slice_index o.image.items)) }

    // What the chances were asked for: a chance for each worker, and last of all the words that a
    // crash leaves at random.
    ensures chances { ComesFrom C.chance_gives C.word_gives chances.old chances.new }
    ensures scrambled { IfOk result (λ o. o.stopped ≡ true → IsScrambled C.chance_gives C.word_gives
        (capacity_of (slice_index mapped.words)) (slice_index o.image.items)
        chances.old chances.new) }
    ensures asked { IfOk result (λ o. DealsThenScrambles C.chance_gives C.word_gives workers
        o.stopped (capacity_of (slice_index mapped.words)) (slice_index o.image.items)
        chances.old chances.new) }
{
    what_the_workers_answered();
    what_the_workers_spent();
    what_the_workers_left();
    let outcome = run_workers(rt, alloc, mapped, requests, workers, budget, gate, chances)?;
    Ok(outcome)
}
