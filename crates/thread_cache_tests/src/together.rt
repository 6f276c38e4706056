//! Threads that share a heap, each with a seat that allocates by caches and acts as it is told.

ghost use Rattle.std.specs.Prelude.{◌≡◌, All, IfOk, length};
ghost use Rattle.thread_cache_tests.specs.Holding.{HaveRoots, IsBackFrom, IsFreshSeatOf, IsJobOf};

use crate::fixtures::open;
use crate::holders::Halt;
use crate::order::{Order, Turn};
use crate::rooted::roots_of;
use crate::scripts::{Dealt, follow};
use heap_rule::{Seat, Shared, close_shared};
use line_memory::Closed;
use std::alloc::{AllocError, Global};
use std::test::Fail;
use std::thread;
use std::thread::Threads;
use super_block::{Block, Ready};
use thread_cache::CacheSeat;

/// What the threads do: acts of the first one, and of each other one.
#[derive(Clone, Copy)]
pub struct Plan<'a> {
    /// The order in which two of them draw, if they keep to one.
    pub order: Option<&'a Order>,
    pub first: &'a str,
    pub others: &'a str,
    /// What chance gives, if it isn't the thread's number.
    pub drawn: Option<u64>,
}

/// What a thread begins with.
#[derive(Drop)]
pub struct Job {
    seat: Seat,
    alloc: Global,
    /// Its number: its blocks are marked by it, and its random choices follow from it.
    number: u64,
    /// Roots of its own.
    roots: Vec<u64>,
}

/// What it ends with: its seat, the blocks that it was given, and how many acts are done.
#[derive(Drop)]
pub struct Worked {
    seat: Seat,
    given: Vec<Block>,
    number: u64,
    done: usize,
    told: Result<(), Halt>,
}

/// The work of one thread.
fn work(job: Job, shared: &Shared, acts: &str, turn: Turn<'_>) -> Worked
    requires { IsJobOf shared.now job.roots.items job.seat }
    ensures { IsBackFrom shared.now result.seat }
{
    let Job {
        seat,
        alloc,
        number,
        roots,
    } = job;
    let mut given = Vec::new(alloc);
    let mut done = 0;
    let dealt = Dealt {
        number,
        roots: &roots,
    };
    let mut seat = CacheSeat::new(shared, seat, turn);
    let told = follow(&mut seat, &mut given, dealt, acts, &mut done);
    Worked {
        seat: seat.into_seat(),
        given,
        number,
        done,
        told,
    }
}

/// The work of one thread by the plan.
fn work_by(job: Job, shared: &Shared, plan: Plan<'_>) -> Worked
    requires { IsJobOf shared.now job.roots.items job.seat }
    ensures { IsBackFrom shared.now result.seat }
{
    let is_first = job.number == 0;
    let acts = if is_first { plan.first } else { plan.others };
    let turn = Turn::new(plan.order, is_first, plan.drawn.unwrap_or(job.number));
    let worked = work(job, shared, acts, turn);
    if let Some(order) = plan.order {
        order.end(is_first);
    }
    worked
}

/// A job for each seat.
fn deal(alloc: Global, shared: &Shared, mut seats: Vec<Seat>) -> Result<Vec<Job>, AllocError>
    requires seats { All (IsFreshSeatOf shared.now) seats.items }
    requires roots { HaveRoots (length seats.items) seats.items }
    ensures jobs { IfOk result (λ jobs.
        All (λ job. IsJobOf shared.now job.roots.items job.seat) jobs.items) }
    ensures count { IfOk result (λ jobs. length jobs.items ≡ length seats.items) }
{
    let _seats = shared;
    let count = seats.len() as u64;
    let mut jobs = Vec::new(alloc);
    while let Some(seat) = seats.pop() {
        let number = seats.len() as u64;
        let roots = roots_of(alloc, number, count)?;
        jobs.push(Job {
            seat,
            alloc,
            number,
            roots,
        })?;
    }
    Ok(jobs)
}

/// What threads tell of their work.
#[derive(Drop)]
pub struct Report {
    /// The blocks that they were given and have not freed, in order.
    pub given: Vec<Block>,
    /// How many acts of the first one are done.
    pub done: usize,
    /// The cause why one has not come to its end.
    pub told: Result<(), Halt>,
}

/// Adds what one thread tells. Its seat.
fn hear(report: &mut Report, one: Worked) -> Result<Seat, AllocError>
    ensures { IfOk result (λ seat. seat ≡ one.seat) }
{
    report.told = report.told.and(one.told);
    if one.number == 0 {
        report.done = one.done;
    }
    report.given.extend_from_slice(&one.given)?;
    Ok(one.seat)
}

/// All seats, and what the threads tell.
fn gather(
    alloc: Global,
    shared: &Shared,
    mut worked: Vec<Worked>,
) -> Result<(Vec<Seat>, Report), AllocError>
    requires { All (λ one. IsBackFrom shared.now one.seat) worked.items }
    ensures seats { IfOk result (λ r. All (IsBackFrom shared.now) r.0.items) }
    ensures count { IfOk result (λ r. length r.0.items ≡ length worked.items) }
{
    let _seats = shared;
    let mut seats = Vec::new(alloc);
    let mut report = Report {
        given: Vec::new(alloc),
        done: 0,
        told: Ok(()),
    };
    while let Some(one) = worked.pop() {
        let seat = hear(&mut report, one)?;
        seats.push(seat)?;
    }
    Ok((seats, report))
}

/// What is left of a heap on which threads have worked.
#[derive(Drop)]
pub struct Left {
    pub closed: Closed,
    pub report: Report,
}

/// Opens a heap for so many seats, has a thread work with each of them, and closes the heap.
pub fn work_together<R: Threads + Sync>(
    rt: &R,
    alloc: Global,
    heap: Ready,
    seats: usize,
    budget: u64,
    plan: Plan<'_>,
) -> Result<Left, Fail> {
    let (shared, seats) = open(alloc, heap, seats, budget)?;
    Ok(work_and_close(rt, alloc, shared, seats, plan)?)
}

/// Has a thread work with each seat of a heap, and closes the heap.
fn work_and_close<R: Threads + Sync>(
    rt: &R,
    alloc: Global,
    shared: Shared,
    seats: Vec<Seat>,
    plan: Plan<'_>,
) -> Result<Left, AllocError>
    requires seats { All (IsFreshSeatOf shared) seats.items }
    requires roots { HaveRoots (length seats.items) seats.items }
    requires count { length seats.items ≡ shared.opening.seats }
{
    let jobs = deal(alloc, &shared, seats)?;
    let worked = thread::map_vec(
        rt,
        jobs,
        &|job: Job| -> Worked
            requires { IsJobOf shared job.roots.items job.seat }
            ensures { IsBackFrom shared result.seat }
        { work_by(job, &shared, plan) },
    )?;
    let (seats, mut report) = gather(alloc, &shared, worked)?;
    report.given.sort_by_key(|b| b.first_word)?;
    Ok(Left {
        closed: close_shared(alloc, shared, seats, Vec::new(alloc))?,
        report,
    })
}
