//! A node that is taken out of the queue while the worker that sent it is still at work.

ghost use Rattle.std.specs.Prelude.{◌≡◌, get_or};
ghost use Rattle.parcel_queue.specs.Account.{QueueView};
ghost use Rattle.worker_run.specs.Said.{requests_of};
ghost use Rattle.post_tests.specs.Begun.{AreUnused, IsFirstOf, IsPassTo};

use crate::opening::{Opened, empty, open, requests};
use heap_rule::Shared;
use line_memory::ConstantChance;
use parcel_queue::Pass;
use seat_parcels::{HeapOf, Parcel, Post, PostBox, QueuesOf};
use std::alloc::{AllocError, Global};
use std::marker::Brand;
use std::process::Abort;
use std::sync::Wait;
use std::sync::atomic::{AtomicU64, Ordering};
use std::test::*;
use std::thread;
use std::thread::Threads;
use tool_ports::Gate;
use trace_text::Request;
use worker_parts::{Begun, ask, begin, targets_of_moves};

/// How often a thread looks whether the other one has come so far, at most.
const MOST_LOOKS: u64 = 10_000_000;

/// The request behind the move, by its place in the trace.
const BEHIND: usize = 2;

/// Holds the sender at the request behind its move, until the parcel was taken.
#[derive(Drop)]
struct Barrier {
    taken: AtomicU64,
    in_time: AtomicU64,
}

impl Barrier {
    /// Looks many times whether the parcel was taken.
    fn was_taken(&self) -> bool {
        for _ in 0..MOST_LOOKS {
            if self.taken.load(Ordering::SeqCst) == 1 {
                return true;
            }
            thread::yield_now();
        }
        false
    }
}

impl Gate for Barrier {
    fn pass(&self, _: usize, request: usize) {
        if request == BEHIND && self.was_taken() {
            self.in_time.store(1, Ordering::SeqCst);
        }
    }

    fn done(&self, _: usize, _: usize) {}
}

/// The first worker works off its requests. The answer is whether it wasn't stopped.
fn send<J: HeapOf, Q: QueuesOf>(
    alloc: Global,
    begun: Begun<'_, ConstantChance>,
    shared: &Shared,
    queues: &[Post<J>],
    passes: Vec<Pass<Parcel>>,
    requests: &[Request],
    barrier: &Barrier,
) -> Result<bool, AllocError>
    requires heap { J.table ≡ shared.now.table }
    requires queues { queues.now ≡ Q.queues }
    requires begun { IsFirstOf shared.now (requests_of requests.now) begun }
    requires passes { AreUnused queues.now passes.items }
{
    let kept = Vec::with_capacity(alloc, 1)?;
    let mut outbox = PostBox::<J, Q>::new(queues, passes, kept, 2);
    let asked = ask(begun, shared, requests, &[true; 8], &mut outbox, barrier);
    Ok(!asked.stopped)
}

/// Takes the parcel once it is there, and lets the sender go on.
fn take<J: HeapOf, R: Wait>(
    rt: &R,
    queue: &Post<J>,
    mut pass: Pass<Parcel>,
    barrier: &Barrier,
) -> bool
    requires { IsPassTo queue.now pass }
{
    for _ in 0..MOST_LOOKS {
        if let Some(parcel) = queue.take(rt, &mut pass) {
            barrier.taken.store(1, Ordering::SeqCst);
            return parcel.number == 1 && parcel.key == 1;
        }
        thread::yield_now();
    }
    false
}

/// One thread sends and another one takes. The answer is whether both did, in time.
fn send_and_take<J: HeapOf + Sync, Q: QueuesOf + Sync, R: Threads + Wait + Sync>(
    rt: &R,
    alloc: Global,
    begun: Begun<'_, ConstantChance>,
    shared: &Shared,
    queues: &[Post<J>],
    passes: Vec<Pass<Parcel>>,
    queue: &Post<J>,
    taker: Pass<Parcel>,
    requests: &[Request],
) -> Result<bool, AllocError>
    requires heap { J.table ≡ shared.now.table }
    requires queues { queues.now ≡ Q.queues }
    requires begun { IsFirstOf shared.now (requests_of requests.now) begun }
    requires passes { AreUnused queues.now passes.items }
    requires taker { IsPassTo queue.now taker }
{
    let barrier = Barrier {
        taken: AtomicU64::new(0),
        in_time: AtomicU64::new(0),
    };
    let (is_sent, is_taken) = thread::join(
        rt,
        || -> Result<bool, AllocError>
            requires { (J.table ≡ shared.now.table) × (queues.now ≡ Q.queues)
                × IsFirstOf shared.now (requests_of requests.now) begun
                × AreUnused queues.now passes.items }
        { send::<J, Q>(alloc, begun, shared, queues, passes, requests, &barrier) },
        || -> bool
            requires { IsPassTo queue.now taker }
        { take::<J, R>(rt, queue, taker, &barrier) },
    );
    Ok(is_sent? && is_taken && barrier.in_time.load(Ordering::SeqCst) == 1)
}

/// The same over the heap that `J` tells of, with a queue for each worker.
fn run_over<J: HeapOf + Sync, R: Threads + Wait + Sync>(
    rt: &R,
    alloc: Global,
    begun: Begun<'_, ConstantChance>,
    shared: &Shared,
    requests: &[Request],
) -> Result<bool, AllocError>
    requires heap { J.table ≡ shared.now.table }
    requires begun { IsFirstOf shared.now (requests_of requests.now) begun }
{
    let (first, mut first_owner) = Post::<J>::new(alloc, 1)?;
    let (second, mut second_owner) = Post::<J>::new(alloc, 1)?;
    let passes = vec![in alloc;
        first.another(&mut first_owner),
        second.another(&mut second_owner),
    ]?;
    let taker = second.another(&mut second_owner);
    let queues = vec![in alloc; first, second]?;
    send_and_take::<J, Brand, R>(
        rt, alloc, begun, shared, &queues, passes, &queues[1], taker, requests,
    )
}

/// The heap is opened, and the first worker begins.
fn run<R: Threads + Wait + Sync>(rt: &R, alloc: Global) -> Result<bool, Fail> {
    let requests = requests(alloc)?;
    let Opened { shared, job } = open(alloc, empty(alloc)?, &requests)?;
    let begun = begin(job, &shared, &requests, &targets_of_moves(&requests));
    if begun.stopped {
        return Err("it was stopped before the first request".into());
    }
    Ok(run_over::<Brand, R>(rt, alloc, begun, &shared, &requests)?)
}

#[test]
fn a_parcel_is_taken_before_its_sender_returns(rt: HostRuntime) -> Result<(), Fail> {
    assert!(rt; run(&rt, rt.alloc())?);
    Ok(())
}
