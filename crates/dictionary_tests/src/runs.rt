//! Whole runs of a trace, from its text: by one worker, over a heap for one thread.
ghost use Rattle.std.specs.Prelude.{◌≡◌, ◌<◌, ◌^◌, false, Contains, slice_index};
ghost use Rattle.heap_model.specs.Header.{capacity_of};
ghost use Rattle.line_memory.specs.ClosedWords.{volatile_words, durable_words};
ghost use Rattle.run_model.specs.Needs.{has_move};
ghost use Rattle.run_model.specs.Opened.{IsDictionary};
ghost use Rattle.worker_run.specs.Left.{AreWholeImage};
ghost use Rattle.worker_run.specs.Said.{requests_of, ValuesAreShort};

use block_heap::SeqHeap;
use dictionary::maps_of;
use dictionary_heap::recover_dictionary;
use line_memory::Closed;
use std::alloc::{AllocError, Global};
use std::test::Fail;
use super_block::{Geometry, Ready};
use tool_ports::{Chances, Gate, SeededChances};
use trace_text::{Reply, Request, parse_trace};
use worker_run::{
    NoOutbox, Worker, closed_image, left_by_crash, longest_puts, make_rooms, work_off,
};

/// What a run of a trace gives.
#[derive(Drop)]
pub struct Outcome {
    /// The reply to each request, in the order of the trace.
    pub replies: Vec<Reply>,
    /// Whether the heap stopped at its budget.
    pub stopped: bool,
    /// The words of the image that is left: that of a close or, where the heap stopped, of a crash.
    pub image: Vec<u64>,
}

/// The image that is left of a heap.
fn image_left<C: Chances>(
    closed: Closed,
    stopped: bool,
    geometry: Geometry,
    chances: &mut C,
) -> Vec<u64>
    requires whole { AreWholeImage (volatile_words closed) }
    requires layout { geometry.capacity ≡ capacity_of (slice_index (volatile_words closed)) }
    requires same { capacity_of (slice_index (durable_words closed))
        ≡ capacity_of (slice_index (volatile_words closed)) }
{
    let Closed { now, kept } = closed;
    if stopped {
        left_by_crash(kept, geometry, chances)
    } else {
        closed_image(now)
    }
}

/// Tells of each request that has no reply that it is unanswered.
fn tell_unanswered(replies: &mut Vec<Reply>, requests: usize) -> Result<(), AllocError> {
    for _ in replies.len()..requests {
        replies.push(Reply::Unanswered)?;
    }
    Ok(())
}

/// Whether a request of the trace moves a value, for which a run by one seat has no place.
fn has_a_move(requests: &[Request]) -> bool
    ensures { result ≡ false → has_move (requests_of requests.now) ≡ false }
{
    for request in requests {
        if let Request::Move(_, _) = request {
            return true;
        }
    }
    false
}

/// Runs the requests over a recovered heap, with a budget of so many steps.
fn run_requests<G: Gate, C: Chances>(
    alloc: Global,
    heap: Ready,
    requests: &[Request],
    budget: u64,
    gate: &G,
    chances: &mut C,
) -> Result<Outcome, Fail>
    requires budget { budget < 2 ^ 40 }
    requires dictionary { IsDictionary (slice_index heap.words) (Contains heap.held) }
    requires short { ValuesAreShort (requests_of requests.now) }
    requires unmoved { has_move (requests_of requests.now) ≡ false }
{
    let geometry = heap.geometry();
    let alone = Worker {
        number: 0,
        workers: 1,
    };
    let maps = maps_of(alloc, &heap)?;
    let longest = longest_puts(alloc, requests)?;
    let rooms = make_rooms(alloc, &maps, &longest, alone, requests)?;
    let mut replies = Vec::with_capacity(alloc, requests.len())?;
    let mut seat = SeqHeap::new(alloc, heap, budget, chances.chance(0))?;
    let tables = &[false; 8];
    let outbox = &mut NoOutbox;
    let stopped = work_off(
        &mut seat,
        alone,
        requests,
        tables,
        rooms,
        outbox,
        &mut replies,
        gate,
    );
    tell_unanswered(&mut replies, requests.len())?;
    let image = image_left(seat.finish(), stopped, geometry, chances);
    Ok(Outcome {
        replies,
        stopped,
        image,
    })
}

/// Runs the trace over what recovery makes of the image, with a budget of so many steps. The gate
/// is told of each request. A trace that moves a value is refused.
pub fn run_text<G: Gate>(
    alloc: Global,
    image: &[u64],
    text: &str,
    budget: u64,
    gate: &G,
) -> Result<Outcome, Fail>
    requires { budget < 2 ^ 40 }
{
    let heap = recover_dictionary(alloc, image)?.heap;
    let requests = parse_trace(alloc, text.as_bytes())?;
    if has_a_move(&requests) {
        return Err("the trace moves a value".into());
    }
    let chances = &mut SeededChances::new();
    run_requests(alloc, heap, &requests, budget, gate, chances)
}
