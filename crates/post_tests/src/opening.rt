//! A heap that two workers share, and what the first of them begins with.

ghost use Rattle.std.specs.Prelude.{◌≡◌, Contains, IfOk, slice_index};
ghost use Rattle.run_model.specs.Opened.{IsDictionary};
ghost use Rattle.worker_parts.specs.Jobs.{IsJobOf};
ghost use Rattle.worker_run.specs.Said.{requests_of};
ghost use Rattle.post_tests.specs.Begun.{move_among_others};

use dictionary::MappedHeap;
use dictionary_heap::recover_dictionary;
use heap_rule::{Shared, open_shared};
use line_memory::ConstantChance;
use region_header::{Bytes, format};
use seat_owners::owners_of_mapped;
use std::alloc::{AllocError, Global};
use std::collections::VecDeque;
use std::test::Fail;
use trace_text::Request;
use worker_parts::Job;
use worker_run::{Worker, longest_puts, make_rooms};

/// How many superblocks the heap has, which is more than are taken.
const CAPACITY: u64 = 4;

/// So many steps both workers may take together, which is more than they do.
const BUDGET: u64 = 1_000_000;

/// The first of two workers.
const FIRST: Worker = Worker {
    number: 0,
    workers: 2,
};

/// The heap, and the first worker's job.
#[derive(Drop)]
pub struct Opened {
    pub shared: Shared,
    pub job: Job<ConstantChance>,
}

/// An empty dictionary.
#[tactic(auto, unfolding(heap_model::specs::Geometry::largest_capacity))]
pub fn empty(alloc: Global) -> Result<MappedHeap, Fail>
    ensures { IfOk result (λ mapped. IsDictionary (slice_index mapped.words)
        (Contains mapped.held)) }
{
    let image = format(alloc, CAPACITY)?;
    let found = recover_dictionary(alloc, &image)?;
    Ok(MappedHeap::read(alloc, found.heap)?)
}

/// A put, a move of its key to one of a shard of the other worker, and a request behind that.
pub fn requests(alloc: Global) -> Result<Vec<Request>, AllocError>
    ensures { IfOk result (λ requests. requests_of requests.items ≡ move_among_others) }
{
    Ok(vec![in alloc;
        Request::Put(0, Bytes::from_vec(Vec::new(alloc))),
        Request::Move(0, 1),
        Request::Get(0),
    ]?)
}

/// Shares the dictionary between two workers.
pub fn open(alloc: Global, mapped: MappedHeap, requests: &[Request]) -> Result<Opened, AllocError>
    requires dictionary { IsDictionary (slice_index mapped.words) (Contains mapped.held) }
    requires trace { requests_of requests.now ≡ move_among_others }
    ensures job { IfOk result (λ o. IsJobOf o.shared (requests_of requests.now) o.job) }
    ensures worker { IfOk result (λ o. (o.job.worker.number ≡ 0) × (o.job.worker.workers ≡ 2)) }
{
    let longest = longest_puts(alloc, requests)?;
    let owners = owners_of_mapped(alloc, &mapped, 2)?;
    let (heap, maps) = mapped.into_parts();
    let (shared, seats) = open_shared(alloc, heap, &owners, 2, BUDGET)?;
    let mut seats = VecDeque::from_vec(seats);
    let Some(seat) = seats.pop_front() else {
        unreachable!();
    };
    let rooms = make_rooms(alloc, &maps, &longest, FIRST, requests)?;
    let replies = Vec::with_capacity(alloc, requests.len())?;
    let job = Job {
        worker: FIRST,
        seat,
        chance: ConstantChance(0),
        rooms,
        replies,
    };
    Ok(Opened { shared, job })
}
