//! A queue for each worker, into which the others lay what their moves send it.

ghost use Rattle.std.specs.Prelude.{◌≡◌, ◌≤◌, [], IfOk, length};
ghost use Rattle.parcel_queue.specs.Account.{all_parts};
ghost use Rattle.run_model.specs.Workers.{worker_requests};
ghost use Rattle.seat_parcels.specs.Boxes.{all_put};
ghost use Rattle.worker_run.specs.Said.{requests_of};
ghost use Rattle.worker_run.specs.Sending.{rooms_needed};
ghost use Rattle.run_rows.specs.Posts.{ArePassesTo};

use dict_model::SHARDS;
use parcel_queue::Pass;
use seat_parcels::{HeapOf, Parcel, Post};
use std::alloc::{AllocError, Global};
use trace_text::Request;
use worker_run::Worker;

/// The queues of the workers, in their order, and the pass of each one's owner.
#[derive(Drop)]
pub(crate) struct Posts<J: HeapOf> {
    pub queues: Vec<Post<J>>,
    pub owners: Vec<Pass<Parcel>>,
}

/// How many moves bring a value to a shard of the worker.
fn moves_to(requests: &[Request], worker: usize, workers: usize) -> usize
    requires { 1 ≤ workers }
{
    let mut count = 0;
    for request in requests {
        if let Request::Move(_, to) = request
            && (*to % SHARDS) as usize % workers == worker
        {
            count += 1;
        }
    }
    count
}

/// How many of the worker's requests are moves: for so many nodes it needs room.
pub(crate) fn moves_of(requests: &[Request], worker: Worker) -> usize
    requires { 1 ≤ worker.workers }
    ensures { result ≡ rooms_needed (worker_requests worker.workers worker.number
        (requests_of requests.now)) }
{
    let mut count = 0;
    for request in requests {
        if let Request::Move(_, _) = request
            && worker.has(request)
        {
            count += 1;
        }
    }
    count
}

/// A queue for each of the workers, with room for all that moves bring to its shards.
pub(crate) fn open_posts<J: HeapOf>(
    alloc: Global,
    requests: &[Request],
    workers: usize,
) -> Result<Posts<J>, AllocError>
    requires some { 1 ≤ workers }
    ensures queues { IfOk result (λ p. length p.queues.items ≡ workers) }
    ensures owners { IfOk result (λ p. ArePassesTo all_parts p.queues.items p.owners.items) }
    ensures nothing { IfOk result (λ p. all_put p.owners.items ≡ []) }
{
    let mut queues = Vec::with_capacity(alloc, workers)?;
    let mut owners = Vec::with_capacity(alloc, workers)?;
    for worker in 0..workers {
        let room = moves_to(requests, worker, workers).max(1);
        let (queue, owner) = Post::<J>::new(alloc, room)?;
        queues.push_reserved(queue);
        owners.push_reserved(owner);
    }
    Ok(Posts { queues, owners })
}
