//! What the workers of a run ended with is put together: their seats, their replies in the order of
//! the trace, and the carriers that are left.

ghost use Rattle.std.specs.Prelude.{◌≡◌, ◌<◌, ◌≤◌, ℕ, All, IfOk, [], length, get_or};
ghost use Rattle.std.specs.Vec.{vec_capacity};
ghost use Rattle.core_model.specs.Carriers.{IsCarrier};
ghost use Rattle.run_model.specs.Workers.{worker_requests, worker_replies};
ghost use Rattle.run_rows.specs.Ended.{HaveEnded};
ghost use Rattle.worker_run.specs.Said.{requests_of, replies_of};
ghost use Rattle.shared_run.specs.Dealing.{Queue, padded};
ghost use Rattle.shared_run.specs.Gathering.{AreParts};

use heap_rule::{Carrier, Seat, Shared};
use run_rows::Ended;
use std::alloc::{AllocError, Global};
use std::collections::VecDeque;
use trace_text::{Reply, Request};
use worker_parts::Worked;
use worker_run::worker_of;

/// The seats and the replies of the workers, in their order, the carriers that are left, and whether
/// a worker was stopped.
#[derive(Drop)]
pub(crate) struct Gathered {
    pub seats: Vec<Seat>,
    pub told: Vec<VecDeque<Reply>>,
    pub carriers: Vec<Carrier>,
    pub stopped: bool,
}

/// Says of each of the carriers that it is one, and no seat.
fn hold_blocks(carriers: &[Carrier])
    ensures { All (λ c. IsCarrier c.view) carriers.now }
{
    for carrier in carriers {
        carrier.holds_its_block();
    }
}

/// Takes apart what the workers ended with, of whom the last one comes first.
pub(crate) fn gather(
    alloc: Global,
    _shared: &Shared,
    _requests: &[Request],
    mut ended: Vec<Ended>,
) -> Result<Gathered, AllocError>
    requires ended { HaveEnded _shared.now (requests_of _requests.now) (length ended.items) ended.items }
    ensures parts { IfOk result (λ g. AreParts _shared.now (requests_of _requests.now)
        (length ended.items) g.seats.items g.told.items g.carriers.items g.stopped) }
    ensures carry { IfOk result (λ g. All (λ c. IsCarrier c.view) g.carriers.items) }
{
    let mut seats = Vec::with_capacity(alloc, ended.len())?;
    let mut told = Vec::with_capacity(alloc, ended.len())?;
    let mut carriers = Vec::new(alloc);
    let mut stopped = false;
    while let Some(one) = ended.pop() {
        let Ended {
            worked,
            carriers: mut more,
        } = one;
        let Worked {
            worker: _,
            seat,
            replies,
            stopped: was_stopped,
        } = worked;
        seats.push_reserved(seat);
        told.push_reserved(VecDeque::from_vec(replies));
        carriers.append(&mut more)?;
        stopped = stopped || was_stopped;
    }
    hold_blocks(&carriers);
    Ok(Gathered {
        seats,
        told,
        carriers,
        stopped,
    })
}

/// The replies in the order of the trace: each request has the next one of its worker, as far as
/// there is one.
pub(crate) fn put_in_order(
    requests: &[Request],
    mut told: Vec<VecDeque<Reply>>,
    replies: &mut Vec<Reply>,
)
    requires some { 1 ≤ length told.items }
    requires empty { replies.old.items ≡ [] }
    requires room { length requests.now ≤ vec_capacity replies.old }
    ensures long { length replies.new.items ≡ length requests.now }
    ensures each { (worker : ℕ) (any : Queue) → worker < length told.items
        → length (get_or told.items worker any).items
        ≤ length (worker_requests (length told.items) worker (requests_of requests.now))
        → worker_replies (length told.items) worker (requests_of requests.now)
        (replies_of replies.new.items)
        ≡ padded (length told.items) worker (requests_of requests.now)
        (replies_of (get_or told.items worker any).items) }
{
    let workers = told.len();
    for request in requests {
        let reply = match told[worker_of(request, workers)].pop_front() {
            Some(reply) => reply,
            None => Reply::Unanswered,
        };
        replies.push_reserved(reply);
    }
}
