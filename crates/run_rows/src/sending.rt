//! The workers' requests are worked off, and what they send goes into the queues.

ghost use Rattle.std.specs.Prelude.{◌≡◌, ◌-◌, ◌≤◌, ◌<◌, ℕ, [], false, true, All, IfOk, length, map};
ghost use Rattle.dict_model.specs.Links.{shards};
ghost use Rattle.parcel_queue.specs.Account.{all_parts};
ghost use Rattle.seat_parcels.specs.Boxes.{all_put};
ghost use Rattle.shard_moves.specs.Tables.{is_flagged};
ghost use Rattle.worker_run.specs.Said.{requests_of, ValuesAreShort};
ghost use Rattle.worker_parts.specs.Jobs.{IsBegunOf};
ghost use Rattle.run_rows.specs.Posts.{ArePassesTo};
ghost use Rattle.run_rows.specs.Rows.{AgreesWith, IsPostedOf, IsSenderOf};
ghost use Rattle.run_rows.specs.Turns.{AreInTurn};

use crate::posts::moves_of;
use heap_rule::Shared;
use line_memory::Chance;
use parcel_queue::{Pass, a_pass_to_each};
use seat_parcels::{HeapOf, Parcel, Post, PostBox, QueuesOf};
use std::alloc::{AllocError, Global};
use std::thread;
use std::thread::Threads;
use tool_ports::Gate;
use trace_text::Request;
use worker_parts::{Asked, Begun, ask};

/// A worker that has begun, with its passes to the queues and room for what no queue takes at once.
#[derive(Drop)]
pub(crate) struct Sender<'a, C> {
    pub begun: Begun<'a, C>,
    pub passes: Vec<Pass<Parcel>>,
    pub kept: Vec<Parcel>,
}

/// A worker whose requests were worked off, with its passes and what no queue took.
#[derive(Drop)]
pub(crate) struct Posted<'a, C> {
    pub asked: Asked<'a, C>,
    pub passes: Vec<Pass<Parcel>>,
    pub kept: Vec<Parcel>,
}

/// Each worker gets a pass to each queue, of which the owners give a part.
pub(crate) fn with_passes<'a, J: HeapOf, C: Chance>(
    alloc: Global,
    _shared: &Shared,
    queues: &[Post<J>],
    owners: &mut Vec<Pass<Parcel>>,
    all: Vec<Begun<'a, C>>,
    requests: &[Request],
) -> Result<Vec<Sender<'a, C>>, AllocError>
    requires owners { ArePassesTo all_parts queues.now owners.old.items }
    requires nothing { all_put owners.old.items ≡ [] }
    requires few { length all.items ≤ 8 }
    requires begun { All (IsBegunOf _shared.now (requests_of requests.now)) all.items }
    requires going { All (λ one. one.stopped ≡ false) all.items }
    requires turns { AreInTurn (λ one. one.worker) (length all.items) all.items }
    ensures owners { IfOk result (λ senders. ArePassesTo (all_parts - length senders.items)
        queues.now owners.new.items) }
    ensures nothing { IfOk result (λ senders. all_put owners.new.items ≡ []) }
    ensures senders { IfOk result (λ senders. All (IsSenderOf _shared.now
        (requests_of requests.now) queues.now) senders.items) }
    ensures begun { IfOk result (λ senders. map (λ one. one.begun) senders.items
        ≡ all.entry.items) }
    ensures turns { IfOk result (λ senders. AreInTurn (λ one. one.begun.worker)
        (length senders.items) senders.items) }
    ensures count { IfOk result (λ senders. length senders.items ≡ length all.entry.items) }
{
    let mut senders = Vec::with_capacity(alloc, all.len())?;
    for begun in all {
        let passes = a_pass_to_each(alloc, queues, owners)?;
        let kept = Vec::with_capacity(alloc, moves_of(requests, begun.worker))?;
        senders.push_reserved(Sender {
            begun,
            passes,
            kept,
        });
    }
    Ok(senders)
}

/// Works off one worker's requests.
fn answer<'a, J: HeapOf, Q: QueuesOf, C: Chance, G: Gate>(
    sender: Sender<'a, C>,
    shared: &Shared,
    queues: &[Post<J>],
    requests: &[Request],
    tables: &[bool; 8],
    gate: &G,
) -> Posted<'a, C>
    requires heap { J.table ≡ shared.now.table }
    requires queues { queues.now ≡ Q.queues }
    requires each { length queues.now ≡ sender.begun.worker.workers }
    requires sender { IsSenderOf shared.now (requests_of requests.now) queues.now sender }
    requires short { ValuesAreShort (requests_of requests.now) }
    requires tables { AgreesWith (is_flagged tables.now) (requests_of requests.now) sender.begun }
    ensures worker { result.asked.worker ≡ sender.entry.begun.worker }
    ensures answered { IsPostedOf shared.now (requests_of requests.now)
        (is_flagged tables.now) queues.now result }
{
    let Sender {
        begun,
        passes,
        kept,
    } = sender;
    let workers = begun.worker.workers;
    let mut outbox = PostBox::<J, Q>::new(queues, passes, kept, workers);
    let asked = ask(begun, shared, requests, tables, &mut outbox, gate);
    let (passes, kept) = outbox.into_parts();
    Posted {
        asked,
        passes,
        kept,
    }
}

/// All workers work off their requests, each in a thread of its own where one can be made.
pub(crate) fn answer_together<
    'a,
    J: HeapOf + Sync,
    Q: QueuesOf + Sync,
    R: Threads + Sync,
    G: Gate + Sync,
    C: Chance + Send,
>(
    rt: &R,
    shared: &Shared,
    queues: &[Post<J>],
    senders: Vec<Sender<'a, C>>,
    requests: &[Request],
    tables: &[bool; 8],
    gate: &G,
) -> Result<Vec<Posted<'a, C>>, AllocError>
    requires heap { J.table ≡ shared.now.table }
    requires queues { queues.now ≡ Q.queues }
    requires each { length queues.now ≡ length senders.items }
    requires senders { All (IsSenderOf shared.now (requests_of requests.now) queues.now)
        senders.items }
    requires turns { AreInTurn (λ one. one.begun.worker) (length senders.items) senders.items }
    requires short { ValuesAreShort (requests_of requests.now) }
    requires tables { All (λ one. AgreesWith (is_flagged tables.now) (requests_of requests.now)
        one.begun) senders.items }
    ensures answered { IfOk result (λ all. All (IsPostedOf shared.now (requests_of requests.now)
        (is_flagged tables.now) queues.now) all.items) }
    ensures turns { IfOk result (λ all. AreInTurn (λ one. one.asked.worker)
        (length senders.entry.items) all.items) }
    ensures count { IfOk result (λ all. length all.items ≡ length senders.entry.items) }
{
    let all = thread::map_vec(
        rt,
        senders,
        &|sender: Sender<C>| -> Posted<C>
            requires { (J.table ≡ shared.now.table) × (queues.now ≡ Q.queues)
                × (length queues.now ≡ sender.begun.worker.workers)
                × IsSenderOf shared.now (requests_of requests.now) queues.now sender
                × ValuesAreShort (requests_of requests.now)
                × AgreesWith (is_flagged tables.now) (requests_of requests.now) sender.begun }
            ensures worker { result.asked.worker ≡ sender.entry.begun.worker }
            ensures answered { IsPostedOf shared.entry.now (requests_of requests.entry.now)
                (is_flagged tables.entry.now) queues.entry.now result }
        { answer::<J, Q, C, G>(sender, shared, queues, requests, tables, gate) },
    )?;
    Ok(all)
}
