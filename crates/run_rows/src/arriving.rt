//! What the workers sent each other is brought in, once all requests are worked off.

ghost use Rattle.std.specs.Prelude.{◌≡◌, ◌+◌, ◌++◌, ◌≤◌, ◌<◌, ℕ, List, [], false, true, All, Contains, IfOk, length};
ghost use Rattle.heap_rule.specs.Carried.{CarrierView};
ghost use Rattle.run_model.specs.Sending.{Sent};
ghost use Rattle.run_model.specs.Workers.{Replies};
ghost use Rattle.seat_parcels.specs.Parcels.{IsParcelOf, all_sent_of};
ghost use Rattle.shard_moves.specs.Tables.{is_flagged};
ghost use Rattle.worker_run.specs.Said.{requests_of};
ghost use Rattle.worker_parts.specs.Jobs.{HasTableFor, IsAskedOf, IsWorkedOf};
ghost use Rattle.run_rows.specs.Ended.{IsEndedOf};
ghost use Rattle.run_rows.specs.Rows.{AreAllOk, IsArrivingOf};
ghost use Rattle.run_rows.specs.Turns.{AreInTurn};

use heap_rule::{Carrier, Shared};
use line_memory::Chance;
use parcel_queue::Pass;
use seat_parcels::{ArrivalsOf, HeapOf, InTray, Parcel, Post, collect};
use std::alloc::{AllocError, Global};
use std::marker::Brand;
use std::sync::Wait;
use std::thread;
use std::thread::Threads;
use trace_text::Request;
use worker_parts::{Asked, Worked, arrive, leave};

/// A worker whose requests were worked off, with the pass of its own queue and what was kept for it.
#[derive(Drop)]
pub(crate) struct Arriving<'a, C> {
    pub asked: Asked<'a, C>,
    pub pass: Pass<Parcel>,
    pub kept: Vec<Parcel>,
}

/// What a worker ended with, and the carriers of what came for it and was not accepted.
#[derive(Drop)]
pub struct Ended {
    pub worked: Worked,
    pub carriers: Vec<Carrier>,
}

/// What is in a worker's tray is brought in, unless the worker was stopped in a request.
fn take_in<'a, K: ArrivalsOf, C: Chance>(
    asked: Asked<'a, C>,
    inbox: &mut InTray<K>,
    shared: &Shared,
    requests: &[Request],
    tables: &[bool; 8],
) -> Worked
    requires asked { IsAskedOf shared.now (requests_of requests.now) (is_flagged tables.now) asked }
    requires none { asked.seat.state.view.accepts ≡ 0 }
    requires count { K.came ≡ length inbox.old }
    requires each { All (IsParcelOf shared.now.table) inbox.old }
    requires with_table { All (λ p. HasTableFor (is_flagged tables.now) (requests_of requests.now)
        asked.worker.workers asked.worker.number p.key) inbox.old }
    ensures worked { (brought : List Sent) × (length brought ≤ result.seat.view.accepts)
        × (result.seat.view.accepts ≤ length brought + 1)
        × IsWorkedOf shared.now (requests_of requests.now) (is_flagged tables.now)
        (all_sent_of inbox.old) brought false result }
    ensures worker { result.worker ≡ asked.entry.worker }
    ensures replies { result.replies ≡ asked.entry.replies }
    ensures offers { result.seat.view.offers ≡ asked.entry.seat.state.view.offers }
    ensures remain { result.seat.view.accepts + length inbox.new ≡ length inbox.old }
    ensures each { All (IsParcelOf shared.now.table) inbox.new }
    ensures none_left { result.stopped ≡ false → inbox.new ≡ [] }
{
    if asked.stopped {
        leave(asked, shared, requests, tables)
    } else {
        arrive(asked, inbox, shared, requests, tables)
    }
}

/// What came for one worker is brought in, once it is known how many came, unless the worker was
/// stopped in a request.
fn bring<'a, K: ArrivalsOf, C: Chance>(
    alloc: Global,
    asked: Asked<'a, C>,
    came: Vec<Parcel>,
    shared: &Shared,
    requests: &[Request],
    tables: &[bool; 8],
) -> Result<Ended, AllocError>
    requires asked { IsAskedOf shared.now (requests_of requests.now) (is_flagged tables.now) asked }
    requires none { asked.seat.state.view.accepts ≡ 0 }
    requires count { K.came ≡ length came.items }
    requires each { All (IsParcelOf shared.now.table) came.items }
    requires with_table { All (λ p. HasTableFor (is_flagged tables.now) (requests_of requests.now)
        asked.worker.workers asked.worker.number p.key) came.items }
    ensures ended { IfOk result (λ ended. (brought : List Sent)
        × (length brought ≤ ended.worked.seat.view.accepts)
        × (ended.worked.seat.view.accepts ≤ length brought + 1)
        × IsWorkedOf shared.now (requests_of requests.now) (is_flagged tables.now)
        (all_sent_of came.items) brought false ended.worked) }
    ensures worker { IfOk result (λ ended. ended.worked.worker ≡ asked.entry.worker) }
    ensures replies { IfOk result (λ ended. ended.worked.replies ≡ asked.entry.replies) }
    ensures offers { IfOk result (λ ended. ended.worked.seat.view.offers
        ≡ asked.entry.seat.state.view.offers) }
    ensures remain { IfOk result (λ ended. ended.worked.seat.view.accepts
        + length ended.carriers.items ≡ length came.items) }
    ensures at_table { IfOk result (λ ended. (c : CarrierView) → Contains ended.carriers.items c
        → c.table ≡ shared.now.table) }
    ensures none_left { IfOk result (λ ended. ended.worked.stopped ≡ false
        → ended.carriers.items ≡ []) }
{
    let mut inbox = InTray::<K>::new(came);
    let worked = take_in(asked, &mut inbox, shared, requests, tables);
    Ok(Ended {
        worked,
        carriers: inbox.into_carriers(alloc)?,
    })
}

/// What came for one worker is taken out of its queue and brought in.
fn finish<'a, J: HeapOf, R: Wait, C: Chance>(
    rt: &R,
    alloc: Global,
    one: Arriving<'a, C>,
    shared: &Shared,
    queues: &[Post<J>],
    requests: &[Request],
    tables: &[bool; 8],
) -> Result<Ended, AllocError>
    requires heap { J.table ≡ shared.now.table }
    requires below { one.asked.worker.number < length queues.now }
    requires arriving { (told : ℕ → Replies) × IsArrivingOf shared.now (requests_of requests.now)
        (is_flagged tables.now) queues.now told one }
    ensures ended { IfOk result (λ ended. (told : ℕ → Replies) → IsArrivingOf shared.now
        (requests_of requests.now) (is_flagged tables.now) queues.now told one.entry
        → IsEndedOf shared.now (requests_of requests.now) (is_flagged tables.now) false told
        ended) }
    ensures worker { IfOk result (λ ended. ended.worked.worker ≡ one.entry.asked.worker) }
{
    let Arriving {
        asked,
        mut pass,
        kept,
    } = one;
    let came = collect(rt, &queues[asked.worker.number], &mut pass, kept)?;
    bring::<Brand, C>(alloc, asked, came, shared, requests, tables)
}

/// All of these, unless memory was short for one.
fn all_of(alloc: Global, all: Vec<Result<Ended, AllocError>>) -> Result<Vec<Ended>, AllocError>
    ensures { IfOk result (λ ended. AreAllOk all.items ended.items) }
{
    let mut ended = Vec::with_capacity(alloc, all.len())?;
    for one in all {
        ended.push_reserved(one?);
    }
    Ok(ended)
}

/// What came for each worker is brought in, each in a thread of its own where one can be made.
pub(crate) fn arrive_together<'a, J: HeapOf + Sync, R: Threads + Wait + Sync, C: Chance + Send>(
    rt: &R,
    alloc: Global,
    shared: &Shared,
    queues: &[Post<J>],
    arriving: Vec<Arriving<'a, C>>,
    requests: &[Request],
    tables: &[bool; 8],
) -> Result<Vec<Ended>, AllocError>
    requires heap { J.table ≡ shared.now.table }
    requires each { length queues.now ≡ length arriving.items }
    requires arriving { (told : ℕ → Replies) × All (IsArrivingOf shared.now
        (requests_of requests.now) (is_flagged tables.now) queues.now told) arriving.items }
    requires turns { AreInTurn (λ one. one.asked.worker) (length arriving.items) arriving.items }
    ensures ended { IfOk result (λ all. (told : ℕ → Replies) → All (IsArrivingOf shared.now
        (requests_of requests.now) (is_flagged tables.now) queues.now told) arriving.entry.items
        → All (IsEndedOf shared.now (requests_of requests.now) (is_flagged tables.now) false told)
        all.items) }
    ensures turns { IfOk result (λ all. AreInTurn (λ one. one.worked.worker)
        (length arriving.entry.items) all.items) }
    ensures count { IfOk result (λ all. length all.items ≡ length arriving.entry.items) }
{
    let all = thread::map_vec(
        rt,
        arriving,
        &|one: Arriving<C>| -> Result<Ended, AllocError>
            requires { (J.table ≡ shared.now.table)
                × (one.asked.worker.number < length queues.now)
                × ((told : ℕ → Replies) × IsArrivingOf shared.now (requests_of requests.now)
                (is_flagged tables.now) queues.now told one) }
            ensures ended { IfOk result (λ ended. (told : ℕ → Replies) → IsArrivingOf
                shared.entry.now (requests_of requests.entry.now) (is_flagged tables.entry.now)
                queues.entry.now told one.entry
                → IsEndedOf shared.entry.now (requests_of requests.entry.now)
                (is_flagged tables.entry.now) false told ended) }
            ensures worker { IfOk result (λ ended. ended.worked.worker ≡ one.entry.asked.worker) }
        { finish::<J, R, C>(rt, alloc, one, shared, queues, requests, tables) },
    )?;
    all_of(alloc, all)
}
