//! Two threads, each with a seat of the heap: the first one sends a block, the second one receives
//! it.

ghost use Rattle.std.specs.Prelude.{◌≡◌, IfSome, None};
ghost use Rattle.core_model.specs.View.{role};
ghost use Rattle.first_handover.specs.Handover.{HasEnded, HasOwn, HasSent, HaveWorked, IsBackFrom, IsFreshSeatOf, IsPaused};

use crate::hands::{BYTES, Received, Taken, send, try_receive};
use heap_rule::{Carrier, Seat, Shared};
use heap_seat::{AllocFault, HeapSeat};
use line_memory::ConstantChance;
use std::thread;
use std::thread::Threads;
use super_block::Block;
use thread_cache::CacheSeat;

/// What the first thread has once it has sent: a block that it kept, or why it went no further, and
/// the carrier of the other one.
#[derive(Drop)]
struct Sent {
    seat: Seat,
    kept: Result<Block, AllocFault>,
    carrier: Option<Carrier>,
}

/// What the second thread has meanwhile: a block of its own.
#[derive(Drop)]
struct Owning {
    seat: Seat,
    own: Result<Block, AllocFault>,
}

/// What the second thread ends with: its seat, and what it took.
#[derive(Drop)]
struct Ended {
    seat: Seat,
    taken: Taken,
}

/// What both threads leave.
#[derive(Drop)]
pub struct Worked {
    pub one: Seat,
    pub other: Seat,
    pub kept: Result<Block, AllocFault>,
    pub own: Result<Block, AllocFault>,
    pub received: Option<Received>,
    pub left: Option<Carrier>,
}

/// The first thread sends.
fn begin_first(shared: &Shared, seat: Seat, value: u64) -> Sent
    requires { IsFreshSeatOf shared.now seat }
    ensures { HasSent shared.now value result }
{
    let mut seat = CacheSeat::new(shared, seat, ConstantChance(0));
    match send(&mut seat, value) {
        Ok((kept, carrier)) => Sent {
            seat: seat.into_seat(),
            kept: Ok(kept),
            carrier: Some(carrier),
        },
        Err(fault) => Sent {
            seat: seat.into_seat(),
            kept: Err(fault),
            carrier: None,
        },
    }
}

/// The second thread allocates a block of its own meanwhile.
fn begin_second(shared: &Shared, seat: Seat) -> Owning
    requires { IsFreshSeatOf shared.now seat }
    ensures { HasOwn shared.now result }
{
    let mut seat = CacheSeat::new(shared, seat, ConstantChance(0));
    let own = seat.alloc(BYTES);
    Owning {
        seat: seat.into_seat(),
        own,
    }
}

/// Leaves the cached blocks of a seat that goes on to the others.
fn quiet(shared: &Shared, seat: Seat) -> Seat
    requires at { IsPaused shared.now seat }
    requires going { seat.view.stopped ≡ None }
    ensures back { IsBackFrom shared.now seat.view result }
    ensures role_is { role result.view ≡ role seat.view }
{
    let mut seat = CacheSeat::new(shared, seat, ConstantChance(0));
    let _answer = seat.quiet();
    let seat = seat.into_seat();
    seat.recall_soundness();
    seat
}

/// The first thread leaves its cached blocks to the other, unless its seat has stopped.
fn end_first(shared: &Shared, seat: Seat) -> Seat
    requires { IsPaused shared.now seat }
    ensures back { IsBackFrom shared.now seat.view result }
    ensures role_is { role result.view ≡ role seat.view }
{
    seat.recall_soundness();
    match seat.stopped() {
        Some(_) => seat,
        None => quiet(shared, seat),
    }
}

/// A seat that goes on receives what it is given.
fn take(shared: &Shared, seat: Seat, given: Option<Carrier>) -> Ended
    requires at { IsPaused shared.now seat }
    requires going { seat.view.stopped ≡ None }
    requires table { IfSome given (λ c. c.table ≡ shared.now.table) }
    ensures { HasEnded shared.now given seat.view result }
{
    let mut seat = CacheSeat::new(shared, seat, ConstantChance(0));
    let taken = try_receive(&mut seat, given);
    let seat = seat.into_seat();
    seat.recall_soundness();
    Ended { seat, taken }
}

/// The second thread receives what the first one sent, if it did, unless its seat has stopped.
fn end_second(shared: &Shared, seat: Seat, given: Option<Carrier>) -> Ended
    requires at { IsPaused shared.now seat }
    requires table { IfSome given (λ c. c.table ≡ shared.now.table) }
    ensures { HasEnded shared.now given seat.view result }
{
    seat.recall_soundness();
    match seat.stopped() {
        Some(_) => Ended {
            seat,
            taken: Taken {
                received: None,
                left: given,
            },
        },
        None => take(shared, seat, given),
    }
}

/// Lets both threads work, each in a thread of its own where one can be made: first one sends while
/// the other allocates, then the other receives.
pub fn work<R: Threads>(rt: &R, shared: &Shared, one: Seat, other: Seat, value: u64) -> Worked
    requires one { IsFreshSeatOf shared.now one }
    requires other { IsFreshSeatOf shared.now other }
    ensures { HaveWorked shared.now value result }
{
    let (sent, owning) = thread::join(
        rt,
        || -> Sent
            requires { IsFreshSeatOf shared.now one }
            ensures { HasSent shared.entry.now value result }
        { begin_first(shared, one, value) },
        || -> Owning
            requires { IsFreshSeatOf shared.now other }
            ensures { HasOwn shared.entry.now result }
        { begin_second(shared, other) },
    );
    let Sent {
        seat: one,
        kept,
        carrier: given,
    } = sent;
    let Owning { seat: other, own } = owning;
    let (one, ended) = thread::join(
        rt,
        || -> Seat
            requires { IsPaused shared.now one }
            ensures back { IsBackFrom shared.entry.now one.view result }
            ensures role_is { role result.view ≡ role one.view }
        { end_first(shared, one) },
        || -> Ended
            requires at { IsPaused shared.now other }
            requires table { IfSome given (λ c. c.table ≡ shared.now.table) }
            ensures { HasEnded shared.entry.now given other.view result }
        { end_second(shared, other, given) },
    );
    Worked {
        one,
        other: ended.seat,
        kept,
        own,
        received: ended.taken.received,
        left: ended.taken.left,
    }
}
