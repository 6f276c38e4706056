//! A heap is closed with all its seats, and with the carriers that none accepted.

ghost use Rattle.std.specs.Prelude.{◌≡◌, [], All, IfOk};
ghost use Rattle.std.proofs.Props.{props};
ghost use Rattle.heap_rule.specs.Seated.{IsSeatOf};
ghost use Rattle.handing_tests.specs.Handing.{AreAt, AreCounted};

use crate::hand::Back;
use heap_rule::{Carrier, Seat, Shared, close_shared};
use line_memory::Closed;
use std::alloc::{AllocError, Global};
use std::collections::VecDeque;
use std::test::Fail;

/// Seats that are back, and how many blocks they offered and accepted in all.
#[derive(Drop)]
pub struct Done {
    pub seats: Vec<Seat>,
    pub offers: u64,
    pub accepts: u64,
    pub ghost counted: { AreCounted offers accepts seats.items } by { Prim.hlevel props },
}

/// Nothing that is back.
pub fn none_done(alloc: Global) -> Done
    ensures { result.seats.items ≡ [] }
{
    Done {
        seats: Vec::new(alloc),
        offers: 0,
        accepts: 0,
    }
}

/// One more seat of the heap is back.
pub fn add(shared: &Shared, done: Done, back: Back) -> Result<Done, AllocError>
    requires seats { All (IsSeatOf shared.now) done.seats.items }
    requires seat { IsSeatOf shared.now back.seat }
    ensures { IfOk result (λ more. All (IsSeatOf shared.now) more.seats.items) }
{
    let _shared = shared;
    let Done {
        mut seats,
        offers,
        accepts,
    } = done;
    if back.offers > u64::MAX - offers || back.accepts > u64::MAX - accepts {
        return Err(AllocError);
    }
    seats.push(back.seat)?;
    Ok(Done {
        seats,
        offers: offers + back.offers,
        accepts: accepts + back.accepts,
    })
}

/// The carriers, in their order.
pub fn listed(
    alloc: Global,
    shared: &Shared,
    mut carriers: VecDeque<Carrier>,
) -> Result<Vec<Carrier>, AllocError>
    requires { AreAt shared.now.table carriers.items }
    ensures { IfOk result (λ list. AreAt shared.now.table list.items) }
{
    let _shared = shared;
    let mut list = Vec::new(alloc);
    while let Some(carrier) = carriers.pop_front() {
        list.push(carrier)?;
    }
    Ok(list)
}

/// Closes the heap, once all its seats are back and no carrier is lost.
pub fn close(
    alloc: Global,
    shared: Shared,
    seats: usize,
    done: Done,
    carriers: Vec<Carrier>,
) -> Result<Closed, Fail>
    requires count { shared.opening.seats ≡ seats }
    requires seats { All (IsSeatOf shared) done.seats.items }
    requires carriers { AreAt shared.table carriers.items }
{
    let Done {
        seats: back,
        offers,
        accepts,
    } = done;
    if back.len() != seats {
        return Err("a seat is lost".into());
    }
    if accepts.checked_add(carriers.len() as u64) != Some(offers) {
        return Err("a carrier is lost".into());
    }
    Ok(close_shared(alloc, shared, back, carriers)?)
}
