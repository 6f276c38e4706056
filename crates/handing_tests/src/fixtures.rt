//! Heaps that seats share, and what recovery holds of an image.

ghost use Rattle.std.specs.Prelude.{◌≡◌, ◌<◌, ◌≤◌, ◌-◌, ℕ, All, IfOk, IfSome, get_or, length};
ghost use Rattle.core_model.specs.Opening.{AreOwners};
ghost use Rattle.handing_tests.specs.Handing.{HasAllRoots, HasLastAllRoots, IsFreshSeatOf};

use dictionary::{DictFilter, root_kinds};
use heap_recover::{RecoverFault, Recovered, recover};
use heap_rule::{Seat, Shared, open_shared};
use seat_costs::an_opened_seat_is_idle;
use seat_state::Owners;
use std::alloc::{AllocError, Global};
use std::process::Abort;
use std::test::Fail;
use super_block::{Block, ROOTS, Ready};
use test_images::image_of;

/// More tickets than any test here draws.
pub const MANY: u64 = 100_000_000;

/// What recovery answers, without what it ensures of that.
fn recovery(alloc: Global, image: &[u64]) -> Result<Recovered, RecoverFault> {
    recover(alloc, image, &root_kinds(), &DictFilter)
}

/// The blocks that recovery of an image holds, in order.
pub fn held_in(alloc: Global, image: &[u64]) -> Result<Vec<Block>, Fail> {
    let found = recovery(alloc, image)?;
    Ok(Vec::from_slice(alloc, found.heap.held())?)
}

/// An empty heap of so many superblocks, at most 64.
#[tactic(auto, unfolding(heap_model::specs::Geometry::largest_capacity))]
fn empty_heap(alloc: Global, capacity: u64) -> Result<Ready, Fail> {
    if capacity < 1 || capacity > 64 {
        return Err("no such capacity".into());
    }
    let image = image_of(alloc, capacity, "")?;
    Ok(recovery(alloc, &image)?.heap)
}

/// All held blocks of a heap and all roots are the last seat's.
fn owners_of(alloc: Global, heap: &Ready, seats: usize) -> Result<Owners, AllocError>
    requires some { 1 ≤ seats }
    requires few { seats ≤ 8 }
    ensures owners { IfOk result (λ owners. AreOwners heap.now.held seats owners.held owners.roots) }
    ensures last { IfOk result (λ owners. (root d : ℕ) → root < 1024
        → get_or owners.roots root d ≡ seats - 1) }
{
    let last = (seats - 1) as u32;
    let mut held = Vec::new(alloc);
    held.resize(heap.held().len(), last)?;
    let mut roots = Vec::new(alloc);
    roots.resize(ROOTS as usize, last)?;
    Ok(Owners::new(held, roots))
}

/// An empty heap that is shared by so many seats. The last one has all roots.
pub fn open(
    alloc: Global,
    capacity: u64,
    seats: usize,
    budget: u64,
) -> Result<(Shared, Vec<Seat>), Fail>
    ensures seats { IfOk result (λ r. All (IsFreshSeatOf r.0) r.1.items) }
    ensures last { IfOk result (λ r. HasLastAllRoots r.1.items) }
    ensures count { IfOk result (λ r. r.0.opening.seats ≡ seats) }
{
    if seats < 1 || seats > 8 || budget > MANY {
        return Err("no such seats, or too many tickets".into());
    }
    let heap = empty_heap(alloc, capacity)?;
    let owners = owners_of(alloc, &heap, seats)?;
    let opened = open_shared(alloc, heap, &owners, seats, budget)?;
    an_opened_seat_is_idle();
    Ok(opened)
}

/// Takes the last one of the seats.
pub fn last_seat(shared: &Shared, seats: &mut Vec<Seat>) -> Option<Seat>
    requires { All (IsFreshSeatOf shared.now) seats.old.items }
    ensures rest { All (IsFreshSeatOf shared.now) seats.new.items }
    ensures seat { IfSome result (IsFreshSeatOf shared.now) }
    ensures roots { HasLastAllRoots seats.old.items
        → IfSome result (λ seat. HasAllRoots seat.view.roots) }
    ensures fewer { IfSome result (λ _. length seats.new.items < length seats.old.items) }
{
    let _seats = shared;
    seats.pop()
}

/// Asserts what the text tells of.
pub fn must_hold(rt: &impl Abort, holds: bool, told: &str) {
    assert!(rt; holds, "{told}");
}
