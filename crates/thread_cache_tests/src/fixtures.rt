//! Heaps over recovered images, shared by seats.

ghost use Rattle.std.specs.Prelude.{◌≡◌, ◌<◌, ◌≤◌, ◌%◌, ◌++◌, ℕ, All, IfOk, IfSome, Contains, get_or, length, option_to_list};
ghost use Rattle.heap_model.specs.Rest.{IsReady};
ghost use Rattle.core_model.specs.Opening.{AreOwners};
ghost use Rattle.heap_rule.specs.Seated.{IsSeatOf};
ghost use Rattle.thread_cache_tests.specs.Holding.{HasRootsOf, HaveBlocks, HaveRoots, IsFresh, IsFreshSeatOf};

use dictionary::{DictFilter, root_kinds};
use heap_recover::{RecoverFault, Recovered, recover};
use heap_rule::{Seat, Shared, close_shared, open_shared};
use line_memory::Closed;
use seat_costs::an_opened_seat_is_idle;
use seat_state::Owners;
use std::alloc::{AllocError, Global};
use std::process::Abort;
use std::test::Fail;
use super_block::{ROOTS, Ready};
use test_images::image_of;

/// More tickets than any test here draws.
pub const MANY: u64 = 1_000_000;

/// What recovery answers, without what it ensures of that.
pub fn recovery(alloc: Global, image: &[u64]) -> Result<Recovered, RecoverFault> {
    recover(alloc, image, &root_kinds(), &DictFilter)
}

/// The words of an empty image of so many superblocks, at most 32, with these changes.
#[tactic(auto, unfolding(heap_model::specs::Geometry::largest_capacity))]
fn image(alloc: Global, capacity: u64, words: &str) -> Result<Vec<u64>, Fail> {
    if capacity < 1 || capacity > 32 {
        return Err("no such capacity".into());
    }
    image_of(alloc, capacity, words)
}

/// What recovery makes of it.
pub fn recovered(alloc: Global, capacity: u64, words: &str) -> Result<Ready, Fail> {
    let image = image(alloc, capacity, words)?;
    Ok(recovery(alloc, &image)?.heap)
}

/// So many numbers of seats, in turn.
fn in_turn(alloc: Global, count: usize, seats: usize) -> Result<Vec<u32>, AllocError>
    requires some { 1 ≤ seats }
    requires few { seats ≤ 8 }
    ensures count { IfOk result (λ owners. length owners.items ≡ count) }
    ensures below { IfOk result (λ owners. (owner : ℕ) → Contains owners.items owner
        → owner < seats) }
    ensures each { IfOk result (λ owners. (i d : ℕ) → i < count
        → get_or owners.items i d ≡ i % seats) }
{
    let mut owners = Vec::new(alloc);
    for i in 0..count {
        owners.push((i % seats) as u32)?;
    }
    Ok(owners)
}

/// Whose the held blocks of a heap and the roots are: the seats' in turn.
pub fn owners_in_turn(alloc: Global, heap: &Ready, seats: usize) -> Result<Owners, AllocError>
    requires some { 1 ≤ seats }
    requires few { seats ≤ 8 }
    ensures owners { IfOk result (λ owners.
        AreOwners heap.now.held seats owners.held owners.roots) }
    ensures each { IfOk result (λ owners. (root d : ℕ) → root < 1024
        → get_or owners.roots root d ≡ root % seats) }
    ensures blocks { IfOk result (λ owners. (i d : ℕ) → i < length heap.now.held
        → get_or owners.held i d ≡ i % seats) }
    ensures ready { IfOk result (λ owners. IsReady heap.now.words heap.now.held) }
{
    let held = in_turn(alloc, heap.held().len(), seats)?;
    let roots = in_turn(alloc, ROOTS as usize, seats)?;
    Ok(Owners::new(held, roots))
}

/// The heap, shared by so many seats, each of which has the roots and holds the blocks that are its
/// own in turn.
pub fn open(
    alloc: Global,
    heap: Ready,
    seats: usize,
    budget: u64,
) -> Result<(Shared, Vec<Seat>), Fail>
    ensures seats { IfOk result (λ r. All (IsFreshSeatOf r.0) r.1.items) }
    ensures roots { IfOk result (λ r. HaveRoots (length r.1.items) r.1.items) }
    ensures blocks { IfOk result (λ r. HaveBlocks seats heap.held r.1.items) }
    ensures count { IfOk result (λ r. length r.1.items ≡ r.0.opening.seats) }
{
    if seats < 1 || seats > 8 || budget > MANY {
        return Err("no such seats, or too many tickets".into());
    }
    let owners = owners_in_turn(alloc, &heap, seats)?;
    let opened = open_shared(alloc, heap, &owners, seats, budget)?;
    an_opened_seat_is_idle();
    Ok(opened)
}

/// Takes the last one of the seats.
pub fn last_seat(shared: &Shared, seats: &mut Vec<Seat>) -> Option<Seat>
    requires { All (IsFreshSeatOf shared.now) seats.old.items }
    ensures rest { All (IsFreshSeatOf shared.now) seats.new.items }
    ensures seat { IfSome result (IsFreshSeatOf shared.now) }
    ensures items { seats.old.items ≡ seats.new.items ++ option_to_list result }
{
    let _seats = shared;
    seats.pop()
}

/// Asserts what the text tells of.
pub fn must_hold(rt: &impl Abort, holds: bool, told: &str) {
    assert!(rt; holds, "{told}");
}
