//! Two threads share a heap, each with a seat and a root of its own, and the heap is closed.

ghost use Rattle.std.specs.Prelude.{◌≡◌, ◌≢◌, ◌⊎◌, ◌*◌, Contains, IfOk, OnOk, get_or, slice_index};
ghost use Rattle.heap_model.specs.declared.block.Block.{Block};
ghost use Rattle.heap_model.specs.Blocks.{Names};
ghost use Rattle.heap_model.specs.Geometry.{clean};
ghost use Rattle.heap_model.specs.Header.{state_of};
ghost use Rattle.core_model.specs.Held.{AreApart, IsHeld};
ghost use Rattle.core_model.specs.Opening.{AreOwners};
ghost use Rattle.core_model.specs.View.{no_role, role};
ghost use Rattle.heap_rule.specs.Seated.{IsSeatOf};
ghost use Rattle.seat_model.specs.CacheState.{heap_view};
ghost use Rattle.thread_cache.specs.Keeps.{KeepsSeat};
ghost use Rattle.first_threads.specs.Working.{HasWorked, IsFreshSeatOf, IsQuiet, Tells};

use crate::chain::{pop, push};
use heap_rule::{
    Seat, Shared, a_closed_heap_names_each_held_block, close_shared, no_block_is_held_twice,
    open_shared, seats_that_hand_nothing_leave_no_carrier,
};
use heap_seat::{AllocFault, HeapSeat};
use line_memory::{Chance, ConstantChance};
use seat_costs::an_opened_seat_is_idle;
use seat_state::Owners;
use std::alloc::{AllocError, Global};
use std::thread;
use std::thread::Threads;
use super_block::{Block, CLEAN, ROOTS, Ready, STATE_WORD};
use thread_cache::CacheSeat;

/// So many steps both threads may take together, which is more than they do.
const BUDGET: u64 = 1_000_000;

/// The first root of the second thread: those below are the first one's.
const MIDDLE: u64 = ROOTS / 2;

/// How many bytes a small block is to have.
const SMALL: u64 = 100;

/// How many bytes a large block is to have: more than a superblock has.
const LARGE: u64 = 100_000;

/// The blocks that a thread holds at its end: two small ones, and a large one.
pub type Chain = [Block; 3];

/// What a thread ends with: its seat, and its blocks, or why it went no further.
#[derive(Drop)]
struct Worked {
    seat: Seat,
    chain: Result<Chain, AllocFault>,
}

/// What both threads leave.
#[derive(Drop)]
pub struct Left {
    pub one: Result<Chain, AllocFault>,
    pub other: Result<Chain, AllocFault>,
    /// The image of the closed heap.
    pub image: Vec<u64>,
}

/// Whose the held blocks of the heap and the roots are: the second seat has the second half of the
/// roots, and the first one all else.
fn owners_of(alloc: Global, heap: &Ready) -> Result<Owners, AllocError>
    ensures owners { IfOk result (λ owners. AreOwners heap.now.held 2 owners.held owners.roots) }
    ensures one { IfOk result (λ owners. get_or owners.roots 0 1 ≡ 0) }
    ensures other { IfOk result (λ owners. get_or owners.roots 512 2 ≡ 1) }
{
    let mut held = Vec::new(alloc);
    held.resize(heap.held().len(), 0)?;
    let mut roots = Vec::new(alloc);
    roots.resize(MIDDLE as usize, 0)?;
    roots.resize(ROOTS as usize, 1)?;
    Ok(Owners::new(held, roots))
}

/// Shares the heap between two seats.
fn open(alloc: Global, heap: Ready) -> Result<(Shared, Seat, Seat), AllocError>
    ensures seats { IfOk result (λ r. r.0.opening.seats ≡ 2) }
    ensures one { IfOk result (λ r. IsFreshSeatOf r.0 0 r.1) }
    ensures other { IfOk result (λ r. IsFreshSeatOf r.0 512 r.2) }
{
    an_opened_seat_is_idle();
    let owners = owners_of(alloc, &heap)?;
    let (shared, mut seats) = open_shared(alloc, heap, &owners, 2, BUDGET)?;
    let Some(other) = seats.pop() else {
        unreachable!();
    };
    let Some(one) = seats.pop() else {
        unreachable!();
    };
    Ok((shared, one, other))
}

/// Puts two small blocks, a large one and another small one before the root's chain: the first three,
/// and the last one.
fn push_all<H: HeapSeat>(seat: &mut H, root: u64) -> Result<(Chain, Block), AllocFault>
    requires { Contains (H.view seat.old).roots root }
    ensures last { IfOk result (λ r. Contains (H.view seat.new).held r.1) }
    ensures others { IfOk result (λ r. (b : Block) → Contains r.0 b
        → Contains (H.view seat.new).held b × (b ≢ r.1)) }
    ensures kept { H.keeps seat.old seat.new }
{
    let first = push(seat, root, SMALL)?;
    let second = push(seat, root, SMALL)?;
    let large = push(seat, root, LARGE)?;
    let last = push(seat, root, SMALL)?;
    Ok(([first, second, large], last))
}

/// Builds a chain of two small blocks and a large one, and leaves all free blocks to the other
/// thread.
fn build(seat: &mut CacheSeat<'_, ConstantChance>, root: u64) -> Result<Chain, AllocFault>
    requires { Contains seat.old.state.view.roots root }
    ensures held { (b : Block) → Tells result b → Contains (heap_view seat.new.state).held b }
    ensures quiet { OnOk result (IsQuiet seat.new.state.view) }
    ensures kept { KeepsSeat ⟦<ConstantChance as Chance>⟧.draw_gives seat.old seat.new }
{
    let (chain, last) = push_all(seat, root)?;
    pop(seat, root, last)?;
    seat.quiet()?;
    Ok(chain)
}

/// What a thread does with its seat.
fn work(shared: &Shared, seat: Seat, root: u64) -> Worked
    requires { IsFreshSeatOf shared.now root seat }
    ensures { HasWorked shared.now result }
{
    let mut seat = CacheSeat::new(shared, seat, ConstantChance(0));
    let chain = build(&mut seat, root);
    let seat = seat.into_seat();
    seat.recall_soundness();
    Worked { seat, chain }
}

/// Closes the heap: the image that is left.
fn close(alloc: Global, shared: Shared, one: Seat, other: Seat) -> Result<Vec<u64>, AllocError>
    requires seats { shared.opening.seats ≡ 2 }
    requires one { IsSeatOf shared one }
    requires other { IsSeatOf shared other }
    requires one_role { role one.view ≡ no_role }
    requires other_role { role other.view ≡ no_role }
    ensures apart { OnOk result ((a b : Block) → IsHeld one.view a → IsHeld other.view b
        → AreApart a b) }
    ensures named { IfOk result (λ image. (b : Block) → IsHeld one.view b ⊎ IsHeld other.view b
        → Names (slice_index image.items) (8 * b.first_word) b) }
    ensures closed { IfOk result (λ image. state_of (slice_index image.items) ≡ clean) }
{
    no_block_is_held_twice();
    a_closed_heap_names_each_held_block();
    seats_that_hand_nothing_leave_no_carrier();
    let mut seats = Vec::with_capacity(alloc, 2)?;
    seats.push_reserved(one);
    seats.push_reserved(other);
    let mut image = close_shared(alloc, shared, seats, Vec::new(alloc))?.now;
    image[STATE_WORD as usize] = CLEAN;
    Ok(image)
}

/// Lets two threads work over the heap, each in a thread of its own where one can be made, and
/// closes it.
pub fn run<R: Threads>(rt: &R, alloc: Global, heap: Ready) -> Result<Left, AllocError>
    ensures apart { IfOk result (λ left. (a b : Block) → Tells left.one a → Tells left.other b
        → AreApart a b) }
    ensures named { IfOk result (λ left. (b : Block) → Tells left.one b ⊎ Tells left.other b
        → Names (slice_index left.image.items) (8 * b.first_word) b) }
    ensures closed { IfOk result (λ left. state_of (slice_index left.image.items) ≡ clean) }
{
    let (shared, one, other) = open(alloc, heap)?;
    let (one, other) = thread::join(
        rt,
        || -> Worked
            requires { IsFreshSeatOf shared 0 one }
            ensures { HasWorked shared result }
        { work(&shared, one, 0) },
        || -> Worked
            requires { IsFreshSeatOf shared 512 other }
            ensures { HasWorked shared result }
        { work(&shared, other, MIDDLE) },
    );
    let image = close(alloc, shared, one.seat, other.seat)?;
    Ok(Left {
        one: one.chain,
        other: other.chain,
        image,
    })
}
