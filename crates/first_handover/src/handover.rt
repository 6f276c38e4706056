//! A heap that two threads share, from the opening to the close.

ghost use Rattle.std.specs.Prelude.{◌≡◌, ◌+◌, ◌∷◌, [], IfOk, IfSome, OnOk, get_or, length, option_to_list};
ghost use Rattle.heap_model.specs.declared.block.Block.{Block};
ghost use Rattle.heap_model.specs.Image.{Image};
ghost use Rattle.core_model.specs.Held.{AreApart, IsHeld, IsHeldBy};
ghost use Rattle.core_model.specs.Opening.{AreOwners};
ghost use Rattle.heap_rule.specs.Carried.{carried_views};
ghost use Rattle.heap_rule.specs.Left.{MayBeLeft};
ghost use Rattle.heap_rule.specs.Seated.{IsSeatOf};
ghost use Rattle.first_handover.specs.Handover.{HasBlock, IsFreshSeatOf, IsLeftOf};

use crate::hands::Received;
use crate::threads::{Worked, work};
use heap_rule::{
    Carrier, Seat, Shared, a_crash_or_a_close_of_a_closed_heap_is_one_of_each_seat, close_shared,
    held_at_once, no_block_is_held_twice, open_shared,
    what_may_be_left_has_a_seats_blocks_and_words,
};
use heap_seat::AllocFault;
use line_memory::Closed;
use seat_costs::an_opened_seat_is_idle;
use seat_model::a_seat_of_the_core_is_a_seat_of_a_heap;
use seat_state::Owners;
use std::alloc::{AllocError, Global};
use std::thread::Threads;
use super_block::{Block, ROOTS, Ready};

/// So many steps both threads may take together, which is more than they do.
const BUDGET: u64 = 1_000_000;

/// What is left where one thread handed a block to another.
#[derive(Drop)]
pub struct HandedOver {
    /// The block that the first thread kept, or why it sent nothing.
    pub kept: Result<Block, AllocFault>,
    /// The block that the second thread allocated itself.
    pub own: Result<Block, AllocFault>,
    /// The block that the second thread received, and what it read there. There is none where the
    /// first thread sent nothing, or the second one stopped.
    pub received: Option<Received>,
    /// The words of the closed heap.
    pub words: Closed,
}

/// Whose the held blocks of the heap and the roots are: all are the first seat's.
fn owners_of(alloc: Global, heap: &Ready) -> Result<Owners, AllocError>
    ensures { IfOk result (λ owners. AreOwners heap.now.held 2 owners.held owners.roots) }
{
    let mut held = Vec::new(alloc);
    held.resize(heap.held().len(), 0)?;
    let mut roots = Vec::new(alloc);
    roots.resize(ROOTS as usize, 0)?;
    Ok(Owners::new(held, roots))
}

/// Shares the heap between two seats.
fn open(alloc: Global, heap: Ready) -> Result<(Shared, Seat, Seat), AllocError>
    ensures seats { IfOk result (λ r. r.0.opening.seats ≡ 2) }
    ensures one { IfOk result (λ r. IsFreshSeatOf r.0 r.1) }
    ensures other { IfOk result (λ r. IsFreshSeatOf r.0 r.2) }
{
    an_opened_seat_is_idle();
    let owners = owners_of(alloc, &heap)?;
    let (shared, mut seats) = open_shared(alloc, heap, &owners, 2, BUDGET)?;
    let Some(other) = seats.pop() else {
        unreachable!();
    };
    let Some(one) = seats.pop() else {
        unreachable!();
    };
    Ok((shared, one, other))
}

/// The carrier that is left, if there is one, as a list.
fn in_list(alloc: Global, left: Option<Carrier>) -> Result<Vec<Carrier>, AllocError>
    ensures { IfOk result (λ list. list.items ≡ option_to_list left) }
{
    let mut list = Vec::with_capacity(alloc, 1)?;
    match left {
        Some(carrier) => {
            list.push_reserved(carrier);
            Ok(list)
        }
        None => Ok(list),
    }
}

/// Both seats, as a list.
fn in_pair(alloc: Global, one: Seat, other: Seat) -> Result<Vec<Seat>, AllocError>
    ensures { IfOk result (λ list. list.items ≡ one ∷ other ∷ []) }
{
    let mut list = Vec::with_capacity(alloc, 2)?;
    list.push_reserved(one);
    list.push_reserved(other);
    Ok(list)
}

/// Closes the heap. What the second seat holds has no word of what the first one holds, or the carrier
/// that is left.
fn close(
    alloc: Global,
    shared: Shared,
    one: Seat,
    other: Seat,
    left: Option<Carrier>,
) -> Result<Closed, AllocError>
    requires seats { shared.opening.seats ≡ 2 }
    requires one { IsSeatOf shared one }
    requires other { IsSeatOf shared other }
    requires table { IfSome left (λ c. c.table ≡ shared.table) }
    requires is_seat { other.view.carries ≡ 0 }
    requires none_lost { length (option_to_list left) + (one.view.accepts + other.view.accepts)
        ≡ one.view.offers + other.view.offers }
    ensures alone { OnOk result ((a b : Block)
        → IsHeldBy (one.view ∷ carried_views (option_to_list left)) a → IsHeld other.view b
        → AreApart a b) }
    ensures left { IfOk result (λ c. (image : Image) → IsLeftOf c image
        → MayBeLeft other.view image) }
{
    no_block_is_held_twice();
    a_crash_or_a_close_of_a_closed_heap_is_one_of_each_seat();
    what_may_be_left_has_a_seats_blocks_and_words();
    let carriers = in_list(alloc, left)?;
    let seats = in_pair(alloc, one, other)?;
    let words = close_shared(alloc, shared, seats, carriers)?;
    Ok(words)
}

/// One thread writes the value in the first word of a block, makes it durable, and hands the block to
/// another, which reads it; then the heap is closed. What was read is the value, and the block has no
/// word of the one that the first thread kept, nor of the second one's own. Whatever a crash or a
/// close leaves names the block, and has the value in its first word.
pub fn hand_over<R: Threads>(
    rt: &R,
    alloc: Global,
    heap: Ready,
    value: u64,
) -> Result<HandedOver, AllocError>
    ensures value { IfOk result (λ h. IfSome h.received (λ r. r.value ≡ value)) }
    ensures kept { IfOk result (λ h. IfSome h.received (λ r. IfOk h.kept (λ a.
        AreApart a r.block))) }
    ensures own { IfOk result (λ h. IfSome h.received (λ r. IfOk h.own (λ a.
        AreApart a r.block))) }
    ensures left { IfOk result (λ h. IfSome h.received (λ r. (image : Image)
        → IsLeftOf h.words image → HasBlock value image r.block)) }
{
    a_seat_of_the_core_is_a_seat_of_a_heap();
    let (shared, one, other) = open(alloc, heap)?;
    let worked = work(rt, &shared, one, other, value);
    let Worked {
        one,
        other,
        kept,
        own,
        received,
        left,
    } = worked;
    let (one, other) = held_at_once(&shared, one, other);
    let words = close(alloc, shared, one, other, left)?;
    Ok(HandedOver {
        kept,
        own,
        received,
        words,
    })
}
