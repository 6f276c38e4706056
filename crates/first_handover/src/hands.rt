//! What the two hands do: one writes a block and offers it, the other accepts it and reads it.

ghost use Rattle.std.specs.Prelude.{◌≡◌, ◌+◌, ℕ, Some, Contains, IfOk, IfSome, OnErr, OnOk};
ghost use Rattle.core_model.specs.View.{role};
ghost use Rattle.seat_model.specs.CacheState.{heap_view};
ghost use Rattle.thread_cache.specs.Keeps.{KeepsHeap};
ghost use Rattle.first_handover.specs.Handover.{Brings, HasReceived, HasTaken, HasValue, IsSameSeat};

use heap_rule::Carrier;
use heap_seat::{AllocFault, HeapSeat, Spot, persist};
use line_memory::ConstantChance;
use seat_model::a_seat_of_the_core_is_a_seat_of_a_heap;
use super_block::Block;
use thread_cache::CacheSeat;

/// How many bytes a block is to have.
pub const BYTES: u64 = 100;

/// A block that was received, and what its first word holds.
#[derive(Clone, Copy)]
pub struct Received {
    pub block: Block,
    pub value: u64,
}

/// What a seat took of a carrier that it was given: the block, or the carrier again where the seat
/// stopped.
#[derive(Drop)]
pub struct Taken {
    pub received: Option<Received>,
    pub left: Option<Carrier>,
}

/// Allocates a block that the seat keeps, and another one that it offers. The value is in the first
/// word of that one, and a crash leaves it there.
pub fn send(
    seat: &mut CacheSeat<'_, ConstantChance>,
    value: u64,
) -> Result<(Block, Carrier), AllocFault>
    ensures kept { IfOk result (λ r. Contains (heap_view seat.new.state).held r.0) }
    ensures brings { IfOk result (λ r. Brings value r.1) }
    ensures table { IfOk result (λ r. r.1.table ≡ seat.old.state.table) }
    ensures same { IsSameSeat seat.old.state seat.new.state }
    ensures offered { OnOk result (role seat.new.state.view
        ≡ record (role seat.old.state.view) { offers = seat.old.state.view.offers + 1 }) }
    ensures none_offered { OnErr result (role seat.new.state.view ≡ role seat.old.state.view) }
{
    a_seat_of_the_core_is_a_seat_of_a_heap();
    let kept = seat.alloc(BYTES)?;
    let gift = seat.alloc(BYTES)?;
    persist(seat, Spot::InBlock(gift, 0), value)?;
    let carrier = seat.offer(gift)?;
    Ok((kept, carrier))
}

/// Reads the first word of a block.
fn read(seat: &mut CacheSeat<'_, ConstantChance>, block: Block) -> Option<Received>
    requires { Contains (heap_view seat.old.state).held block }
    ensures read { (value : ℕ) → HasValue value block (heap_view seat.old.state)
        → IfSome result (HasReceived value (heap_view seat.new.state)) }
    ensures block { IfSome result (λ r. r.block ≡ block) }
    ensures held { (heap_view seat.new.state).held ≡ (heap_view seat.old.state).held }
    ensures kept { KeepsHeap seat.old.state seat.new.state }
{
    a_seat_of_the_core_is_a_seat_of_a_heap();
    match seat.load(Spot::InBlock(block, 0)) {
        Ok(value) => Some(Received { block, value }),
        Err(_stopped) => None,
    }
}

/// Accepts the block of a carrier, and reads its first word. Where the seat stops before it has the
/// block the carrier is left.
fn receive(seat: &mut CacheSeat<'_, ConstantChance>, carrier: Carrier) -> Taken
    requires { carrier.table ≡ seat.old.state.table }
    ensures { HasTaken (Some carrier) seat.old.state seat.new.state result }
{
    a_seat_of_the_core_is_a_seat_of_a_heap();
    match seat.accept(carrier) {
        Ok(block) => Taken {
            received: read(seat, block),
            left: None,
        },
        Err((_stopped, carrier)) => Taken {
            received: None,
            left: Some(carrier),
        },
    }
}

/// The same of a carrier that there may be.
pub fn try_receive(seat: &mut CacheSeat<'_, ConstantChance>, given: Option<Carrier>) -> Taken
    requires { IfSome given (λ c. c.table ≡ seat.old.state.table) }
    ensures { HasTaken given seat.old.state seat.new.state result }
{
    match given {
        Some(carrier) => receive(seat, carrier),
        None => Taken {
            received: None,
            left: None,
        },
    }
}
