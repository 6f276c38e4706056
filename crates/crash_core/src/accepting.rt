//! A seat accepts what a carrier has: all that is the carrier's becomes the seat's.

ghost use Rattle.std.specs.Prelude.{◌≡◌, ◌<◌, ◌↔◌, cond, length, map, nat_eq, true};
ghost use Rattle.core_model.specs.declared.answer.StepAnswer.TheVariants.{Done};
ghost use Rattle.crash_core.specs.Standing.{Accepts, block_given, CarriesBlock, IsStanding, MayHandAt, OwnsLarge, OwnsSmall, superblock_given};

use crate::owners::BlockOwner;
use crate::state::CoreState;
use crate::usages::{place, usage};
use core_model::StepAnswer;
use seat_state::{SeatNotes, SuperblockOwner};

/// Accepts what a carrier has, by its number among all views, if the seat may do so now.
pub(crate) fn accept(core: &mut CoreState, seat: usize, carrier: usize) -> StepAnswer
    requires core { IsStanding core.old }
    requires seat { seat < length core.old.seats.items }
    ensures follows { Accepts core.old seat carrier result core.new }
    ensures core { IsStanding core.new }
    ensures seats { length core.new.seats.items ≡ length core.old.seats.items }
{
    let notes = core.seats[seat];
    if let Some(step) = notes.stopped {
        return StepAnswer::Stopped { step };
    }
    if notes.ticket.is_none() {
        return StepAnswer::NotNow;
    }
    if !carries_block(core, carrier) {
        return StepAnswer::NotNow;
    }
    accept_block(core, seat, carrier);
    StepAnswer::Done
}

/// Accepts the block of a carrier.
fn accept_block(core: &mut CoreState, seat: usize, carrier: usize)
    requires core { IsStanding core.old }
    requires seat { seat < length core.old.seats.items }
    requires may { MayHandAt core.old seat }
    requires carries { CarriesBlock core.old carrier }
    ensures { Accepts core.old seat carrier Done core.new }
{
    let notes = core.seats[seat];
    give_blocks(&mut core.blocks, carrier, seat);
    give_superblocks(&mut core.superblocks, carrier, seat);
    core.seats[seat] = SeatNotes {
        ticket: None,
        ..notes
    };
}

/// Whether a carrier of that number is there, and has a block.
fn carries_block(core: &CoreState, carrier: usize) -> bool
    ensures { (result ≡ true) ↔ CarriesBlock core.now carrier }
{
    if carrier < core.seats.len() {
        return false;
    }
    owns_small(core, carrier) || owns_large(core, carrier)
}

/// Whether it holds a small block.
fn owns_small(core: &CoreState, owner: usize) -> bool
    ensures { (result ≡ true) ↔ OwnsSmall core.now owner }
{
    for block in 0..core.blocks.len() {
        if place(core, owner, block as u64).is_held() {
            return true;
        }
    }
    false
}

/// Whether it holds a large block.
fn owns_large(core: &CoreState, owner: usize) -> bool
    ensures { (result ≡ true) ↔ OwnsLarge core.now owner }
{
    for d in 0..core.superblocks.len() {
        if usage(core, owner, d as u64).large_count() > 0 {
            return true;
        }
    }
    false
}

/// Gives all small blocks of one to another.
fn give_blocks(owners: &mut Vec<BlockOwner>, from: usize, to: usize)
    ensures { owners.new.items ≡ map (block_given from to) owners.old.items }
{
    for block in 0..owners.len() {
        let owner = owners[block];
        owners[block] = BlockOwner {
            seat: owner_after(owner.seat, from, to),
            ..owner
        };
    }
}

/// Gives all superblocks of one to another.
fn give_superblocks(owners: &mut Vec<SuperblockOwner>, from: usize, to: usize)
    ensures { owners.new.items ≡ map (superblock_given from to) owners.old.items }
{
    for d in 0..owners.len() {
        let owner = owners[d];
        owners[d] = SuperblockOwner {
            seat: owner_after(owner.seat, from, to),
            ..owner
        };
    }
}

/// Who has what an owner had, once one gives all that it has to another.
fn owner_after(owner: usize, from: usize, to: usize) -> usize
    ensures { result ≡ cond (nat_eq owner from) to owner }
{
    if owner == from { to } else { owner }
}
