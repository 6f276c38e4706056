//! Blocks that go from hand to hand, and what a hand does with them at its turn.

ghost use Rattle.std.specs.Prelude.{◌≡◌, [], Contains, IfOk, IfSome};
ghost use Rattle.seat_model.specs.CacheState.{heap_view};
ghost use Rattle.handing_tests.specs.Handing.{AreAt, HasAllRoots, IsSameSeat};

use crate::hand::{Halt, Hand};
use heap_rule::Carrier;
use std::alloc::Global;
use std::collections::VecDeque;
use super_block::Block;

/// What is known of blocks that go round.
#[derive(Drop)]
pub struct Goods {
    /// The carriers on their way, the oldest one first.
    pub carriers: VecDeque<Carrier>,
    /// The blocks, in the order in which they were offered first.
    pub blocks: Vec<Block>,
    /// How many of them a root leads to, durably.
    pub published: usize,
    /// How many turns were begun. A block gets the turn's mark at each.
    pub turn: u64,
}

impl Goods {
    pub fn new(alloc: Global) -> Goods
        ensures { result.carriers.items ≡ [] }
    {
        Goods {
            carriers: VecDeque::new(alloc),
            blocks: Vec::new(alloc),
            published: 0,
            turn: 0,
        }
    }
}

/// The hand offers a block, whose carrier comes behind the others.
pub fn send(hand: &mut Hand<'_>, goods: &mut Goods, block: Block) -> Result<(), Halt>
    requires held { Contains (heap_view hand.old.seat.state).held block }
    requires at { AreAt hand.old.seat.state.table goods.old.carriers.items }
    ensures at { AreAt hand.new.seat.state.table goods.new.carriers.items }
    ensures same { IsSameSeat hand.old.seat.state hand.new.seat.state }
{
    let carrier = hand.offer(block)?;
    goods.carriers.push_back(carrier)?;
    Ok(())
}

/// The hand takes a block of so many bytes, and offers it. If it is to be rooted, a root leads to it
/// before.
pub fn begin_one(
    hand: &mut Hand<'_>,
    goods: &mut Goods,
    bytes: u64,
    is_rooted: bool,
) -> Result<(), Halt>
    requires roots { HasAllRoots hand.old.seat.state.view.roots }
    requires at { AreAt hand.old.seat.state.table goods.old.carriers.items }
    ensures at { AreAt hand.new.seat.state.table goods.new.carriers.items }
    ensures same { IsSameSeat hand.old.seat.state hand.new.seat.state }
{
    let block = hand.take(bytes)?;
    let index = goods.blocks.len();
    goods.blocks.push(block)?;
    hand.write(block, 0)?;
    if is_rooted {
        hand.publish(index, block)?;
        goods.published = index.wrapping_add(1);
    }
    send(hand, goods, block)
}

/// The oldest carrier, which is of the hand's heap.
fn oldest(hand: &Hand<'_>, goods: &mut Goods) -> Option<Carrier>
    requires { AreAt hand.now.seat.state.table goods.old.carriers.items }
    ensures rest { AreAt hand.now.seat.state.table goods.new.carriers.items }
    ensures first { IfSome result (λ carrier. carrier.table ≡ hand.now.seat.state.table) }
{
    let _hand = hand;
    goods.carriers.pop_front()
}

/// The hand accepts the oldest carrier's block. Where the seat stops, the carrier stays the oldest.
pub fn receive(hand: &mut Hand<'_>, goods: &mut Goods) -> Result<Block, Halt>
    requires at { AreAt hand.old.seat.state.table goods.old.carriers.items }
    ensures held { IfOk result (λ b. Contains (heap_view hand.new.seat.state).held b) }
    ensures at { AreAt hand.new.seat.state.table goods.new.carriers.items }
    ensures same { IsSameSeat hand.old.seat.state hand.new.seat.state }
{
    let Some(carrier) = oldest(hand, goods) else {
        return Err(Halt::Failed("a carrier is lost"));
    };
    match hand.accept(carrier) {
        Ok(block) => Ok(block),
        Err((halt, Some(carrier))) => {
            goods.carriers.push_front(carrier)?;
            Err(halt)
        }
        Err((halt, None)) => Err(halt),
    }
}

/// The hand accepts a block, which must be the one of this number, as it was written at the last
/// turn.
fn receive_right(hand: &mut Hand<'_>, goods: &mut Goods, index: usize) -> Result<Block, Halt>
    requires at { AreAt hand.old.seat.state.table goods.old.carriers.items }
    ensures held { IfOk result (λ b. Contains (heap_view hand.new.seat.state).held b) }
    ensures at { AreAt hand.new.seat.state.table goods.new.carriers.items }
    ensures same { IsSameSeat hand.old.seat.state hand.new.seat.state }
{
    let block = receive(hand, goods)?;
    must_be(goods, index, block)?;
    hand.check(block, goods.turn.wrapping_sub(1))?;
    Ok(block)
}

/// Asserts that a block is the one of this number.
pub fn must_be(goods: &Goods, index: usize, block: Block) -> Result<(), Halt> {
    if goods.blocks.get(index) != Some(&block) {
        return Err(Halt::Failed("another block comes than was sent"));
    }
    Ok(())
}

/// The hand accepts a block, writes it anew, and offers it on.
pub fn pass_one(hand: &mut Hand<'_>, goods: &mut Goods, index: usize) -> Result<(), Halt>
    requires at { AreAt hand.old.seat.state.table goods.old.carriers.items }
    ensures at { AreAt hand.new.seat.state.table goods.new.carriers.items }
    ensures same { IsSameSeat hand.old.seat.state hand.new.seat.state }
{
    let block = receive_right(hand, goods, index)?;
    hand.write(block, goods.turn)?;
    send(hand, goods, block)
}

/// The hand accepts a block, and frees it unless a root leads to it.
pub fn end_one(hand: &mut Hand<'_>, goods: &mut Goods, index: usize) -> Result<(), Halt>
    requires at { AreAt hand.old.seat.state.table goods.old.carriers.items }
    ensures at { AreAt hand.new.seat.state.table goods.new.carriers.items }
    ensures same { IsSameSeat hand.old.seat.state hand.new.seat.state }
{
    let block = receive_right(hand, goods, index)?;
    if index < goods.published {
        return Ok(());
    }
    hand.free(block)
}
