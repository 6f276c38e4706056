//! What each of two threads does while blocks go round between them.

ghost use Rattle.std.specs.Prelude.{◌≡◌, IsTrue};
ghost use Rattle.handing_tests.specs.Handing.{AreAt, HasAllRoots, IsSameSeat};

use crate::ends::Ends;
use crate::goods::{Goods, begin_one, must_be, receive, send};
use crate::hand::{Halt, Hand};
use crate::queue::Run;
use super_block::Block;

/// How many bytes the blocks have that go round.
pub const SIZES: [u64; 5] = [16, 96, 1_024, 14_336, 131_072];

/// How often each block goes round.
pub const ROUNDS: u64 = 10_000;

/// The marks of the second thread are those of the first one behind so many turns.
const APART: u64 = 0x8000_0000;

/// The blocks that were there first are known.
fn learn(goods: &mut Goods, index: usize, block: Block) -> Result<(), Halt>
    ensures { goods.new.carriers ≡ goods.old.carriers }
{
    if goods.blocks.len() == index {
        goods.blocks.push(block)?;
    }
    must_be(goods, index, block)
}

/// A block comes with the mark of one turn, and goes with that of another.
fn pass_on<J: Run>(
    hand: &mut Hand<'_>,
    ends: &mut Ends<'_, J>,
    goods: &mut Goods,
    index: usize,
    turns: [u64; 2],
) -> Result<(), Halt>
    requires run { hand.old.seat.state.table ≡ J.table }
    requires at { AreAt J.table goods.old.carriers.items }
    ensures at { AreAt J.table goods.new.carriers.items }
    ensures same { IsSameSeat hand.old.seat.state hand.new.seat.state }
{
    let [comes, goes] = turns;
    let carrier = ends.take()?;
    goods.carriers.push_back(carrier)?;
    let block = receive(hand, goods)?;
    learn(goods, index, block)?;
    hand.check(block, comes)?;
    hand.write(block, goes)?;
    send(hand, goods, block)?;
    ends.put(&mut goods.carriers)
}

/// All blocks come once, and go.
fn pass_all<J: Run>(
    hand: &mut Hand<'_>,
    ends: &mut Ends<'_, J>,
    goods: &mut Goods,
    turns: [u64; 2],
) -> Result<(), Halt>
    requires run { hand.old.seat.state.table ≡ J.table }
    requires at { AreAt J.table goods.old.carriers.items }
    ensures at { AreAt J.table goods.new.carriers.items }
    ensures same { IsSameSeat hand.old.seat.state hand.new.seat.state }
{
    for index in 0..SIZES.len() {
        pass_on(hand, ends, goods, index, turns)?;
    }
    Ok(())
}

/// The first thread takes all blocks and sends them.
fn begin_all<J: Run>(
    hand: &mut Hand<'_>,
    ends: &mut Ends<'_, J>,
    goods: &mut Goods,
) -> Result<(), Halt>
    requires run { hand.old.seat.state.table ≡ J.table }
    requires roots { HasAllRoots hand.old.seat.state.view.roots }
    requires at { AreAt J.table goods.old.carriers.items }
    ensures at { AreAt J.table goods.new.carriers.items }
    ensures same { IsSameSeat hand.old.seat.state hand.new.seat.state }
{
    for bytes in SIZES {
        begin_one(hand, goods, bytes, true)?;
    }
    ends.put(&mut goods.carriers)
}

/// All rounds of the first thread.
fn lead<J: Run>(hand: &mut Hand<'_>, ends: &mut Ends<'_, J>, goods: &mut Goods) -> Result<(), Halt>
    requires run { hand.old.seat.state.table ≡ J.table }
    requires roots { HasAllRoots hand.old.seat.state.view.roots }
    requires at { AreAt J.table goods.old.carriers.items }
    ensures at { AreAt J.table goods.new.carriers.items }
    ensures same { IsSameSeat hand.old.seat.state hand.new.seat.state }
{
    begin_all(hand, ends, goods)?;
    for round in 0..ROUNDS {
        pass_all(hand, ends, goods, [round + APART, round + 1])?;
    }
    Ok(())
}

/// All rounds of the second thread.
fn answer<J: Run>(
    hand: &mut Hand<'_>,
    ends: &mut Ends<'_, J>,
    goods: &mut Goods,
) -> Result<(), Halt>
    requires run { hand.old.seat.state.table ≡ J.table }
    requires at { AreAt J.table goods.old.carriers.items }
    ensures at { AreAt J.table goods.new.carriers.items }
    ensures same { IsSameSeat hand.old.seat.state hand.new.seat.state }
{
    for round in 0..ROUNDS {
        pass_all(hand, ends, goods, [round, round + APART])?;
    }
    Ok(())
}

/// All rounds of the first thread, or of the second one.
pub fn go_round<J: Run>(
    hand: &mut Hand<'_>,
    ends: &mut Ends<'_, J>,
    goods: &mut Goods,
    is_first: bool,
) -> Result<(), Halt>
    requires run { hand.old.seat.state.table ≡ J.table }
    requires roots { IsTrue is_first → HasAllRoots hand.old.seat.state.view.roots }
    requires at { AreAt J.table goods.old.carriers.items }
    ensures at { AreAt J.table goods.new.carriers.items }
    ensures same { IsSameSeat hand.old.seat.state hand.new.seat.state }
{
    if is_first {
        lead(hand, ends, goods)
    } else {
        answer(hand, ends, goods)
    }
}
