//! Words of a seat's last block, each told by its place there: stores and write-backs.

ghost use Rattle.std.specs.Prelude.{◌≡◌, Contains, OnOk};
ghost use Rattle.thread_cache_tests.specs.Holding.{Holds};

use crate::holders::Halt;
use heap_seat::{HeapSeat, Spot};
use super_block::Block;

/// Stores to a word of the block.
fn store_in<H: HeapSeat>(seat: &mut H, b: Block, place: u64, value: u64) -> Result<(), Halt>
    requires { Contains (H.view seat.old).held b }
    ensures held { OnOk result ((H.view seat.new).held ≡ (H.view seat.old).held) }
    ensures kept { H.keeps seat.old seat.new }
{
    if place >= b.words {
        return Err(Halt::NoBlock);
    }
    seat.store(Spot::InBlock(b, place), value)?;
    Ok(())
}

/// Writes a word of the block back.
fn write_back_in<H: HeapSeat>(seat: &mut H, b: Block, place: u64) -> Result<(), Halt>
    requires { Contains (H.view seat.old).held b }
    ensures held { OnOk result ((H.view seat.new).held ≡ (H.view seat.old).held) }
    ensures kept { H.keeps seat.old seat.new }
{
    if place >= b.words {
        return Err(Halt::NoBlock);
    }
    seat.write_back(Spot::InBlock(b, place))?;
    Ok(())
}

/// Stores to a word of its last block.
pub fn store_last<H: HeapSeat>(
    seat: &mut H,
    given: &[Block],
    place: u64,
    value: u64,
) -> Result<(), Halt>
    requires { Holds (H.view seat.old).held given.now }
    ensures held { OnOk result ((H.view seat.new).held ≡ (H.view seat.old).held) }
    ensures kept { H.keeps seat.old seat.new }
{
    match given.last() {
        Some(b) => store_in(seat, *b, place, value),
        None => Err(Halt::NoBlock),
    }
}

/// Writes a word of its last block back.
pub fn write_back_last<H: HeapSeat>(seat: &mut H, given: &[Block], place: u64) -> Result<(), Halt>
    requires { Holds (H.view seat.old).held given.now }
    ensures held { OnOk result ((H.view seat.new).held ≡ (H.view seat.old).held) }
    ensures kept { H.keeps seat.old seat.new }
{
    match given.last() {
        Some(b) => write_back_in(seat, *b, place),
        None => Err(Halt::NoBlock),
    }
}
