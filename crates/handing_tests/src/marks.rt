//! Words of blocks that tell whose they are.

ghost use Rattle.std.specs.Prelude.{◌≡◌, ◌<◌, Contains, IfOk, OnOk};
ghost use Rattle.handing_tests.specs.Handing.{HasAllRoots};

use crate::hand::Halt;
use heap_seat::{HeapSeat, Spot, persist};
use super_block::{Block, ROOT_WORD, WORD_BYTES};

/// The roots below it are those of the dictionary's shards.
const FIRST_ROOT: u64 = 8;

/// A pointer to the word 0.
const POINTER: u64 = 0x5250_0000_0000_0000;

/// What a block has in its first and its last word behind a turn.
pub fn mark(turn: u64, block: Block) -> u64 {
    turn.wrapping_mul(0x1_0000_0000)
        .wrapping_add(block.first_word)
}

/// The place of its last word in a block.
fn last_place(block: Block) -> Result<u64, Halt>
    ensures { IfOk result (λ place. place < block.words) }
{
    if block.words == 0 {
        return Err(Halt::Failed("a block has no word"));
    }
    Ok(block.words - 1)
}

/// Stores the mark of a turn in the first and the last word of a block, durably.
pub fn write<H: HeapSeat>(seat: &mut H, block: Block, turn: u64) -> Result<(), Halt>
    requires held { Contains (H.view seat.old).held block }
    ensures held { OnOk result ((H.view seat.new).held ≡ (H.view seat.old).held) }
    ensures kept { H.keeps seat.old seat.new }
{
    let last = last_place(block)?;
    seat.store(Spot::InBlock(block, 0), mark(turn, block))?;
    seat.store(Spot::InBlock(block, last), mark(turn, block))?;
    seat.write_back(Spot::InBlock(block, 0))?;
    seat.write_back(Spot::InBlock(block, last))?;
    seat.fence()?;
    Ok(())
}

/// Asserts that the first and the last word of a block have the mark of a turn.
pub fn check<H: HeapSeat>(seat: &mut H, block: Block, turn: u64) -> Result<(), Halt>
    requires held { Contains (H.view seat.old).held block }
    ensures held { OnOk result ((H.view seat.new).held ≡ (H.view seat.old).held) }
    ensures kept { H.keeps seat.old seat.new }
{
    let last = last_place(block)?;
    let first_word = seat.load(Spot::InBlock(block, 0))?;
    let last_word = seat.load(Spot::InBlock(block, last))?;
    if first_word != mark(turn, block) || last_word != mark(turn, block) {
        return Err(Halt::Failed("a block has other words than its sender stored"));
    }
    Ok(())
}

/// The root of the block of this number.
pub fn root_of(index: usize) -> u64 {
    FIRST_ROOT.saturating_add(index as u64)
}

/// Has the root of the block of this number lead to it, durably.
pub fn publish<H: HeapSeat>(seat: &mut H, index: usize, block: Block) -> Result<(), Halt>
    requires roots { HasAllRoots (H.view seat.old).roots }
    ensures held { OnOk result ((H.view seat.new).held ≡ (H.view seat.old).held) }
    ensures kept { H.keeps seat.old seat.new }
{
    let root = root_of(index);
    if root >= 1024 {
        return Err(Halt::Failed("more blocks than roots"));
    }
    let value = POINTER.wrapping_add(block.first_word.wrapping_mul(WORD_BYTES));
    persist(seat, Spot::Root(root), value)?;
    Ok(())
}

/// Whether an image has in both words of a block the mark of one of these two turns.
pub fn has_marks(image: &[u64], block: Block, turns: [u64; 2]) -> bool {
    has_mark(image, block, block.first_word, turns)
        && has_mark(
            image,
            block,
            block.first_word.wrapping_add(block.words).wrapping_sub(1),
            turns,
        )
}

fn has_mark(image: &[u64], block: Block, word: u64, turns: [u64; 2]) -> bool {
    let [before, now] = turns;
    let value = image.get(word as usize).copied();
    value == Some(mark(before, block)) || value == Some(mark(now, block))
}
