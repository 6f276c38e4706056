//! A chain of blocks behind a root: the first word of each block leads to the next one.

ghost use Rattle.std.specs.Prelude.{◌≢◌, IfOk, Contains};
ghost use Rattle.heap_model.specs.declared.block.Block.{Block};
ghost use Rattle.heap_seat.specs.Alloc.{Adds};

use heap_seat::{AllocFault, HeapSeat, Spot, persist};
use line_memory::Stopped;
use offset_ptr::encode;
use super_block::{Block, WORD_BYTES};

/// Asks for a block, and puts it before the others of the root's chain. A crash leaves the chain
/// with it or without it.
pub fn push<H: HeapSeat>(seat: &mut H, root: u64, bytes: u64) -> Result<Block, AllocFault>
    requires { Contains (H.view seat.old).roots root }
    ensures adds { IfOk result (λ b. Adds b (H.view seat.old) (H.view seat.new)) }
    ensures kept { H.keeps seat.old seat.new }
{
    let b = seat.alloc(bytes)?;
    let next = seat.load(Spot::Root(root))?;
    persist(seat, Spot::InBlock(b, 0), next)?;
    persist(seat, Spot::Root(root), encode(WORD_BYTES * b.first_word))?;
    Ok(b)
}

/// Takes the first block out of the root's chain, and frees it. A crash leaves the chain with it or
/// without it.
pub fn pop<H: HeapSeat>(seat: &mut H, root: u64, first: Block) -> Result<(), Stopped>
    requires root { Contains (H.view seat.old).roots root }
    requires held { Contains (H.view seat.old).held first }
    ensures others { (a : Block) → Contains (H.view seat.old).held a → a ≢ first
        → Contains (H.view seat.new).held a }
    ensures kept { H.keeps seat.old seat.new }
{
    let next = seat.load(Spot::InBlock(first, 0))?;
    persist(seat, Spot::Root(root), next)?;
    seat.free(first)
}
