//! Seats with the blocks that they were given.

ghost use Rattle.std.specs.Prelude.{◌≡◌, ◌++◌, ◌∷◌, [], Contains, IfOk, OnErr, OnOk, false};
ghost use Rattle.heap_seat.specs.Alloc.{Adds};
ghost use Rattle.thread_cache_tests.specs.Holding.{Holds, IsNoneOf};

use heap_seat::{AllocFault, HeapSeat};
use line_memory::Stopped;
use std::alloc::AllocError;
use super_block::{Block, WORD_BYTES};

/// Why a seat goes no further in a scene.
#[derive(Clone, Copy, Debug)]
pub enum Halt {
    /// Its request was not granted.
    Refused(AllocFault),
    /// It has stopped.
    Stopped(Stopped),
    /// It has no such block, or root.
    NoBlock,
    /// There was room, or another want of it than told.
    Room,
    /// It is told something of no such name, or no number.
    NoSuchAct,
    /// It was given a block twice.
    Twice,
    /// A word of its own has another value than it stored there.
    Overwritten,
    /// Memory ran out.
    NoMemory,
}

impl From<Stopped> for Halt {
    fn from(stopped: Stopped) -> Halt {
        Halt::Stopped(stopped)
    }
}

impl From<AllocError> for Halt {
    fn from(_error: AllocError) -> Halt {
        Halt::NoMemory
    }
}

/// Adds a block.
fn push_block(given: &mut Vec<Block>, b: Block) -> Result<(), AllocError>
    ensures ok { OnOk result (given.new.items ≡ given.old.items ++ b ∷ []) }
    ensures err { OnErr result (given.new.items ≡ given.old.items) }
{
    Ok(given.push(b)?)
}

/// Adds a block that the seat holds, as the seat tells it by its offset.
pub fn add_held<H: HeapSeat>(seat: &H, given: &mut Vec<Block>, b: Block) -> Result<(), AllocError>
    requires holds { Holds (H.view seat.now).held given.old.items }
    requires held { Contains (H.view seat.now).held b }
    ensures { OnOk result (Holds (H.view seat.now).held given.new.items) }
{
    let offset = WORD_BYTES * b.first_word;
    push_block(given, seat.block(offset))?;
    Ok(())
}

/// Asks for so many bytes.
fn ask<H: HeapSeat>(seat: &mut H, bytes: u64) -> Result<Block, Halt>
    ensures ok { IfOk result (λ b. Adds b (H.view seat.old) (H.view seat.new)) }
    ensures err { OnErr result ((H.view seat.new).held ≡ (H.view seat.old).held) }
    ensures kept { H.keeps seat.old seat.new }
{
    match seat.alloc(bytes) {
        Ok(b) => Ok(b),
        Err(fault) => Err(Halt::Refused(fault)),
    }
}

/// Asks for so many bytes, and keeps the block if it is given.
pub fn take<H: HeapSeat>(seat: &mut H, given: &mut Vec<Block>, bytes: u64) -> Result<(), Halt>
    requires { Holds (H.view seat.old).held given.old.items }
    ensures holds { Holds (H.view seat.new).held given.new.items }
    ensures kept { H.keeps seat.old seat.new }
{
    let b = ask(seat, bytes)?;
    push_block(given, b)?;
    Ok(())
}

/// Asks so often for so many bytes, which are given each time.
pub fn take_all<H: HeapSeat>(
    seat: &mut H,
    given: &mut Vec<Block>,
    bytes: u64,
    count: u64,
) -> Result<(), Halt>
    requires { Holds (H.view seat.old).held given.old.items }
    ensures holds { OnOk result (Holds (H.view seat.new).held given.new.items) }
    ensures kept { H.keeps seat.old seat.new }
{
    for _nth in 0..count {
        take(seat, given, bytes)?;
    }
    Ok(())
}

/// Whether the block is one of these.
fn is_among(b: Block, given: &[Block]) -> bool
    ensures { result ≡ false → IsNoneOf b given.now }
{
    given.contains(&b)
}

/// Frees one of the blocks that were given, which is given no more.
pub fn give_back<H: HeapSeat>(
    seat: &mut H,
    given: &mut Vec<Block>,
    index: usize,
) -> Result<(), Halt>
    requires { Holds (H.view seat.old).held given.old.items }
    ensures holds { OnOk result (Holds (H.view seat.new).held given.new.items) }
    ensures kept { H.keeps seat.old seat.new }
{
    if index >= given.len() {
        return Err(Halt::NoBlock);
    }
    let b = given.swap_remove(index);
    if is_among(b, given) {
        return Err(Halt::Twice);
    }
    seat.free(b)?;
    Ok(())
}

/// Frees so many of the blocks, the last ones first.
pub fn give_back_last<H: HeapSeat>(
    seat: &mut H,
    given: &mut Vec<Block>,
    count: u64,
) -> Result<(), Halt>
    requires { Holds (H.view seat.old).held given.old.items }
    ensures holds { OnOk result (Holds (H.view seat.new).held given.new.items) }
    ensures kept { H.keeps seat.old seat.new }
{
    for _nth in 0..count {
        let last = given.len().saturating_sub(1);
        give_back(seat, given, last)?;
    }
    Ok(())
}
