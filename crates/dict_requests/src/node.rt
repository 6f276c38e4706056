//! Making a node.
ghost use Rattle.std.specs.Prelude.{◌≡◌, ℕ, ◌+◌, ◌*◌, ◌<◌, ◌≤◌, ◌^◌, length};
ghost use Rattle.std.specs.Prelude.{OnOk, IfOk, IfErr, Contains};
ghost use Rattle.heap_model.specs.declared.block.Block.{Block};
ghost use Rattle.heap_seat.specs.View.{View};
ghost use Rattle.heap_seat.specs.Words.{KeepsOwn, MayHaveStored};
ghost use Rattle.heap_seat.specs.declared.fault.AllocFault.TheVariants.{Full};
ghost use Rattle.heap_seat.specs.declared.fault.Looks.{Looks};
ghost use Rattle.heap_seat.specs.Tickets.{Stops};
ghost use Rattle.heap_seat.specs.Calls.{SameRefusals};
ghost use Rattle.heap_seat.specs.Rows.{IsRow};
ghost use Rattle.heap_seat.specs.Alloc.{FailsBy};
ghost use Rattle.heap_model.specs.Sizes.{span_of};
ghost use Rattle.dict_model.specs.Layout.{value_index};
ghost use Rattle.dict_model.specs.Nodes.{largest_value, value_words, node_bytes};
ghost use Rattle.dict_requests.specs.Quiet.{Grown};
ghost use Rattle.dict_requests.specs.Trails.{IsSettling};
ghost use Rattle.dict_requests.specs.Puts.{WasTurnedDown};
ghost use Rattle.dict_requests.specs.Nodes.{StoresWithin, KeepsPendingBut, Writes, WritesValue, WritesNode, MakesNode};

use crate::value::value_word;
use dict_model::{KEY_INDEX, LENGTH_INDEX, NEXT_INDEX, VALUE_INDEX};
use heap_model::Block;
use heap_seat::{AllocFault, HeapSeat, Spot};
use line_memory::Stopped;

/// Stores a word of a block, and asks for it to be durable with the next fence.
pub(crate) fn write_word<H: HeapSeat>(
    seat: &mut H,
    block: Block,
    index: u64,
    value: u64,
) -> Result<(), Stopped>
    requires held { Contains (H.view seat.old).held block }
    requires inside { index < block.words }
    ensures ok { OnOk result (Writes (block.first_word + index) value
        (H.view seat.old) (H.view seat.new)) }
    ensures cause { IfErr result (λ e. Stops e.step (H.view seat.old) (H.view seat.new)) }
    ensures crash { MayHaveStored (block.first_word + index) value
        (H.view seat.old) (H.view seat.new) }
    ensures calls { IsRow 2 0 0 (H.view seat.old) (H.view seat.new) }
    ensures refusals { SameRefusals (H.view seat.old) (H.view seat.new) }
    ensures kept { H.keeps seat.old seat.new }
{
    seat.store(Spot::InBlock(block, index), value)?;
    seat.write_back(Spot::InBlock(block, index))
}

/// Stores a value into its node.
fn write_value<H: HeapSeat>(seat: &mut H, node: Block, value: &[u8]) -> Result<(), Stopped>
    requires held { Contains (H.view seat.old).held node }
    requires room { value_index + value_words (length value.now) ≤ node.words }
    requires short { length value.now < 2 ^ 32 }
    ensures ok { OnOk result (WritesValue node value.now (H.view seat.old) (H.view seat.new)) }
    ensures cause { IfErr result (λ e. Stops e.step (H.view seat.old) (H.view seat.new)) }
    ensures within { StoresWithin node (2 * value_words (length value.now))
        (H.view seat.old) (H.view seat.new) }
    ensures kept { H.keeps seat.old seat.new }
{
    for index in 0..value.len().div_ceil(8) {
        write_word(
            seat,
            node,
            VALUE_INDEX + index as u64,
            value_word(value, index),
        )?;
    }
    Ok(())
}

/// Stores a node, all of which is durable with the next fence.
fn write_node<H: HeapSeat>(
    seat: &mut H,
    node: Block,
    key: u64,
    next: u64,
    value: &[u8],
) -> Result<(), Stopped>
    requires held { Contains (H.view seat.old).held node }
    requires room { value_index + value_words (length value.now) ≤ node.words }
    requires short { length value.now < 2 ^ 32 }
    ensures ok { OnOk result (WritesNode node key next value.now
        (H.view seat.old) (H.view seat.new)) }
    ensures cause { IfErr result (λ e. Stops e.step (H.view seat.old) (H.view seat.new)) }
    ensures within { StoresWithin node (2 * value_words (length value.now) + 6)
        (H.view seat.old) (H.view seat.new) }
    ensures kept { H.keeps seat.old seat.new }
{
    write_value(seat, node, value)?;
    write_word(seat, node, LENGTH_INDEX, value.len() as u64)?;
    write_word(seat, node, KEY_INDEX, key)?;
    write_word(seat, node, NEXT_INDEX, next)
}

/// Makes a node, all of which is durable, and so are the words whose write-backs were pending.
pub(crate) fn make_node<H: HeapSeat>(
    seat: &mut H,
    key: u64,
    next: u64,
    value: &[u8],
) -> Result<Block, AllocFault>
    requires { length value.now ≤ largest_value }
    ensures ok { IfOk result (λ node. MakesNode node key next value.now
        (H.view seat.old) (H.view seat.new)) }
    ensures cause { IfErr result (λ fault. FailsBy (node_bytes (length value.now)) fault
        (H.view seat.old) (H.view seat.new)) }
    ensures full { IfErr result (λ fault. (looks : Looks) → fault ≡ Full looks
        → KeepsOwn (H.view seat.old) (H.view seat.new)) }
    ensures none { IfErr result (λ fault. (looks : Looks) → fault ≡ Full looks
        → WasTurnedDown H.keeps H.has_none (node_bytes (length value.now)) looks
        seat.old seat.new) }
    ensures grown { Grown (H.view seat.old) (H.view seat.new) }
    ensures calls { IsRow (2 * value_words (length value.now) + 7) 1
        (span_of (node_bytes (length value.now))) (H.view seat.old) (H.view seat.new) }
    ensures kept { H.keeps seat.old seat.new }
{
    let words = VALUE_INDEX + value.len().div_ceil(8) as u64;
    let node = seat.alloc(8 * words)?;
    write_node(seat, node, key, next, value)?;
    // The node is whole before a link leads to it.
    seat.fence()?;
    Ok(node)
}
