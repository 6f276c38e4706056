//! A list of nodes behind root 0, over any open heap. The first word of a node leads to the next
//! one, and the second has its value.
ghost use Rattle.std.specs.Prelude.{◌≡◌, List, ◌∷◌, Contains, IfOk};
ghost use Rattle.heap_model.specs.declared.block.Block.{Block};
ghost use Rattle.heap_model.specs.Image.{Image};
ghost use Rattle.first_filter.specs.Lists.{HasListOrMore, IsKept, HoldsList, KeepsOthers};

use heap_seat::{AllocFault, HeapSeat, Spot, persist};
use offset_ptr::encode;
use super_block::{Block, WORD_BYTES};

/// The root of the list.
pub const LIST: u64 = 0;

/// How many bytes a node has: two words.
const NODE_BYTES: u64 = 2 * WORD_BYTES;

/// Puts a node with the value before the others of the list. A crash leaves the list with it or
/// without it.
pub fn push<H: HeapSeat>(heap: &mut H, value: u64) -> Result<Block, AllocFault>
    requires { Contains (H.view heap.old).roots 0 }
    ensures ok { (nodes : List Block) → HoldsList (H.view heap.old) nodes
        → IfOk result (λ node. HoldsList (H.view heap.new) (node ∷ nodes)) }
    ensures crash { (nodes : List Block) (image : Image) → HoldsList (H.view heap.old) nodes
        → H.images heap.new image → HasListOrMore image nodes }
{
    let next = heap.load(Spot::Root(LIST))?;
    let node = make_node(heap, next, value)?;
    persist(heap, Spot::Root(LIST), encode(WORD_BYTES * node.first_word))?;
    Ok(node)
}

/// A node with the value, to which nothing leads yet, and whose words are durable.
fn make_node<H: HeapSeat>(heap: &mut H, next: u64, value: u64) -> Result<Block, AllocFault>
    ensures others { KeepsOthers (H.view heap.old) (H.view heap.new) }
    ensures held { IfOk result (λ node. Contains (H.view heap.new).held node) }
    ensures link { IfOk result (λ node. IsKept (H.view heap.new) node.first_word next) }
{
    let node = heap.alloc(NODE_BYTES)?;
    persist(heap, Spot::InBlock(node, 1), value)?;
    persist(heap, Spot::InBlock(node, 0), next)?;
    Ok(node)
}
