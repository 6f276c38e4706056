//! Reading a node's value.
ghost use Rattle.std.specs.Prelude.{◌≡◌, ℕ, ◌+◌, ◌≤◌, ◌<◌, ◌^◌, length, OnOk, IfOk, IfErr, Contains};
ghost use Rattle.heap_model.specs.Image.{Image};
ghost use Rattle.heap_seat.specs.View.{View};
ghost use Rattle.heap_seat.specs.Words.{KeepsOwn};
ghost use Rattle.heap_seat.specs.Tickets.{Stops};
ghost use Rattle.heap_seat.specs.Calls.{SameRefusals};
ghost use Rattle.dict_model.specs.Layout.{value_index};
ghost use Rattle.dict_model.specs.Nodes.{shard_of, bucket_of, value_words, IsNode};
ghost use Rattle.dict_requests.specs.Trails.{Completes};
ghost use Rattle.dict_requests.specs.Quiet.{IsQuiet};
ghost use Rattle.dict_requests.specs.Removal.{IsShard};
ghost use Rattle.dict_requests.specs.Gets.{Gets, ReadsFew, ReadsWords, ReadsValue, IsQuietRead};

use crate::search::{SearchEnd, search};
use crate::value::put_word;
use dict_model::{LENGTH_INDEX, VALUE_INDEX};
use heap_model::Block;
use heap_seat::{HeapSeat, Spot};
use line_memory::Stopped;

/// Reads the value's words, and puts their bytes into all of the output.
fn read_words<H: HeapSeat>(seat: &mut H, node: Block, out: &mut [u8]) -> Result<(), Stopped>
    requires held { Contains (H.view seat.old).held node }
    requires room { value_index + value_words (length out.old) ≤ node.words }
    requires short { length out.old < 2 ^ 32 }
    ensures ok { OnOk result (ReadsWords node out.old out.new
        (H.view seat.old) (H.view seat.new)) }
    ensures cause { IfErr result (λ e. Stops e.step (H.view seat.old) (H.view seat.new)) }
    ensures quiet { IsQuiet (value_words (length out.old)) (H.view seat.old) (H.view seat.new) }
    ensures same { length out.new ≡ length out.old }
    ensures kept { H.keeps seat.old seat.new }
{
    for index in 0..out.len().div_ceil(8) {
        let word = seat.load(Spot::InBlock(node, VALUE_INDEX + index as u64))?;
        put_word(out, 8 * index, word);
    }
    Ok(())
}

/// Reads the value of the key's node: its length, and as much of it as fits into the output.
fn read_value<H: HeapSeat>(
    seat: &mut H,
    key: u64,
    node: Block,
    out: &mut [u8],
) -> Result<usize, Stopped>
    requires held { Contains (H.view seat.old).held node }
    requires room { value_index ≤ node.words }
    requires node { (image : Image) → Completes (H.view seat.old) image
        → IsNode image (shard_of key) (bucket_of key) node }
    ensures ok { IfOk result (λ answer. ReadsValue node answer out.old out.new
        (H.view seat.old) (H.view seat.new)) }
    ensures cause { IfErr result (λ e. Stops e.step (H.view seat.old) (H.view seat.new)) }
    ensures quiet { IsQuietRead node (H.view seat.old) (H.view seat.new) }
    ensures same { length out.new ≡ length out.old }
    ensures kept { H.keeps seat.old seat.new }
{
    let length = seat.load(Spot::InBlock(node, LENGTH_INDEX))? as usize;
    let count = length.min(out.len());
    read_words(seat, node, &mut out[..count])?;
    Ok(length)
}

/// Searches for a key, and reads its value.
pub(crate) fn find_value<H: HeapSeat>(
    seat: &mut H,
    key: u64,
    out: &mut [u8],
) -> Result<Option<usize>, Stopped>
    requires { IsShard (H.view seat.old) (shard_of key) }
    ensures ok { IfOk result (λ answer. Gets key answer out.old out.new
        (H.view seat.old) (H.view seat.new)) }
    ensures cause { IfErr result (λ e. Stops e.step (H.view seat.old) (H.view seat.new)) }
    ensures unchanged { KeepsOwn (H.view seat.old) (H.view seat.new) }
    ensures kinds { (H.view seat.new).kinds ≡ (H.view seat.old).kinds }
    ensures calls { ReadsFew key (H.view seat.old) (H.view seat.new) }
    ensures refusals { SameRefusals (H.view seat.old) (H.view seat.new) }
    ensures same { length out.new ≡ length out.old }
    ensures kept { H.keeps seat.old seat.new }
{
    match search(seat, key)? {
        SearchEnd::Found(place) => Ok(Some(read_value(seat, key, place.node, out)?)),
        SearchEnd::Missing(_) => Ok(None),
        SearchEnd::NoTable => Ok(None),
    }
}
