//! Putting a node into a chain.
ghost use Rattle.std.specs.Prelude.{◌≡◌, ℕ, ◌+◌, ◌*◌, ◌≤◌, length, OnOk, IfErr};
ghost use Rattle.heap_model.specs.declared.block.Block.{Block};
ghost use Rattle.heap_model.specs.Sizes.{span_of};
ghost use Rattle.heap_seat.specs.declared.fault.AllocFault.TheVariants.{Full};
ghost use Rattle.heap_seat.specs.declared.fault.Looks.{Looks};
ghost use Rattle.heap_seat.specs.View.{View};
ghost use Rattle.heap_seat.specs.Tickets.{Runs};
ghost use Rattle.heap_seat.specs.Calls.{SameRefusals};
ghost use Rattle.heap_seat.specs.Rows.{IsRow};
ghost use Rattle.dict_model.specs.Nodes.{largest_value, shard_of, value_words, node_bytes};
ghost use Rattle.dict_model.specs.Requests.{with_key};
ghost use Rattle.dict_model.specs.Shards.{Map};
ghost use Rattle.dict_requests.specs.Changes.{MayChange, Changes};
ghost use Rattle.dict_requests.specs.Reached.{ReachesAllHeld};
ghost use Rattle.dict_requests.specs.Removal.{IsShard};
ghost use Rattle.dict_requests.specs.Walks.{IsFoundPlace};
ghost use Rattle.dict_requests.specs.Puts.{IsMissing, PutFails, WasTurnedDown};

use crate::node::make_node;
use crate::removal::read_place;
use crate::walk::{Place, bucket_of, follow};
use heap_model::Block;
use heap_seat::{AllocFault, HeapSeat, Spot, persist};
use offset_ptr::encode;
use super_block::WORD_BYTES;

/// Puts a key that is not there into its bucket, in front of the other nodes.
pub(crate) fn put_first<H: HeapSeat>(
    seat: &mut H,
    table: Block,
    key: u64,
    value: &[u8],
) -> Result<(), AllocFault>
    requires shard { IsShard (H.view seat.old) (shard_of key) }
    requires missing { IsMissing (H.view seat.old) key table }
    requires short { length value.now ≤ largest_value }
    ensures ok { OnOk result (Changes (shard_of key) (λ map. with_key map key value.now)
        (H.view seat.old) (H.view seat.new)) }
    ensures runs { OnOk result (Runs (H.view seat.old) (H.view seat.new)) }
    ensures refusals { OnOk result (SameRefusals (H.view seat.old) (H.view seat.new)) }
    ensures exact { OnOk result (ReachesAllHeld (H.view seat.old)
        → ReachesAllHeld (H.view seat.new)) }
    ensures cause { IfErr result (λ fault. PutFails (node_bytes (length value.now)) fault
        (H.view seat.old) (H.view seat.new)) }
    ensures none { IfErr result (λ fault. (looks : Looks) → fault ≡ Full looks
        → WasTurnedDown H.keeps H.has_none (node_bytes (length value.now)) looks
        seat.old seat.new) }
    ensures crash { MayChange (shard_of key) (λ map. with_key map key value.now)
        (H.view seat.old) (H.view seat.new) }
    ensures calls { IsRow (2 * value_words (length value.now) + 12) 1
        (span_of (node_bytes (length value.now))) (H.view seat.old) (H.view seat.new) }
    ensures kept { H.keeps seat.old seat.new }
{
    let link = Spot::InBlock(table, bucket_of(key));
    let first = follow(seat, link)?;
    let node = make_node(seat, key, first, value)?;
    persist(seat, link, encode(WORD_BYTES * node.first_word))?;
    Ok(())
}

/// Puts a value of a key that is there: a new node takes the old one's place, which is then freed.
pub(crate) fn put_over<H: HeapSeat>(
    seat: &mut H,
    place: Place,
    key: u64,
    value: &[u8],
) -> Result<(), AllocFault>
    requires shard { IsShard (H.view seat.old) (shard_of key) }
    requires found { IsFoundPlace (H.view seat.old) key place }
    requires short { length value.now ≤ largest_value }
    ensures ok { OnOk result (Changes (shard_of key) (λ map. with_key map key value.now)
        (H.view seat.old) (H.view seat.new)) }
    ensures runs { OnOk result (Runs (H.view seat.old) (H.view seat.new)) }
    ensures refusals { OnOk result (SameRefusals (H.view seat.old) (H.view seat.new)) }
    ensures exact { OnOk result (ReachesAllHeld (H.view seat.old)
        → ReachesAllHeld (H.view seat.new)) }
    ensures cause { IfErr result (λ fault. PutFails (node_bytes (length value.now)) fault
        (H.view seat.old) (H.view seat.new)) }
    ensures none { IfErr result (λ fault. (looks : Looks) → fault ≡ Full looks
        → WasTurnedDown H.keeps H.has_none (node_bytes (length value.now)) looks
        seat.old seat.new) }
    ensures crash { MayChange (shard_of key) (λ map. with_key map key value.now)
        (H.view seat.old) (H.view seat.new) }
    ensures calls { IsRow (2 * value_words (length value.now) + 13) 2
        (span_of (node_bytes (length value.now))) (H.view seat.old) (H.view seat.new) }
    ensures kept { H.keeps seat.old seat.new }
{
    let next = read_place(seat, key, place)?;
    let node = make_node(seat, key, next, value)?;
    persist(seat, place.link, encode(WORD_BYTES * node.first_word))?;
    // Now no crash leaves a link to the old one.
    seat.free(place.node)?;
    Ok(())
}
