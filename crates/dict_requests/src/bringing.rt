//! Bringing a node to a bucket, as it is but for its link and its key.
ghost use Rattle.std.specs.Prelude.{◌≡◌, ℕ, ◌<◌, ◌≤◌, List, OnOk, IfErr, Contains};
ghost use Rattle.heap_seat.specs.View.{View};
ghost use Rattle.heap_seat.specs.Tickets.{Runs, Stops};
ghost use Rattle.heap_seat.specs.Calls.{SameRefusals};
ghost use Rattle.heap_seat.specs.Rows.{IsRow};
ghost use Rattle.dict_model.specs.Layout.{value_index};
ghost use Rattle.dict_model.specs.Nodes.{shard_of};
ghost use Rattle.dict_model.specs.Requests.{with_key};
ghost use Rattle.dict_model.specs.Shards.{Map};
ghost use Rattle.dict_requests.specs.Changes.{Changes};
ghost use Rattle.dict_requests.specs.Moving.{IsNodeOf, MayBring, head_of};
ghost use Rattle.dict_requests.specs.Nodes.{StoresWithin, WritesHead};
ghost use Rattle.dict_requests.specs.Reached.{ReachesAllHeld, ReachesAllHeldBut};
ghost use Rattle.dict_requests.specs.Removal.{IsLoose, IsShard};
ghost use Rattle.dict_requests.specs.Walks.{IsFoundPlace};
ghost use Rattle.dict_requests.specs.Puts.{IsMissing};

use crate::node::write_word;
use crate::removal::read_place;
use crate::walk::{Place, bucket_of, follow};
use dict_model::{KEY_INDEX, NEXT_INDEX};
use heap_model::Block;
use heap_seat::{HeapSeat, Spot, persist};
use line_memory::Stopped;
use offset_ptr::encode;
use super_block::WORD_BYTES;

/// Stores the key and the link of a node. They are durable, and so are the words whose write-backs
/// were pending.
fn write_head<H: HeapSeat>(seat: &mut H, node: Block, key: u64, next: u64) -> Result<(), Stopped>
    requires held { Contains (H.view seat.old).held node }
    requires room { value_index ≤ node.words }
    ensures ok { OnOk result (WritesHead node key next (H.view seat.old) (H.view seat.new)) }
    ensures cause { IfErr result (λ e. Stops e.step (H.view seat.old) (H.view seat.new)) }
    ensures within { StoresWithin (head_of node) 5 (H.view seat.old) (H.view seat.new) }
    ensures kept { H.keeps seat.old seat.new }
{
    write_word(seat, node, KEY_INDEX, key)?;
    write_word(seat, node, NEXT_INDEX, next)?;
    // The node is whole before a link leads to it.
    seat.fence()
}

/// Brings a node to its key's bucket, which has not the key, in front of the other nodes.
pub(crate) fn bring_first<H: HeapSeat>(
    seat: &mut H,
    table: Block,
    key: u64,
    node: Block,
) -> Result<(), Stopped>
    requires shard { IsShard (H.view seat.old) (shard_of key) }
    requires missing { IsMissing (H.view seat.old) key table }
    requires loose { IsLoose node (H.view seat.old) }
    requires node { (value : List ℕ) × IsNodeOf (H.view seat.old) node value }
    ensures ok { OnOk result ((value : List ℕ) → IsNodeOf (H.view seat.old) node value
        → Changes (shard_of key) (λ map. with_key map key value)
        (H.view seat.old) (H.view seat.new)) }
    ensures runs { OnOk result (Runs (H.view seat.old) (H.view seat.new)) }
    ensures exact { OnOk result ((value : List ℕ) → IsNodeOf (H.view seat.old) node value
        → ReachesAllHeldBut node (H.view seat.old) → ReachesAllHeld (H.view seat.new)) }
    ensures cause { IfErr result (λ e. Stops e.step (H.view seat.old) (H.view seat.new)) }
    ensures crash { (value : List ℕ) → IsNodeOf (H.view seat.old) node value
        → MayBring node (shard_of key) (λ map. with_key map key value)
        (H.view seat.old) (H.view seat.new) }
    ensures calls { IsRow 10 0 0 (H.view seat.old) (H.view seat.new) }
    ensures refusals { SameRefusals (H.view seat.old) (H.view seat.new) }
    ensures kept { H.keeps seat.old seat.new }
{
    let link = Spot::InBlock(table, bucket_of(key));
    let first = follow(seat, link)?;
    write_head(seat, node, key, first)?;
    persist(seat, link, encode(WORD_BYTES * node.first_word))?;
    Ok(())
}

/// Brings a node of a key that is there: it takes the old one's place, which is then freed.
pub(crate) fn bring_over<H: HeapSeat>(
    seat: &mut H,
    place: Place,
    key: u64,
    node: Block,
) -> Result<(), Stopped>
    requires shard { IsShard (H.view seat.old) (shard_of key) }
    requires found { IsFoundPlace (H.view seat.old) key place }
    requires loose { IsLoose node (H.view seat.old) }
    requires node { (value : List ℕ) × IsNodeOf (H.view seat.old) node value }
    ensures ok { OnOk result ((value : List ℕ) → IsNodeOf (H.view seat.old) node value
        → Changes (shard_of key) (λ map. with_key map key value)
        (H.view seat.old) (H.view seat.new)) }
    ensures runs { OnOk result (Runs (H.view seat.old) (H.view seat.new)) }
    ensures exact { OnOk result ((value : List ℕ) → IsNodeOf (H.view seat.old) node value
        → ReachesAllHeldBut node (H.view seat.old) → ReachesAllHeld (H.view seat.new)) }
    ensures cause { IfErr result (λ e. Stops e.step (H.view seat.old) (H.view seat.new)) }
    ensures crash { (value : List ℕ) → IsNodeOf (H.view seat.old) node value
        → MayBring node (shard_of key) (λ map. with_key map key value)
        (H.view seat.old) (H.view seat.new) }
    ensures calls { IsRow 11 1 0 (H.view seat.old) (H.view seat.new) }
    ensures refusals { SameRefusals (H.view seat.old) (H.view seat.new) }
    ensures kept { H.keeps seat.old seat.new }
{
    let next = read_place(seat, key, place)?;
    write_head(seat, node, key, next)?;
    persist(seat, place.link, encode(WORD_BYTES * node.first_word))?;
    // Now no crash leaves a link to the old one.
    seat.free(place.node)?;
    Ok(())
}
