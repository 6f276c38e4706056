//! Taking a node out of its chain.
ghost use Rattle.std.specs.Prelude.{◌≡◌, ℕ, OnOk, IfOk, IfErr};
ghost use Rattle.heap_seat.specs.View.{View, word_of};
ghost use Rattle.heap_seat.specs.Tickets.{Runs, Stops};
ghost use Rattle.heap_seat.specs.Calls.{SameRefusals};
ghost use Rattle.heap_seat.specs.Rows.{IsRow};
ghost use Rattle.dict_model.specs.Nodes.{shard_of};
ghost use Rattle.dict_model.specs.Requests.{without_key};
ghost use Rattle.dict_model.specs.Shards.{Map};
ghost use Rattle.dict_requests.specs.Quiet.{IsQuiet};
ghost use Rattle.dict_requests.specs.Walks.{IsFoundPlace};
ghost use Rattle.dict_requests.specs.Changes.{MayChange, Changes};
ghost use Rattle.dict_requests.specs.Moving.{IsTakenOut};
ghost use Rattle.dict_requests.specs.Reached.{ReachesAllHeld, ReachesAllHeldBut};
ghost use Rattle.dict_requests.specs.Removal.{IsShard, ReadsPlace};

use crate::walk::{Place, follow};
use dict_model::{KEY_INDEX, NEXT_INDEX};
use heap_seat::{HeapSeat, Spot, persist};
use line_memory::Stopped;

/// Follows the link of a key's node, and asks for its key to be durable with the next fence. So
/// that fence settles all that the node's place depends on.
pub(crate) fn read_place<H: HeapSeat>(seat: &mut H, key: u64, place: Place) -> Result<u64, Stopped>
    requires { IsFoundPlace (H.view seat.old) key place }
    ensures ok { IfOk result (λ next. ReadsPlace key place next (H.view seat.old) (H.view seat.new)) }
    ensures cause { IfErr result (λ e. Stops e.step (H.view seat.old) (H.view seat.new)) }
    ensures quiet { IsQuiet 3 (H.view seat.old) (H.view seat.new) }
    ensures kept { H.keeps seat.old seat.new }
{
    let next = follow(seat, Spot::InBlock(place.node, NEXT_INDEX))?;
    seat.write_back(Spot::InBlock(place.node, KEY_INDEX))?;
    Ok(next)
}

/// Takes a key's node out of its chain, and frees it.
pub(crate) fn remove<H: HeapSeat>(seat: &mut H, key: u64, place: Place) -> Result<(), Stopped>
    requires shard { IsShard (H.view seat.old) (shard_of key) }
    requires found { IsFoundPlace (H.view seat.old) key place }
    ensures ok { OnOk result (Changes (shard_of key) (λ map. without_key map key)
        (H.view seat.old) (H.view seat.new)) }
    ensures runs { OnOk result (Runs (H.view seat.old) (H.view seat.new)) }
    ensures exact { OnOk result (ReachesAllHeld (H.view seat.old)
        → ReachesAllHeld (H.view seat.new)) }
    ensures cause { IfErr result (λ e. Stops e.step (H.view seat.old) (H.view seat.new)) }
    ensures crash { MayChange (shard_of key) (λ map. without_key map key)
        (H.view seat.old) (H.view seat.new) }
    ensures calls { IsRow 7 1 0 (H.view seat.old) (H.view seat.new) }
    ensures refusals { SameRefusals (H.view seat.old) (H.view seat.new) }
    ensures kept { H.keeps seat.old seat.new }
{
    let next = read_place(seat, key, place)?;
    // The links on the way are durable before one of them changes.
    seat.fence()?;
    persist(seat, place.link, next)?;
    // Now no crash leaves a link to it.
    seat.free(place.node)
}

/// Takes a key's node out of its chain. It stays held, and no root meets it any more.
pub(crate) fn unlink<H: HeapSeat>(seat: &mut H, key: u64, place: Place) -> Result<(), Stopped>
    requires shard { IsShard (H.view seat.old) (shard_of key) }
    requires found { IsFoundPlace (H.view seat.old) key place }
    ensures ok { OnOk result (IsTakenOut key place.node (H.view seat.old) (H.view seat.new)) }
    ensures exact { OnOk result (ReachesAllHeld (H.view seat.old)
        → ReachesAllHeldBut place.node (H.view seat.new)) }
    ensures runs { OnOk result (Runs (H.view seat.old) (H.view seat.new)) }
    ensures cause { IfErr result (λ e. Stops e.step (H.view seat.old) (H.view seat.new)) }
    ensures crash { MayChange (shard_of key) (λ map. without_key map key)
        (H.view seat.old) (H.view seat.new) }
    ensures calls { IsRow 7 0 0 (H.view seat.old) (H.view seat.new) }
    ensures refusals { SameRefusals (H.view seat.old) (H.view seat.new) }
    ensures kept { H.keeps seat.old seat.new }
{
    let link = place.link;
    let next = read_place(seat, key, place)?;
    // The links on the way are durable before one of them changes.
    seat.fence()?;
    persist(seat, link, next)?;
    Ok(())
}
