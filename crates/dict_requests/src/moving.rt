//! The calls of a shard by which a block goes from shard to shard, and its value is not copied.
ghost use Rattle.std.specs.Prelude.{◌≡◌, ℕ, ◌<◌, List, OnOk, IfOk, IfErr};
ghost use Rattle.heap_model.specs.Sizes.{span_of};
ghost use Rattle.heap_seat.specs.declared.fault.AllocFault.TheVariants.{Full};
ghost use Rattle.heap_seat.specs.declared.fault.Looks.{Looks};
ghost use Rattle.heap_seat.specs.View.{View};
ghost use Rattle.heap_seat.specs.Words.{KeepsOwn};
ghost use Rattle.heap_seat.specs.Tickets.{Runs, Stops};
ghost use Rattle.heap_seat.specs.Calls.{SameRefusals};
ghost use Rattle.heap_seat.specs.Rows.{IsRow};
ghost use Rattle.dict_model.specs.Nodes.{shard_of, table_bytes};
ghost use Rattle.dict_model.specs.Requests.{with_key, without_key};
ghost use Rattle.dict_model.specs.Shards.{Map};
ghost use Rattle.dict_requests.specs.Changes.{MayChange, Changes};
ghost use Rattle.dict_requests.specs.Moving.{IsNodeOf, MayBring, MovesFew, ReachesAllLeft, TableFails, TableTakes, TakesOut, TellsKey};
ghost use Rattle.dict_requests.specs.Reached.{ReachesAllHeld, ReachesAllHeldBut};
ghost use Rattle.dict_requests.specs.Removal.{IsLoose, IsShard};
ghost use Rattle.dict_requests.specs.Puts.{RootIsSet, WasTurnedDown};

use crate::bringing::{bring_first, bring_over};
use crate::removal::unlink;
use crate::search::{SearchEnd, search, table_of};
use crate::shard::Shard;
use crate::table::make_table;
use heap_model::Block;
use heap_seat::{AllocFault, HeapSeat};
use line_memory::Stopped;

/// Sees to it that the key's shard has a table.
fn have_table<H: HeapSeat>(seat: &mut H, key: u64) -> Result<(), AllocFault>
    requires { IsShard (H.view seat.old) (shard_of key) }
    ensures ok { OnOk result (Changes (shard_of key) (λ map. map)
        (H.view seat.old) (H.view seat.new)) }
    ensures table { OnOk result (RootIsSet (H.view seat.new) (shard_of key)) }
    ensures runs { OnOk result (Runs (H.view seat.old) (H.view seat.new)) }
    ensures refusals { OnOk result (SameRefusals (H.view seat.old) (H.view seat.new)) }
    ensures exact { OnOk result (ReachesAllHeld (H.view seat.old)
        → ReachesAllHeld (H.view seat.new)) }
    ensures exact_full { IfErr result (λ fault. (looks : Looks) → fault ≡ Full looks
        → ReachesAllHeld (H.view seat.old) → ReachesAllHeld (H.view seat.new)) }
    ensures cause { IfErr result (λ fault. TableFails (shard_of key) fault
        (H.view seat.old) (H.view seat.new)) }
    ensures none { IfErr result (λ fault. (looks : Looks) → fault ≡ Full looks
        → WasTurnedDown H.keeps H.has_none table_bytes looks seat.old seat.new) }
    ensures crash { (after : Map → Map) → MayChange (shard_of key) after
        (H.view seat.old) (H.view seat.new) }
    ensures taken { TableTakes (shard_of key) (H.view seat.old) (H.view seat.new) }
    ensures calls { IsRow 262 1 (span_of table_bytes) (H.view seat.old) (H.view seat.new) }
    ensures kept { H.keeps seat.old seat.new }
{
    match table_of(seat, key)? {
        Some(_) => Ok(()),
        None => {
            make_table(seat, key)?;
            Ok(())
        }
    }
}

impl Shard {
    /// Makes the shard's table, if it has none. The map is as before, wherever this ends.
    ///
    /// `Full` where there is no room for a table; no superblock was taken then.
    pub fn make_table<H: HeapSeat>(&mut self, seat: &mut H) -> Result<(), AllocFault>
        requires number { self.old.number < 8 }
        requires shard { IsShard (H.view seat.old) self.old.number }
        ensures ok { OnOk result (Changes self.old.number (λ map. map)
            (H.view seat.old) (H.view seat.new)) }
        ensures table { OnOk result (RootIsSet (H.view seat.new) self.old.number) }
        ensures runs { OnOk result (Runs (H.view seat.old) (H.view seat.new)) }
        ensures refusals { OnOk result (SameRefusals (H.view seat.old) (H.view seat.new)) }
        ensures exact { OnOk result (ReachesAllHeld (H.view seat.old)
            → ReachesAllHeld (H.view seat.new)) }
        ensures exact_full { IfErr result (λ fault. (looks : Looks) → fault ≡ Full looks
            → ReachesAllHeld (H.view seat.old) → ReachesAllHeld (H.view seat.new)) }
        ensures cause { IfErr result (λ fault. TableFails self.old.number fault
            (H.view seat.old) (H.view seat.new)) }
        ensures none { IfErr result (λ fault. (looks : Looks) → fault ≡ Full looks
            → WasTurnedDown H.keeps H.has_none table_bytes looks seat.old seat.new) }

        // At every exit.
        ensures crash { (after : Map → Map) → MayChange self.old.number after
            (H.view seat.old) (H.view seat.new) }
        ensures taken { TableTakes self.old.number (H.view seat.old) (H.view seat.new) }
        ensures calls { IsRow 512 1 (span_of table_bytes) (H.view seat.old) (H.view seat.new) }
        ensures kept { H.keeps seat.old seat.new }
        ensures same { self.new ≡ self.old }
    {
        have_table(seat, self.number)
    }

    /// Whether the key is there. Nothing is read of its value.
    pub fn has<H: HeapSeat>(&self, seat: &mut H, key: u64) -> Result<bool, Stopped>
        requires key { shard_of key ≡ self.now.number }
        requires shard { IsShard (H.view seat.old) (shard_of key) }
        ensures ok { IfOk result (λ found. TellsKey key found
            (H.view seat.old) (H.view seat.new)) }
        ensures cause { IfErr result (λ e. Stops e.step (H.view seat.old) (H.view seat.new)) }

        // At every exit.
        ensures unchanged { KeepsOwn (H.view seat.old) (H.view seat.new) }
        ensures maps { Changes (shard_of key) (λ map. map) (H.view seat.old) (H.view seat.new) }
        ensures crash { (after : Map → Map) → MayChange (shard_of key) after
            (H.view seat.old) (H.view seat.new) }
        ensures exact { ReachesAllHeld (H.view seat.old) → ReachesAllHeld (H.view seat.new) }
        ensures taken { (H.view seat.new).taken ≡ (H.view seat.old).taken }
        ensures calls { MovesFew 0 (shard_of key) (H.view seat.old) (H.view seat.new) }
        ensures refusals { SameRefusals (H.view seat.old) (H.view seat.new) }
        ensures kept { H.keeps seat.old seat.new }
    {
        match search(seat, key)? {
            SearchEnd::Found(_) => Ok(true),
            SearchEnd::Missing(_) => Ok(false),
            SearchEnd::NoTable => Ok(false),
        }
    }

    /// Takes a key's node out of the shard. The answer is the block, which is held still and to
    /// which no root leads any more, or `None` where the key is missing.
    ///
    /// After `Stopped` a crash leaves the map with the key or without it.
    pub fn take<H: HeapSeat>(&mut self, seat: &mut H, key: u64) -> Result<Option<Block>, Stopped>
        requires key { shard_of key ≡ self.old.number }
        requires shard { IsShard (H.view seat.old) (shard_of key) }
        ensures ok { IfOk result (λ node. TakesOut key node (H.view seat.old) (H.view seat.new)) }
        ensures runs { OnOk result (Runs (H.view seat.old) (H.view seat.new)) }
        ensures exact { IfOk result (λ node. ReachesAllLeft node
            (H.view seat.old) (H.view seat.new)) }
        ensures cause { IfErr result (λ e. Stops e.step (H.view seat.old) (H.view seat.new)) }

        // At every exit.
        ensures crash { MayChange (shard_of key) (λ map. without_key map key)
            (H.view seat.old) (H.view seat.new) }
        ensures taken { (H.view seat.new).taken ≡ (H.view seat.old).taken }
        ensures calls { MovesFew 0 (shard_of key) (H.view seat.old) (H.view seat.new) }
        ensures refusals { SameRefusals (H.view seat.old) (H.view seat.new) }
        ensures kept { H.keeps seat.old seat.new }
        ensures same { self.new ≡ self.old }
    {
        match search(seat, key)? {
            SearchEnd::Found(place) => {
                unlink(seat, key, place)?;
                Ok(Some(place.node))
            }
            SearchEnd::Missing(_) => Ok(None),
            SearchEnd::NoTable => Ok(None),
        }
    }

    /// Sets a key to the value of a node that is held and to which no root leads, as `take` gives
    /// it and as it comes from another seat. The value is not copied: the block itself is what
    /// holds it then, and of its words only the link and the key are stored to. A node that the
    /// key had is freed.
    ///
    /// After `Stopped` a crash leaves the map as before or with the key set.
    pub fn bring<H: HeapSeat>(&mut self, seat: &mut H, key: u64, node: Block) -> Result<(), Stopped>
        requires key { shard_of key ≡ self.old.number }
        requires shard { IsShard (H.view seat.old) (shard_of key) }
        requires table { RootIsSet (H.view seat.old) (shard_of key) }
        requires loose { IsLoose node (H.view seat.old) }
        requires node { (value : List ℕ) × IsNodeOf (H.view seat.old) node value }
        ensures ok { OnOk result ((value : List ℕ) → IsNodeOf (H.view seat.old) node value
            → Changes (shard_of key) (λ map. with_key map key value)
            (H.view seat.old) (H.view seat.new)) }
        ensures runs { OnOk result (Runs (H.view seat.old) (H.view seat.new)) }
        ensures exact { OnOk result (ReachesAllHeldBut node (H.view seat.old)
            → ReachesAllHeld (H.view seat.new)) }
        ensures cause { IfErr result (λ e. Stops e.step (H.view seat.old) (H.view seat.new)) }

        // At every exit.
        ensures crash { (value : List ℕ) → IsNodeOf (H.view seat.old) node value
            → MayBring node (shard_of key) (λ map. with_key map key value)
            (H.view seat.old) (H.view seat.new) }
        ensures taken { (H.view seat.new).taken ≡ (H.view seat.old).taken }
        ensures calls { MovesFew 1 (shard_of key) (H.view seat.old) (H.view seat.new) }
        ensures refusals { SameRefusals (H.view seat.old) (H.view seat.new) }
        ensures kept { H.keeps seat.old seat.new }
        ensures same { self.new ≡ self.old }
    {
        match search(seat, key)? {
            SearchEnd::Found(place) => bring_over(seat, place, key, node),
            SearchEnd::Missing(table) => bring_first(seat, table, key, node),
            SearchEnd::NoTable => unreachable!(),
        }
    }
}
