//! The requests to a shard.
ghost use Rattle.std.specs.Prelude.{◌≡◌, ℕ, ◌+◌, ◌<◌, ◌≤◌, length, OnOk, IfOk, IfErr};
ghost use Rattle.heap_seat.specs.Words.{KeepsOwn};
ghost use Rattle.dict_requests.specs.Gets.{Gets, ReadsFew};
ghost use Rattle.heap_model.specs.Sizes.{span_of};
ghost use Rattle.heap_seat.specs.declared.fault.AllocFault.TheVariants.{Full};
ghost use Rattle.heap_seat.specs.declared.fault.Looks.{Looks};
ghost use Rattle.heap_seat.specs.View.{View};
ghost use Rattle.heap_seat.specs.Tickets.{Runs, Stops};
ghost use Rattle.heap_seat.specs.Calls.{SameRefusals};
ghost use Rattle.dict_model.specs.Nodes.{largest_value, shard_of, value_words, node_bytes, table_bytes};
ghost use Rattle.dict_model.specs.Requests.{with_key, without_key};
ghost use Rattle.dict_model.specs.Shards.{Map};
ghost use Rattle.dict_requests.specs.Changes.{MayChange, Changes};
ghost use Rattle.dict_requests.specs.Reached.{ReachesAllHeld};
ghost use Rattle.dict_requests.specs.Removal.{IsShard};
ghost use Rattle.dict_requests.specs.Puts.{PutAnswers, PutTakes, WasTurnedDown};
ghost use Rattle.dict_requests.specs.Answers.{Deletes, MakesFew};

use crate::publish::{put_first, put_over};
use crate::reading::find_value;
use crate::removal::remove;
use crate::search::{SearchEnd, search};
use crate::table::make_table;
use heap_seat::{AllocFault, HeapSeat};
use line_memory::Stopped;

/// A shard of the dictionary, by its number: root number `number`, which has the kind of a table,
/// leads to its table.
#[derive(Drop)]
pub struct Shard {
    /// Which of the eight shards it is.
    pub number: u64,
}

impl Shard {
    /// The shard of this number.
    pub fn at(number: u64) -> Shard
        requires { number < 8 }
        ensures { result.number ≡ number }
    {
        Shard { number }
    }

    /// The length of the key's value, or `None` where the key is missing. The output begins with
    /// the value, as far as that fits; what lies behind it in the output stays.
    ///
    /// After `Stopped` some of the value may stand in the output.
    pub fn get<H: HeapSeat>(
        &self,
        seat: &mut H,
        key: u64,
        out: &mut [u8],
    ) -> Result<Option<usize>, Stopped>
        requires key { shard_of key ≡ self.now.number }
        requires shard { IsShard (H.view seat.old) (shard_of key) }
        ensures ok { IfOk result (λ answer. Gets key answer out.old out.new
            (H.view seat.old) (H.view seat.new)) }
        ensures cause { IfErr result (λ e. Stops e.step (H.view seat.old) (H.view seat.new)) }

        // At every exit.
        ensures length { length out.new ≡ length out.old }
        ensures unchanged { KeepsOwn (H.view seat.old) (H.view seat.new) }
        ensures maps { Changes (shard_of key) (λ map. map) (H.view seat.old) (H.view seat.new) }
        ensures crash { MayChange (shard_of key) (λ map. map)
            (H.view seat.old) (H.view seat.new) }
        ensures exact { ReachesAllHeld (H.view seat.old) → ReachesAllHeld (H.view seat.new) }
        ensures calls { ReadsFew key (H.view seat.old) (H.view seat.new) }
        ensures refusals { SameRefusals (H.view seat.old) (H.view seat.new) }
        ensures kept { H.keeps seat.old seat.new }
    {
        find_value(seat, key, out)
    }

    /// Takes a key out; the answer is whether it was there.
    ///
    /// After `Stopped` a crash leaves the map with the key or without it.
    pub fn del<H: HeapSeat>(&mut self, seat: &mut H, key: u64) -> Result<bool, Stopped>
        requires key { shard_of key ≡ self.old.number }
        requires shard { IsShard (H.view seat.old) (shard_of key) }
        ensures ok { IfOk result (λ found. Deletes key found
            (H.view seat.old) (H.view seat.new)) }
        ensures exact { OnOk result (ReachesAllHeld (H.view seat.old)
            → ReachesAllHeld (H.view seat.new)) }
        ensures cause { IfErr result (λ e. Stops e.step (H.view seat.old) (H.view seat.new)) }

        // At every exit.
        ensures crash { MayChange (shard_of key) (λ map. without_key map key)
            (H.view seat.old) (H.view seat.new) }
        ensures calls { MakesFew 0 0 (shard_of key) (H.view seat.old) (H.view seat.new) }
        ensures refusals { SameRefusals (H.view seat.old) (H.view seat.new) }
        ensures kept { H.keeps seat.old seat.new }
        ensures same { self.new ≡ self.old }
    {
        match search(seat, key)? {
            SearchEnd::Found(place) => {
                remove(seat, key, place)?;
                Ok(true)
            }
            SearchEnd::Missing(_) => Ok(false),
            SearchEnd::NoTable => Ok(false),
        }
    }

    /// Sets a key. Its node is the first of its bucket, or takes the place of the old one, which is
    /// freed.
    ///
    /// After `Stopped` a crash leaves the map as before or with the key set. `Full` leaves the map
    /// as before; a table may have been made.
    pub fn put<H: HeapSeat>(
        &mut self,
        seat: &mut H,
        key: u64,
        value: &[u8],
    ) -> Result<(), AllocFault>
        requires key { shard_of key ≡ self.old.number }
        requires shard { IsShard (H.view seat.old) (shard_of key) }
        requires short { length value.now ≤ largest_value }
        ensures ok { OnOk result (Changes (shard_of key) (λ map. with_key map key value.now)
            (H.view seat.old) (H.view seat.new)) }
        ensures runs { OnOk result (Runs (H.view seat.old) (H.view seat.new)) }
        ensures refusals { OnOk result (SameRefusals (H.view seat.old) (H.view seat.new)) }
        ensures exact { OnOk result (ReachesAllHeld (H.view seat.old)
            → ReachesAllHeld (H.view seat.new)) }
        ensures exact_full { IfErr result (λ fault. (looks : Looks) → fault ≡ Full looks
            → ReachesAllHeld (H.view seat.old) → ReachesAllHeld (H.view seat.new)) }
        ensures cause { IfErr result (λ fault. PutAnswers (node_bytes (length value.now))
            (shard_of key) fault (H.view seat.old) (H.view seat.new)) }
        ensures none { IfErr result (λ fault. (looks : Looks) → fault ≡ Full looks
            → WasTurnedDown H.keeps H.has_none (H.view seat.new).refused_bytes
            (H.view seat.new).refused_looks seat.old seat.new) }

        // At every exit.
        ensures crash { MayChange (shard_of key) (λ map. with_key map key value.now)
            (H.view seat.old) (H.view seat.new) }
        ensures taken { PutTakes (node_bytes (length value.now)) (shard_of key)
            (H.view seat.old) (H.view seat.new) }
        ensures calls { MakesFew (value_words (length value.now))
            (span_of (node_bytes (length value.now)) + span_of table_bytes) (shard_of key)
            (H.view seat.old) (H.view seat.new) }
        ensures kept { H.keeps seat.old seat.new }
        ensures same { self.new ≡ self.old }
    {
        match search(seat, key)? {
            SearchEnd::Found(place) => put_over(seat, place, key, value),
            SearchEnd::Missing(table) => put_first(seat, table, key, value),
            SearchEnd::NoTable => {
                let table = make_table(seat, key)?;
                put_first(seat, table, key, value)
            }
        }
    }
}
