//! The first user of the dictionary: it sets, reads and takes out keys on a heap in memory, is
//! stopped in the middle of a put, and reads what a crash leaves.
#![tactic(auto)]

ghost use Rattle.block_heap.specs.SeqState.{seat_of};
ghost use Rattle.dict_requests.specs.Shards.{HasShards};

use block_heap::SeqHeap;
use dict_requests::requests_go_on_from_shard_to_shard;
use dictionary::{PutFault, Shard};
use dictionary_heap::{open_dictionary, recover_dictionary};
use line_memory::ConstantChance;
use region_header::format;
use std::str;
use std::test::Fail;

/// How many steps the heap takes before it stops.
const BUDGET: u64 = 2_720;

/// Sets, reads and takes out keys, until the heap stops in the middle of a put.
fn work(rt: &HostRuntime, heap: &mut SeqHeap<ConstantChance>) -> Result<(), Fail>
    requires { HasShards (seat_of heap.old) }
{
    requests_go_on_from_shard_to_shard();
    Shard::at(1).put(heap, 1, b"one")?;
    Shard::at(2).put(heap, 2, b"two")?;
    let mut room = [0; 8];
    let length = Shard::at(1).get(heap, 1, &mut room)?;
    println!(rt; "get 1: {length:?}")?;
    let found = Shard::at(2).del(heap, 2)?;
    println!(rt; "del 2: {found}")?;
    if let Err(PutFault::Stopped(stopped)) = Shard::at(1).put(heap, 1, b"uno") {
        println!(rt; "put 1: stopped at step {}", stopped.step)?;
    }
    Ok(())
}

/// Tells the keys that recovery finds in what a crash leaves.
fn tell(rt: &HostRuntime, kept: &[u64]) -> Result<(), Fail> {
    let left = recover_dictionary(rt.alloc(), kept)?;
    for map in &left.maps {
        for (key, value) in map {
            println!(rt; "{key} is {}", str::from_utf8(value.as_slice())?)?;
        }
    }
    Ok(())
}

#[tactic(auto, unfolding(heap_model::specs::Geometry::largest_capacity))]
fn main(rt: HostRuntime) -> Result<(), Fail> {
    let alloc = rt.alloc();
    let image = format(alloc, 2)?;
    let mut heap = open_dictionary(alloc, &image, BUDGET, ConstantChance(0))?;
    work(&rt, &mut heap)?;
    tell(&rt, &heap.finish().kept)
}
