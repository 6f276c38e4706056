//! A recoverable dictionary over any open heap: the requests to its shards.
#![tactic(auto)]

mod bringing;
mod laws;
mod moving;
mod node;
mod publish;
mod reading;
mod removal;
mod search;
mod shard;
mod table;
mod value;
mod walk;

pub use heap_seat::AllocFault as PutFault;
pub use laws::{
    a_bring_leaves_the_other_shards, a_loose_block_may_be_offered, a_node_goes_with_its_value,
    a_shard_of_a_seat_is_a_shard_of_the_heap, an_accepted_block_is_loose,
    calls_that_store_nothing_leave_all, images_have_the_map, requests_go_on_from_shard_to_shard,
    tables_stay,
};
pub use shard::Shard;
