//! A recoverable dictionary in a heap: how its blocks are linked, and its shards read as maps.
#![tactic(auto)]

mod fault;
mod filter;
mod laws;
mod mapped;
mod read;
mod together;
mod walk;

pub use dict_requests::{PutFault, Shard};
pub use fault::MapFault;
pub use filter::{DictFilter, NODE, OTHER, TABLE, root_kinds};
pub use laws::recovery_keeps_each_shard;
pub use mapped::MappedHeap;
pub use read::{maps_of, origins_of, read_map, read_maps};
