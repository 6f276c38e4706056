//! Why a shard has no map.
ghost use Rattle.std.specs.Prelude.{◌≡◌};
ghost use Rattle.dictionary.specs.declared.fault.MapFault.TheVariants.{Memory};

use std::alloc::AllocError;

/// Why a shard has no map.
#[derive(Clone, Copy, PartialEq, Eq, Debug)]
pub enum MapFault {
    /// The root of the shard has another kind than that of a table, or it or a link leads to what it
    /// may not.
    BadShard {
        /// The shard, by the number of its root.
        shard: usize,
        /// The index in the image of the first such word: the kind, the root, and then the links in
        /// the order of buckets and chains.
        at: u64,
    },
    /// Memory ran out.
    Memory,
}

impl From<AllocError> for MapFault {
    ghost from_gives = { λ _ fault. fault ≡ Memory };

    fn from(_error: AllocError) -> MapFault {
        MapFault::Memory
    }
}
