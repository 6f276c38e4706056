//! Why an image is not opened as a dictionary.
ghost use Rattle.std.specs.Prelude.{◌≡◌};
ghost use Rattle.dictionary_heap.specs.declared.fault.OpenFault.TheVariants.{Memory};
ghost use Rattle.dictionary_heap.specs.Faults.{of_recovery, of_maps};

use dictionary::MapFault;
use heap_model::BadHeader;
use heap_recover::RecoverFault;
use std::alloc::AllocError;

/// Why an image is not opened as a dictionary.
#[derive(Clone, Copy, PartialEq, Eq, Debug)]
pub enum OpenFault {
    /// The header is malformed.
    Header(BadHeader),
    /// A root, or a linked word of a reached block, is neither null nor a pointer to the first
    /// byte of a block.
    Outside {
        /// The index of that word in the image.
        at: u64,
        /// What stands there.
        value: u64,
    },
    /// A shard has no map. It is the lowest such shard.
    BadShard {
        /// The shard, by the number of its root.
        shard: usize,
        /// The index in the image of the first word that is not as it has to be.
        at: u64,
    },
    /// Memory ran out.
    Memory,
}

impl From<RecoverFault> for OpenFault {
    ghost from_gives = { λ cause fault. fault ≡ of_recovery cause };

    fn from(cause: RecoverFault) -> OpenFault {
        match cause {
            RecoverFault::Header(bad) => OpenFault::Header(bad),
            RecoverFault::Outside { at, value } => OpenFault::Outside { at, value },
            RecoverFault::Memory => OpenFault::Memory,
        }
    }
}

impl From<MapFault> for OpenFault {
    ghost from_gives = { λ cause fault. fault ≡ of_maps cause };

    fn from(cause: MapFault) -> OpenFault {
        match cause {
            MapFault::BadShard { shard, at } => OpenFault::BadShard { shard, at },
            MapFault::Memory => OpenFault::Memory,
        }
    }
}

impl From<AllocError> for OpenFault {
    ghost from_gives = { λ _ fault. fault ≡ Memory };

    fn from(_error: AllocError) -> OpenFault {
        OpenFault::Memory
    }
}
