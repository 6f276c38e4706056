//! What a heap image means as a dictionary: keys and values of the shards of an image.
#![tactic(auto)]

mod laws;

pub use laws::{a_shard_is_one_map_or_bad_at_one_place, constants_agree};

/// How many shards there are: the shard of a key is its remainder.
pub const SHARDS: u64 = 8;

/// How many buckets a table has: one for each of its words.
pub const BUCKETS: u64 = 128;

/// The bytes of the longest value.
pub const LARGEST_VALUE: u64 = 131_072;

/// The index of a node's word that has the pointer to the next node, or null.
pub const NEXT_INDEX: u64 = 0;

/// The index of the word that has the key.
pub const KEY_INDEX: u64 = 1;

/// The index of the word that has the length of the value in bytes.
pub const LENGTH_INDEX: u64 = 2;

/// The index of the first word of the value's bytes, which is also how many words stand in front.
pub const VALUE_INDEX: u64 = 3;
