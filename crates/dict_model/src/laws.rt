//! What follows from the definitions, as functions with nothing to run: a caller cites their
//! clauses.

ghost use Rattle.std.specs.Prelude.{◌≡◌, ℕ};
ghost use Rattle.heap_model.specs.Image.{Image};
ghost use Rattle.dict_model.specs.Layout.{next_index, key_index, length_index, value_index};
ghost use Rattle.dict_model.specs.Links.{shards};
ghost use Rattle.dict_model.specs.Nodes.{buckets, largest_value};
ghost use Rattle.dict_model.specs.Shards.{Map, MapOf, BadShard};

use crate::{BUCKETS, KEY_INDEX, LARGEST_VALUE, LENGTH_INDEX, NEXT_INDEX, SHARDS, VALUE_INDEX};

/// The constants of this crate are the numbers that the definitions speak of.
pub fn constants_agree()
    ensures shards { SHARDS ≡ shards }
    ensures buckets { BUCKETS ≡ buckets }
    ensures largest_value { LARGEST_VALUE ≡ largest_value }
    ensures next { NEXT_INDEX ≡ next_index }
    ensures key { KEY_INDEX ≡ key_index }
    ensures length { LENGTH_INDEX ≡ length_index }
    ensures value { VALUE_INDEX ≡ value_index }
{}

/// A shard of an image is one map, or it has one first bad place, and not both.
pub fn a_shard_is_one_map_or_bad_at_one_place()
    ensures map { (image : Image) (shard : ℕ) (a b : Map) → MapOf image shard a
        → MapOf image shard b
        → (key : ℕ) → a key ≡ b key }
    ensures bad { (image : Image) (shard at other : ℕ) → BadShard image shard at
        → BadShard image shard other
        → at ≡ other }
    ensures either { (image : Image) (shard at : ℕ) (map : Map) → MapOf image shard map
        → BadShard image shard at
        → ⊥ }
{}
