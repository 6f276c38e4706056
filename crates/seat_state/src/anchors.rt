//! The anchors that exchanges leave, and the block that one leads to.

ghost use Rattle.std.specs.Prelude.{◌≡◌, ◌+◌, ◌*◌, ◌<◌, ◌≤◌, ◌≢◌};
ghost use Rattle.heap_model.specs.Geometry.{start_word};
ghost use Rattle.heap_model.specs.Sizes.{words_of_class};
ghost use Rattle.heap_model.specs.Words.{anchor_state, anchor_count, anchor_first, full_anchor};
ghost use Rattle.core_model.specs.Effects.{given_anchor};

use anchor_word::{FULL, anchor_first, give, pack, unpack};
use size_table::SizeClass;
use super_block::{Geometry, block_words};

/// The anchor after all free blocks of its superblock were taken.
pub fn anchor_after_take_all() -> u64
    ensures { result ≡ full_anchor }
{
    pack(&FULL)
}

/// The anchor after a batch of `count` blocks, of which block `first` comes first, was given to a
/// superblock of `all` blocks. A word that is no anchor is left as it is.
pub fn anchor_after_give(anchor: u64, first: u64, count: u64, all: u64) -> u64
    requires is_anchor { anchor_state anchor ≢ 3 }
    requires fits { count + anchor_count anchor ≤ all }
    requires first { first < 2147483648 }
    requires all { all < 2147483648 }
    ensures { result ≡ given_anchor anchor first count all }
{
    match unpack(anchor) {
        Some(old) => pack(&give(&old, first, count, all)),
        None => anchor,
    }
}

/// The block that an anchor of superblock `d` leads to first.
pub fn first_free(geometry: Geometry, d: u64, class: SizeClass, anchor: u64) -> u64
    requires { d < geometry.capacity }
    ensures { result
        ≡ start_word geometry.capacity d + anchor_first anchor * words_of_class class.number }
{
    geometry.start(d) + anchor_first(anchor) * block_words(class)
}
