//! How a superblock is divided into blocks, by its info word.

ghost use Rattle.std.specs.Prelude.{◌≡◌, ◌<◌, ◌≤◌, ◌+◌, ◌*◌, ◌^◌, ℕ, length, slice_index, IfSome, IfNone};
ghost use Rattle.heap_model.specs.Header.{IsWellFormed, used_of};
ghost use Rattle.heap_model.specs.Blocks.{Begins, layout_of};
ghost use Rattle.heap_model.specs.Geometry.{info_word};
ghost use Rattle.heap_model.specs.Sizes.{words_of_class, blocks_of};
ghost use Rattle.heap_model.specs.Words.{large_info};
ghost use Rattle.super_block.specs.Division.{IsDivision, DividesAs};

use crate::info::Info;
use crate::layout::{DESCRIPTOR_WORDS, FIXED_WORDS, SUPERBLOCK_WORDS, USED_WORD, WORD_BYTES};
use size_table::{SizeClass, blocks_of, size_of};

/// The blocks that one superblock begins: `count` of `words` words each, one behind the other.
#[derive(Clone, Copy, PartialEq, Eq, Debug)]
pub struct Division {
    /// The words of each block.
    pub words: u64,
    /// How many blocks there are.
    pub count: u64,
}

/// What superblock `d` begins, or `None` where its info says nothing that fits.
pub(crate) fn division_at(words: &[u64], d: u64) -> Option<Division>
    requires formed { IsWellFormed (8 * length words.now) (slice_index words.now) }
    requires taken { d < used_of (slice_index words.now) }
    ensures { DividesAs (layout_of (slice_index words.now)) d result }
{
    match Info::unpack(words[info_index(d)]) {
        Info::Nothing => None,
        Info::Class(class) => Some(class_division(class)),
        Info::Large(count) => large_division(words, d, count),
    }
}

/// Where the info of superblock `d` stands.
fn info_index(d: u64) -> usize
    requires { d < 2 ^ 32 }
    ensures { result ≡ info_word d }
{
    (FIXED_WORDS + DESCRIPTOR_WORDS * d) as usize
}

/// The words of a block of the class.
pub fn block_words(class: SizeClass) -> u64
    ensures words { result ≡ words_of_class class.number }
    ensures some { 1 ≤ result }
{
    size_of(class.number) / WORD_BYTES
}

/// The blocks of a superblock of the class.
pub(crate) fn class_division(class: SizeClass) -> Division
    ensures words { result.words ≡ words_of_class class.number }
    ensures count { result.count ≡ blocks_of class.number }
{
    Division {
        words: block_words(class),
        count: blocks_of(class.number),
    }
}

/// The one large block that superblock `d` begins, or `None` where it would go past the taken
/// superblocks, or one behind the first has an info of its own.
fn large_division(words: &[u64], d: u64, count: u64) -> Option<Division>
    requires formed { IsWellFormed (8 * length words.now) (slice_index words.now) }
    requires taken { d < used_of (slice_index words.now) }
    requires some { 1 ≤ count }
    requires info { slice_index words.now (info_word d) ≡ large_info count }
    ensures { DividesAs (layout_of (slice_index words.now)) d result }
{
    if count > words[USED_WORD as usize] - d {
        return None;
    }
    for inner in d + 1..d + count {
        if words[info_index(inner)] != 0 {
            return None;
        }
    }
    Some(Division {
        words: SUPERBLOCK_WORDS * count,
        count: 1,
    })
}
