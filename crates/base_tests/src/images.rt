//! Images with a good header, and blocks and pairs of numbers told as texts.
ghost use Rattle.std.specs.Prelude.{◌≤◌, ◌*◌, length, slice_index, IfOk};
ghost use Rattle.heap_model.specs.Header.{IsWellFormed};

use heap_model::Block;
use region_header::read_header;
use std::alloc::Global;
use std::test::Fail;
use super_block::VERSION;
use test_images::{image_of, number};

/// An empty image of up to four superblocks with these changes (`test_images`), whose header is good.
#[tactic(auto, unfolding(heap_model::specs::Geometry::largest_capacity))]
pub fn good_image(alloc: Global, capacity: u64, changes: &str) -> Result<Vec<u64>, Fail>
    requires some { 1 ≤ capacity }
    requires small { capacity ≤ 4 }
    ensures { IfOk result
        (λ image. IsWellFormed (8 * length image.items) (slice_index image.items)) }
{
    checked(image_of(alloc, capacity, changes)?)
}

/// The image, if its header is a good one of this version.
pub fn checked(words: Vec<u64>) -> Result<Vec<u64>, Fail>
    ensures { IfOk result
        (λ image. IsWellFormed (8 * length image.items) (slice_index image.items)) }
{
    match read_header(&words, None) {
        Ok(header) if header.version == VERSION => Ok(words),
        _ => Err("a bad header".into()),
    }
}

/// The block told by its first word and its number of words, as `1080/128`.
pub fn block_of(text: &str) -> Result<Block, Fail> {
    let (first_word, words) = two_numbers(text, '/')?;
    Ok(Block { first_word, words })
}

/// The two numbers that a text tells, with this between them.
pub fn two_numbers(text: &str, between: char) -> Result<(u64, u64), Fail> {
    let (first, second) = text.split_once(between).ok_or("no two numbers")?;
    Ok((number(first)?, number(second)?))
}
