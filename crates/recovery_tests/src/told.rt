//! What the rows of the tests tell: images, blocks, superblocks, words, and modes of roots.
ghost use Rattle.std.specs.Prelude.{◌≡◌, length, IfOk, IfSome};
ghost use Rattle.std.specs.List.{All};
ghost use Rattle.heap_model.specs.Geometry.{roots};
ghost use Rattle.mixed_trace.specs.Reach.{FitsBelow};

use heap_model::Block;
use mixed_trace::Mode;
use std::alloc::{AllocError, Global};
use std::test::Fail;
use test_images::{change, image_of, number, old_image_of};

/// An image of one or two superblocks with these changes; `old` before the number for one of the
/// old version.
#[tactic(auto, unfolding(heap_model::specs::Geometry::largest_capacity))]
pub fn image_told(alloc: Global, superblocks: &str, changes: &str) -> Result<Vec<u64>, Fail> {
    let count = number(superblocks.trim_start_matches("old "))?;
    if count == 0 || count > 2 {
        return Err("no image".into());
    }
    if superblocks.starts_with("old") {
        old_image_of(alloc, count, changes)
    } else {
        image_of(alloc, count, changes)
    }
}

/// The mode: `a` for none of the filter's kinds, or one of these.
pub fn mode_told(told: &str) -> Option<Mode>
    ensures { IfSome result (FitsBelow 3) }
{
    match told {
        "a" => Some(Mode::All),
        "0" => Some(Mode::Kind(0)),
        "1" => Some(Mode::Kind(1)),
        "2" => Some(Mode::Kind(2)),
        _ => None,
    }
}

/// The modes of root 0, of root 1 and of all others, with a space between them.
pub fn modes_told(alloc: Global, told: &str) -> Result<Vec<Mode>, Fail>
    ensures long { IfOk result (λ modes. length modes.items ≡ roots) }
    ensures fit { IfOk result (λ modes. All (FitsBelow 3) modes.items) }
{
    let (first, rest) = told.split_once(' ').ok_or("no modes")?;
    let (second, others) = rest.split_once(' ').ok_or("no modes")?;
    let first = mode_told(first).ok_or("no mode")?;
    let second = mode_told(second).ok_or("no mode")?;
    let others = mode_told(others).ok_or("no mode")?;
    Ok(modes(alloc, first, second, others)?)
}

/// These modes.
fn modes(alloc: Global, first: Mode, second: Mode, others: Mode) -> Result<Vec<Mode>, AllocError>
    requires first { FitsBelow 3 first }
    requires second { FitsBelow 3 second }
    requires others { FitsBelow 3 others }
    ensures long { IfOk result (λ modes. length modes.items ≡ roots) }
    ensures fit { IfOk result (λ modes. All (FitsBelow 3) modes.items) }
{
    let mut modes = vec![in alloc; others; 1_024]?;
    modes[0] = first;
    modes[1] = second;
    Ok(modes)
}

/// The block that is told, by its first word and how many words it has: `1072/4`.
pub fn block_told(told: &str) -> Result<Block, Fail> {
    let (first_word, words) = told.split_once('/').ok_or("no length")?;
    Ok(Block {
        first_word: number(first_word)?,
        words: number(words)?,
    })
}

/// Whether these are the blocks that are told, or `-` where none is.
pub fn are_held(held: &[Block], told: &str) -> Result<bool, Fail> {
    if told == "-" {
        return Ok(held.is_empty());
    }
    let mut count = 0usize;
    for block in told.split(' ') {
        if held.get(count) != Some(&block_told(block)?) {
            return Ok(false);
        }
        count = count.wrapping_add(1);
    }
    Ok(count == held.len())
}

/// Whether these are the superblocks that are told, or `-` where none is.
pub fn are_free(free: &[u32], told: &str) -> bool {
    match free {
        [] => told == "-",
        [0] => told == "0",
        [1] => told == "1",
        [0, 1] => told == "0 1",
        _ => false,
    }
}

/// Whether the heap has these words: to write them changes nothing.
pub fn has_told(alloc: Global, words: &[u64], told: &str) -> Result<bool, Fail> {
    let mut written = Vec::from_slice(alloc, words)?;
    change(&mut written, told)?;
    Ok(written.as_slice() == words)
}
