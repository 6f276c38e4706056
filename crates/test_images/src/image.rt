//! Images in which words have other values than an empty heap's.
ghost use Rattle.std.specs.Prelude.{◌≤◌};
ghost use Rattle.heap_model.specs.Geometry.{largest_capacity};

use crate::place::number;
use region_header::format;
use std::alloc::Global;
use std::test::Fail;
use super_block::{OLD_VERSION, ROOTS, VERSION_WORD};

/// An empty image of so many superblocks, with these changes: for each a word and its value, as in
/// `used 1, info:0 20, root:8 @1080, kind:8 2`. The empty text changes nothing.
pub fn image_of(alloc: Global, capacity: u64, changes: &str) -> Result<Vec<u64>, Fail>
    requires some { 1 ≤ capacity }
    requires small { capacity ≤ largest_capacity }
{
    let mut image = format(alloc, capacity)?;
    change(&mut image, changes)?;
    Ok(image)
}

/// The same of the old version, which has no kinds.
pub fn old_image_of(alloc: Global, capacity: u64, changes: &str) -> Result<Vec<u64>, Fail>
    requires some { 1 ≤ capacity }
    requires small { capacity ≤ largest_capacity }
{
    let mut image = format(alloc, capacity)?;
    image.truncate(image.len().saturating_sub(ROOTS as usize));
    if let Some(version) = image.get_mut(VERSION_WORD as usize) {
        *version = OLD_VERSION;
    }
    change(&mut image, changes)?;
    Ok(image)
}

/// Makes such changes.
pub fn change(image: &mut [u64], changes: &str) -> Result<(), Fail> {
    for change in changes.split(", ") {
        if let Some((word, value)) = change.split_once(' ') {
            let at = place_in(image.len(), word)?;
            let place = image.get_mut(at).ok_or("no such word")?;
            *place = number(value)?;
        }
    }
    Ok(())
}

/// The word that is told, in an image of so many: the kinds of the roots are its last words.
fn place_in(length: usize, word: &str) -> Result<usize, Fail> {
    match word.strip_prefix("kind:") {
        Some(root) => {
            let first = length.wrapping_sub(ROOTS as usize);
            Ok(first.wrapping_add(number(root)? as usize))
        }
        None => Ok(number(word)? as usize),
    }
}
