//! Images told as texts, for sessions.
use region_header::words_to_bytes;
use std::alloc::Global;
use std::test::Fail;
use test_images::{change, image_of, number};

/// A table in superblock 0 of two, to which root 0 points, and in its bucket 0 a node of four words
/// in superblock 1, with key 0 and no byte.
const TABLE: &str = "used 2, info:0 12, info:1 2, root:0 @1080, 1080 @9272";

/// The words of an empty image of so many superblocks, one to eight, or of one of two with that
/// table.
#[tactic(auto, unfolding(heap_model::specs::Geometry::largest_capacity))]
fn base_words(alloc: Global, base: &str) -> Result<Vec<u64>, Fail> {
    if base == "table" {
        return image_of(alloc, 2, TABLE);
    }
    let superblocks = number(base)?;
    if superblocks == 0 || 8 < superblocks {
        return Err("no image of this name".into());
    }
    image_of(alloc, superblocks, "")
}

/// The words of such an image, in which some words were changed: as `2`, or as
/// `table: 9273 8, 9274 0`.
fn image_words(alloc: Global, text: &str) -> Result<Vec<u64>, Fail> {
    let (base, changes) = text.split_once(": ").unwrap_or((text, ""));
    let mut words = base_words(alloc, base)?;
    change(&mut words, changes)?;
    Ok(words)
}

fn resized(mut bytes: Vec<u8>, length: Result<u64, Fail>) -> Result<Vec<u8>, Fail> {
    bytes.resize(length? as usize, 0)?;
    Ok(bytes)
}

fn whole_bytes(alloc: Global, text: &str) -> Result<Vec<u8>, Fail> {
    let words = image_words(alloc, text)?;
    Ok(words_to_bytes(alloc, &words)?.into_vec())
}

/// The bytes of such an image, cut or filled up to a length where one is told: as
/// `1: state 2; 8511`.
pub fn image_bytes(alloc: Global, text: &str) -> Result<Vec<u8>, Fail> {
    let (text, length) = text.split_once("; ").unwrap_or((text, ""));
    let bytes = whole_bytes(alloc, text)?;
    if length.is_empty() {
        return Ok(bytes);
    }
    resized(bytes, number(length))
}
