//! The image of an empty heap, and images as words and as bytes.
ghost use Rattle.std.specs.Prelude.{◌≤◌};

use crate::asserts::{count_of, must_hold};
use region_header::{
    BadHeader, Header, bytes_to_words, format, format_with_kinds, read_header, words_to_bytes,
};
use std::alloc::{AllocError, Global};
use std::process::Abort;
use std::test::Fail;
use super_block::ROOTS;

/// An empty image of so many superblocks.
#[tactic(auto, unfolding(heap_model::specs::Geometry::largest_capacity))]
pub fn empty(alloc: Global, capacity: u64) -> Result<Vec<u64>, AllocError>
    requires some { 1 ≤ capacity }
    requires small { capacity ≤ 4096 }
{
    format(alloc, capacity)
}

/// Asserts that an empty image of so many superblocks has so many words and bytes, the header of
/// one, and no word that is not 0 beside the mark, the version, the capacity, the state and the
/// kinds of eight roots.
fn must_be_empty(
    rt: &(impl Abort + AllocGlobal),
    capacity: u64,
    words: usize,
    bytes: usize,
) -> Result<(), Fail>
    requires some { 1 ≤ capacity }
    requires small { capacity ≤ 4096 }
{
    let image = empty(rt.alloc(), capacity)?;
    must_hold(rt, image.len() == words, "words");
    must_have_no_more(rt, &image, capacity);
    must_fill(rt, &image, bytes)?;
    Ok(())
}

/// Asserts that the words are the header of so many superblocks, and zeros.
fn must_have_no_more(rt: &impl Abort, image: &[u64], capacity: u64) {
    let header = Header {
        version: 2,
        capacity,
        clean: true,
        used: 0,
    };
    must_hold(rt, read_header(image, Some(2)) == Ok(header), "the header");
    let filled = image.len().wrapping_sub(count_of(image, 0));
    must_hold(rt, filled == 12, "words that are not 0");
}

/// Asserts that the image has so many bytes, which begin with the mark's text.
fn must_fill(
    rt: &(impl Abort + AllocGlobal),
    image: &[u64],
    bytes: usize,
) -> Result<(), AllocError> {
    let file = words_to_bytes(rt.alloc(), image)?;
    must_hold(rt, file.as_slice().len() == bytes, "bytes");
    must_hold(rt, file.as_slice().starts_with(b"10COLLAR"), "the text");
    Ok(())
}

#[test]
fn an_empty_image_has_the_size_of_its_capacity(rt: HostRuntime) -> Result<(), Fail> {
    must_be_empty(&rt, 1, 10_288, 82_304)?;
    must_be_empty(&rt, 2, 18_488, 147_904)?;
    must_be_empty(&rt, 4, 34_888, 279_104)?;
    must_be_empty(&rt, 257, 2_109_488, 16_875_904)
}

#[test]
fn the_largest_image_has_its_size(rt: HostRuntime) -> Result<(), Fail> {
    let image = empty(rt.alloc(), 4_096)?;
    must_hold(&rt, image.len() == 33_589_288, "words");
    Ok(())
}

/// An empty image of two superblocks, whose roots have kind 1 but for the first and the last.
#[tactic(auto, unfolding(heap_model::specs::Geometry::largest_capacity))]
fn with_kinds(alloc: Global) -> Result<Vec<u64>, AllocError> {
    let mut kinds = [1; ROOTS as usize];
    kinds[0] = 2;
    kinds[1_023] = 4;
    format_with_kinds(alloc, 2, &kinds)
}

#[test]
fn an_empty_image_has_the_kinds_that_are_given(rt: HostRuntime) -> Result<(), Fail> {
    let image = with_kinds(rt.alloc())?;
    must_hold(&rt, image.len() == 18_488, "words");
    must_hold(&rt, image.get(17_464) == Some(&2), "of root 0");
    must_hold(&rt, image.get(17_465) == Some(&1), "of root 1");
    must_hold(&rt, image.get(18_487) == Some(&4), "of root 1023");
    must_hold(&rt, read_header(&image, Some(5)).is_ok(), "five kinds");
    let few = read_header(&image, Some(4));
    must_hold(&rt, few == Err(BadHeader::Kind), "four kinds");
    Ok(())
}

/// Three words.
const WORDS: [u64; 3] = [0x0102_0304_0506_0708, 1, 1 << 63];

/// Their bytes.
const BYTES: [u8; 24] = [
    8, 7, 6, 5, 4, 3, 2, 1, 1, 0, 0, 0, 0, 0, 0, 0, 0, 0, 0, 0, 0, 0, 0, 128,
];

#[test]
fn the_lowest_byte_of_a_word_is_written_first(rt: HostRuntime) -> Result<(), Fail> {
    let bytes = words_to_bytes(rt.alloc(), &WORDS)?;
    must_hold(&rt, bytes.as_slice() == BYTES.as_slice(), "bytes");
    Ok(())
}

#[test]
fn the_first_byte_that_is_read_is_the_lowest_of_a_word(rt: HostRuntime) -> Result<(), Fail> {
    let words = bytes_to_words(rt.alloc(), &BYTES)?;
    must_hold(&rt, words.as_slice() == WORDS.as_slice(), "words");
    Ok(())
}
