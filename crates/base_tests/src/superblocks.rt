//! Where things stand in an image, which block an offset names, and a heap at rest.
ghost use Rattle.std.specs.Prelude.{◌<◌, ◌≤◌};
ghost use Rattle.heap_model.specs.Geometry.{largest_capacity};

use crate::asserts::{must_hold, three_columns};
use crate::images::{block_of, good_image};
use region_header::format;
use size_table::{SizeClass, blocks_of};
use std::alloc::Global;
use std::process::Abort;
use std::test::Fail;
use super_block::{
    Block, Directory, Geometry, Ready, WORD_BYTES, an_empty_heap_is_ready, block_at, name,
};
use test_images::number;

/// Asserts that an image of so many superblocks has so many words, and where its superblocks begin.
fn must_measure(rt: &impl Abort, capacity: u64, words: u64, start_byte: u64)
    requires some { 1 ≤ capacity }
    requires small { capacity ≤ largest_capacity }
{
    let geometry = Geometry::new(capacity);
    must_hold(rt, geometry.length() == words, "words");
    must_hold(
        rt,
        WORD_BYTES * geometry.start(0) == start_byte,
        "the start",
    );
}

#[tactic(auto, unfolding(heap_model::specs::Geometry::largest_capacity))]
#[test]
fn an_image_has_the_length_of_its_capacity(rt: HostRuntime) {
    must_measure(&rt, 1, 10_288, 8_576);
    must_measure(&rt, 2, 18_488, 8_640);
    must_measure(&rt, 4, 34_888, 8_768);
    must_measure(&rt, 256, 2_101_288, 24_896);
    must_measure(&rt, 4_096, 33_589_288, 270_656);
}

/// Asserts where the descriptor of superblock d of four stands, and where the superblock begins.
#[tactic(auto, unfolding(heap_model::specs::Geometry::largest_capacity))]
fn must_stand(rt: &impl Abort, d: u64, info: u64, start: u64)
    requires { d < 4 }
{
    let geometry = Geometry::new(4);
    must_hold(rt, geometry.info(d) == info, "the info");
    must_hold(rt, geometry.anchor(d) == info.wrapping_add(1), "the anchor");
    must_hold(rt, geometry.link(d) == info.wrapping_add(2), "the link");
    must_hold(rt, geometry.start(d) == start, "the start");
}

#[tactic(auto, unfolding(heap_model::specs::Geometry::largest_capacity))]
#[test]
fn the_kinds_of_the_roots_stand_behind_the_superblocks(rt: HostRuntime) {
    let geometry = Geometry::new(2);
    must_hold(&rt, geometry.old_length() == 17_464, "the first");
    must_hold(&rt, geometry.kind(0) == 17_464, "of root 0");
    must_hold(&rt, geometry.kind(1_023) == 18_487, "of root 1023");
}

#[tactic(auto, unfolding(heap_model::specs::Geometry::largest_capacity))]
#[test]
fn a_descriptor_is_one_line_and_a_superblock_8192_words(rt: HostRuntime) {
    must_hold(&rt, Geometry::new(4).capacity() == 4, "the capacity");
    must_stand(&rt, 0, 1_064, 1_096);
    must_stand(&rt, 1, 1_072, 9_288);
    must_stand(&rt, 3, 1_088, 25_672);
}

/// The words of an image of two superblocks, an offset, and the block that begins there.
const NAMED: &str = "
used 2, info:0 12, info:1 2 | 8640 | 1080/128
used 2, info:0 12, info:1 2 | 8648 | none
used 2, info:0 12, info:1 2 | 8632 | none
used 2, info:0 12, info:1 2 | 74208 | 9276/4
used 2, info:0 12, info:1 21 | 74208 | none
used 2, info:0 767, info:1 0 | 8640 | 1080/16384
used 2, info:0 767, info:1 0 | 9664 | none
used 2, info:0 767, info:1 4 | 8640 | none
used 2, info:0 0, info:1 767 | 74176 | none
used 2, info:0 255, info:1 0 | 8640 | none
";

/// Asserts what a row tells.
fn must_name(rt: &(impl Abort + AllocGlobal), row: &str) -> Result<(), Fail> {
    let (words, offset, block) = three_columns(row)?;
    let found = names(rt.alloc(), words, number(offset)?)?;
    let wanted = told_block(block)?;
    must_hold(rt, found == (wanted, wanted), row);
    Ok(())
}

/// The block that is told, or none.
fn told_block(told: &str) -> Result<Option<Block>, Fail> {
    if told == "none" {
        return Ok(None);
    }
    Ok(Some(block_of(told)?))
}

/// The block that the offset names in an image of two superblocks with these words, by the words
/// and by its directory.
fn names(alloc: Global, words: &str, offset: u64) -> Result<(Option<Block>, Option<Block>), Fail> {
    let words = good_image(alloc, 2, words)?;
    let directory = Directory::of(alloc, &words)?;
    Ok((name(&words, offset), directory.name(offset)))
}

#[test]
fn an_offset_names_the_block_that_begins_there(rt: HostRuntime) -> Result<(), Fail> {
    for row in NAMED.trim().split('\n') {
        must_name(&rt, row)?;
    }
    Ok(())
}

#[tactic(auto, unfolding(heap_model::specs::Geometry::largest_capacity))]
#[test]
fn a_block_of_a_class_lies_in_its_superblock(rt: HostRuntime) {
    let geometry = Geometry::new(2);
    assert!(rt; 1 < blocks_of(2));
    let block = block_at(&geometry, 1, 1, SizeClass::new(2));
    must_hold(&rt, block.first_word == 9_276, "the first word");
    must_hold(&rt, block.words == 4, "the words");
}

#[tactic(auto, unfolding(heap_model::specs::Geometry::largest_capacity))]
#[test]
fn an_empty_heap_is_made_and_taken_apart(rt: HostRuntime) -> Result<(), Fail> {
    an_empty_heap_is_ready();
    let heap = Ready::new(format(rt.alloc(), 1)?, Vec::new(rt.alloc()));
    must_hold(&rt, heap.geometry().capacity() == 1, "the capacity");
    must_hold(&rt, heap.words().len() == 10_288, "the words");
    must_hold(&rt, heap.held().is_empty(), "nothing is held");
    let (words, held) = heap.into_parts();
    must_hold(&rt, words.len() == 10_288, "the words apart");
    must_hold(&rt, held.is_empty(), "nothing is held apart");
    Ok(())
}
