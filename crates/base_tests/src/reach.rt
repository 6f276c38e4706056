//! What roots reach, through the links that a filter lists.
ghost use Rattle.std.specs.Prelude.{
  ◌≡◌,
  ◌<◌,
  ◌*◌,
  length,
  slice_get,
  slice_index,
  IfOk,
};
ghost use Rattle.std.specs.List.{All};
ghost use Rattle.heap_model.specs.Geometry.{roots};
ghost use Rattle.heap_model.specs.Header.{IsWellFormed};
ghost use Rattle.base_tests.specs.Tables.{each_link, node_links};

use crate::asserts::{must_hold, three_columns, three_parts};
use crate::images::{block_of, checked, good_image, two_numbers};
use filter_trace::{Filter, Marks, TraceFault, trace};
use heap_model::Block;
use offset_ptr::encode;
use std::alloc::{AllocError, Global};
use std::process::Abort;
use std::test::Fail;
use super_block::WORD_BYTES;

/// A block of kind 0 has no links, a table (1) links each of its words to a node (2), and a node
/// its first word to a node.
struct Tables;

impl Filter for Tables {
    const KINDS: u32 = 3;

    ghost use Rattle.base_tests.specs.Tables.{table_links, table_links-inside, table_links-few};

    ghost KINDS = { 3 };

    ghost links_of = { λ _. table_links };

    fn links(&self, kind: u32, block: &[u64], at: usize) -> Option<(usize, u32)> {
        match kind {
            1 => table_link(block, at),
            2 => node_link(block, at),
            _ => None,
        }
    }

    ghost inside = { λ _. table_links-inside };

    ghost few = { λ _. table_links-few };
}

fn table_link(block: &[u64], at: usize) -> Option<(usize, u32)>
    ensures { result ≡ slice_get (each_link block.now) at }
{
    if at < block.len() {
        Some((at, 2))
    } else {
        None
    }
}

fn node_link(block: &[u64], at: usize) -> Option<(usize, u32)>
    ensures { result ≡ slice_get (node_links block.now) at }
{
    if at == 0 && !block.is_empty() {
        Some((0, 2))
    } else {
        None
    }
}

/// The kinds of the roots: 0 but for the first two.
fn kinds(alloc: Global, first: u32, second: u32) -> Result<Vec<u32>, AllocError>
    requires first { first < 3 }
    requires second { second < 3 }
    ensures long { IfOk result (λ kinds. length kinds.items ≡ roots) }
    ensures below { IfOk result (λ kinds. All (λ kind. kind < 3) kinds.items) }
{
    let mut kinds = vec![in alloc; 0; 1_024]?;
    kinds[0] = first;
    kinds[1] = second;
    Ok(kinds)
}

/// The kinds of the roots, of which the text tells the first two.
fn kinds_of_roots(alloc: Global, told: &str) -> Result<Vec<u32>, Fail>
    ensures long { IfOk result (λ kinds. length kinds.items ≡ roots) }
    ensures below { IfOk result (λ kinds. All (λ kind. kind < 3) kinds.items) }
{
    let (first, second) = two_numbers(told, ' ')?;
    if first >= 3 || second >= 3 {
        return Err("no such kind".into());
    }
    Ok(kinds(alloc, first as u32, second as u32)?)
}

/// What roots 0 and 1, of these kinds, reach in the image.
fn reached(alloc: Global, roots: &str, image: &[u64]) -> Result<Result<Marks, TraceFault>, Fail>
    requires { IsWellFormed (8 * length image.now) (slice_index image.now) }
{
    let kinds = kinds_of_roots(alloc, roots)?;
    Ok(trace(alloc, image, &kinds, &Tables))
}

/// What they reach in the image of four superblocks with these words.
fn traced(alloc: Global, roots: &str, words: &str) -> Result<Result<Marks, TraceFault>, Fail> {
    let image = good_image(alloc, 4, words)?;
    reached(alloc, roots, &image)
}

/// Whether the block has been reached as just these kinds: as none for `~` and `-`.
fn has_just(marks: &Marks, block: Block, kinds: &str) -> bool {
    for (kind, name) in [(0, "0"), (1, "1"), (2, "2"), (3, "3"), (u32::MAX, "last")] {
        if marks.has(block, kind) != kinds.contains(name) {
            return false;
        }
    }
    true
}

/// Whether the block has been reached as just these kinds, and for all but `-` also the one at this
/// place, which is a superblock and an index.
fn is_reached(marks: &Marks, place: (u64, u64), block: Block, kinds: &str) -> bool {
    let holds = marks.holds(place.0, place.1);
    has_just(marks, block, kinds) && holds == (kinds != "-")
}

/// Asserts that so the block has been reached: superblock, index, block and kinds are told as in
/// `0.1 1100/4 12`.
fn must_be_reached(rt: &impl Abort, marks: &Marks, told: &str) -> Result<(), Fail> {
    let (place, block, kinds) = three_parts(told, " ").ok_or("no kinds")?;
    let (place, block) = (two_numbers(place, '.')?, block_of(block)?);
    must_hold(rt, is_reached(marks, place, block, kinds), told);
    Ok(())
}

/// Traces what a row tells, in columns between bars: the kinds of roots 0 and 1, the words of the
/// image, and blocks with the kinds that they are reached as.
fn must_reach(rt: &(impl Abort + AllocGlobal), row: &str) -> Result<(), Fail> {
    let (roots, words, blocks) = three_columns(row)?;
    let marks = inside(traced(rt.alloc(), roots, words)?)?;
    must_be_marked(rt, &marks, blocks)
}

/// The marks, where no word is outside.
fn inside(found: Result<Marks, TraceFault>) -> Result<Marks, Fail> {
    Ok(found?)
}

/// Asserts that the blocks have been reached as they are told.
fn must_be_marked(rt: &impl Abort, marks: &Marks, blocks: &str) -> Result<(), Fail> {
    for block in blocks.split(", ") {
        must_be_reached(rt, marks, block)?;
    }
    Ok(())
}

/// Whether the line of a table is a row.
fn is_row(line: &str) -> bool {
    line.split_once(" | ").is_some() && !line.starts_with('#')
}

/// Blocks of class 2 begin at words 1,096, 1,100 and 1,104, and the first of class 12 at 1,096.
const REACHED: &str = "
# A block of two kinds is followed as each.
2 1 | used 1, info:0 2, root:0 @1096, root:1 @1096, 1096 @1100, 1098 @1104 | \
    0.0 1096/4 12, 0.1 1100/4 2, 0.2 1104/4 2
# A block with links may be reached as one without.
0 1 | used 1, info:0 12, root:0 @1096, root:1 @1096 | 0.0 1096/128 01
1 0 | used 1, info:0 12, root:0 @1096, root:1 @1096 | 0.0 1096/128 01
0 0 | used 1, info:0 12, root:0 @1096, 1099 5 | 0.0 1096/128 0
# No other block has been reached.
2 0 | used 1, info:0 2, root:0 @1096, root:1 @1104 | 0.0 1096/4 2, 0.2 1104/4 0, \
    0.1 1100/4 -, 0.0 1096/2 ~, 0.0 1096/8 ~, 0.1 1097/4 -, 0.3 40/4 -, \
    0.4 18446744073709551615/4 -, 0.5 2305843009213693951/18446744073709551615 -
# No block is past the last one of its superblock, nor a second one beside a large block.
0 0 | used 3, info:0 2, info:1 767, root:0 @9284, root:1 @9288 | 0.2047 9284/4 0, \
    1.0 9288/16384 0, 0.2048 9288/4 -, 0.18446744073709551615 9288/4 -, 1.1 25672/16384 -, \
    2.0 17480/8192 -
# None is in a superblock that has not been taken.
2 0 | used 1, info:0 2, info:1 2, root:0 @1096 | 0.0 1096/4 2, 1.0 9288/4 -, 4.0 33864/4 -, \
    18446744073709551615.0 1096/8 -
# Cycles and shared blocks are followed once.
2 0 | used 1, info:0 2, root:0 @1096, 1096 @1096 | 0.0 1096/4 2, 0.1 1100/4 -
2 0 | used 1, info:0 2, root:0 @1096, 1096 @1100, 1100 @1096 | 0.0 1096/4 2, 0.1 1100/4 2, \
    0.2 1104/4 -
2 2 | used 1, info:0 2, root:0 @1096, root:1 @1100, 1096 @1104, 1100 @1104 | 0.2 1104/4 2
";

#[test]
fn blocks_are_reached_through_the_links_of_their_kinds(rt: HostRuntime) -> Result<(), Fail> {
    for line in REACHED.split('\n') {
        if is_row(line) {
            must_reach(&rt, line)?;
        }
    }
    Ok(())
}

/// The same, but for the last column: the word that points to no block, and its value.
const OUTSIDE: &str = "
# A link of a table that is no pointer.
1 0 | used 1, info:0 12, root:0 @1096, 1099 5 | 1099 5
# A word deep in a chain: no pointer, one into a block, and one with another upper half.
2 0 | used 1, info:0 2, root:0 @1096, 1096 @1100, 1100 @1104, 1104 7 | 1104 7
2 0 | used 1, info:0 2, root:0 @1096, 1096 @1100, 1100 @1104, 1104 @1097 | 1104 @1097
2 0 | used 1, info:0 2, root:0 @1096, 1096 @1100, 1100 @1104, 1104 5931522184223662656 | \
    1104 5931522184223662656
";

/// The fault that tells a word and its value.
fn outside(told: &str) -> Result<TraceFault, Fail> {
    let (at, value) = two_numbers(told, ' ')?;
    Ok(TraceFault::Outside { at, value })
}

/// The fault of a trace, if there is one.
fn fault_of(alloc: Global, roots: &str, words: &str) -> Result<Option<TraceFault>, Fail> {
    Ok(traced(alloc, roots, words)?.err())
}

/// Traces what such a row tells.
fn must_be_outside(rt: &(impl Abort + AllocGlobal), row: &str) -> Result<(), Fail> {
    let (roots, words, told) = three_columns(row)?;
    let found = fault_of(rt.alloc(), roots, words)?;
    must_hold(rt, found == Some(outside(told)?), row);
    Ok(())
}

#[test]
fn a_word_that_points_to_no_block_is_told(rt: HostRuntime) -> Result<(), Fail> {
    for line in OUTSIDE.split('\n') {
        if is_row(line) {
            must_be_outside(&rt, line)?;
        }
    }
    Ok(())
}

/// An image in which a chain from root 0 goes through all blocks of a superblock of class 1.
fn chain(alloc: Global) -> Result<Vec<u64>, Fail>
    ensures { IfOk result
        (λ image. IsWellFormed (8 * length image.items) (slice_index image.items)) }
{
    let mut image = good_image(alloc, 4, "used 1, info:0 1, root:0 @1096")?;
    link_all(&mut image)?;
    checked(image)
}

/// Lets each of these blocks but the last point to the next.
fn link_all(image: &mut [u64]) -> Result<(), Fail> {
    for index in 0..4_095u64 {
        let at = index * 2 + 1_096;
        let word = image.get_mut(at as usize).ok_or("no such word")?;
        *word = encode((at + 2) * WORD_BYTES);
    }
    Ok(())
}

/// Asserts that each of them has been reached as a node.
fn must_be_followed(rt: &impl Abort, marks: &Marks) {
    for index in 0..4_096u64 {
        let first_word = index * 2 + 1_096;
        let block = Block {
            first_word,
            words: 2,
        };
        assert!(rt; is_reached(marks, (0, index), block, "2"), "block {index}");
    }
}

#[test]
fn a_chain_through_a_whole_superblock_is_followed(rt: HostRuntime) -> Result<(), Fail> {
    let image = chain(rt.alloc())?;
    let marks = inside(reached(rt.alloc(), "2 0", &image)?)?;
    must_be_followed(&rt, &marks);
    Ok(())
}
