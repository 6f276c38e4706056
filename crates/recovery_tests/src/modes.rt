//! Images recovered by modes and traced, a row each.

use crate::asserts::{column, must_hold};
use crate::openings::row_image;
use crate::told::{are_held, block_told, mode_told, modes_told};
use dictionary::DictFilter;
use heap_recover::{RecoverFault, Recovered};
use mixed_trace::{MixedMarks, Mode, recover_conservatively, recover_mixed, trace_mixed};
use region_header::read_header;
use std::alloc::Global;
use std::process::Abort;
use std::test::Fail;
use test_images::number;

/// Recovers the image of a row.
fn recovered(alloc: Global, row: &str) -> Result<Result<Recovered, RecoverFault>, Fail> {
    let image = row_image(alloc, row)?;
    let modes = modes_told(alloc, column(row, 2))?;
    Ok(recover_mixed(alloc, &image, &modes, &DictFilter))
}

/// Recovers it with no filter.
fn recovered_by_words(alloc: Global, row: &str) -> Result<Result<Recovered, RecoverFault>, Fail> {
    let image = row_image(alloc, row)?;
    Ok(recover_conservatively(alloc, &image))
}

/// Asserts that the blocks are held that the row tells.
fn must_be_held(rt: &impl Abort, found: &Recovered, row: &str) -> Result<(), Fail> {
    must_hold(rt, are_held(found.heap.held(), column(row, 3))?, row);
    Ok(())
}

/// How many superblocks an image has, in which words it differs from an empty one, the modes of its
/// roots, and the blocks that are held after recovery.
const HELD: &str = "
# Without a filter a root that leads nowhere is passed by.
1 | root:0 @1073 | a a a | -
1 | root:0 5 | a a a | -
# A word of a node that the filter does not list counts where the table's root has none.
2 | used 2, info:0 12, info:1 2, root:0 @1080, 1080 @9272, 9275 @9276 | 1 0 0 | 1080/128 9272/4
2 | used 2, info:0 12, info:1 2, root:0 @1080, 1080 @9272, 9275 @9276 | a a a | \
    1080/128 9272/4 9276/4
2 | used 2, info:0 12, info:1 2, root:0 @1080, 1080 @9272, 9275 @9276 | a 0 0 | \
    1080/128 9272/4 9276/4
# So do the first word and the last one.
1 | used 1, info:0 2, root:8 @1072, 1072 @1076, 1075 @1080 | a a a | 1072/4 1076/4 1080/4
# A block that is reached by both ways is followed in both.
1 | used 1, info:0 2, root:0 @1072, root:1 @1072, 1072 @1076, 1073 @1080 | 2 a 0 | \
    1072/4 1076/4 1080/4
1 | used 1, info:0 2, root:0 @1072, root:1 @1072, 1072 @1076, 1073 @1080 | a 2 0 | \
    1072/4 1076/4 1080/4
# Words that lead into a block, to none, or have another upper half keep nothing.
1 | used 1, info:0 2, root:8 @1072, 1072 @1077, 1073 7, 1074 5931522184223662656, 1075 @40 | \
    a a a | 1072/4
# Cycles end.
1 | used 1, info:0 2, root:8 @1072, 1072 @1072, 1073 @1076, 1076 @1072 | a a a | 1072/4 1076/4
# A stored kind that the filter has not is no fault.
1 | used 1, info:0 2, root:0 @1072, kind:0 7 | a a a | 1072/4
1 | used 1, info:0 2, root:0 @1072, kind:0 7 | 2 0 0 | 1072/4
# A large block has words that count.
2 | used 2, info:0 511, info:1 2, root:8 @1080, 9271 @9272 | a a a | 1080/8192 9272/4
# Images of the old version.
old 1 | root:0 @1073 | a a a | -
old 1 | used 1, info:0 2, root:8 @1072, 1072 @1076, 1075 @1080 | a a a | 1072/4 1076/4 1080/4
";

#[test]
fn blocks_that_are_reached_by_modes_are_held(rt: HostRuntime) -> Result<(), Fail> {
    for row in HELD.trim().split('\n') {
        if !row.starts_with('#') {
            must_be_held(&rt, &recovered(rt.alloc(), row)??, row)?;
            if column(row, 2) == "a a a" {
                must_be_held(&rt, &recovered_by_words(rt.alloc(), row)??, row)?;
            }
        }
    }
    Ok(())
}

/// The same, but for the last column: the word that is refused.
const REFUSED: &str = "
# A root of a kind that leads nowhere.
1 | root:0 @1073 | 1 a a | 40
# A link of a block of a kind, beside one without a filter that has such a word too.
1 | used 1, info:0 2, root:0 @1072, 1072 5, root:1 @1076, 1076 5 | 2 a a | 1072
1 | used 1, info:0 2, root:0 @1072, 1072 @1076, 1076 5, root:1 @1072 | 2 a a | 1076
old 1 | root:0 @1073 | 1 a a | 40
";

/// The word that recovery refuses, if it does.
fn refused_at(alloc: Global, row: &str) -> Result<Option<u64>, Fail> {
    match recovered(alloc, row)? {
        Err(RecoverFault::Outside { at, value: _ }) => Ok(Some(at)),
        _ => Ok(None),
    }
}

#[test]
fn words_of_a_kind_that_lead_nowhere_are_refused(rt: HostRuntime) -> Result<(), Fail> {
    for row in REFUSED.trim().split('\n') {
        if !row.starts_with('#') {
            let at = refused_at(rt.alloc(), row)?;
            must_hold(&rt, at == Some(number(column(row, 3))?), row);
        }
    }
    Ok(())
}

/// Traces the image of a row, which has a good header.
fn traced(alloc: Global, row: &str) -> Result<MixedMarks, Fail> {
    let image = row_image(alloc, row)?;
    let modes = modes_told(alloc, column(row, 2))?;
    let header = read_header(&image, None)?;
    if header.version != 2 {
        return Err("an old image".into());
    }
    Ok(trace_mixed(alloc, &image, &modes, &DictFilter)?)
}

/// Whether the block is marked with just the modes that are told.
fn has_just(marks: &MixedMarks, told: &str) -> Result<bool, Fail> {
    let (block, modes) = told.split_once(' ').ok_or("no modes")?;
    let block = block_told(block)?;
    for name in ["0", "1", "2", "a"] {
        let mode = mode_told(name).ok_or("no mode")?;
        if marks.has(block, mode) != modes.contains(name) {
            return Ok(false);
        }
    }
    Ok(!marks.has(block, Mode::Kind(3)) && !marks.has(block, Mode::Kind(u32::MAX)))
}

/// The same with blocks and the modes that each is reached as, `-` for none.
const MARKED: &str = "
# What a block of a kind leads to has the link's kind, and what one without has none.
2 | used 2, info:0 12, info:1 2, root:0 @1080, 1080 @9272, 9275 @9276 | 1 0 0 | \
    1080/128 1, 9272/4 2, 9276/4 -
2 | used 2, info:0 12, info:1 2, root:0 @1080, 1080 @9272, 9275 @9276 | a 0 0 | \
    1080/128 a, 9272/4 a, 9276/4 a
1 | used 1, info:0 2, root:0 @1072, root:1 @1072, 1072 @1076, 1073 @1080 | 2 a 0 | \
    1072/4 2a, 1076/4 2a, 1080/4 a, 1084/4 -, 1072/8 -
";

#[test]
fn blocks_are_marked_with_the_modes_that_they_are_reached_as(rt: HostRuntime) -> Result<(), Fail> {
    for row in MARKED.trim().split('\n') {
        if !row.starts_with('#') {
            let marks = traced(rt.alloc(), row)?;
            for block in column(row, 3).split(", ") {
                must_hold(&rt, has_just(&marks, block)?, row);
            }
        }
    }
    Ok(())
}
