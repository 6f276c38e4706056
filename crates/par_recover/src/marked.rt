//! Which blocks are marked, found by threads.
ghost use Rattle.std.specs.Prelude.{◌<◌, IfOk, slice_index};
ghost use Rattle.heap_model.specs.Blocks.{layout_of};
ghost use Rattle.par_recover.specs.Marked.{IsMarkedImage, TellsMarked, TellsAll};

use filter_trace::Marks;
use rayon::prelude::*;
use size_table::blocks_of;
use std::alloc::{AllocError, Global};
use std::thread::Threads;
use super_block::{Geometry, Info};

/// Of each superblock that has been taken, which of its blocks are marked. Each thread looks through
/// neighbouring superblocks.
pub fn marked_blocks<R: Threads + Sync>(
    rt: &R,
    alloc: Global,
    words: &[u64],
    geometry: &Geometry,
    used: u64,
    marks: &Marks,
) -> Result<Vec<Vec<bool>>, AllocError>
    requires marked { IsMarkedImage words.now geometry.now.capacity used marks.now }
    ensures ok { IfOk result (λ all. TellsAll (layout_of (slice_index words.now)) marks.now.pairs
        used all.items) }
{
    (0..used)
        .into_par_iter()
        .with_min_len(1)
        .map(
            |d: u64| -> Result<Vec<bool>, AllocError>
                requires { (d < used)
                    × IsMarkedImage words.now geometry.now.capacity used marks.now }
                ensures { IfOk result (λ marked. TellsMarked
                    (layout_of (slice_index words.entry.now)) marks.entry.now.pairs d
                    marked.items) }
            { marked_in(alloc, words, geometry, used, marks, d) },
        )
        .collect::<Result<Vec<Vec<bool>>, AllocError>>(rt, alloc)?
}

/// Which blocks of superblock `d` are marked, where it is of a class.
fn marked_in(
    alloc: Global,
    words: &[u64],
    geometry: &Geometry,
    used: u64,
    marks: &Marks,
    d: u64,
) -> Result<Vec<bool>, AllocError>
    requires marked { IsMarkedImage words.now geometry.now.capacity used marks.now }
    requires taken { d < used }
    ensures ok { IfOk result (λ marked. TellsMarked (layout_of (slice_index words.now))
        marks.now.pairs d marked.items) }
{
    let Info::Class(class) = Info::unpack(words[geometry.info(d) as usize]) else {
        return Ok(Vec::new(alloc));
    };
    let blocks = blocks_of(class.number);
    let mut marked = Vec::with_capacity(alloc, blocks as usize)?;
    for index in 0..blocks {
        marked.push(marks.holds(d, index))?;
    }
    Ok(marked)
}
