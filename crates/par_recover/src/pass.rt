//! The pass over the superblocks that have been taken, whose marks are looked through by threads.
ghost use Rattle.std.specs.Prelude.{◌≡◌, ◌*◌, [], IfOk, length, slice_index};
ghost use Rattle.std.specs.Thread.{IsSync};
ghost use Rattle.heap_model.specs.Image.{Image};
ghost use Rattle.heap_model.specs.Header.{IsWellFormed, capacity_of, used_of};
ghost use Rattle.heap_model.specs.Blocks.{layout_of};
ghost use Rattle.super_block.specs.Division.{Describes};
ghost use Rattle.heap_recover.specs.Marked.{IsMarked, KeepsBlocks};
ghost use Rattle.heap_recover.specs.Rebuilt.{AreDone};
ghost use Rattle.par_recover.specs.Marked.{TellsAll};

use crate::marked::marked_blocks;
use crate::surveys::survey_marked;
use filter_trace::Marks;
use heap_recover::{Found, RebuildPass, rebuild_superblock};
use std::alloc::{AllocError, Global};
use std::cell::Cell;
use std::thread::Threads;
use super_block::{Block, Geometry};

/// The marks are looked through by threads, one for each processor or more; then one thread writes.
#[derive(Drop)]
pub struct InPieces<'rt, R> {
    pub rt: &'rt R,
    /// Room for the kept blocks.
    pub room: Cell<Vec<Block>>,
}

impl<'rt, R: Threads + Sync> RebuildPass for InPieces<'rt, R> {
    ghost ready = { λ _. IsSync R.row };

    fn rebuild_taken(
        &self,
        alloc: Global,
        words: &mut [u64],
        geometry: &Geometry,
        used: u64,
        marks: &Marks,
    ) -> Result<Found, AllocError> {
        let marked = marked_blocks(self.rt, alloc, words, geometry, used, marks)?;
        let mut held = self.room.replace(Vec::new(alloc));
        held.clear();
        rebuild_marked(alloc, words, geometry, used, marks, &marked, held)
    }
}

/// Rebuilds the superblocks that have been taken, each in its role, where it is known which of their
/// blocks are marked. The kept blocks are put into `held`, which is empty.
fn rebuild_marked(
    alloc: Global,
    words: &mut [u64],
    geometry: &Geometry,
    used: u64,
    marks: &Marks,
    marked: &[Vec<bool>],
    mut held: Vec<Block>,
) -> Result<Found, AllocError>
    ghost image: { Image }
    requires before { slice_index words.old ≡ image }
    requires formed { IsWellFormed (8 * length words.old) image }
    requires capacity { geometry.now.capacity ≡ capacity_of image }
    requires used { used ≡ used_of image }
    requires keeps { KeepsBlocks (layout_of image) (IsMarked marks.now.pairs) }
    requires described { Describes marks.now.directory (layout_of image) }
    requires marked { TellsAll (layout_of image) marks.now.pairs used marked.now }
    requires empty { held.items ≡ [] }
    ensures ok { IfOk result (λ found. AreDone image (slice_index words.new)
        (IsMarked marks.now.pairs) used found.held.items found.roles.items) }
{
    let mut roles = Vec::new(alloc);
    let mut end = 0;
    for d in 0..used {
        let info = words[geometry.info(d) as usize];
        let marked = &marked[d as usize];
        let survey = survey_marked(alloc, geometry, info, d, used, end, marks, marked)?;
        rebuild_superblock(words, geometry, d, survey.role, &survey.spares);
        held.extend_from_slice(&survey.held)?;
        roles.push(survey.role)?;
        end = survey.end;
    }
    Ok(Found { held, roles })
}
