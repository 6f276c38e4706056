//! The passes over an image that make it a heap at rest.
ghost use Rattle.std.specs.Prelude.{◌≡◌, ◌<◌, ◌≤◌, ◌*◌, length, slice_index, IfOk, OnOk};
ghost use Rattle.heap_model.specs.Geometry.{image_words};
ghost use Rattle.heap_model.specs.Image.{Image};
ghost use Rattle.heap_model.specs.Header.{IsWellFormed, capacity_of, used_of};
ghost use Rattle.heap_model.specs.Blocks.{layout_of};
ghost use Rattle.super_block.specs.Division.{Describes};
ghost use Rattle.heap_recover.specs.Marked.{IsMarked, KeepsBlocks};
ghost use Rattle.heap_recover.specs.Rebuilt.{AreDone, AreCleared, IsRebuild};

use crate::chain_links::link_lists;
use crate::roles::Role;
use crate::superblocks::rebuild_superblock;
use crate::surveys::survey_superblock;
use crate::taken::{Found, RebuildPass};
use filter_trace::Marks;
use std::alloc::{AllocError, Global};
use super_block::{CAPACITY_WORD, DIRTY, Geometry, STATE_WORD, USED_WORD};

/// Makes the words of an image those of a heap at rest that keeps the marked blocks.
pub fn rebuild<P: RebuildPass>(
    alloc: Global,
    words: &mut [u64],
    marks: &Marks,
    pass: &P,
) -> Result<Found, AllocError>
    requires ready { P.ready pass.now }
    requires formed { IsWellFormed (8 * length words.old) (slice_index words.old) }
    requires keeps { KeepsBlocks (layout_of (slice_index words.old)) (IsMarked marks.now.pairs) }
    requires described { Describes marks.now.directory (layout_of (slice_index words.old)) }
    ensures ok { IfOk result (λ found. IsRebuild (slice_index words.old) (slice_index words.new)
        (IsMarked marks.now.pairs) found.held.items found.roles.items) }
{
    let geometry = Geometry::new(words[CAPACITY_WORD as usize]);
    let used = words[USED_WORD as usize];
    let found = pass.rebuild_taken(alloc, words, &geometry, used, marks)?;
    clear_rest(words, &geometry, used);
    link_lists(alloc, words, &geometry, &found.roles)?;
    words[STATE_WORD as usize] = DIRTY;
    Ok(found)
}

/// Rebuilds the superblocks of an image that have been taken, each in its role. What a superblock
/// was before is read before it is written.
pub fn rebuild_taken(
    alloc: Global,
    words: &mut [u64],
    geometry: &Geometry,
    used: u64,
    marks: &Marks,
) -> Result<Found, AllocError>
    ghost image: { Image }
    requires before { slice_index words.old ≡ image }
    requires formed { IsWellFormed (8 * length words.old) image }
    requires capacity { geometry.now.capacity ≡ capacity_of image }
    requires used { used ≡ used_of image }
    requires keeps { KeepsBlocks (layout_of image) (IsMarked marks.now.pairs) }
    requires described { Describes marks.now.directory (layout_of image) }
    ensures ok { IfOk result (λ found. AreDone image (slice_index words.new)
        (IsMarked marks.now.pairs) used found.held.items found.roles.items) }
{
    let mut held = Vec::new(alloc);
    let mut roles = Vec::new(alloc);
    let mut end = 0;
    for d in 0..used {
        let info = words[geometry.info(d) as usize];
        let survey = survey_superblock(alloc, geometry, info, d, used, end, marks)?;
        rebuild_superblock(words, geometry, d, survey.role, &survey.spares);
        held.extend_from_slice(&survey.held)?;
        roles.push(survey.role)?;
        end = survey.end;
    }
    Ok(Found { held, roles })
}

/// Clears the descriptors from superblock `used` on.
fn clear_rest(new: &mut [u64], geometry: &Geometry, used: u64)
    requires long { length new.old ≡ image_words geometry.now.capacity }
    requires capacity { capacity_of (slice_index new.old) ≡ geometry.now.capacity }
    requires used { used ≤ geometry.now.capacity }
    ensures { AreCleared (slice_index new.old) (slice_index new.new) geometry.now.capacity used
        geometry.now.capacity }
{
    for d in used..geometry.capacity() {
        rebuild_superblock(new, geometry, d, Role::Free, &[]);
    }
}
