//! What the anchors and the free list of a closed image tell, if they can be relied on.
ghost use Rattle.std.specs.Prelude.{◌≡◌, ◌↔◌, ◌≤◌, ◌*◌, true, IfOk, MatchOption, length, slice_index};
ghost use Rattle.heap_model.specs.Header.{IsWellFormed, capacity_of};
ghost use Rattle.quick_recover.specs.Anchored.{IsReadable, IsDisorderly, HasFreeList, AreUntouched, TellsAll};

use crate::free_list::free_superblocks;
use crate::superblocks::read_superblock;
use bit_marks::BitMarks;
use heap_recover::Found;
use std::alloc::{AllocError, Global};
use super_block::{CAPACITY_WORD, Geometry, USED_WORD};

/// The blocks that the anchors of the image hold, and the role of each superblock that has been
/// taken, or `None` where they can't be relied on. One pass over the descriptors, and one over the
/// chains of partial superblocks.
pub fn read_anchors(alloc: Global, words: &[u64]) -> Result<Option<Found>, AllocError>
    requires formed { IsWellFormed (8 * length words.now) (slice_index words.now) }
    ensures ok { IfOk result (λ found. MatchOption found (IsDisorderly (slice_index words.now))
        (λ f. TellsAll (slice_index words.now) f.held.items f.roles.items)) }
{
    let geometry = Geometry::new(words[CAPACITY_WORD as usize]);
    let used = words[USED_WORD as usize];
    if !is_untouched(words, &geometry, used) {
        return Ok(None);
    }
    match free_superblocks(alloc, words, &geometry, used)? {
        Some(free) => read_taken(alloc, words, &geometry, used, &free),
        None => Ok(None),
    }
}

/// Whether info, anchor and link of each superblock that was not taken are 0.
fn is_untouched(words: &[u64], geometry: &Geometry, used: u64) -> bool
    requires readable { IsReadable words.now geometry.now.capacity used }
    ensures { (result ≡ true) ↔ AreUntouched (slice_index words.now)
        (capacity_of (slice_index words.now)) }
{
    for d in used..geometry.capacity() {
        if words[geometry.info(d) as usize] != 0
            || words[geometry.anchor(d) as usize] != 0
            || words[geometry.link(d) as usize] != 0
        {
            return false;
        }
    }
    true
}

/// The same where the others are untouched, of the superblocks that have been taken.
fn read_taken(
    alloc: Global,
    words: &[u64],
    geometry: &Geometry,
    used: u64,
    free: &BitMarks,
) -> Result<Option<Found>, AllocError>
    requires readable { IsReadable words.now geometry.now.capacity used }
    requires listed { HasFreeList (slice_index words.now) free.now }
    requires untouched { AreUntouched (slice_index words.now)
        (capacity_of (slice_index words.now)) }
    ensures ok { IfOk result (λ found. MatchOption found (IsDisorderly (slice_index words.now))
        (λ f. TellsAll (slice_index words.now) f.held.items f.roles.items)) }
{
    let mut held = Vec::new(alloc);
    let mut roles = Vec::new(alloc);
    let mut end = 0;
    for d in 0..used {
        let survey = match read_superblock(alloc, words, geometry, d, used, end, free)? {
            Some(survey) => survey,
            None => return Ok(None),
        };
        held.extend_from_slice(&survey.held)?;
        roles.push(survey.role)?;
        end = survey.end;
    }
    Ok(Some(Found { held, roles }))
}
