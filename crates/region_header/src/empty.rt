//! The image of an empty heap.
ghost use Rattle.std.specs.Prelude.{◌≡◌, ◌↔◌, ℕ, ◌*◌, ◌<◌, ◌≤◌, [], All, Some, length, slice_index, IfOk};
ghost use Rattle.heap_model.specs.Geometry.{largest_capacity, roots, root_word};
ghost use Rattle.heap_model.specs.Header.{empty_words, kinds_of, IsWellFormed, HasGoodHeader};
ghost use Rattle.heap_model.specs.Rest.{IsReady};
ghost use Rattle.region_header.specs.Empty.{words_before_kinds, empty_words_with, ReachesNothing};

use std::alloc::{AllocError, Global};
use super_block::{
    CAPACITY_WORD, CLEAN, Geometry, MAGIC, MAGIC_WORD, ROOTS, ROOTS_OF_KIND_ONE, STATE_WORD,
    VERSION, VERSION_WORD,
};

/// The words of an empty image of `capacity` superblocks, closed, of which none has been taken. The
/// first eight roots have kind 1, as those of a dictionary, and the others kind 0.
pub fn format(alloc: Global, capacity: u64) -> Result<Vec<u64>, AllocError>
    requires some { 1 ≤ capacity }
    requires small { capacity ≤ largest_capacity }
    ensures ok { IfOk result (λ words. words.items ≡ empty_words capacity) }
    ensures well_formed { IfOk result
        (λ words. IsWellFormed (8 * length words.items) (slice_index words.items)) }
{
    let mut kinds = [0; ROOTS as usize];
    for i in 0..ROOTS_OF_KIND_ONE as usize {
        kinds[i] = 1;
    }
    format_with_kinds(alloc, capacity, &kinds)
}

/// The same with the kinds of your own roots, one for each root. Recovery follows what a root leads
/// to as a block of this kind, by the filter that it is given.
pub fn format_with_kinds(
    alloc: Global,
    capacity: u64,
    kinds: &[u32],
) -> Result<Vec<u64>, AllocError>
    requires some { 1 ≤ capacity }
    requires small { capacity ≤ largest_capacity }
    requires roots { length kinds.now ≡ roots }
    ensures ok { IfOk result (λ words. words.items ≡ empty_words_with capacity kinds.now) }
    ensures kinds { IfOk result
        (λ words. (i : ℕ) → kinds_of (slice_index words.items) i ≡ slice_index kinds.now i) }
    ensures null { IfOk result
        (λ words. (i : ℕ) → i < roots → slice_index words.items (root_word i) ≡ 0) }

    // Its header is good for so many kinds as all of these are below.
    ensures good { IfOk result (λ words. (limit : ℕ)
        → HasGoodHeader (Some limit) (8 * length words.items) (slice_index words.items)
        ↔ All (λ kind. kind < limit) kinds.now) }

    // No block is held, and recovery by any filter finds none.
    ensures at_rest { IfOk result (λ words. IsReady words.items []) }
    ensures nothing { IfOk result (λ words. ReachesNothing (slice_index words.items)) }
{
    let mut words = before_kinds(alloc, capacity)?;
    words.reserve(kinds.len())?;
    for i in 0..kinds.len() {
        words.push_reserved(kinds[i] as u64);
    }
    Ok(words)
}

/// The words up to the kinds of the roots, with room for these.
fn before_kinds(alloc: Global, capacity: u64) -> Result<Vec<u64>, AllocError>
    requires some { 1 ≤ capacity }
    requires small { capacity ≤ largest_capacity }
    ensures { IfOk result (λ words. words.items ≡ words_before_kinds capacity) }
{
    let geometry = Geometry::new(capacity);
    let mut words = Vec::with_capacity(alloc, geometry.length() as usize)?;
    words.resize(geometry.old_length() as usize, 0)?;
    words[MAGIC_WORD as usize] = MAGIC;
    words[VERSION_WORD as usize] = VERSION;
    words[CAPACITY_WORD as usize] = capacity;
    words[STATE_WORD as usize] = CLEAN;
    Ok(words)
}
