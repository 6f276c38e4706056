//! A recovery made in place with so many steps, and what a crash leaves of it.
ghost use Rattle.std.specs.Prelude.{◌≡◌, ◌↔◌, ◌<◌, All, IsTrue, length, slice_index};
ghost use Rattle.heap_model.specs.Geometry.{roots, version, version_word};

use crate::words::{has_words, write};
use filter_trace::Filter;
use heap_recover::{Recovered, rebuild, recover};
use line_memory::{Closed, ConstantChance, PlainMemory};
use std::alloc::Global;
use std::test::Fail;
use super_block::{Block, DIRTY, VERSION, VERSION_WORD};

/// What a recovery in place has come to: what it recovers, and what loads then see and is durable.
#[derive(Drop)]
pub struct InPlace {
    pub found: Recovered,
    pub now: Vec<u64>,
    pub kept: Vec<u64>,
    pub stopped: bool,
}

/// Recovers the image, which is of this version, in place with so many steps.
pub fn recover_in_place<F: Filter>(
    alloc: Global,
    image: &[u64],
    kinds: &[u32],
    filter: &F,
    budget: u64,
    chance: ConstantChance,
) -> Result<InPlace, Fail>
    requires roots { length kinds.now ≡ roots }
    requires kinds { All (λ kind. kind < F.KINDS) kinds.now }
{
    if !is_current(image) {
        return Err("no image of this version".into());
    }
    let found = recover(alloc, image, kinds, filter)?;
    let words = Vec::from_slice(alloc, image)?;
    let mut memory = PlainMemory::new(alloc, words, budget, chance)?;
    let stopped = rebuild(&mut memory, image, kinds, filter, &found.heap).is_err();
    let Closed { now, kept } = memory.finish();
    Ok(InPlace {
        found,
        now,
        kept,
        stopped,
    })
}

/// Whether the image is of this version.
fn is_current(image: &[u64]) -> bool
    ensures { IsTrue result ↔ (slice_index image.now version_word ≡ version) }
{
    image.len() > VERSION_WORD as usize && image[VERSION_WORD as usize] == VERSION
}

/// The image that a crash leaves of durable words: its heads, and the anchors and links of so many
/// superblocks, have any value.
pub fn torn(mut kept: Vec<u64>, superblocks: usize) -> Vec<u64> {
    for at in 16..37 {
        write(&mut kept, &[(at, u64::MAX)]);
    }
    for d in 0..superblocks.min(2) {
        write(&mut kept, &[(1_065 + 8 * d, 77), (1_066 + 8 * d, u64::MAX)]);
    }
    write(&mut kept, &[(3, DIRTY)]);
    kept
}

/// Whether the heap holds just these blocks, and has these words.
pub fn holds(found: &Recovered, held: &[Block], words: &[(usize, u64)]) -> bool {
    found.heap.held() == held && found.free.is_empty() && has_words(found, words)
}
