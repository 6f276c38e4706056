//! The trace: a walk over pairs of a block and a mode, from the roots on.
ghost use Rattle.std.specs.Prelude.{◌≡◌, ℕ, ◌*◌, length, slice_index, IfOk, OnOk, IfErr};
ghost use Rattle.std.specs.List.{All};
ghost use Rattle.heap_model.specs.Geometry.{roots};
ghost use Rattle.heap_model.specs.Header.{IsWellFormed};
ghost use Rattle.heap_model.specs.Blocks.{layout_of};
ghost use Rattle.super_block.specs.Division.{Describes};
ghost use Rattle.mixed_trace.specs.Reach.{modes_of, FitsBelow, IsOutsideMixed};
ghost use Rattle.mixed_trace.specs.Codes.{AreReachedMixed, TellsOutsideMixed};

use crate::marks::MixedMarks;
use crate::mode::Mode;
use crate::steps::{follow_block, follow_roots};
use filter_trace::{Filter, Marks, PairSet, Scan, TraceFault, Walk, follow_all};
use heap_model::Block;
use std::alloc::Global;
use super_block::Directory;

/// Marks what the roots of the image reach, `modes` being the mode of what each root leads to. Time
/// grows with the words that are reached.
#[tactic(auto, using(heap_model::specs::Geometry::largest_capacity_fits))]
pub fn trace_mixed<F: Filter>(
    alloc: Global,
    words: &[u64],
    modes: &[Mode],
    filter: &F,
) -> Result<MixedMarks, TraceFault>
    requires formed { IsWellFormed (8 * length words.now) (slice_index words.now) }
    requires roots { length modes.now ≡ roots }
    requires modes { All (FitsBelow F.KINDS) modes.now }
    ensures limit { IfOk result (λ marks. marks.limit ≡ F.KINDS) }
    ensures ok { IfOk result (λ marks. AreReachedMixed (slice_index words.now) (modes_of modes.now)
        (F.links_of filter.now) F.KINDS marks.marks.pairs) }
    ensures described { IfOk result (λ marks.
        Describes marks.marks.directory (layout_of (slice_index words.now))) }
    ensures none { OnOk result ((at : ℕ) → IsOutsideMixed (slice_index words.now)
        (modes_of modes.now) (F.links_of filter.now) at → ⊥) }
    ensures err { IfErr result (TellsOutsideMixed (slice_index words.now) (modes_of modes.now)
        (F.links_of filter.now)) }
{
    // With 2^32 - 1 kinds no memory holds the marks.
    let Some(numbers) = F::KINDS.checked_add(1) else {
        return Err(TraceFault::Memory);
    };
    let directory = Directory::of(alloc, words)?;
    let mut found = PairSet::new(alloc, words.len(), numbers)?;
    let walk = ByModes {
        scan: Scan {
            words,
            directory: &directory,
        },
        modes,
        filter,
    };
    follow_roots(&walk.scan, modes, filter, &mut found)?;
    follow_all(&walk, &mut found)?;
    Ok(MixedMarks {
        limit: F::KINDS,
        marks: Marks::of(directory, found),
    })
}

// From a pair to what the words of its block lead to that count.
#[derive(Drop)]
struct ByModes<'a, 'b, 'c, F> {
    scan: Scan<'a>,
    modes: &'b [Mode],
    filter: &'c F,
}

impl<F: Filter> Walk for ByModes<'_, '_, '_, F> {
    ghost use Rattle.mixed_trace.specs.Steps.{IsMixedTraceOf, IsFollowedIn};
    ghost use Rattle.filter_trace.specs.Laws.{few_pairs};

    type Found = PairSet;

    type Entry = (Block, u32);

    type Fault = TraceFault;

    ghost entries = { λ set. set.pairs.items };

    ghost most = { λ set. length set.marks };

    ghost sound = { λ walk. IsMixedTraceOf walk.scan.words.now walk.modes.now
        walk.scan.directory.now (F.links_of walk.filter.now) F.KINDS };

    ghost followed = { λ walk. IsFollowedIn walk.scan.words.now (F.links_of walk.filter.now)
        F.KINDS };

    ghost tells = { λ walk. TellsOutsideMixed (slice_index walk.scan.words.now)
        (modes_of walk.modes.now) (F.links_of walk.filter.now) };

    fn count(&self, found: &PairSet) -> usize {
        found.pairs.len()
    }

    fn entry_at(&self, found: &PairSet, at: usize) -> (Block, u32) {
        found.pairs[at]
    }

    fn follow(&self, entry: (Block, u32), found: &mut PairSet) -> Result<(), TraceFault> {
        let (block, number) = entry;
        let mode = Mode::from_code(F::KINDS, number);
        follow_block(&self.scan, self.modes, self.filter, block, mode, found)
    }

    ghost few = { λ walk set is. few_pairs _ _ _ _ is.pairs.found.marked };
}
