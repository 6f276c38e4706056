//! Tracing: a walk over pairs of a block and a kind, from the roots on.
ghost use Rattle.std.specs.Prelude.{◌≡◌, ℕ, ◌*◌, ◌<◌, length, slice_index, IfOk, OnOk, IfErr};
ghost use Rattle.std.specs.List.{All};
ghost use Rattle.heap_model.specs.Geometry.{roots};
ghost use Rattle.heap_model.specs.Header.{IsWellFormed};
ghost use Rattle.heap_model.specs.Blocks.{layout_of};
ghost use Rattle.heap_model.specs.Reach.{IsOutside};
ghost use Rattle.super_block.specs.Division.{Describes};
ghost use Rattle.filter_trace.specs.Reached.{AreReached, TellsOutside};

use crate::fault::TraceFault;
use crate::filter::Filter;
use crate::marks::Marks;
use crate::pairs::PairSet;
use crate::scan::Scan;
use crate::walk::{Walk, follow_all};
use heap_model::Block;
use std::alloc::Global;
use super_block::Directory;

/// Marks what the roots of the image reach, `kinds` being the kind of what each root leads to.
#[tactic(auto, using(heap_model::specs::Geometry::largest_capacity_fits))]
pub fn trace<F: Filter>(
    alloc: Global,
    words: &[u64],
    kinds: &[u32],
    filter: &F,
) -> Result<Marks, TraceFault>
    requires formed { IsWellFormed (8 * length words.now) (slice_index words.now) }
    requires roots { length kinds.now ≡ roots }
    requires kinds { All (λ kind. kind < F.KINDS) kinds.now }
    ensures ok { IfOk result (λ marks. AreReached (slice_index words.now) (slice_index kinds.now)
        (F.links_of filter.now) marks.pairs) }
    ensures described { IfOk result (λ marks.
        Describes marks.directory (layout_of (slice_index words.now))) }
    ensures none { OnOk result ((at : ℕ) → IsOutside (slice_index words.now)
        (slice_index kinds.now) (F.links_of filter.now) at → ⊥) }
    ensures err { IfErr result (TellsOutside (slice_index words.now) (slice_index kinds.now)
        (F.links_of filter.now)) }
{
    let directory = Directory::of(alloc, words)?;
    let mut found = PairSet::new(alloc, words.len(), F::KINDS)?;
    let walk = ByLinks {
        scan: Scan {
            words,
            directory: &directory,
        },
        kinds,
        filter,
    };
    walk.scan.follow_roots(kinds, &mut found)?;
    follow_all(&walk, &mut found)?;
    Ok(Marks { directory, found })
}

// From a pair to what the links of its block lead to.
#[derive(Drop)]
struct ByLinks<'a, 'b, 'c, F> {
    scan: Scan<'a>,
    kinds: &'b [u32],
    filter: &'c F,
}

impl<F: Filter> Walk for ByLinks<'_, '_, '_, F> {
    ghost use Rattle.filter_trace.specs.Steps.{IsTraceOf, IsFollowedPair};
    ghost use Rattle.filter_trace.specs.Laws.{few_pairs};

    type Found = PairSet;

    type Entry = (Block, u32);

    type Fault = TraceFault;

    ghost entries = { λ set. set.pairs.items };

    ghost most = { λ set. length set.marks };

    ghost sound = { λ walk. IsTraceOf walk.scan.words.now walk.kinds.now walk.scan.directory.now
        (F.links_of walk.filter.now) F.KINDS };

    ghost followed = { λ walk. IsFollowedPair walk.scan.words.now (F.links_of walk.filter.now) };

    ghost tells = { λ walk. TellsOutside (slice_index walk.scan.words.now)
        (slice_index walk.kinds.now) (F.links_of walk.filter.now) };

    fn count(&self, found: &PairSet) -> usize {
        found.pairs.len()
    }

    fn entry_at(&self, found: &PairSet, at: usize) -> (Block, u32) {
        found.pairs[at]
    }

    fn follow(&self, entry: (Block, u32), found: &mut PairSet) -> Result<(), TraceFault> {
        let (block, kind) = entry;
        self.scan
            .follow_links(self.kinds, self.filter, block, kind, found)
    }

    ghost few = { λ walk set is. few_pairs _ _ _ _ is.pairs.found.marked };
}
