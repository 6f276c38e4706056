//! The trace: a walk over what was found, from the roots on. What is told of a block as one of a
//! kind changes twice at most, from no root to one, and to several, and is followed each time.
ghost use Rattle.std.specs.Prelude.{◌≡◌, ◌*◌, ◌<◌, length, slice_index, IfOk};
ghost use Rattle.std.specs.List.{All};
ghost use Rattle.heap_model.specs.Geometry.{roots, start_word};
ghost use Rattle.heap_model.specs.Header.{IsWellFormed, capacity_of, used_of};
ghost use Rattle.heap_model.specs.Blocks.{layout_of};
ghost use Rattle.super_block.specs.Division.{Describes};
ghost use Rattle.root_reach.specs.Reaching.{AreOrigins};

use crate::labels::{Finding, Labelling, Origins};
use crate::steps::{follow_links, follow_roots};
use filter_trace::{Filter, Scan, Walk, follow_all};
use std::alloc::{AllocError, Global};
use super_block::{CAPACITY_WORD, Geometry, USED_WORD};

/// Which roots reach each block of the image, `kinds` being the kind of what each root leads to.
/// Words that lead nowhere are passed by. Time grows with the blocks and links that are reached,
/// room with the words up to the end of the superblocks that were taken, two bytes for each word
/// and kind.
pub fn trace_origins<F: Filter>(
    alloc: Global,
    scan: &Scan,
    kinds: &[u32],
    filter: &F,
) -> Result<Origins, AllocError>
    requires formed { IsWellFormed (8 * length scan.now.words.now)
        (slice_index scan.now.words.now) }
    requires described { Describes scan.now.directory.now
        (layout_of (slice_index scan.now.words.now)) }
    requires roots { length kinds.now ≡ roots }
    requires kinds { All (λ kind. kind < F.KINDS) kinds.now }
    ensures ok { IfOk result (AreOrigins (slice_index scan.now.words.now) (slice_index kinds.now)
        (F.links_of filter.now)) }
    ensures kinds { IfOk result (λ origins. origins.kinds ≡ F.KINDS) }
{
    let mut found = Labelling::new(alloc, words_of_taken(scan.words), F::KINDS)?;
    follow_roots(scan, kinds, filter, &mut found)?;
    let walk = ByOrigins {
        scan,
        kinds,
        filter,
    };
    follow_all(&walk, &mut found)?;
    let Labelling { list: _, origins } = found;
    Ok(origins)
}

// From what was found of a block to what its links lead to.
#[derive(Drop)]
struct ByOrigins<'a, 'b, 'c, 'd, F> {
    scan: &'a Scan<'b>,
    kinds: &'c [u32],
    filter: &'d F,
}

impl<F: Filter> Walk for ByOrigins<'_, '_, '_, '_, F> {
    ghost use Rattle.std.specs.Prelude.{⊤};
    ghost use Rattle.root_reach.specs.Steps.{IsOriginTraceOf, IsPropagatedIn};
    ghost use Rattle.root_reach.specs.Laws.{few_found};

    type Found = Labelling;

    type Entry = Finding;

    type Fault = AllocError;

    ghost entries = { λ found. found.list.items };

    ghost most = { λ found. 2 * length found.origins.labels.items };

    ghost sound = { λ walk. IsOriginTraceOf walk.scan.now.words.now walk.kinds.now
        walk.scan.now.directory.now (F.links_of walk.filter.now) F.KINDS };

    ghost followed = { λ walk. IsPropagatedIn walk.scan.now.words.now
        (F.links_of walk.filter.now) F.KINDS };

    ghost tells = { λ _ _. ⊤ };

    fn count(&self, found: &Labelling) -> usize {
        found.list.len()
    }

    fn entry_at(&self, found: &Labelling, at: usize) -> Finding {
        found.list[at]
    }

    fn follow(&self, entry: Finding, found: &mut Labelling) -> Result<(), AllocError> {
        follow_links(self.scan, self.kinds, self.filter, entry, found)
    }

    ghost few = { λ walk found is. few_found _ _ _ _ _ _ is.findings.so_far };
}

// How many words the image has up to the end of the superblocks that were taken: no block has one
// behind.
fn words_of_taken(words: &[u64]) -> usize
    requires formed { IsWellFormed (8 * length words.now) (slice_index words.now) }
    ensures { result ≡ start_word (capacity_of (slice_index words.now))
        (used_of (slice_index words.now)) }
{
    let capacity = words[CAPACITY_WORD as usize];
    let used = words[USED_WORD as usize];
    if used == capacity {
        return Geometry::new(capacity).old_length() as usize;
    }
    Geometry::new(capacity).start(used) as usize
}
