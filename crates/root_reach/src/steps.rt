//! The steps of the trace: what the roots and the links of a block add.
ghost use Rattle.std.specs.Prelude.{◌≡◌, ◌*◌, ◌<◌, ℕ, length, slice_index, OnOk};
ghost use Rattle.std.specs.List.{All};
ghost use Rattle.heap_model.specs.Geometry.{roots};
ghost use Rattle.heap_model.specs.Header.{IsWellFormed};
ghost use Rattle.heap_model.specs.Blocks.{layout_of, IsBlock};
ghost use Rattle.heap_model.specs.Reach.{words_in};
ghost use Rattle.super_block.specs.Division.{Describes};
ghost use Rattle.root_reach.specs.Origins.{IsRoot};
ghost use Rattle.root_reach.specs.Reaching.{HasLabels, Tells};
ghost use Rattle.root_reach.specs.Steps.{Propagates, AreFindings, PropagatesRoots, PropagatesLinks};

use crate::labels::{Finding, Labelling};
use crate::origin::Origin;
use filter_trace::{Filter, Scan, Target};
use std::alloc::AllocError;
use super_block::ROOT_WORD;

/// Adds that the roots reach what the word at the index leads to, as one of the kind. A word that
/// leads nowhere is passed by.
fn follow(
    scan: &Scan,
    at: usize,
    kind: u32,
    origin: Origin,
    found: &mut Labelling,
) -> Result<(), AllocError>
    requires at { at < length scan.now.words.now }
    requires described { Describes scan.now.directory.now
        (layout_of (slice_index scan.now.words.now)) }
    requires kind { kind < found.old.origins.kinds }
    requires root { IsRoot origin }
    requires room { HasLabels (layout_of (slice_index scan.now.words.now)) found.old.origins.kinds
        found.old.origins.labels.items }
    ensures kinds { found.new.origins.kinds ≡ found.old.origins.kinds }
    ensures ok { OnOk result (Propagates (slice_index scan.now.words.now) found.old.origins.kinds at
        kind origin found.old.list.items found.new.list.items found.old.origins.labels.items
        found.new.origins.labels.items) }
{
    match scan.target_of(scan.words[at]) {
        Target::To(block) => found.add(block, kind, origin),
        Target::Null => Ok(()),
        Target::Nowhere => Ok(()),
    }
}

/// Adds that each root reaches what it leads to, as one of the root's kind.
pub fn follow_roots<F: Filter>(
    scan: &Scan,
    kinds: &[u32],
    _filter: &F,
    found: &mut Labelling,
) -> Result<(), AllocError>
    requires formed { IsWellFormed (8 * length scan.now.words.now)
        (slice_index scan.now.words.now) }
    requires described { Describes scan.now.directory.now
        (layout_of (slice_index scan.now.words.now)) }
    requires roots { length kinds.now ≡ roots }
    requires kinds { All (λ kind. kind < found.old.origins.kinds) kinds.now }
    requires so_far { AreFindings (slice_index scan.now.words.now) (slice_index kinds.now)
        (F.links_of _filter.now) found.old.origins.kinds found.old.list.items
        found.old.origins.labels.items }
    ensures kinds { found.new.origins.kinds ≡ found.old.origins.kinds }
    ensures ok { OnOk result (PropagatesRoots (slice_index scan.now.words.now)
        (slice_index kinds.now)
        (F.links_of _filter.now) found.old.origins.kinds roots found.new.list.items
        found.new.origins.labels.items) }
    ensures long { OnOk result (length found.new.origins.labels.items
        ≡ length found.old.origins.labels.items) }
{
    for (root, kind) in kinds.iter().enumerate() {
        follow(
            scan,
            ROOT_WORD as usize + root,
            *kind,
            Origin::One(root as u16),
            found,
        )?;
    }
    Ok(())
}

/// Adds that the roots of what was found reach what the links of its block lead to.
pub fn follow_links<F: Filter>(
    scan: &Scan,
    _kinds: &[u32],
    filter: &F,
    finding: Finding,
    found: &mut Labelling,
) -> Result<(), AllocError>
    requires formed { IsWellFormed (8 * length scan.now.words.now)
        (slice_index scan.now.words.now) }
    requires described { Describes scan.now.directory.now
        (layout_of (slice_index scan.now.words.now)) }
    requires kinds { found.old.origins.kinds ≡ F.KINDS }
    requires tells { Tells (slice_index scan.now.words.now) (slice_index _kinds.now)
        (F.links_of filter.now) finding.block finding.kind finding.origin }
    requires so_far { AreFindings (slice_index scan.now.words.now) (slice_index _kinds.now)
        (F.links_of filter.now) F.KINDS found.old.list.items found.old.origins.labels.items }
    ensures kinds { found.new.origins.kinds ≡ found.old.origins.kinds }
    ensures ok { OnOk result (PropagatesLinks (slice_index scan.now.words.now)
        (slice_index _kinds.now)
        (F.links_of filter.now) F.KINDS finding.block finding.origin
        (F.links_of filter.now finding.kind
        (words_in (slice_index scan.now.words.now) finding.block))
        found.old.list.items found.new.list.items found.old.origins.labels.items
        found.new.origins.labels.items) }
{
    let first = finding.block.first_word as usize;
    let inside = scan.words_of(finding.block);
    let mut at = 0;
    while let Some((position, to)) = filter.links(finding.kind, inside, at) {
        follow(scan, first + position, to, finding.origin, found)?;
        at += 1;
    }
    Ok(())
}
