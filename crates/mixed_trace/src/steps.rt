//! The steps of the trace: what a word adds as one of a mode, and what the roots and the words of a
//! block do.
ghost use Rattle.std.specs.Prelude.{◌≡◌, ◌+◌, ◌<◌, length, slice_index, OnOk, IfErr};
ghost use Rattle.std.specs.List.{All};
ghost use Rattle.heap_model.specs.Geometry.{roots};
ghost use Rattle.heap_model.specs.Blocks.{layout_of};
ghost use Rattle.heap_model.specs.Reach.{words_in};
ghost use Rattle.super_block.specs.Division.{Describes};
ghost use Rattle.filter_trace.specs.Steps.{IsImage, IsSetOf};
ghost use Rattle.mixed_trace.specs.declared.mode.Mode.{Mode};
ghost use Rattle.mixed_trace.specs.declared.mode.Mode.TheVariants.{Kind};
ghost use Rattle.mixed_trace.specs.Reach.{modes_of, FitsBelow, ReachMixed};
ghost use Rattle.mixed_trace.specs.Codes.{TellsOutsideMixed};
ghost use Rattle.mixed_trace.specs.Steps.{Passes, FollowsAs, TellsAs, HasFoundMixed, FollowsEachOf, IsRootAmong, IsLinkAmong, IsWordAmong, IsCounted};

use crate::mode::Mode;
use filter_trace::{Filter, PairSet, Scan, Target, TraceFault};
use heap_model::Block;
use std::alloc::AllocError;
use super_block::ROOT_WORD;

/// Adds what the word at the index leads to, as one of the kind. A word that leads nowhere is
/// passed by.
fn follow_any(scan: &Scan, at: usize, kind: u32, found: &mut PairSet) -> Result<(), AllocError>
    requires at { at < length scan.now.words.now }
    requires described { Describes scan.now.directory.now
        (layout_of (slice_index scan.now.words.now)) }
    requires kind { kind < found.old.kinds }
    requires marked { IsSetOf scan.now.words.now found.old }
    ensures kinds { found.new.kinds ≡ found.old.kinds }
    ensures ok { OnOk result (Passes (slice_index scan.now.words.now) found.old.kinds at kind
        found.old.pairs.items found.new.pairs.items found.old.marks found.new.marks) }
{
    match scan.target_of(scan.words[at]) {
        Target::To(block) => found.insert(block, kind),
        Target::Null => Ok(()),
        Target::Nowhere => Ok(()),
    }
}

/// Adds what the word at the index leads to, as one of the mode, `limit` being the number of the
/// mode of no filter. A word of that mode may lead nowhere.
fn follow_as(
    scan: &Scan,
    limit: u32,
    at: usize,
    mode: Mode,
    found: &mut PairSet,
) -> Result<(), TraceFault>
    requires at { at < length scan.now.words.now }
    requires described { Describes scan.now.directory.now
        (layout_of (slice_index scan.now.words.now)) }
    requires fits { FitsBelow limit mode }
    requires kinds { found.old.kinds ≡ limit + 1 }
    requires marked { IsSetOf scan.now.words.now found.old }
    ensures kinds { found.new.kinds ≡ found.old.kinds }
    ensures ok { OnOk result (FollowsAs (slice_index scan.now.words.now) limit at mode
        found.old.pairs.items found.new.pairs.items found.old.marks found.new.marks) }
    ensures err { IfErr result (TellsAs (slice_index scan.now.words.now) at mode) }
{
    match mode {
        Mode::Kind(kind) => scan.follow(at, kind, found),
        Mode::All => {
            follow_any(scan, at, limit, found)?;
            Ok(())
        }
    }
}

/// Adds what the roots lead to, each as one of the root's mode.
pub fn follow_roots<F: Filter>(
    scan: &Scan,
    modes: &[Mode],
    _filter: &F,
    found: &mut PairSet,
) -> Result<(), TraceFault>
    requires formed { IsImage scan.now.words.now }
    requires described { Describes scan.now.directory.now
        (layout_of (slice_index scan.now.words.now)) }
    requires roots { length modes.now ≡ roots }
    requires modes { All (FitsBelow F.KINDS) modes.now }
    requires kinds { found.old.kinds ≡ F.KINDS + 1 }
    requires found { HasFoundMixed scan.now.words.now modes.now (F.links_of _filter.now) F.KINDS
        found.old }
    ensures kinds { found.new.kinds ≡ found.old.kinds }
    ensures ok { OnOk result (FollowsEachOf scan.now.words.now modes.now (F.links_of _filter.now)
        F.KINDS (IsRootAmong (modes_of modes.now) roots) found.old found.new) }
    ensures err { IfErr result (TellsOutsideMixed (slice_index scan.now.words.now)
        (modes_of modes.now) (F.links_of _filter.now)) }
{
    for (root, mode) in modes.iter().enumerate() {
        follow_as(scan, F::KINDS, ROOT_WORD as usize + root, *mode, found)?;
    }
    Ok(())
}

/// Adds what the words of a block lead to that count, the block being reached as one of the mode.
pub fn follow_block<F: Filter>(
    scan: &Scan,
    modes: &[Mode],
    filter: &F,
    block: Block,
    mode: Mode,
    found: &mut PairSet,
) -> Result<(), TraceFault>
    requires formed { IsImage scan.now.words.now }
    requires described { Describes scan.now.directory.now
        (layout_of (slice_index scan.now.words.now)) }
    requires kinds { found.old.kinds ≡ F.KINDS + 1 }
    requires reached { ReachMixed (slice_index scan.now.words.now) (modes_of modes.now)
        (F.links_of filter.now) block mode }
    requires found { HasFoundMixed scan.now.words.now modes.now (F.links_of filter.now) F.KINDS
        found.old }
    ensures kinds { found.new.kinds ≡ found.old.kinds }
    ensures ok { OnOk result (FollowsEachOf scan.now.words.now modes.now (F.links_of filter.now)
        F.KINDS
        (IsCounted (slice_index scan.now.words.now) (F.links_of filter.now) block mode)
        found.old found.new) }
    ensures err { IfErr result (TellsOutsideMixed (slice_index scan.now.words.now)
        (modes_of modes.now) (F.links_of filter.now)) }
{
    match mode {
        Mode::Kind(kind) => follow_links(scan, modes, filter, block, kind, found),
        Mode::All => follow_words(scan, modes, filter, block, found),
    }
}

/// Of a block of a kind: what its links lead to.
fn follow_links<F: Filter>(
    scan: &Scan,
    _modes: &[Mode],
    filter: &F,
    block: Block,
    kind: u32,
    found: &mut PairSet,
) -> Result<(), TraceFault>
    requires formed { IsImage scan.now.words.now }
    requires described { Describes scan.now.directory.now
        (layout_of (slice_index scan.now.words.now)) }
    requires kinds { found.old.kinds ≡ F.KINDS + 1 }
    requires reached { ReachMixed (slice_index scan.now.words.now) (modes_of _modes.now)
        (F.links_of filter.now) block (Kind kind) }
    requires found { HasFoundMixed scan.now.words.now _modes.now (F.links_of filter.now) F.KINDS
        found.old }
    ensures kinds { found.new.kinds ≡ found.old.kinds }
    ensures ok { OnOk result (FollowsEachOf scan.now.words.now _modes.now (F.links_of filter.now)
        F.KINDS
        (IsLinkAmong block
        (F.links_of filter.now kind (words_in (slice_index scan.now.words.now) block)))
        found.old found.new) }
    ensures err { IfErr result (TellsOutsideMixed (slice_index scan.now.words.now)
        (modes_of _modes.now) (F.links_of filter.now)) }
{
    let first = block.first_word as usize;
    let inside = scan.words_of(block);
    let mut at = 0;
    while let Some((position, to)) = filter.links(kind, inside, at) {
        follow_as(scan, F::KINDS, first + position, Mode::Kind(to), found)?;
        at += 1;
    }
    Ok(())
}

/// Of a block of no filter: what any of its words leads to.
fn follow_words<F: Filter>(
    scan: &Scan,
    _modes: &[Mode],
    _filter: &F,
    block: Block,
    found: &mut PairSet,
) -> Result<(), TraceFault>
    requires formed { IsImage scan.now.words.now }
    requires described { Describes scan.now.directory.now
        (layout_of (slice_index scan.now.words.now)) }
    requires kinds { found.old.kinds ≡ F.KINDS + 1 }
    requires reached { ReachMixed (slice_index scan.now.words.now) (modes_of _modes.now)
        (F.links_of _filter.now) block Mode.All }
    requires found { HasFoundMixed scan.now.words.now _modes.now (F.links_of _filter.now) F.KINDS
        found.old }
    ensures kinds { found.new.kinds ≡ found.old.kinds }
    ensures ok { OnOk result (FollowsEachOf scan.now.words.now _modes.now (F.links_of _filter.now)
        F.KINDS (IsWordAmong block block.words) found.old found.new) }
    ensures err { IfErr result (TellsOutsideMixed (slice_index scan.now.words.now)
        (modes_of _modes.now) (F.links_of _filter.now)) }
{
    let first = block.first_word as usize;
    let inside = scan.words_of(block);
    for position in 0..inside.len() {
        follow_as(scan, F::KINDS, first + position, Mode::All, found)?;
    }
    Ok(())
}
