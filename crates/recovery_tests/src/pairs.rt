//! The filter of the tests: blocks that are pairs of links.
ghost use Rattle.std.specs.Prelude.{◌≡◌, ◌<◌, length, slice_get, IfOk};
ghost use Rattle.std.specs.List.{All};
ghost use Rattle.heap_model.specs.Geometry.{roots};
ghost use Rattle.recovery_tests.specs.PairLinks.{one_link};

use filter_trace::Filter;
use std::alloc::{AllocError, Global};

/// Pairs, whose first link is in word 0 and leads to such a pair again (kind 2), or whose second
/// is in word 2 and leads to a block without links (kind 1).
pub struct Pairs;

impl Filter for Pairs {
    const KINDS: u32 = 3;

    ghost use Rattle.recovery_tests.specs.PairLinks.{pair_links, pair_links-inside, pair_links-few};

    ghost KINDS = { 3 };

    ghost links_of = { λ _. pair_links };

    fn links(&self, kind: u32, block: &[u64], at: usize) -> Option<(usize, u32)> {
        match kind {
            1 => link_in(2, 0, block, at),
            2 => link_in(0, 2, block, at),
            _ => None,
        }
    }

    ghost inside = { λ _. pair_links-inside };

    ghost few = { λ _. pair_links-few };
}

/// The one link, in that word of the block, to a block of the kind.
fn link_in(word: usize, kind: u32, block: &[u64], at: usize) -> Option<(usize, u32)>
    ensures { result ≡ slice_get (one_link word kind block.now) at }
{
    if at == 0 && word < block.len() {
        Some((word, kind))
    } else {
        None
    }
}

/// The kinds of the roots: a pair for its first link, and for its second; 0 for the others.
pub fn kinds(alloc: Global) -> Result<Vec<u32>, AllocError>
    ensures long { IfOk result (λ kinds. length kinds.items ≡ roots) }
    ensures below { IfOk result (λ kinds. All (λ kind. kind < 3) kinds.items) }
{
    let mut kinds = vec![in alloc; 0; 1_024]?;
    kinds[0] = 2;
    kinds[1] = 1;
    Ok(kinds)
}
