//! Where the blocks of the dictionary hold pointers.

ghost use Rattle.std.specs.Prelude.{◌≡◌, ◌<◌, ℕ, All, length, slice_get, slice_index};
ghost use Rattle.heap_model.specs.Header.{first_kinds};
ghost use Rattle.dict_model.specs.Links.{all_to_nodes, first_to_node, dict_links, kind_count, root_kind};

use dict_model::{NEXT_INDEX, SHARDS};
use filter_trace::Filter;
use super_block::ROOTS;

/// The kind of a block without links: what a root leads to that is not the dictionary's, in an
/// image that `format` makes.
pub const OTHER: u32 = 0;

/// The kind of a table: each of its words leads to the first node of a bucket.
pub const TABLE: u32 = 1;

/// The kind of a node: its first word leads to the next node of its bucket.
pub const NODE: u32 = 2;

/// The kinds that `recover` gives the roots of an image of the old version, which stores none: the
/// first eight lead to tables, and the others to blocks without links.
pub fn root_kinds() -> [u32; ROOTS as usize]
    ensures list { result ≡ first_kinds }
    ensures kinds { (i : ℕ) → slice_index result i ≡ root_kind i }
    ensures few { All (λ kind. kind < kind_count) result }
{
    let mut kinds = [OTHER; ROOTS as usize];
    for i in 0..SHARDS as usize {
        kinds[i] = TABLE;
    }
    kinds
}

/// The filter of the dictionary's tables and nodes.
#[derive(Clone, Copy, PartialEq, Eq, Debug)]
pub struct DictFilter;

impl Filter for DictFilter {
    ghost use Rattle.dict_model.specs.Links.{dict_links, kind_count};
    ghost use Rattle.dictionary.specs.Laws.{are_inside, are_few};

    const KINDS: u32 = 3;

    ghost KINDS = { kind_count };

    ghost links_of = { λ _. dict_links };

    fn links(&self, kind: u32, block: &[u64], at: usize) -> Option<(usize, u32)> {
        match kind {
            TABLE => bucket(block, at),
            NODE => next(block, at),
            _ => None,
        }
    }

    ghost inside = { λ _. are_inside };

    ghost few = { λ _ kind block. are_few kind block };
}

/// The link number `at` of a table: its word `at`.
fn bucket(block: &[u64], at: usize) -> Option<(usize, u32)>
    ensures { result ≡ slice_get (all_to_nodes 0 block.now) at }
{
    if at < block.len() {
        Some((at, NODE))
    } else {
        None
    }
}

/// The link number `at` of a node: its first word.
fn next(block: &[u64], at: usize) -> Option<(usize, u32)>
    ensures { result ≡ slice_get (first_to_node block.now) at }
{
    (at == 0 && !block.is_empty()).then_some((NEXT_INDEX as usize, NODE))
}
