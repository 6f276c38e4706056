//! Where the nodes of the list have their links.
use filter_trace::Filter;

/// The kind of a block without links.
pub const OTHER: u32 = 0;

/// The kind of a node: its first word leads to the next node.
pub const NODE: u32 = 1;

/// The filter of the list.
pub struct NodeFilter;

impl Filter for NodeFilter {
    const KINDS: u32 = 2;

    ghost use Rattle.first_filter.specs.Nodes.{node_links, node_links-inside, node_links-few};

    ghost KINDS = { 2 };

    ghost links_of = { λ _. node_links };

    fn links(&self, kind: u32, block: &[u64], at: usize) -> Option<(usize, u32)> {
        (kind == NODE && at == 0 && !block.is_empty()).then_some((0, NODE))
    }

    ghost inside = { λ _. node_links-inside };

    ghost few = { λ _. node_links-few };
}
