//! The links of the dictionary's filter, and the kinds of the roots.
use crate::checks::must_hold;
use dictionary::{DictFilter, NODE, OTHER, TABLE, root_kinds};
use filter_trace::Filter;

/// The links of a block, as far as there are five.
fn first_links(kind: u32, block: &[u64]) -> [Option<(usize, u32)>; 5] {
    [0, 1, 2, 3, 4].map(|at| DictFilter.links(kind, block, at))
}

#[test]
fn a_table_links_each_word_and_a_node_its_first(rt: HostRuntime) {
    let words = [5, 0, 7, 9];
    let all = [Some((0, 2)), Some((1, 2)), Some((2, 2)), Some((3, 2)), None];
    let first = [Some((0, 2)), None, None, None, None];
    must_hold(&rt, first_links(TABLE, &words) == all, "of a table");
    must_hold(&rt, first_links(NODE, &words) == first, "of a node");
    must_hold(&rt, first_links(OTHER, &words) == [None; 5], "of others");
    must_hold(&rt, first_links(3, &words) == [None; 5], "of no kind");
}

#[test]
fn the_first_eight_roots_lead_to_tables(rt: HostRuntime) {
    let kinds = root_kinds();
    must_hold(
        &rt,
        kinds[0] == TABLE && kinds[7] == TABLE,
        "the first eight",
    );
    must_hold(&rt, kinds[8] == OTHER && kinds[1023] == OTHER, "the others");
}
