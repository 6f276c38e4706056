//! The first heap with a filter of its own: a list of nodes, and what recovery keeps of it.
#![tactic(auto)]

mod filter;
mod list;
mod run;

use run::crash_and_recover;
use std::test::Fail;

fn main(rt: HostRuntime) -> Result<(), Fail> {
    let (nodes, left) = crash_and_recover(rt.alloc())?;
    println!(rt; "linked: {} nodes", nodes.len())?;
    let words = left.heap.words();
    for node in left.heap.held() {
        let at = node.first_word.saturating_add(1);
        let value = words.get(at as usize).copied().unwrap_or(0);
        println!(rt; "kept: the node of {value}")?;
    }
    Ok(())
}
