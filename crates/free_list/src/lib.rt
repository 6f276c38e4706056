//! The list of free superblocks, a Treiber stack with a counted head. The head holds the number of
//! the first superblock and how many pops there were; each superblock's link holds the next one.
#![tactic(auto)]

mod lists;

pub use lists::{pop, push};
pub use superblock_lists::Pop;
