//! The lists of superblocks: those of free superblocks, and of each class those with free blocks.
//! Each row of steps is tried anew where another seat was faster.
#![tactic(auto)]

mod anchors;
mod laws;
mod pops;
mod pushes;

pub use anchors::look_anchor;
pub use laws::a_claimed_superblock_is_in_one_hand;
pub use pops::{Pop, pop_from};
pub use pushes::push_to;
