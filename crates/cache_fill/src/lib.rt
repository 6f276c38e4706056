//! How an empty cache is filled: with the free blocks of a superblock of the class, or with all
//! blocks of one that is cut.
#![tactic(auto)]

mod cuts;
mod refills;
mod takes;

pub use cuts::cut;
pub use refills::{Filling, refill};
pub use takes::take_free_blocks;
