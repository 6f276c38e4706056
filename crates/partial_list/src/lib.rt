//! The list of superblocks of a class that have free blocks, a Treiber stack with a counted head as
//! that of the free ones: there is one for each class.
#![tactic(auto)]

mod lists;

pub use lists::{pop, push};
pub use superblock_lists::Pop;
