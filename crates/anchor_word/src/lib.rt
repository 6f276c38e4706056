//! The anchor of a superblock: one word with its state, its first free block and how many are free.
#![tactic(auto)]

mod anchor;
mod laws;
mod word;

pub use anchor::{Anchor, EMPTY, FULL, State, give, take_all};
pub use laws::constants_agree;
pub use word::{anchor_count, anchor_first, is_partial, pack, unpack};
