//! What a seat of a shared heap keeps to tell in constant time which words are its own, and the
//! blocks of its caches as stacks.
#![tactic(auto)]

mod own_words;
mod owned;
mod owned_opening;
mod stacks;

pub use owned::{Change, Holding, Owned, Ownership, mark_all, own_range};
pub use owned_opening::{Room, opened_rooms};
pub use stacks::Stack;
