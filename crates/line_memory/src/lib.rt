//! A memory of 64-bit words in 64-byte lines, whose stores become durable only by a write-back
//! and a fence, or early by chance, and which stops at a budget of steps.
#![tactic(auto)]

mod chance;
mod closed;
mod lines;
mod memory;
mod pending;
mod plain;
mod recent;

pub use chance::{Chance, ConstantChance};
pub use closed::Closed;
pub use memory::{LineMemory, Stopped, only_stores_add, persist};
pub use pending::Pending;
pub use plain::PlainMemory;
pub use recent::RecentStores;
