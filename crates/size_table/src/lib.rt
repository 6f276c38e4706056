//! The size classes of an allocator's small blocks, and the superblocks that a large one takes.
#![tactic(auto)]

mod class;
mod size_class;
mod span;

pub use class::{LAST_CLASS, blocks_of, class_of, size_of};
pub use size_class::SizeClass;
pub use span::span_of;
