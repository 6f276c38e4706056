//! What recovery leaves is a heap at rest; and what a closed image tells of itself by its anchors.
#![tactic(auto)]

mod draining;
mod laws;
mod orderly;

pub use draining::what_recovery_leaves_is_drainable;
pub use laws::what_recovery_leaves_is_ready;
pub use orderly::{
    anchors_tell_without_the_words_of_full_superblocks, what_anchors_hold_are_blocks,
};
