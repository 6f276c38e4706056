//! What is noted of a seat of the shared heap while it runs, whose each superblock is, the words
//! that its exchanges leave, and how a heap at rest is opened for several seats.
#![tactic(auto)]

mod anchors;
mod heads;
mod notes;
mod opened_superblocks;
mod opening;
mod part;
mod superblocks;

pub use anchors::{anchor_after_give, anchor_after_take_all, first_free};
pub use heads::{head_after_pop, head_after_push, head_first};
pub use notes::{BatchEnds, Cache, NEW_SEAT, NO_BATCH, SeatNotes, Seen};
pub use opened_superblocks::{give_range, superblock_owners};
pub use opening::{Owners, opened_table, ticket_place};
pub use part::{Part, part_at};
pub use superblocks::{SuperblockOwner, SuperblockUsage};
