//! Recovery: from any image to a heap at rest that holds exactly the blocks that its roots reach.
#![tactic(auto)]

mod answer;
mod chain_links;
mod chains;
mod fault;
mod in_place;
mod laws;
mod parts;
mod passes;
mod recovery;
mod roles;
mod superblocks;
mod surveys;
mod taken;

pub use answer::{Recovered, Was};
pub use chain_links::{link_lists, members};
pub use fault::RecoverFault;
pub use in_place::rebuild;
pub use laws::{
    each_superblock_is_left_by_itself, reached_words_are_unchanged,
    recovery_begun_again_gives_the_same, recovery_has_one_outcome,
    recovery_in_place_takes_few_steps,
};
pub use parts::SuperblockBlocks;
pub use recovery::{
    current_copy, keep_marked, recover, recover_by, recover_current, recover_owned,
    recover_owned_by, recover_with_stored_kinds,
};
pub use roles::Role;
pub use superblocks::{rebuild_superblock, write_descriptor};
pub use surveys::{Survey, survey_parts, survey_superblock};
pub use taken::{Found, InOrder, RebuildPass};
