//! What a heap image means: the definitions that every contract of this workspace cites.
#![tactic(auto)]

mod block;
mod header;
mod laws;

pub use block::Block;
pub use header::BadHeader;
pub use laws::{
    a_block_lies_in_the_image, a_header_is_good_or_has_a_fault, a_pointer_leads_to_one_block,
    blocks_never_overlap, reach_is_closed, reach_is_least, reach_is_told_by_what_is_traced,
};
