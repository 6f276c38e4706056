//! A closed image opened without a trace, where its own anchors tell what it holds.
#![tactic(auto)]

mod chains;
mod free_list;
mod laws;
mod open;
mod reading;
mod reopen;
mod superblocks;

pub use laws::{
    what_is_opened_quickly_drains_alike, what_is_orderly_and_reached_opens_alike,
    words_of_full_superblocks_do_not_count,
};
pub use open::{Path, Quick, quick_open, quick_open_current, quick_open_owned};
