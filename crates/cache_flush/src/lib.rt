//! A cache is flushed: its blocks go back to their superblocks, as many of one superblock at a time
//! as lie together.
#![tactic(auto)]

mod all;
mod flushes;
mod gives;
mod lifts;

pub use all::flush_all;
pub use flushes::flush;
pub use gives::give;
pub use lifts::{Prefix, lift, lift_prefix};
