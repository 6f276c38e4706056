//! Superblocks that were never taken, and large blocks, which take adjoining superblocks whole.
#![tactic(auto)]

mod fresh;
mod holds;
mod infos;
mod splits;

pub use fresh::{Take, take_fresh};
pub use holds::hold;
pub use infos::set_info;
pub use splits::{Superblocks, split, superblocks_of};
