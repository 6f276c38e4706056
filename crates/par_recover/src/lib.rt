//! Recovery whose marks are looked through by threads, each a piece of the heap.
#![tactic(auto)]

mod marked;
mod pass;
mod recovery;
mod room;
mod surveys;

pub use recovery::{recover_current_par, recover_owned_par, recover_par};
