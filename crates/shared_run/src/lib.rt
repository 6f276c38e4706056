//! A trace of requests worked off by one to eight workers over one heap that they share.
#![tactic(auto)]

mod deal;
mod follow;
mod gather;
mod run;

pub use run::{Outcome, run_trace};
