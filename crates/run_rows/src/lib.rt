//! The rows of a run: its workers make tables, work off their requests, and bring in what they sent
//! each other, each worker in a thread of its own where one can be made.
#![tactic(auto)]

mod arriving;
mod handing;
mod posts;
mod rows;
mod sending;

pub use arriving::Ended;
pub use rows::run_rows;
