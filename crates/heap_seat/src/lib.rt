//! What every open heap promises to the thread that works on it: blocks that it allocates and
//! frees, and words that it loads, stores and makes durable.
#![tactic(auto)]

mod durable;
mod fault;
mod laws;
mod look;
mod seat;
mod spot;

pub use durable::persist;
pub use fault::{AllocFault, Looks};
pub use laws::rows_of_calls_go_together;
pub use look::Look;
pub use seat::HeapSeat;
pub use spot::Spot;
