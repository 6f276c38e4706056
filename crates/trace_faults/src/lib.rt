//! Why a line of a trace asks for nothing, in words for the user.
#![tactic(auto)]

mod fault;
mod line;
mod number;
mod pieces;
mod trace;
mod value;
mod verb;

pub use fault::{LineFault, NumberFault, ValueFault};
pub use line::fault_of_line;
pub use trace::fault_at;
