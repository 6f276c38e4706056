//! Worked examples of what the contracts of the allocator for threads say: which views of a seat
//! before and after a call they take, and which they refuse. `specs/` has them.
#![tactic(auto)]

mod laws;

pub use laws::contracts_take_and_refuse;
