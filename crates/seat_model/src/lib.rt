//! A seat of the core, seen as a seat of an open heap; and what such seats leave when they close one.
#![tactic(auto)]

mod closing;
mod laws;

pub use closing::a_closed_heap_tells_what_it_holds;
pub use laws::{a_seat_of_the_core_is_a_seat_of_a_heap, blocks_come_and_go};
