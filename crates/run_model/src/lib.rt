//! What a run of a trace of requests by one to eight workers is: definitions, and what follows
//! from them.
#![tactic(auto)]

mod laws;
mod sending;

pub use laws::{
    a_dictionary_is_one_map, a_run_without_a_refusal_is_that_of_one_thread,
    enough_room_refuses_nothing, replies_fit_the_trace, runs_as_one_thread_are_alike,
};
pub use sending::what_workers_send_is_what_arrives;
