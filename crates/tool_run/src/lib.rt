//! The tool's top call: does what the words of a command line ask for, and answers a status.
#![tactic(auto)]

mod conservative;
mod counting;
mod delivery;
mod drained;
mod draining;
mod fault;
mod generating;
mod getting;
mod making;
mod rebuilding;
mod recovering;
mod replaying;
mod run;
mod status;
mod working;

pub use run::{run_tool, tell_out_of_memory};
pub use status::Status;
pub use tool_command::{
    words_in_a_form_ask_for_its_command, words_without_a_fault_ask_for_a_command,
};
