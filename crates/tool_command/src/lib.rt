//! The commands of the tool, and the words of a command line that ask for them.
#![tactic(auto)]

mod command;
mod command_line;
mod laws;
mod parsing;
mod trace_plan;

pub use command::Invocation;
pub use command_line::Refusal;
pub use laws::{
    words_ask_for_one_command, words_in_a_form_ask_for_its_command,
    words_without_a_fault_ask_for_a_command,
};
pub use parsing::parse;
pub use trace_plan::{GREATEST_SEED, MOST_REQUESTS, TracePlan};
