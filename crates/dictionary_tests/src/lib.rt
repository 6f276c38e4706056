//! Tests of the dictionary: its links, and its shards read as maps; on a heap for one thread what it
//! answers, and what a stop leaves of it; and the texts that are read and printed: traces,
//! schedules, replies, answers, reports and maps. The crate is nothing but these, so that a change
//! of the program leaves them alone.
#![tactic(auto)]

mod moves;
mod runs;
mod standing;

pub use runs::{Outcome, run_text};
pub use standing::Standing;

#[cfg(test)]
mod answers;
#[cfg(test)]
mod asks;
#[cfg(test)]
mod bad_shards;
#[cfg(test)]
mod checks;
#[cfg(test)]
mod filter;
#[cfg(test)]
mod gets;
#[cfg(test)]
mod heaps;
#[cfg(test)]
mod made;
#[cfg(test)]
mod move_tests;
#[cfg(test)]
mod readings;
#[cfg(test)]
mod recoveries;
#[cfg(test)]
mod run_tests;
#[cfg(test)]
mod schedules;
#[cfg(test)]
mod scripts;
#[cfg(test)]
mod shards;
#[cfg(test)]
mod tests;
#[cfg(test)]
mod traces;
