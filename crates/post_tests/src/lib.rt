//! Tests of nodes on their way from one worker's seat to another's. The crate is nothing but these,
//! so that a change of them costs no proof of what they run.
#![tactic(auto)]

#[cfg(test)]
mod early;
#[cfg(test)]
mod opening;
