//! A block that one thread wrote and handed to another: it is held once, and has its words.
#![tactic(auto)]

mod handover;
mod hands;
#[cfg(test)]
mod tests;
mod threads;

pub use handover::{HandedOver, hand_over};
pub use hands::{Received, send};
