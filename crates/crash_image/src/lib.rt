//! The image that a crash leaves of the durable words of a heap.
#![tactic(auto)]

mod crash;

pub use crash::crash_image;
