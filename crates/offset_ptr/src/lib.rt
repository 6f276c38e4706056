//! Pointer words, which hold a byte offset and so don't depend on where the heap is mapped.
#![tactic(auto)]

mod pointer;

pub use pointer::{Ptr, decode, encode};
