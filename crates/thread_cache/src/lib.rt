//! A seat of an open heap that works by caches, lists and anchors, which threads share without a
//! lock.
#![tactic(auto)]

mod cache_seat;
mod calls;
mod handing;
mod large;
mod laws;
mod quiet;
mod requests;
mod sending;
mod small;
mod words;

pub use cache_seat::CacheSeat;
pub use laws::a_block_comes_as_it_went;
