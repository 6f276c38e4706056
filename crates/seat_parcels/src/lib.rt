//! Nodes go between seats of one heap, from worker to worker, by queues.
#![tactic(auto)]

mod bringing;
mod collecting;
mod fact;
mod intray;
mod laws;
mod parcel;
mod postbox;
mod sending;
mod sorting;

pub use collecting::collect;
pub use fact::{HeapOf, OfHeap, QueuesOf};
pub use intray::{ArrivalsOf, InTray};
pub use laws::{each_parcel_goes_to_its_worker, each_parcel_is_for_one_worker};
pub use parcel::Parcel;
pub use postbox::{Post, PostBox};
pub use sorting::sort_out;
