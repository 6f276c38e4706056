//! The core of the shared heap, to run: opened over a recovered heap for several seats, it takes
//! their atomic steps in any order, and makes the image that a crash leaves.
#![tactic(auto)]

mod accepting;
mod anchor_exchanges;
mod anchors;
mod crash;
mod cuts;
mod fresh;
mod handing;
mod heap_core;
mod laws;
mod list_exchanges;
mod looks;
mod moves;
mod opened;
mod own_words;
mod owners;
mod reads;
mod runs;
mod spans;
mod state;
mod steps;
mod stores;
mod ticks;
mod usages;
mod words;

pub use core_model::{Event, Shift, StepAnswer};
pub use heap_core::Core;
pub use laws::a_core_stands_for_a_sound_state;
pub use owners::{BlockOwner, BlockPlace};
pub use seat_state::Owners;
