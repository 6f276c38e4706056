//! One worker's part of a run over a heap that it shares: tables are made, its requests are worked
//! off, and what came for it is brought in.
#![tactic(auto)]

mod arriving;
mod asking;
mod beginning;
mod targets;

pub use arriving::{Worked, arrive, leave, leave_begun};
pub use asking::{Asked, ask};
pub use beginning::{Begun, Job, begin};
pub use targets::targets_of_moves;
