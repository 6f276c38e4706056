//! Which of its roots reach each block of a heap image: none, one, or several.
#![tactic(auto)]

mod labels;
mod origin;
mod steps;
mod worklist;

pub use labels::Origins;
pub use origin::Origin;
pub use worklist::trace_origins;
