//! Which blocks of a heap image its roots reach, through the links that a filter lists.
#![tactic(auto)]

mod fault;
mod filter;
mod marks;
mod pairs;
mod scan;
mod walk;
mod worklist;

pub use fault::TraceFault;
pub use filter::Filter;
pub use marks::Marks;
pub use pairs::{PairSet, mark_at};
pub use scan::{Scan, Target};
pub use walk::{Walk, follow_all};
pub use worklist::trace;
