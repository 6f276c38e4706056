//! Which blocks of a heap image its roots reach where some roots have a filter's kind and others
//! none, and recovery that keeps these: conservative tracing.
#![tactic(auto)]

mod conservative;
mod laws;
mod marks;
mod mode;
mod recovery;
mod steps;
mod worklist;

pub use conservative::{recover_conservatively, recover_current_conservatively};
pub use laws::{
    kinds_alone_are_as_in_a_trace, no_less_is_held_with_fewer_filters,
    nothing_is_refused_without_filters,
};
pub use marks::MixedMarks;
pub use mode::Mode;
pub use recovery::recover_mixed;
pub use worklist::trace_mixed;
