//! What the parts of all workers of a run come to: which requests are answered, with which replies,
//! and what image is left.
#![tactic(auto)]

mod answers;
mod held;
mod left;
mod spent;

pub use answers::what_the_workers_answered;
pub use held::{
    a_refused_put_was_turned_down, an_answered_request_was_worked_off, what_the_workers_held,
};
pub use left::what_the_workers_left;
pub use spent::what_the_workers_spent;
