//! The words of a shared heap in a table of atomic words, and the steps of its seats there: each
//! changes one word, and is one event of the core.
#![tactic(auto)]

mod closing;
mod handing;
mod laws;
mod opening;
mod pairs;
mod plays;
mod rule;
mod shared;
mod steps;

pub use closing::{close_table, fresh_seat, join};
pub use handing::{accept, offer};
pub use laws::{
    a_heap_without_a_budget_stays_as_it_was_opened,
    a_superblock_that_was_never_taken_stays_as_it_was_opened, what_a_heap_comes_to_is_sound,
};
pub use opening::{open_table, split_first};
pub use pairs::read_both;
pub use rule::{Known, TableSeat};
pub use shared::Shared;
pub use steps::{draw, exchange, learn, learn_own, look, raise, read, recall, stands, store};
