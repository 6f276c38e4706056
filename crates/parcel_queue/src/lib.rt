//! A queue for each worker, in which others put parcels for it. What it takes is what they put:
//! nothing is lost, and nothing comes twice.
#![tactic(auto)]

mod laws;
mod pass;
mod queue;
mod row;
mod rule;
mod senders;

pub use laws::{
    a_delivery_loses_and_repeats_nothing, an_owner_takes_what_its_senders_put,
    each_pass_of_a_row_is_to_its_queue, parcels_sorted_by_number_are_those_sent,
};
pub use pass::Pass;
pub use queue::ParcelQueue;
pub use row::{a_pass_to_each, absorb_each};
pub use rule::Fact;
pub use senders::Senders;
