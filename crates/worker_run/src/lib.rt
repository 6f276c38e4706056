//! One worker's part of a run of a trace: its requests, worked off on a seat of any open heap.
#![tactic(auto)]

mod answer;
mod image_left;
mod laws;
mod no_outbox;
mod room;
mod work;
mod worker;

pub use image_left::{CrashWords, closed_image, left_by_crash};
pub use laws::{
    a_dictionary_lists_its_keys, a_read_trace_is_short, a_recovered_dictionary_is_a_dictionary,
    a_run_goes_on_request_by_request, any_heap_leaves_a_dictionary,
    each_shard_of_a_seat_may_be_asked, what_a_run_leaves_can_be_run_again,
    what_a_run_leaves_is_a_dictionary, what_a_seat_kept_is_as_it_was,
};
pub use no_outbox::NoOutbox;
pub use room::{longest_puts, make_rooms};
pub use work::work_off;
pub use worker::{Worker, worker_of};
