//! What a heap with one seat has given once a class has nothing left.
#![tactic(auto)]

mod laws;

pub use laws::{
    a_class_is_drained_by_few_tickets, a_drained_class_was_all_given, a_full_class_is_all_held,
    no_superblock_comes_to_a_list, requests_of_a_class_cut_each_superblock_once,
    requests_of_a_seat_make_a_row, requests_until_a_refusal_drain_a_class,
    what_the_only_seat_of_a_heap_draws,
};
