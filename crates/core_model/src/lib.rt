//! What the shared heap is: the atomic steps of its seats, what is so between any two of them, and
//! that every interleaving of them keeps it so.
#![tactic(auto)]

mod answer;
mod count_laws;
mod event;
mod laws;

pub use answer::StepAnswer;
pub use count_laws::{
    a_seat_stops_at_the_budget, each_loss_is_a_win_of_another_seat,
    each_move_is_a_give_or_was_there, the_mark_is_what_was_taken, tickets_end_at_the_budget,
    what_a_seat_knows_is_so,
};
pub use event::{Event, Shift};
pub use laws::{
    a_block_may_go_between_seats, a_crash_leaves_a_good_header,
    a_crash_leaves_each_held_block_named, a_list_of_events_has_one_outcome, a_seat_may_be_split,
    a_step_works_on_a_word_of_the_table, a_word_is_own_at_most_once,
    a_word_is_own_to_at_most_one_seat, an_opened_heap_is_sound,
    every_list_of_events_keeps_the_heap_sound, every_step_keeps_the_heap_sound,
    no_block_is_held_twice, offers_and_accepts_keep_the_heap_sound,
    whatever_a_crash_leaves_reaches_the_same,
};
