//! A lock-free heap that threads share, each through a handle of its own, a seat, whose calls take
//! atomic steps: most are one event of the core, a draw by chance and a fence are a row of them, and
//! an offer or an accept moves a held block.
#![tactic(auto)]

mod anchor_exchanges;
mod carrier;
mod closed_laws;
mod closing;
mod draws;
mod exchanges;
mod fences;
mod fresh;
mod handing;
mod handing_laws;
mod head_exchanges;
mod image_laws;
mod laws;
mod looks;
mod notes;
mod opening;
mod own_words;
mod pairs;
mod reads;
mod seat;
mod shifts;
mod step_laws;
mod stores;
mod ticks;
mod view_laws;
mod view_reads;
mod words;

pub use carrier::Carrier;
pub use closed_laws::{
    a_closed_heap_bounds_what_its_seats_did, a_closed_heap_counts_what_its_seats_did,
    a_closed_heap_has_images_of_its_seats, a_closed_heap_has_the_opened_header,
    a_closed_heap_has_the_recorded_words, a_crash_or_a_close_of_a_closed_heap_is_one_of_each_seat,
};
pub use closing::close_shared;
pub use handing_laws::seats_that_hand_nothing_leave_no_carrier;
pub use heap_table::Shared;
pub use image_laws::{
    a_close_leaves_a_seat_its_blocks_and_words, a_crash_leaves_a_seat_its_blocks_and_words,
    a_crash_may_leave_any_heads_anchors_and_links, an_image_of_a_seat_has_its_blocks_and_words,
    each_choice_of_words_is_an_image_of_the_seat, what_may_be_left_has_a_seats_blocks_and_words,
};
pub use laws::{
    a_closed_heap_names_each_held_block, a_step_tells_of_the_heap, no_block_is_held_twice,
};
pub use opening::open_shared;
pub use pairs::held_at_once;
pub use seat::Seat;
pub use step_laws::{
    a_draw_leaves_its_change_or_a_stop, a_lost_exchange_answers_the_word_that_it_found,
    a_seen_used_is_within_the_capacity, a_step_of_a_seat_is_one_of_the_core,
    an_exchange_is_won_or_lost, looks_and_tickets_rise, own_words_keep_what_is_recorded,
};
pub use view_laws::{
    a_stopped_seat_keeps_its_last_ticket, a_store_is_recorded,
    a_superblock_without_a_class_is_the_seats_alone, a_view_records_each_word,
    held_blocks_are_placed_and_apart, words_of_held_blocks_and_roots_are_own,
};
