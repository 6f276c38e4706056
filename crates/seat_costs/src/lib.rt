//! Rows of steps of a seat: what they leave, and what they cost.
#![tactic(auto)]

mod draws;
mod laws;
mod rows;
mod stores;

pub use draws::{draw, draw_with};
pub use laws::{
    a_seat_that_is_alone_loses_nothing, an_early_settling_takes_nothing_away,
    an_opened_seat_is_idle, asked_numbers_add_up,
};
pub use rows::{
    a_draw_is_a_row, a_look_is_a_row, a_lost_exchange_is_a_row, a_row_bounds_its_draws,
    a_step_on_an_own_word_is_a_row, an_exchange_is_a_row, rows_add_up,
};
pub use stores::draw_and_store;
