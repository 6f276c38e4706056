//! A dictionary that its own anchors show, opened by these: what it is then.
#![tactic(auto)]

mod laws;

pub use laws::{an_image_is_opened_quickly_in_one_way, what_is_opened_quickly_is_a_dictionary};
