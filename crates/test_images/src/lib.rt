//! Images and their words told as texts, for tests.
#![tactic(auto)]

mod image;
mod place;

pub use image::{change, image_of, old_image_of};
pub use place::{anchor_word, info_word, link_word, number};
