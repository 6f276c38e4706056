//! Tests of recovery: of a copy, in place, by threads, by modes, and by an image's own anchors. The
//! crate is nothing but these, and an image and a recovery in place that other tests begin with, so
//! that recovery is proved once.
#![tactic(auto)]

mod in_place;
mod two_blocks;
mod words;

pub use in_place::{InPlace, holds, recover_in_place, torn};
pub use two_blocks::{HELD, WORDS, image};
pub use words::write;

#[cfg(test)]
mod asserts;
#[cfg(test)]
mod closed;
#[cfg(test)]
mod drains;
#[cfg(test)]
mod images;
#[cfg(test)]
mod in_pieces;
#[cfg(test)]
mod made_images;
#[cfg(test)]
mod modes;
#[cfg(test)]
mod openings;
#[cfg(test)]
mod orderly;
#[cfg(test)]
mod other;
#[cfg(test)]
mod pairs;
#[cfg(test)]
mod rest_check;
#[cfg(test)]
mod stops;
#[cfg(test)]
mod told;
