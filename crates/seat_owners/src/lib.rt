//! Who owns what of a dictionary that several workers share, and the seats that are opened by that.
#![tactic(auto)]

mod laws;
mod owners;

pub use laws::each_seat_is_opened_over_its_part;
pub use owners::{owners_of, owners_of_mapped};
