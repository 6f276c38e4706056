//! Marks on numbers below a length, one bit each.
#![tactic(auto)]

mod marks;

pub use marks::BitMarks;
