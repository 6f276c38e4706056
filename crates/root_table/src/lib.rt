//! The table of persistent roots, the words of an image from which recovery finds what the program
//! holds, and the kinds of the roots.
#![tactic(auto)]

mod roots;

pub use roots::{kind, kinds, root, set_kind, set_root};
