//! The dictionary for a program of your own: what a crash left is recovered, its maps are read, and
//! a heap for one thread is opened over it.
#![tactic(auto)]

mod fault;
mod laws;
mod opening;
mod recovering;

pub use fault::OpenFault;
pub use laws::an_opened_dictionary_has_its_shards;
pub use opening::open_dictionary;
pub use recovering::{RecoveredDictionary, recover_dictionary};
