//! The dictionary for programs in C: an image in bytes is opened and closed, and keys are put, read
//! and taken out.
#![tactic(auto)]

mod calls;
mod fault;
mod handle;
mod images;
mod keys;
mod left;
mod loose;
mod opening;
mod requests;
mod status;
mod store;
