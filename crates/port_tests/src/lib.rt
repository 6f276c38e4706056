//! Tests of the tool's outside: its forms in memory, and the adapters over files, input and output.
//! The crate is nothing but these, so that a change of them costs no proof of either.
#![tactic(auto)]

#[cfg(test)]
mod asserts;
#[cfg(test)]
mod bytes_source;
#[cfg(test)]
mod chances;
#[cfg(test)]
mod file_store;
#[cfg(test)]
mod gate;
#[cfg(test)]
mod input_source;
#[cfg(test)]
mod map_store;
#[cfg(test)]
mod output_sink;
#[cfg(test)]
mod real_files;
#[cfg(test)]
mod replacing;
#[cfg(test)]
mod set_clock;
#[cfg(test)]
mod stores;
#[cfg(test)]
mod told_sink;
#[cfg(test)]
mod told_source;
#[cfg(test)]
mod told_store;
#[cfg(test)]
mod vec_sink;
#[cfg(test)]
mod watched_files;
