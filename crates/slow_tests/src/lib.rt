//! Tests that take thousands of recoveries or calls, the longest trace or a large image:
//! recovery in place stopped at each of its steps, the command `rebuild` too, `run` of 16,777,216
//! bytes, and heaps of 256 and 257 superblocks. The crate is nothing but these: the tests as LLVM builds
//! them take seconds, and `make test` passes over it.
#![tactic(auto)]

#[cfg(test)]
mod bounded_run;
#[cfg(test)]
mod calls;
#[cfg(test)]
mod command_stops;
#[cfg(test)]
mod in_place;
#[cfg(test)]
mod large_image;
#[cfg(test)]
mod longest_trace;
#[cfg(test)]
mod recovery_stops;
#[cfg(test)]
mod stops_twice;
