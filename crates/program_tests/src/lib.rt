//! Tests of the program over a store, an input and two outputs in memory: what it writes to its
//! standard error, and that its seeds are those of the command line. The crate is nothing but these.
#![tactic(auto)]

#[cfg(test)]
mod complaints;
#[cfg(test)]
mod harness;
#[cfg(test)]
mod help;
#[cfg(test)]
mod refused_lines;
#[cfg(test)]
mod said;
#[cfg(test)]
mod seeds;
