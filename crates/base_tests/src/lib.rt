//! Tests of the crates that all others stand on: tables, packed words and marks, where things stand
//! in an image, its header, what roots reach, and the memory of lines. The crate is nothing but
//! these, so that each of those crates is proved once, and not again with its tests.
#![tactic(auto)]

#[cfg(test)]
mod anchors;
#[cfg(test)]
mod asserts;
#[cfg(test)]
mod header_faults;
#[cfg(test)]
mod headers;
#[cfg(test)]
mod images;
#[cfg(test)]
mod marks;
#[cfg(test)]
mod memory_steps;
#[cfg(test)]
mod migrations;
#[cfg(test)]
mod naive_memory;
#[cfg(test)]
mod plain_memory;
#[cfg(test)]
mod pointers;
#[cfg(test)]
mod reach;
#[cfg(test)]
mod roots;
#[cfg(test)]
mod size_classes;
#[cfg(test)]
mod superblocks;
