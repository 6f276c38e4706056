//! The shape of a running heap: where each superblock and each free block is, and what each row of
//! steps of an allocator makes of it.
#![tactic(auto)]
