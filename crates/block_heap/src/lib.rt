//! A heap for one thread: blocks that it allocates and frees, and words that it loads, stores and
//! makes durable.
#![tactic(auto, using(heap_model::specs::Geometry::largest_capacity_fits))]

mod alloc;
mod anchors;
mod arena;
mod cache;
mod divide;
mod held;
mod large;
mod laws;
mod lists;
mod medium;
mod refill;
mod seq_heap;
mod seq_seat;
mod small;
mod superblocks;

pub use heap_model::Block;
pub use heap_seat::{AllocFault, HeapSeat, Look, Looks, Spot, persist, rows_of_calls_go_together};
pub use laws::{
    a_heap_drains_what_its_words_say, a_recovered_heap_drains_what_the_image_says,
    fixed_words_stay, freed_blocks_serve_first, looks_and_tickets_add_up, what_is_left_is_an_image,
};
pub use line_memory::{Chance, Closed, Stopped};
pub use seq_heap::{DrainFault, SeqHeap};
