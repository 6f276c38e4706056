//! What holds of the shared words and of the seats between any two atomic steps.

use atomic_table::{Table, TableRule};
use std::alloc::Global;
use std::marker::Model;
use super_block::Block;

/// What is known of a seat. No value of it is made.
pub struct Known;

impl Model for Known {
    ghost use Rattle.std.specs.Prelude.{[]};
    ghost use Rattle.heap_table.specs.SeatViews.{SeatViews};

    ghost Value = { SeatViews };

    ghost view = { λ _. [] };
}

/// A heap at rest that is opened for some seats: the words that its table is made of, which begin
/// with the `length` words of the heap, and its held blocks; whose each held block and each root
/// is, and the budget of tickets. It has no copy of the heap's words beside the table's.
#[derive(Drop)]
pub struct OpenedHeap {
    pub table_words: Vec<u64>,
    pub length: usize,
    pub held: Vec<Block>,
    pub block_owners: Vec<u32>,
    pub root_owners: Vec<u32>,
    pub seats: usize,
    pub budget: u64,
}

impl Model for OpenedHeap {
    ghost use lib.ListN.{take};
    ghost use Rattle.heap_table.specs.Rule.{Opening};

    ghost Value = { Opening };

    ghost view = { λ a. record {
      words = take a.length a.table_words.items;
      held = a.held.items;
      block_owners = a.block_owners.items;
      root_owners = a.root_owners.items;
      seats = a.seats;
      budget = a.budget;
    } };
}

/// The rule of the table: its words and the seats' views are what the opened heap came to.
pub struct ReachedHeap;

impl TableRule<u8, Known, OpenedHeap> for ReachedHeap {
    ghost use Rattle.heap_table.specs.Rule.{Holds, opened_views};

    ghost holds = { Holds };

    ghost first = { opened_views };
}

/// The words of the heap with their memory.
pub(crate) type HeapTable = Table<u8, Known, OpenedHeap, ReachedHeap, Global>;

/// The words of the heap, as threads share them.
pub(crate) type Words = atomic_table::Shared<u8, Known, OpenedHeap, ReachedHeap>;

/// A seat of the table: what one thread knows of it. Only the steps of this crate change a word.
pub type TableSeat = atomic_table::Seat<u8, Known>;
