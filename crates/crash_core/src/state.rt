//! What the core keeps of a state.

use crate::owners::BlockOwner;
use seat_state::{SeatNotes, SuperblockOwner};
use super_block::Geometry;

/// The words of the shared table, and what the core keeps of the views: whose each block, superblock
/// and root is, and of each seat its tickets and snapshots, and the ends of its caches and of its
/// batch. Numbers from the number of seats on are those of the carriers, in the order in which they
/// were made.
#[derive(Drop)]
pub struct CoreState {
    pub geometry: Geometry,
    pub budget: u64,
    pub words: Vec<u64>,
    pub seats: Vec<SeatNotes>,
    pub carriers: usize,
    pub blocks: Vec<BlockOwner>,
    pub superblocks: Vec<SuperblockOwner>,
    pub roots: Vec<u32>,
}
