//! What seats keep to tell their own words, as a heap at rest is opened for them.

ghost use Rattle.std.specs.Prelude.{◌≡◌, ◌<◌, ◌+◌, ℕ, List, get_or, false, length, nat_eq, ◌&&◌, slice_index, IfOk};
ghost use Rattle.heap_model.specs.Counting.{one_if, times, total};
ghost use Rattle.heap_model.specs.Geometry.{lists, info_word, capacity_word, image_words};
ghost use Rattle.heap_model.specs.Sizes.{IsClass, blocks_of};
ghost use Rattle.heap_model.specs.Rest.{IsReady};
ghost use Rattle.core_model.specs.Opening.{AreOwners, is_small};
ghost use Rattle.seat_state.specs.OpenedSuperblocks.{AreSuperblockOwners};
ghost use Rattle.seat_state.specs.Superblocks.{usage_for, no_superblock};
ghost use Rattle.seat_index.specs.Owned.{HasOwned, ownership_for, opened_parts};
ghost use Rattle.seat_index.specs.declared.owned.Ownership.TheVariants.{Nothing};
ghost use Rattle.seat_index.specs.Rooms.{IsOpenedRoom};
ghost use Rattle.seat_index.specs.Stacks.{AreStacks};
ghost use Rattle.seat_index.specs.declared.owned_opening.Room.{Room};

use crate::owned::{MOST_BLOCKS, Owned, Ownership};
use crate::stacks::Stack;
use bit_marks::BitMarks;
use line_memory::{Pending, RecentStores};
use seat_state::{Owners, SuperblockOwner, SuperblockUsage, superblock_owners};
use size_table::blocks_of;
use std::alloc::{AllocError, Global};
use std::collections::VecDeque;
use super_block::{Block, LISTS, Ready, SUPERBLOCK_WORDS};

/// What a seat takes room for.
#[derive(Drop)]
pub struct Room {
    pub owned: Owned,
    pub recent: RecentStores,
    pub pending: Pending,
}

/// What each seat takes room for, in their order.
pub fn opened_rooms(
    alloc: Global,
    heap: &Ready,
    owners: &Owners,
    seats: usize,
) -> Result<VecDeque<Room>, AllocError>
    requires { AreOwners heap.now.held seats owners.now.held owners.now.roots }
    ensures count { IfOk result (λ list. length list.items ≡ seats) }
    ensures each { IfOk result (λ list. (i : ℕ) (room : Room) → i < length list.items
        → get_or list.items i room ≡ room
        → IsOpenedRoom room (opened_parts heap.now owners.now i)) }
{
    let superblocks = superblock_owners(alloc, heap, owners.held())?;
    let geometry = heap.geometry();
    let length = geometry.length();
    let mut list = VecDeque::with_capacity(alloc, seats)?;
    for seat in 0..seats {
        let room = Room {
            owned: owned_by(alloc, heap, owners, &superblocks, seat)?,
            recent: RecentStores::new(alloc)?,
            pending: Pending::new(alloc, length as usize)?,
        };
        list.push_back_reserved(room);
    }
    Ok(list)
}

/// What one seat keeps.
fn owned_by(
    alloc: Global,
    heap: &Ready,
    owners: &Owners,
    superblocks: &[SuperblockOwner],
    seat: usize,
) -> Result<Owned, AllocError>
    requires owners { (seats : ℕ) × AreOwners heap.now.held seats owners.now.held owners.now.roots
        × (seat < seats) }
    requires superblocks { AreSuperblockOwners heap.now.words heap.now.held owners.now.held
        superblocks.now }
    ensures { IfOk result (λ o. HasOwned o (opened_parts heap.now owners.now seat)) }
{
    Ok(Owned {
        blocks: held_by(alloc, heap, owners, seat)?,
        classes: infos(alloc, heap)?,
        ownerships: ownerships_of(alloc, superblocks, seat)?,
        roots: roots_of(alloc, owners.roots(), seat)?,
        batch: Vec::with_capacity(alloc, MOST_BLOCKS)?,
        stacks: empty_stacks(alloc)?,
    })
}

/// An empty stack for each class, with room for a superblock's blocks.
fn empty_stacks(alloc: Global) -> Result<Vec<Stack>, AllocError>
    ensures { IfOk result (λ v. (caches : List (List ℕ)) → AreStacks v.items caches) }
{
    let mut stacks = Vec::with_capacity(alloc, LISTS as usize)?;
    for class in 0..LISTS as u8 {
        let stack = Stack::new(alloc, most_cached(class))?;
        stacks.push_reserved(stack);
    }
    Ok(stacks)
}

/// How many blocks of the class a superblock has; 0 for class 0, which is none.
fn most_cached(class: u8) -> usize
    requires { class < lists }
    ensures { IsClass class → result ≡ blocks_of class }
{
    if class == 0 {
        return 0;
    }
    blocks_of(class) as usize
}

/// Which small blocks the seat holds, by their first words.
fn held_by(
    alloc: Global,
    heap: &Ready,
    owners: &Owners,
    seat: usize,
) -> Result<BitMarks, AllocError>
    requires { length owners.now.held ≡ length heap.now.held }
    ensures long { IfOk result (λ marks. length marks
        ≡ image_words (slice_index heap.now.words capacity_word)) }
    ensures each { IfOk result (λ marks. (n : ℕ) → one_if (get_or marks n false)
        ≡ total (times n) (opened_parts heap.now owners.now seat).small) }
    ensures ready { IfOk result (λ marks. IsReady heap.now.words heap.now.held) }
{
    let seats = owners.held();
    let mut marks = BitMarks::new(alloc, heap.geometry().length())?;
    for (i, block) in heap.held().iter().enumerate() {
        if is_small_of(*block, seats[i], seat) {
            marks.set(block.first_word);
        }
    }
    Ok(marks)
}

/// Whether the block is small, and its owner is the seat.
fn is_small_of(block: Block, owner: u32, seat: usize) -> bool
    ensures { result ≡ is_small block && nat_eq owner seat }
{
    block.words < SUPERBLOCK_WORDS && owner as usize == seat
}

/// What the seat owns of each superblock.
fn ownerships_of(
    alloc: Global,
    owners: &[SuperblockOwner],
    seat: usize,
) -> Result<Vec<Ownership>, AllocError>
    ensures long { IfOk result (λ v. length v.items ≡ length owners.now) }
    ensures each { IfOk result (λ v. (n : ℕ) → get_or v.items n Nothing
        ≡ ownership_for (usage_for seat (get_or owners.now n no_superblock))) }
{
    let mut ownerships = vec![in alloc; Ownership::Nothing; owners.len()]?;
    for (i, owner) in owners.iter().enumerate() {
        ownerships[i] = ownership_of(*owner, seat);
    }
    Ok(ownerships)
}

/// What the seat owns of the superblock.
fn ownership_of(owner: SuperblockOwner, seat: usize) -> Ownership
    ensures { result ≡ ownership_for (usage_for seat owner) }
{
    if owner.seat != seat {
        return Ownership::Nothing;
    }
    match owner.usage {
        SuperblockUsage::Nothing => Ownership::Nothing,
        SuperblockUsage::Raw | SuperblockUsage::Split | SuperblockUsage::Cutting =>
            Ownership::Unclassed,
        SuperblockUsage::Classed { class } => Ownership::Classed { class },
        SuperblockUsage::Large { count } => Ownership::Large { count },
    }
}

/// Which roots are the seat's.
fn roots_of(alloc: Global, owners: &[u32], seat: usize) -> Result<Vec<bool>, AllocError>
    ensures long { IfOk result (λ v. length v.items ≡ length owners.now) }
    ensures each { IfOk result (λ v. (n : ℕ) → one_if (get_or v.items n false)
        ≡ one_if (nat_eq (get_or owners.now n (seat + 1)) seat)) }
{
    let mut roots = vec![in alloc; false; owners.len()]?;
    for (i, owner) in owners.iter().enumerate() {
        roots[i] = *owner as usize == seat;
    }
    Ok(roots)
}

/// What each superblock holds, which is the class where it is cut.
fn infos(alloc: Global, heap: &Ready) -> Result<Vec<u64>, AllocError>
    ensures long { IfOk result (λ v. length v.items ≡ slice_index heap.now.words capacity_word) }
    ensures each { IfOk result (λ v. (d : ℕ) → d < length v.items
        → get_or v.items d 0 ≡ slice_index heap.now.words (info_word d)) }
{
    let geometry = heap.geometry();
    let mut infos = vec![in alloc; 0; geometry.capacity() as usize]?;
    for d in 0..geometry.capacity() {
        infos[d as usize] = heap.words()[geometry.info(d) as usize];
    }
    Ok(infos)
}
