//! The worker of each held block and of each root, by what is known of the roots that reach blocks.

ghost use Rattle.std.specs.Prelude.{◌≡◌, ◌<◌, ◌≤◌, ◌+◌, ◌*◌, ℕ, length, slice_index, Contains, IfOk};
ghost use Rattle.heap_model.specs.Geometry.{roots};
ghost use Rattle.heap_model.specs.Header.{kinds_of};
ghost use Rattle.heap_model.specs.Image.{Image, words_from};
ghost use Rattle.heap_model.specs.Blocks.{IsBlock, layout_of};
ghost use Rattle.root_reach.specs.Reaching.{AreOrigins};
ghost use Rattle.dict_model.specs.Links.{dict_links};
ghost use Rattle.run_model.specs.Opened.{HasMaps, IsDictionary};
ghost use Rattle.run_model.specs.Workers.{root_owner};
ghost use Rattle.seat_owners.specs.Owning.{AreOwnedUpTo, AreOwnersByRoot, IsOwnedBy};

use dict_model::SHARDS;
use dictionary::{MappedHeap, origins_of};
use filter_trace::Scan;
use heap_model::Block;
use root_reach::Origins;
use seat_state::Owners;
use std::alloc::{AllocError, Global};
use super_block::{Directory, ROOTS, Ready};

/// Who owns what of a dictionary that so many workers share: each root has its worker, and each
/// held block that of a root that reaches it. Fails only where memory runs out.
pub fn owners_of(alloc: Global, heap: &Ready, workers: usize) -> Result<Owners, AllocError>
    requires some { 1 ≤ workers }
    requires few { workers ≤ 8 }
    requires dictionary { IsDictionary (slice_index heap.now.words) (Contains heap.now.held) }
    ensures { IfOk result (λ o. AreOwnersByRoot (slice_index heap.now.words) heap.now.held workers
        o.held o.roots) }
{
    let words = heap.words();
    let directory = Directory::of(alloc, words)?;
    let scan = Scan {
        words,
        directory: &directory,
    };
    let origins = origins_of(alloc, &scan)?;
    owners_by(alloc, heap, &origins, workers)
}

/// The same of a heap whose maps were read, by what their trace told.
pub fn owners_of_mapped(
    alloc: Global,
    mapped: &MappedHeap,
    workers: usize,
) -> Result<Owners, AllocError>
    requires some { 1 ≤ workers }
    requires few { workers ≤ 8 }
    requires dictionary { IsDictionary (slice_index mapped.now.words) (Contains mapped.now.held) }
    ensures { IfOk result (λ o. AreOwnersByRoot (slice_index mapped.now.words) mapped.now.held
        workers o.held o.roots) }
{
    owners_by(alloc, mapped.heap(), mapped.origins(), workers)
}

/// The owners, by which roots reach each block.
fn owners_by(
    alloc: Global,
    heap: &Ready,
    origins: &Origins,
    workers: usize,
) -> Result<Owners, AllocError>
    requires some { 1 ≤ workers }
    requires few { workers ≤ 8 }
    requires maps { HasMaps (slice_index heap.now.words) }
    requires origins { AreOrigins (slice_index heap.now.words)
        (kinds_of (slice_index heap.now.words)) dict_links origins.now }
    ensures { IfOk result (λ o. AreOwnersByRoot (slice_index heap.now.words) heap.now.held workers
        o.held o.roots) }
{
    let held = block_owners(alloc, heap, origins, workers as u32)?;
    let roots = root_owners(alloc, workers as u32)?;
    Ok(Owners::new(held, roots))
}

/// The worker of each held block.
fn block_owners(
    alloc: Global,
    heap: &Ready,
    origins: &Origins,
    workers: u32,
) -> Result<Vec<u32>, AllocError>
    requires some { 1 ≤ workers }
    requires maps { HasMaps (slice_index heap.now.words) }
    requires origins { AreOrigins (slice_index heap.now.words)
        (kinds_of (slice_index heap.now.words)) dict_links origins.now }
    ensures { IfOk result (λ owners. AreOwnedUpTo (slice_index heap.now.words) workers
        heap.now.held (length heap.now.held) owners.items) }
{
    let held = heap.held();
    let mut owners = vec![in alloc; 0; held.len()]?;
    for (i, block) in held.iter().enumerate() {
        owners[i] = block_owner(*block, origins, workers);
    }
    Ok(owners)
}

/// The worker of a block: that of the shard beside whose root no other one reaches it, and the
/// first one where each shard is reached beside.
fn block_owner(block: Block, origins: &Origins, workers: u32) -> u32
    requires some { 1 ≤ workers }
    requires room { block.first_word * origins.now.kinds + origins.now.kinds
        ≤ length origins.now.labels.items }
    ensures { (image : Image) → AreOrigins image (kinds_of image) dict_links origins.now
        → HasMaps image → IsBlock (layout_of image) block → IsOwnedBy image workers block result }
{
    for shard in 0..SHARDS as u16 {
        if !origins.is_reached_beside(block, shard) {
            return shard as u32 % workers;
        }
    }
    0
}

/// The worker of each root: that of its shard, and the first one for every other root.
fn root_owners(alloc: Global, workers: u32) -> Result<Vec<u32>, AllocError>
    requires some { 1 ≤ workers }
    ensures { IfOk result (λ owners. owners.items ≡ words_from (root_owner workers) 0 roots) }
{
    let mut owners = vec![in alloc; 0; ROOTS as usize]?;
    for shard in 0..SHARDS as u32 {
        owners[shard as usize] = shard % workers;
    }
    Ok(owners)
}
