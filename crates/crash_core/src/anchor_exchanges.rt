//! The steps that exchange an anchor, and what becomes of the blocks that it leads along.

ghost use Rattle.std.specs.Prelude.{◌≡◌, ◌<◌, ℕ, length, get_or, true};
ghost use Rattle.heap_model.specs.Counting.{times};
ghost use Rattle.core_model.specs.declared.event.Event.TheVariants.{TakeAll, Give};
ghost use Rattle.seat_state.specs.declared.notes.SeatNotes.{SeatNotes};
ghost use Rattle.core_model.specs.Effects.{chain};
ghost use Rattle.core_model.specs.Guards.{IsThere, MayTakeAll, MayGive};
ghost use Rattle.crash_core.specs.Standing.{IsCore, HasNewOwner, Takes, Decides};

use crate::anchors::{PARTIAL, anchor_state};
use crate::owners::{BlockOwner, BlockPlace};
use crate::reads::{anchor, info, next};
use crate::state::CoreState;
use crate::usages::usage;
use anchor_word::anchor_count;
use core_model::StepAnswer;
use seat_state::{
    BatchEnds, Cache, NO_BATCH, SeatNotes, SuperblockOwner, SuperblockUsage, anchor_after_give,
    anchor_after_take_all, first_free,
};
use size_table::{SizeClass, blocks_of};
use super_block::block_words;

/// Gives the blocks of a chain an owner: `count` blocks from the first one on, as first words lead.
pub(crate) fn give_chain(
    words: &[u64],
    owners: &mut Vec<BlockOwner>,
    first: u64,
    count: u64,
    owner: BlockOwner,
)
    requires { (b : ℕ) → 0 < times b (chain (λ n. get_or words.now n 0) first count)
        → (b < length owners.old.items) × (b < length words.now) }
    ensures { HasNewOwner owners.old.items owners.new.items
        (chain (λ n. get_or words.now n 0) first count) owner }
{
    let mut block = first;
    for _step in 0..count {
        owners[block as usize] = owner;
        block = words[block as usize];
    }
}

/// Takes all free blocks of a superblock into the cache of its class, if its anchor is as it was
/// seen.
pub(crate) fn take_all(core: &mut CoreState, seat: usize, d: u64) -> StepAnswer
    requires core { IsCore core.old }
    requires seat { seat < length core.old.seats.items }
    ensures { Takes core.old seat (TakeAll d) result core.new }
{
    let notes = core.seats[seat];
    let Some(seen) = notes.seen_anchor else {
        return StepAnswer::NotNow;
    };
    if !may_take_all(core, seat, d) {
        return StepAnswer::NotNow;
    }
    let word = anchor(core, d);
    if word != seen.word {
        return StepAnswer::NotNow;
    }
    let class = info(core, d);
    let first = first_free(core.geometry, d, SizeClass::new(class as u8), word);
    let count = anchor_count(word);
    let owner = BlockOwner {
        seat,
        place: BlockPlace::Cached,
    };
    give_chain(&core.words, &mut core.blocks, first, count, owner);
    core.words[core.geometry.anchor(d) as usize] = anchor_after_take_all();
    core.superblocks[d as usize] = SuperblockOwner {
        seat,
        usage: SuperblockUsage::Nothing,
    };
    let mut caches = notes.caches;
    caches[class as usize] = Cache { first, count };
    core.seats[seat] = SeatNotes {
        ticket: None,
        seen_anchor: None,
        caches,
        ..notes
    };
    StepAnswer::Done
}

/// Whether the seat may take all free blocks of the superblock: it claims it with a class, saw
/// some blocks free in its anchor, and has none of the class in its cache.
fn may_take_all(core: &CoreState, seat: usize, d: u64) -> bool
    requires core { IsCore core.now }
    requires seat { seat < length core.now.seats.items }
    ensures decides { Decides core.now seat (λ m v. MayTakeAll v d) result }
    ensures below { result ≡ true → d < core.now.geometry.capacity }
{
    let notes = core.seats[seat];
    let Some(seen) = notes.seen_anchor else {
        return false;
    };
    if d >= core.geometry.capacity() {
        return false;
    }
    if seen.of != d {
        return false;
    }
    if anchor_state(seen.word) != PARTIAL {
        return false;
    }
    if !usage(core, seat, d).is_classed() {
        return false;
    }
    notes.caches[info(core, d) as usize].count == 0
}

/// Gives the batch back to its superblock, if the anchor is as it was seen.
pub(crate) fn give(core: &mut CoreState, seat: usize, d: u64) -> StepAnswer
    requires core { IsCore core.old }
    requires seat { seat < length core.old.seats.items }
    requires ticket { (t : SeatNotes) → get_or core.old.seats.items seat t ≡ t → IsThere t.ticket }
    ensures { Takes core.old seat (Give d) result core.new }
{
    let notes = core.seats[seat];
    let batch = notes.batch;
    let Some(seen) = notes.seen_anchor else {
        return StepAnswer::NotNow;
    };
    if !may_give(core, seat, d) {
        return StepAnswer::NotNow;
    }
    let word = anchor(core, d);
    if word != seen.word {
        return StepAnswer::NotNow;
    }
    let class = SizeClass::new(batch.class as u8);
    let index = (batch.first - core.geometry.start(d)) / block_words(class);
    let given = anchor_after_give(word, index, batch.count, blocks_of(class.number));
    let owner = BlockOwner {
        seat,
        place: BlockPlace::Nowhere,
    };
    let BatchEnds { first, count, .. } = batch;
    give_chain(&core.words, &mut core.blocks, first, count, owner);
    core.words[core.geometry.anchor(d) as usize] = given;
    core.seats[seat] = SeatNotes {
        ticket: None,
        seen_anchor: None,
        batch: NO_BATCH,
        ..notes
    };
    if word != anchor_after_take_all() {
        return StepAnswer::Done;
    }
    core.superblocks[d as usize] = SuperblockOwner {
        seat,
        usage: SuperblockUsage::listed(batch.class),
    };
    StepAnswer::Done
}

/// Whether the seat may give the batch to the superblock: it is of its blocks, its anchor was
/// seen, and its last block is linked to the first free one.
fn may_give(core: &CoreState, seat: usize, d: u64) -> bool
    requires core { IsCore core.now }
    requires seat { seat < length core.now.seats.items }
    ensures { Decides core.now seat (λ m v. MayGive m v d) result }
{
    let notes = core.seats[seat];
    let batch = notes.batch;
    let Some(seen) = notes.seen_anchor else {
        return false;
    };
    if batch.count == 0 {
        return false;
    }
    if batch.descriptor != d {
        return false;
    }
    if seen.of != d {
        return false;
    }
    if anchor_count(seen.word) == 0 {
        return true;
    }
    let class = SizeClass::new(batch.class as u8);
    next(core, batch.last) == first_free(core.geometry, d, class, seen.word)
}
