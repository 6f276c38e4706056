//! The stores to a seat's own words.

ghost use Rattle.std.specs.Prelude.{◌≡◌, ◌<◌, length, true};
ghost use Rattle.core_model.specs.declared.event.Event.TheVariants.{Store};
ghost use Rattle.seat_state.specs.declared.part.Part.TheVariants.{Anchor, Link, Data};
ghost use Rattle.core_model.specs.Cells.{cell_at, data_cell};
ghost use Rattle.core_model.specs.Guards.{IsOwn, MayAnchor, MayChangeWord};
ghost use Rattle.seat_state.specs.Parts.{IsPart};
ghost use Rattle.crash_core.specs.OwnWords.{IsPlain};
ghost use Rattle.crash_core.specs.Standing.{IsCore, Takes, Decides};

use crate::anchors::{EMPTY, anchor_state};
use crate::own_words::is_own;
use crate::owners::BlockPlace;
use crate::reads::anchor;
use crate::state::CoreState;
use crate::usages::{place, usage};
use core_model::StepAnswer;
use seat_state::{
    Part, SeatNotes, SuperblockOwner, SuperblockUsage, anchor_after_take_all, part_at,
};

/// Stores to a word of its own.
pub(crate) fn store(core: &mut CoreState, seat: usize, word: u64, value: u64) -> StepAnswer
    requires core { IsCore core.old }
    requires seat { seat < length core.old.seats.items }
    ensures { Takes core.old seat (Store word value) result core.new }
{
    if !is_own(core, seat, word) {
        return StepAnswer::NotNow;
    }
    match part_at(core.geometry, word) {
        Part::Shared => StepAnswer::NotNow,
        Part::Root { .. } => store_plain(core, seat, word, value),
        Part::Info { .. } => store_plain(core, seat, word, value),
        Part::Anchor { d } => store_anchor(core, seat, word, d, value),
        Part::Link { d } => store_link(core, seat, word, d, value),
        Part::Data { .. } => store_data(core, seat, word, value),
    }
}

/// Stores to a root or to what a superblock holds.
fn store_plain(core: &mut CoreState, seat: usize, word: u64, value: u64) -> StepAnswer
    requires core { IsCore core.old }
    requires seat { seat < length core.old.seats.items }
    requires own { Decides core.old seat (λ m v. IsOwn v (cell_at v.setup.capacity word)) true }
    requires part { IsPlain (cell_at core.old.geometry.capacity word) }
    ensures { Takes core.old seat (Store word value) result core.new }
{
    let notes = core.seats[seat];
    core.words[word as usize] = value;
    core.seats[seat] = SeatNotes {
        ticket: None,
        ..notes
    };
    StepAnswer::Done
}

/// Stores to the link of a superblock, unless its blocks are being made.
fn store_link(core: &mut CoreState, seat: usize, word: u64, d: u64, value: u64) -> StepAnswer
    requires core { IsCore core.old }
    requires seat { seat < length core.old.seats.items }
    requires own { Decides core.old seat (λ m v. IsOwn v (cell_at v.setup.capacity word)) true }
    requires part { IsPart core.old.geometry.capacity word (Link d) }
    ensures { Takes core.old seat (Store word value) result core.new }
{
    let notes = core.seats[seat];
    if usage(core, seat, d).is_cutting() {
        return StepAnswer::NotNow;
    }
    core.words[word as usize] = value;
    core.seats[seat] = SeatNotes {
        ticket: None,
        ..notes
    };
    StepAnswer::Done
}

/// Stores to the anchor of a superblock, which begins or ends the making of its blocks.
fn store_anchor(core: &mut CoreState, seat: usize, word: u64, d: u64, value: u64) -> StepAnswer
    requires core { IsCore core.old }
    requires seat { seat < length core.old.seats.items }
    requires own { Decides core.old seat (λ m v. IsOwn v (cell_at v.setup.capacity word)) true }
    requires part { IsPart core.old.geometry.capacity word (Anchor d) }
    ensures { Takes core.old seat (Store word value) result core.new }
{
    let notes = core.seats[seat];
    if !may_anchor(core, seat, d, value) {
        return StepAnswer::NotNow;
    }
    core.words[word as usize] = value;
    core.superblocks[d as usize] = SuperblockOwner {
        seat,
        usage: SuperblockUsage::anchored(value),
    };
    core.seats[seat] = SeatNotes {
        ticket: None,
        ..notes
    };
    StepAnswer::Done
}

/// Whether the anchor may become the value.
fn may_anchor(core: &CoreState, seat: usize, d: u64, value: u64) -> bool
    requires core { IsCore core.now }
    requires seat { seat < length core.now.seats.items }
    requires d { d < core.now.geometry.capacity }
    ensures { Decides core.now seat (λ m v. MayAnchor m v d value) result }
{
    if value == 0 {
        return true;
    }
    if value != anchor_after_take_all() {
        return false;
    }
    match usage(core, seat, d) {
        SuperblockUsage::Cutting => false,
        SuperblockUsage::Split => true,
        SuperblockUsage::Nothing => anchor_state(anchor(core, d)) == EMPTY,
        SuperblockUsage::Raw => anchor_state(anchor(core, d)) == EMPTY,
        SuperblockUsage::Classed { .. } => anchor_state(anchor(core, d)) == EMPTY,
        SuperblockUsage::Large { .. } => anchor_state(anchor(core, d)) == EMPTY,
    }
}

/// Stores to a word of a superblock, unless it is the first one of a cached block, or of a block
/// of the batch that another follows.
fn store_data(core: &mut CoreState, seat: usize, word: u64, value: u64) -> StepAnswer
    requires core { IsCore core.old }
    requires seat { seat < length core.old.seats.items }
    requires own { Decides core.old seat (λ m v. IsOwn v (cell_at v.setup.capacity word)) true }
    requires part { IsPart core.old.geometry.capacity word (Data word) }
    ensures { Takes core.old seat (Store word value) result core.new }
{
    let notes = core.seats[seat];
    if !may_change(core, seat, word) {
        return StepAnswer::NotNow;
    }
    core.words[word as usize] = value;
    core.seats[seat] = SeatNotes {
        ticket: None,
        batch: notes.batch.stored(word),
        ..notes
    };
    StepAnswer::Done
}

/// Whether the word may change.
fn may_change(core: &CoreState, seat: usize, word: u64) -> bool
    requires core { IsCore core.now }
    requires seat { seat < length core.now.seats.items }
    ensures { Decides core.now seat (λ m v. MayChangeWord v word) result }
{
    let last = core.seats[seat].batch.last;
    match place(core, seat, word) {
        BlockPlace::Nowhere => true,
        BlockPlace::Held => true,
        BlockPlace::Cached => false,
        BlockPlace::Batched => word == last,
    }
}
