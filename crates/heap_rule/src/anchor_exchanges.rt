//! The steps of a seat that exchange an anchor.
//!
//! Linearization point: the one exchange of the anchor. From there on all free blocks are in the
//! seat's cache (take-all), or the batch is in front of the chain (give). The loads of first words
//! after a take-all are of words that are the seat's own by then.
//!
//! A lost race: as `exchange_seen` says.
//!
//! An anchor that came back may be taken for the old one: it names the first free block and how many
//! there are, and the new anchor and the link of the batch depend on these alone. The chain behind
//! it is read after the exchange, and not before.

ghost use Rattle.std.specs.Prelude.{◌≡◌, ◌≢◌, ◌<◌, ◌≤◌, ◌+◌, ◌-◌, ◌/◌, ℕ, drop, length, None, Some};
ghost use Rattle.heap_model.specs.Geometry.{start_word};
ghost use Rattle.heap_model.specs.Sizes.{words_of_class, blocks_of};
ghost use Rattle.heap_model.specs.Words.{anchor_state, anchor_count};
ghost use Rattle.core_model.specs.declared.event.Event.TheVariants.{TakeAll, Give};
ghost use Rattle.core_model.specs.Effects.{seen_word, claim_class, given_anchor, first_of};
ghost use Rattle.core_model.specs.View.{of_class};
ghost use Rattle.core_model.specs.Sound.{IsCutBlock};
ghost use Rattle.heap_table.specs.Plays.{IsEvent};
ghost use Rattle.heap_table.specs.SeatViews.{view_in};
ghost use Rattle.heap_table.specs.AtTable.{IsAt};
ghost use Rattle.heap_rule.specs.Seated.{KeepsStores, IsSeatOf, Tells};
ghost use Rattle.heap_rule.specs.Shown.{Can};

use crate::exchanges::exchange_seen;
use crate::seat::Seat;
use anchor_word::{anchor_count, unpack};
use core_model::Event;
use heap_table::{Shared, TableSeat, read};
use seat_index::{Ownership, Stack, mark_all};
use seat_state::{
    BatchEnds, Cache, NO_BATCH, anchor_after_give, anchor_after_take_all, first_free,
};
use size_table::{SizeClass, blocks_of};
use super_block::{Geometry, block_words};

impl Seat {
    /// Takes all free blocks of a claimed superblock into the cache of its class, if its anchor is
    /// as it was seen; else tells it.
    pub fn try_take_all(&mut self, shared: &Shared, d: u64) -> Result<(), u64>
        requires seat { IsSeatOf shared.now self.old }
        requires can { Can self.old.view (TakeAll d) }
        ensures event { (found : ℕ) × IsEvent (TakeAll d) self.old.view found self.new.view
            × Tells (seen_word self.old.view.seen_anchor) found result }
        ensures seat { IsSeatOf shared.now self.new }
        ensures stores { KeepsStores self.old self.new }
    {
        let class = self.claimed_class(d);
        self.take_into(shared, d, class)
    }

    /// Takes them into the cache of the class that the claim has.
    fn take_into(&mut self, shared: &Shared, d: u64, class: SizeClass) -> Result<(), u64>
        requires seat { IsSeatOf shared.now self.old }
        requires can { Can self.old.view (TakeAll d) }
        requires class { class.number ≡ claim_class d self.old.view.classed }
        ensures event { (found : ℕ) × IsEvent (TakeAll d) self.old.view found self.new.view
            × Tells (seen_word self.old.view.seen_anchor) found result }
        ensures seat { IsSeatOf shared.now self.new }
        ensures stores { KeepsStores self.old self.new }
    {
        let Some(anchor) = self.notes.seen_anchor else {
            unreachable!();
        };
        let place = self.geometry.anchor(d);
        let event = Event::TakeAll { d };
        let new = anchor_after_take_all();
        let (table_seat, notes) = (&mut self.table_seat, &mut self.notes);
        exchange_seen(shared, table_seat, notes, place, anchor.word, new, event)?;
        let first = first_free(self.geometry, d, class, anchor.word);
        let count = anchor_count(anchor.word);
        self.notes.seen_anchor = None;
        self.notes.caches[class.number as usize] = Cache { first, count };
        let stack = &mut self.owned.stacks[class.number as usize];
        load_cache(shared, &mut self.table_seat, stack, class, first, count);
        mark_all(&mut self.owned.blocks, stack.cached(), true);
        self.owned.classes[d as usize] = class.number as u64;
        self.owned.ownerships[d as usize] = Ownership::Nothing;
        Ok(())
    }

    /// Gives the batch back to its superblock, if the anchor is as it was seen; else tells it.
    pub fn try_give(&mut self, shared: &Shared, d: u64) -> Result<(), u64>
        requires seat { IsSeatOf shared.now self.old }
        requires can { Can self.old.view (Give d) }
        ensures event { (found : ℕ) × IsEvent (Give d) self.old.view found self.new.view
            × Tells (seen_word self.old.view.seen_anchor) found result }
        ensures seat { IsSeatOf shared.now self.new }
        ensures stores { KeepsStores self.old self.new }
    {
        let Some(anchor) = self.notes.seen_anchor else {
            unreachable!();
        };
        let batch = self.notes.batch;
        let class = SizeClass::new(batch.class as u8);
        let place = self.geometry.anchor(d);
        let event = Event::Give { d };
        // A word with no room is stale: the exchange is lost, whatever it would leave.
        let given = anchor_with_batch(self.geometry, d, class, batch, anchor.word);
        let new = given.unwrap_or(anchor.word);
        let (table_seat, notes) = (&mut self.table_seat, &mut self.notes);
        exchange_seen(shared, table_seat, notes, place, anchor.word, new, event)?;
        self.notes.seen_anchor = None;
        self.notes.batch = NO_BATCH;
        mark_all(&mut self.owned.blocks, &self.owned.batch, false);
        self.owned.batch.clear();
        if anchor.word != anchor_after_take_all() {
            return Ok(());
        }
        self.owned.ownerships[d as usize] = Ownership::listed(class.number as u64);
        Ok(())
    }
}

/// Loads the blocks of a cache, along which their first words lead, into its stack.
fn load_cache(
    shared: &Shared,
    table_seat: &mut TableSeat,
    stack: &mut Stack,
    class: SizeClass,
    first: u64,
    count: u64,
)
    requires at { IsAt shared.now table_seat.old.table_id table_seat.old.me
        (view_in table_seat.old.me.0) }
    requires count { count ≡ length (of_class (view_in table_seat.old.me.0).caches class.number) }
    requires first { 1 ≤ count
        → first ≡ first_of (of_class (view_in table_seat.old.me.0).caches class.number) }
    requires room { count ≤ length stack.old.blocks.items }
    ensures same { table_seat.new.me ≡ table_seat.old.me }
    ensures table { table_seat.new.table_id ≡ table_seat.old.table_id }
    ensures room { length stack.new.blocks.items ≡ length stack.old.blocks.items }
    ensures inside { stack.new.top ≤ length stack.new.blocks.items }
    ensures loaded { drop stack.new.top stack.new.blocks.items
        ≡ of_class (view_in table_seat.old.me.0).caches class.number }
{
    let _class = class;
    let count = count as usize;
    let top = stack.blocks.len() - count;
    let mut block = first;
    for step in 0..count {
        stack.blocks[top + step] = block as u32;
        block = read(shared, table_seat, block);
    }
    stack.top = top;
}

/// The anchor of superblock `d` after the batch is given to it; none where the word that was seen is
/// no anchor with room for the batch.
fn anchor_with_batch(
    geometry: Geometry,
    d: u64,
    class: SizeClass,
    batch: BatchEnds,
    anchor: u64,
) -> Option<u64>
    requires d { d < geometry.capacity }
    requires first { IsCutBlock geometry.capacity class.number d batch.first }
    ensures given { anchor_state anchor ≢ 3
        → batch.count + anchor_count anchor ≤ blocks_of class.number
        → result ≡ Some (given_anchor anchor
        ((batch.first - start_word geometry.capacity d) / words_of_class class.number)
        batch.count (blocks_of class.number)) }
    ensures no_anchor { anchor_state anchor ≡ 3 → result ≡ None }
    ensures no_room { blocks_of class.number < batch.count + anchor_count anchor
        → result ≡ None }
{
    let all = blocks_of(class.number);
    let old = unpack(anchor)?;
    if old.count > all {
        return None;
    }
    if batch.count > all - old.count {
        return None;
    }
    let index = (batch.first - geometry.start(d)) / block_words(class);
    Some(anchor_after_give(anchor, index, batch.count, all))
}
