//! The blocks of a claimed superblock are made, and cached.

ghost use Rattle.std.specs.Prelude.{◌≡◌, ◌<◌, ◌≤◌, ◌+◌, ◌-◌, [], None, OnOk, IfErr};
ghost use Rattle.heap_model.specs.Counting.{times};
ghost use Rattle.heap_model.specs.Geometry.{start_word, superblocks_end, superblock_of};
ghost use Rattle.heap_model.specs.Sizes.{blocks_of};
ghost use Rattle.core_model.specs.View.{of_class, times_raw};
ghost use Rattle.heap_rule.specs.Seated.{IsSeatOf};
ghost use Rattle.seat_costs.specs.Asked.{HasAsked};
ghost use Rattle.seat_costs.specs.Costs.{no_costs, one_draw};
ghost use Rattle.seat_costs.specs.Rows.{Row, Stops};
ghost use Rattle.cache_fill.specs.Cuts.{HasCut, HasDurableInfo, HasFilledAnchor, HasLink, HasLinks};

use core_model::Shift;
use heap_rule::{Seat, Shared};
use large_block::set_info;
use line_memory::{Chance, Stopped};
use seat_costs::{draw_and_store, draw_with};
use seat_state::anchor_after_take_all;
use size_table::{SizeClass, blocks_of};
use super_block::{Geometry, block_words};

/// The first word of a block of a claimed superblock leads to another.
fn link_block<C: Chance>(
    seat: &mut Seat,
    shared: &Shared,
    word: u64,
    value: u64,
    chance: &mut C,
) -> Result<(), Stopped>
    requires seat { IsSeatOf shared.now seat.old }
    requires from { start_word seat.old.view.setup.capacity 0 ≤ word }
    requires until { word < superblocks_end seat.old.view.setup.capacity }
    requires claimed { 0 < times_raw (superblock_of seat.old.view.setup.capacity word)
        seat.old.view }
    ensures linked { OnOk result (HasLink word value seat.old.view seat.new.view) }
    ensures stopped { IfErr result (λ e. Stops e.step seat.old.view seat.new.view) }
    ensures row { Row one_draw seat.old seat.new }
    ensures asked { HasAsked C.draw_gives seat.old.view seat.new.view chance.old chance.new }
    ensures seat { IsSeatOf shared.now seat.new }
{
    seat.recall_soundness();
    draw_and_store(seat, shared, word, value, chance)
}

/// The first word of each block of a claimed superblock but the last leads to the next block.
fn link_blocks<C: Chance>(
    seat: &mut Seat,
    shared: &Shared,
    d: u64,
    class: SizeClass,
    chance: &mut C,
) -> Result<(), Stopped>
    requires seat { IsSeatOf shared.now seat.old }
    requires going { seat.old.view.stopped ≡ None }
    requires claimed { 0 < times_raw d seat.old.view }
    requires info { HasDurableInfo d class.number seat.old.view }
    ensures linked { OnOk result (HasLinks d class.number seat.old.view seat.new.view) }
    ensures stopped { IfErr result (λ e. Stops e.step seat.old.view seat.new.view) }
    ensures row { Row (record no_costs { draws = blocks_of class.number - 1 })
        seat.old seat.new }
    ensures asked { HasAsked C.draw_gives seat.old.view seat.new.view chance.old chance.new }
    ensures seat { IsSeatOf shared.now seat.new }
{
    seat.recall_soundness();
    let words = block_words(class);
    let mut block = Geometry::new(seat.capacity(shared)).start(d);
    for _i in 1..blocks_of(class.number) {
        link_block(seat, shared, block, block + words, chance)?;
        block += words;
    }
    Ok(())
}

/// The anchor of a claimed superblock is full, as all its blocks are about to be cached.
fn fill_anchor<C: Chance>(
    seat: &mut Seat,
    shared: &Shared,
    d: u64,
    chance: &mut C,
) -> Result<(), Stopped>
    requires seat { IsSeatOf shared.now seat.old }
    requires claimed { 0 < times d seat.old.view.raw }
    ensures filled { OnOk result (HasFilledAnchor d seat.old.view seat.new.view) }
    ensures stopped { IfErr result (λ e. Stops e.step seat.old.view seat.new.view) }
    ensures row { Row one_draw seat.old seat.new }
    ensures asked { HasAsked C.draw_gives seat.old.view seat.new.view chance.old chance.new }
    ensures seat { IsSeatOf shared.now seat.new }
{
    seat.recall_soundness();
    let anchor = Geometry::new(seat.capacity(shared)).anchor(d);
    draw_and_store(seat, shared, anchor, anchor_after_take_all(), chance)
}

/// Cuts a claimed superblock into blocks of a class, whose cache is empty: they are all in the
/// cache then, in the order of their places.
///
/// The class is durable before any block leads to another, and the blocks are chained before the
/// anchor is full and the superblock is the class's: so whoever finds the superblock after a crash
/// knows its blocks.
pub fn cut<C: Chance>(
    seat: &mut Seat,
    shared: &Shared,
    d: u64,
    class: SizeClass,
    chance: &mut C,
) -> Result<(), Stopped>
    requires seat { IsSeatOf shared.now seat.old }
    requires claimed { 0 < times d seat.old.view.raw }
    requires durable { d < seat.old.view.floor }
    requires uncached { of_class seat.old.view.caches class.number ≡ [] }
    ensures cut { OnOk result (HasCut d class.number seat.old.view seat.new.view) }
    ensures counted { OnOk result (seat.old.view.cuts < seat.new.view.cuts) }
    ensures stopped { IfErr result (λ e. Stops e.step seat.old.view seat.new.view) }
    ensures row { Row (record no_costs { draws = blocks_of class.number + 2; cuts = 1 })
        seat.old seat.new }
    ensures asked { HasAsked C.draw_gives seat.old.view seat.new.view chance.old chance.new }
    ensures seat { IsSeatOf shared.now seat.new }
{
    seat.recall_soundness();
    set_info(seat, shared, d, class.number as u64, chance)?;
    link_blocks(seat, shared, d, class, chance)?;
    fill_anchor(seat, shared, d, chance)?;
    draw_with(seat, shared, Some(Shift::Cut { d }), chance)
}
