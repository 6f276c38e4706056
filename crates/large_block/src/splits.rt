//! A held large block is split: its superblocks are claimed then, and empty.

ghost use Rattle.heap_rule.specs.Seated.{IsSeatOf};
ghost use Rattle.std.specs.Prelude.{◌≡◌, ◌<◌, ◌≤◌, ◌+◌, ℕ, None, OnOk, IfErr};
ghost use Rattle.heap_model.specs.Counting.{times};
ghost use Rattle.heap_model.specs.Geometry.{superblock_of};
ghost use Rattle.core_model.specs.Effects.{span_count};
ghost use Rattle.core_model.specs.Guards.{MaySplit};
ghost use Rattle.seat_costs.specs.Asked.{HasAsked};
ghost use Rattle.seat_costs.specs.Costs.{no_costs, one_draw};
ghost use Rattle.seat_costs.specs.Rows.{HoldingRow, Row, Stops, next_of};
ghost use Rattle.large_block.specs.Splits.{HasCleared, HasClearedAll, HasSplit, MayHaveSplit};

use core_model::Shift;
use heap_rule::{Seat, Shared};
use line_memory::{Chance, Stopped};
use seat_costs::{draw_and_store, draw_with};
use super_block::{Block, Geometry, SUPERBLOCK_WORDS, WORD_BYTES};

/// Adjoining superblocks that a large block takes.
#[derive(Clone, Copy, Debug, PartialEq, Eq)]
pub struct Superblocks {
    /// The first of them.
    pub first: u64,
    /// How many there are.
    pub count: u64,
}

/// The superblocks of the held large block that begins at a word.
#[tactic(auto, using(heap_model::specs::Geometry::largest_capacity_fits))]
pub fn superblocks_of(seat: &Seat, shared: &Shared, block: u64) -> Superblocks
    requires seat { IsSeatOf shared.now seat.now }
    requires held { MaySplit seat.now.view block }
    ensures first { result.first ≡ superblock_of seat.now.view.setup.capacity block }
    ensures count { result.count ≡ span_count result.first seat.now.view.large }
    ensures some { 1 ≤ result.count }
    ensures inside { result.first + result.count ≤ seat.now.view.setup.capacity }
{
    seat.recall_soundness();
    let geometry = Geometry::new(seat.capacity(shared));
    let held = seat.block(shared, WORD_BYTES * block);
    Superblocks {
        first: geometry.superblock_of(block),
        count: held.words / SUPERBLOCK_WORDS,
    }
}

/// The anchor of a superblock of a block that was split becomes 0.
fn clear_anchor<C: Chance>(
    seat: &mut Seat,
    shared: &Shared,
    e: u64,
    chance: &mut C,
) -> Result<(), Stopped>
    requires seat { IsSeatOf shared.now seat.old }
    requires split { 0 < times e seat.old.view.split }
    ensures cleared { OnOk result (HasCleared e seat.old.view seat.new.view) }
    ensures stopped { IfErr result (λ e. Stops e.step seat.old.view seat.new.view) }
    ensures losses { seat.new.view.losses ≡ seat.old.view.losses }
    ensures row { Row one_draw seat.old seat.new }
    ensures asked { HasAsked C.draw_gives seat.old.view seat.new.view chance.old chance.new }
    ensures seat { IsSeatOf shared.now seat.new }
{
    seat.recall_soundness();
    let anchor = Geometry::new(seat.capacity(shared)).anchor(e);
    draw_and_store(seat, shared, anchor, 0, chance)
}

/// So do the anchors of all its superblocks, from the first one on.
fn clear_anchors<C: Chance>(
    seat: &mut Seat,
    shared: &Shared,
    span: Superblocks,
    chance: &mut C,
) -> Result<(), Stopped>
    requires seat { IsSeatOf shared.now seat.old }
    requires going { seat.old.view.stopped ≡ None }
    requires inside { span.first + span.count ≤ seat.old.view.setup.capacity }
    requires split { (e : ℕ) → span.first ≤ e → e < span.first + span.count
        → 0 < times e seat.old.view.split }
    ensures cleared { OnOk result (HasClearedAll span.first span.count
        seat.old.view seat.new.view) }
    ensures stopped { IfErr result (λ e. Stops e.step seat.old.view seat.new.view) }
    ensures losses { seat.new.view.losses ≡ seat.old.view.losses }
    ensures row { Row (record no_costs { draws = span.count }) seat.old seat.new }
    ensures asked { HasAsked C.draw_gives seat.old.view seat.new.view chance.old chance.new }
    ensures seat { IsSeatOf shared.now seat.new }
{
    let _capacity = seat.capacity(shared);
    for e in span.first..span.first + span.count {
        clear_anchor(seat, shared, e, chance)?;
    }
    Ok(())
}

/// Splits a held large block: its superblocks are claimed without a class then, and empty.
///
/// First the block is held no more, by the draw of a ticket. Then the anchor of each superblock is
/// stored to, as no anchor of a held large block has a meaning: what a claimed superblock has there
/// tells the next one who claims it that all of its blocks are free.
pub fn split<C: Chance>(
    seat: &mut Seat,
    shared: &Shared,
    block: Block,
    chance: &mut C,
) -> Result<(), Stopped>
    requires seat { IsSeatOf shared.now seat.old }
    requires held { MaySplit seat.old.view block.first_word }
    ensures split { OnOk result (HasSplit
        (superblock_of seat.old.view.setup.capacity block.first_word)
        seat.old.view seat.new.view) }
    ensures may { MayHaveSplit (superblock_of seat.old.view.setup.capacity block.first_word)
        seat.old.view seat.new.view }
    ensures stopped { IfErr result (λ e. Stops e.step seat.old.view seat.new.view) }
    ensures drew { seat.old.view.stopped ≡ None → next_of seat.old.view < next_of seat.new.view }
    ensures losses { seat.new.view.losses ≡ seat.old.view.losses }
    ensures row { let d = superblock_of seat.old.view.setup.capacity block.first_word in
        HoldingRow (record no_costs { draws = span_count d seat.old.view.large + 1 })
        seat.old seat.new }
    ensures asked { HasAsked C.draw_gives seat.old.view seat.new.view chance.old chance.new }
    ensures seat { IsSeatOf shared.now seat.new }
{
    seat.recall_soundness();
    let span = superblocks_of(seat, shared, block.first_word);
    let shift = Shift::Split {
        block: block.first_word,
    };
    draw_with(seat, shared, Some(shift), chance)?;
    seat.recall_soundness();
    clear_anchors(seat, shared, span, chance)
}
