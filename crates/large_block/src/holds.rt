//! Superblocks that were taken are held as a large block.

ghost use Rattle.heap_rule.specs.Seated.{IsSeatOf};
ghost use Rattle.std.specs.Prelude.{◌≡◌, IfOk, OnErr, IfErr};
ghost use Rattle.seat_costs.specs.Asked.{HasAsked};
ghost use Rattle.seat_costs.specs.Costs.{no_costs};
ghost use Rattle.seat_costs.specs.Rows.{HoldingRow, Row, Stops};
ghost use Rattle.large_block.specs.Holds.{HasHeld, IsFreshClaim};

use crate::infos::set_info;
use core_model::Shift;
use heap_rule::{Seat, Shared};
use line_memory::{Chance, Stopped};
use seat_costs::draw_with;
use super_block::{Block, Geometry, Info, SUPERBLOCK_WORDS};

/// Holds `n` superblocks from `d` on as a large block, which it answers. They are claimed without a
/// class, no crash forgets that they were taken, and their infos are 0.
///
/// The info of the first says so, and is made durable before the block is held: a crash that leaves
/// the block to its owner leaves what tells it. The infos of the others are 0 as they are.
#[tactic(auto, using(heap_model::specs::Geometry::largest_capacity_fits))]
pub fn hold<C: Chance>(
    seat: &mut Seat,
    shared: &Shared,
    d: u64,
    n: u64,
    chance: &mut C,
) -> Result<Block, Stopped>
    requires seat { IsSeatOf shared.now seat.old }
    requires claimed { IsFreshClaim d n seat.old.view }
    ensures held { IfOk result (λ b. HasHeld d n b seat.old.view seat.new.view) }
    ensures stopped { IfErr result (λ e. Stops e.step seat.old.view seat.new.view) }
    ensures none { OnErr result (Row (record no_costs { draws = 2 }) seat.old seat.new) }
    ensures losses { seat.new.view.losses ≡ seat.old.view.losses }
    ensures row { HoldingRow (record no_costs { draws = 2 }) seat.old seat.new }
    ensures asked { HasAsked C.draw_gives seat.old.view seat.new.view chance.old chance.new }
    ensures seat { IsSeatOf shared.now seat.new }
{
    seat.recall_soundness();
    let first_word = Geometry::new(seat.capacity(shared)).start(d);
    set_info(seat, shared, d, Info::Large(n).pack(), chance)?;
    draw_with(seat, shared, Some(Shift::Large { d, n }), chance)?;
    Ok(Block {
        first_word,
        words: SUPERBLOCK_WORDS * n,
    })
}
