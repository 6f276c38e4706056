//! Blocks of a cache go into the batch.

ghost use Rattle.heap_rule.specs.Seated.{IsSeatOf};
ghost use Rattle.std.specs.Prelude.{◌≡◌, ◌≤◌, ◌*◌, [], None, length, IfOk, OnOk, IfErr};
ghost use Rattle.core_model.specs.Effects.{first_of};
ghost use Rattle.core_model.specs.View.{of_class};
ghost use Rattle.heap_rule.specs.Shown.{CanLift};
ghost use Rattle.seat_costs.specs.Asked.{HasAsked};
ghost use Rattle.seat_costs.specs.Costs.{no_costs};
ghost use Rattle.seat_costs.specs.Rows.{Row, Stops};
ghost use Rattle.cache_flush.specs.Lifts.{HasLifted, HasLiftedPrefix, lift_costs};
ghost use Rattle.heap_model.specs.Sizes.{IsClass};
ghost use Rattle.core_model.specs.View.{no_batch};

use core_model::Shift;
use heap_rule::{Seat, Shared};
use line_memory::{Chance, Stopped};
use seat_costs::{draw, draw_with};
use size_table::SizeClass;
use super_block::Geometry;

/// The first blocks of a cache that lie in one superblock, as a batch.
#[derive(Clone, Copy, Debug, PartialEq, Eq)]
pub struct Prefix {
    /// The superblock.
    pub d: u64,
    /// The first word of the last block.
    pub last: u64,
}

/// Puts the first block of the cache of a class behind the batch, once its first word is loaded,
/// which leads to the next one.
pub fn lift<C: Chance>(
    seat: &mut Seat,
    shared: &Shared,
    class: SizeClass,
    first: u64,
    chance: &mut C,
) -> Result<(), Stopped>
    requires seat { IsSeatOf shared.now seat.old }
    requires first { first ≡ first_of (of_class seat.old.view.caches class.number) }
    requires can { CanLift seat.old.view class.number }
    ensures lifted { OnOk result (HasLifted class.number first
        seat.old.view seat.new.view) }
    ensures stopped { IfErr result (λ e. Stops e.step seat.old.view seat.new.view) }
    ensures row { Row (record no_costs { draws = 2 }) seat.old seat.new }
    ensures asked { HasAsked C.draw_gives seat.old.view seat.new.view chance.old chance.new }
    ensures seat { IsSeatOf shared.now seat.new }
{
    seat.recall_soundness();
    draw(seat, shared, chance)?;
    seat.load_word(shared, first);
    let shift = Shift::Lift {
        class: class.number as u64,
    };
    draw_with(seat, shared, Some(shift), chance)
}

/// Puts the first blocks of a cache, as many as lie together in one superblock, into the batch.
pub fn lift_prefix<C: Chance>(
    seat: &mut Seat,
    shared: &Shared,
    class: SizeClass,
    chance: &mut C,
) -> Result<Prefix, Stopped>
    requires seat { IsSeatOf shared.now seat.old }
    requires going { seat.old.view.stopped ≡ None }
    requires some { 1 ≤ length (of_class seat.old.view.caches class.number) }
    requires no_batch { seat.old.view.batch ≡ no_batch }
    ensures lifted { IfOk result (λ prefix. HasLiftedPrefix class.number prefix.d prefix.last
        seat.old.view seat.new.view) }
    ensures stopped { IfErr result (λ e. Stops e.step seat.old.view seat.new.view) }
    ensures row { Row (lift_costs (length (of_class seat.old.view.caches class.number)))
        seat.old seat.new }
    ensures asked { HasAsked C.draw_gives seat.old.view seat.new.view chance.old chance.new }
    ensures seat { IsSeatOf shared.now seat.new }
{
    seat.recall_soundness();
    let geometry = Geometry::new(seat.capacity(shared));
    let (first, _) = seat.cache(shared, class);
    let d = geometry.superblock_of(first);
    let mut last = first;
    lift(seat, shared, class, first, chance)?;
    loop {
        let (next, count) = seat.cache(shared, class);
        if count == 0 {
            return Ok(Prefix { d, last });
        }
        seat.recall_soundness();
        if geometry.superblock_of(next) != d {
            return Ok(Prefix { d, last });
        }
        lift(seat, shared, class, next, chance)?;
        last = next;
    }
}
