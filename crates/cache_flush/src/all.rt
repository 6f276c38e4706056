//! All caches of a seat are flushed.

ghost use Rattle.heap_rule.specs.Seated.{IsSeatOf};
ghost use Rattle.std.specs.Prelude.{◌≡◌, None, OnOk, IfErr};
ghost use Rattle.core_model.specs.View.{no_batch};
ghost use Rattle.seat_costs.specs.Asked.{HasAsked};
ghost use Rattle.seat_costs.specs.Rows.{Row, Stops};
ghost use Rattle.cache_flush.specs.All.{HasFlushedAll, all_costs};

use crate::flushes::flush;
use heap_rule::{Seat, Shared};
use line_memory::{Chance, Stopped};
use size_table::{LAST_CLASS, SizeClass};

/// Gives all blocks of all caches back to their superblocks, class by class: other seats can have
/// them then.
pub fn flush_all<C: Chance>(seat: &mut Seat, shared: &Shared, chance: &mut C) -> Result<(), Stopped>
    requires seat { IsSeatOf shared.now seat.old }
    requires going { seat.old.view.stopped ≡ None }
    requires no_batch { seat.old.view.batch ≡ no_batch }
    ensures flushed { OnOk result (HasFlushedAll seat.old.view seat.new.view) }
    ensures stopped { IfErr result (λ e. Stops e.step seat.old.view seat.new.view) }
    ensures row { Row (all_costs seat.old.view) seat.old seat.new }
    ensures asked { HasAsked C.draw_gives seat.old.view seat.new.view chance.old chance.new }
    ensures seat { IsSeatOf shared.now seat.new }
{
    for number in 1..=LAST_CLASS {
        seat.recall_soundness();
        flush(seat, shared, SizeClass::new(number), chance)?;
    }
    seat.recall_soundness();
    Ok(())
}
