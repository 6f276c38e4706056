//! What a seat does to the words of its held blocks and of its roots, each time with a ticket.

ghost use Rattle.std.specs.Prelude.{◌≡◌, ◌≢◌, ℕ, None, IfOk, OnOk, OnErr, IfErr};
ghost use Rattle.core_model.specs.View.{no_batch};
ghost use Rattle.heap_rule.specs.Fences.{Owns};
ghost use Rattle.heap_rule.specs.Seated.{IsSeatOf};
ghost use Rattle.line_memory.specs.Marks.{IsMarked};
ghost use Rattle.seat_costs.specs.Asked.{HasAsked};
ghost use Rattle.seat_costs.specs.Costs.{one_draw};
ghost use Rattle.seat_costs.specs.Draws.{LeavesAsSettled};
ghost use Rattle.seat_costs.specs.Rows.{Row, SameLooks, Stops, StoringRow};
ghost use Rattle.seat_costs.specs.Words.{IsHeldWord};
ghost use Rattle.thread_cache.specs.Own.{Drew, HasFenced, HasValue, HasMarkedLine, MayHave};

use heap_rule::{Seat, Shared};
use line_memory::{Chance, Stopped};
use seat_costs::{draw, draw_and_store};

/// What loads see of an own word.
pub(crate) fn load<C: Chance>(
    seat: &mut Seat,
    shared: &Shared,
    word: u64,
    chance: &mut C,
) -> Result<u64, Stopped>
    requires seat { IsSeatOf shared.now seat.old }
    requires own { Owns seat.old.view word }
    ensures loaded { IfOk result (λ value. HasValue word value seat.old.view seat.new.view) }
    ensures stopped { IfErr result (λ e. Stops e.step seat.old.view seat.new.view) }
    ensures row { Row one_draw seat.old seat.new }
    ensures drew { Drew seat.old.view seat.new.view }
    ensures looks { SameLooks seat.old.view seat.new.view }
    ensures marks { seat.new.marks ≡ seat.old.marks }
    ensures early { seat.old.view.stopped ≡ None
        → LeavesAsSettled C.draw_gives seat.old seat.new chance.old chance.new }
    ensures asked { HasAsked C.draw_gives seat.old.view seat.new.view chance.old chance.new }
    ensures seat { IsSeatOf shared.now seat.new }
{
    draw(seat, shared, chance)?;
    Ok(seat.load_word(shared, word))
}

/// Stores to a word of a held block, or to an own root. A crash may leave what it could before,
/// until the word is written back and a fence awaits it.
pub(crate) fn store<C: Chance>(
    seat: &mut Seat,
    shared: &Shared,
    word: u64,
    value: u64,
    chance: &mut C,
) -> Result<(), Stopped>
    requires seat { IsSeatOf shared.now seat.old }
    requires held { IsHeldWord seat.old.view word }
    requires no_batch { seat.old.view.batch ≡ no_batch }
    ensures stored { OnOk result (HasValue word value seat.old.view seat.new.view) }
    ensures stopped { IfErr result (λ e. Stops e.step seat.old.view seat.new.view) }
    ensures row { StoringRow word one_draw seat.old seat.new }
    ensures none { OnErr result (Row one_draw seat.old seat.new) }
    ensures crash { MayHave word value seat.old.view seat.new.view }
    ensures drew { Drew seat.old.view seat.new.view }
    ensures looks { SameLooks seat.old.view seat.new.view }
    ensures marks { (other : ℕ) → other ≢ word → IsMarked seat.old.marks other
        → IsMarked seat.new.marks other }
    ensures early { seat.old.view.stopped ≡ None
        → LeavesAsSettled C.draw_gives seat.old seat.new chance.old chance.new }
    ensures asked { HasAsked C.draw_gives seat.old.view seat.new.view chance.old chance.new }
    ensures seat { IsSeatOf shared.now seat.new }
{
    seat.recall_soundness();
    draw_and_store(seat, shared, word, value, chance)
}

/// Asks for the words of an own word's line to be made durable, which the next fence awaits.
pub(crate) fn write_back<C: Chance>(
    seat: &mut Seat,
    shared: &Shared,
    word: u64,
    chance: &mut C,
) -> Result<(), Stopped>
    requires seat { IsSeatOf shared.now seat.old }
    requires own { Owns seat.old.view word }
    ensures marked { OnOk result (HasMarkedLine word seat.old seat.new) }
    ensures stopped { IfErr result (λ e. Stops e.step seat.old.view seat.new.view) }
    ensures row { Row one_draw seat.old seat.new }
    ensures drew { Drew seat.old.view seat.new.view }
    ensures looks { SameLooks seat.old.view seat.new.view }
    ensures marks { (other : ℕ) → IsMarked seat.old.marks other → IsMarked seat.new.marks other }
    ensures early { seat.old.view.stopped ≡ None
        → LeavesAsSettled C.draw_gives seat.old seat.new chance.old chance.new }
    ensures asked { HasAsked C.draw_gives seat.old.view seat.new.view chance.old chance.new }
    ensures seat { IsSeatOf shared.now seat.new }
{
    draw(seat, shared, chance)?;
    seat.write_back(shared, word);
    Ok(())
}

/// Waits until each own word that was written back, and not stored to since, is durable.
pub(crate) fn fence<C: Chance>(
    seat: &mut Seat,
    shared: &Shared,
    chance: &mut C,
) -> Result<(), Stopped>
    requires seat { IsSeatOf shared.now seat.old }
    ensures fenced { OnOk result (HasFenced seat.old seat.new) }
    ensures stopped { IfErr result (λ e. Stops e.step seat.old.view seat.new.view) }
    ensures row { Row one_draw seat.old seat.new }
    ensures drew { Drew seat.old.view seat.new.view }
    ensures looks { SameLooks seat.old.view seat.new.view }
    ensures asked { HasAsked C.draw_gives seat.old.view seat.new.view chance.old chance.new }
    ensures seat { IsSeatOf shared.now seat.new }
{
    draw(seat, shared, chance)?;
    seat.fence(shared);
    Ok(())
}
