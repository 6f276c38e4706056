//! Superblocks that were never taken are taken.

ghost use Rattle.heap_rule.specs.Seated.{IsSeatOf};
ghost use Rattle.std.specs.Prelude.{◌≡◌, ◌≤◌, ◌+◌, ◌-◌, ◌*◌, ℕ, Some, IfOk, OnOk, IfErr};
ghost use Rattle.seat_costs.specs.Asked.{HasAsked};
ghost use Rattle.seat_costs.specs.Costs.{no_costs, one_draw, one_win};
ghost use Rattle.seat_costs.specs.Rows.{Row, Stops};
ghost use Rattle.large_block.specs.Fresh.{AreInThisHandAlone, HasKept, Marks, SeesUsed, Takes, TriesTake};

use heap_rule::{Seat, Shared};
use line_memory::{Chance, Stopped};
use seat_costs::{a_row_bounds_its_draws, draw};
use superblock_lists::a_claimed_superblock_is_in_one_hand;

/// What the taking of superblocks gives.
#[derive(Clone, Copy, Debug, PartialEq, Eq)]
pub enum Take {
    /// The first of them.
    Got(u64),
    /// There is no room for so many, as the mark of taken superblocks said.
    Past { used: u64 },
}

/// Reads the mark below which superblocks have been taken.
fn look_used<C: Chance>(seat: &mut Seat, shared: &Shared, chance: &mut C) -> Result<u64, Stopped>
    requires seat { IsSeatOf shared.now seat.old }
    ensures seen { IfOk result (λ used. SeesUsed used seat.old.view seat.new.view) }
    ensures stopped { IfErr result (λ e. Stops e.step seat.old.view seat.new.view) }
    ensures row { Row one_draw seat.old seat.new }
    ensures asked { HasAsked C.draw_gives seat.old.view seat.new.view chance.old chance.new }
    ensures seat { IsSeatOf shared.now seat.new }
{
    draw(seat, shared, chance)?;
    Ok(seat.look_used(shared))
}

/// Takes `n` superblocks from the mark on that was seen, if it is as it was seen.
fn take_seen<C: Chance>(
    seat: &mut Seat,
    shared: &Shared,
    n: u64,
    chance: &mut C,
) -> Result<bool, Stopped>
    requires seat { IsSeatOf shared.now seat.old }
    requires some { 1 ≤ n }
    requires room { (used : ℕ) × (seat.old.view.seen_used ≡ Some used)
        × (used + n ≤ seat.old.view.setup.capacity) }
    ensures done { IfOk result (λ won. (used : ℕ) → seat.old.view.seen_used ≡ Some used
        → Marks n used won seat.old.view seat.new.view) }
    ensures stopped { IfErr result (λ e. Stops e.step seat.old.view seat.new.view) }
    ensures row { Row (record one_win { draws = 1; taken = n }) seat.old seat.new }
    ensures asked { HasAsked C.draw_gives seat.old.view seat.new.view chance.old chance.new }
    ensures seat { IsSeatOf shared.now seat.new }
{
    draw(seat, shared, chance)?;
    Ok(seat.try_take_fresh(shared, n).is_ok())
}

/// Makes the mark durable as far as it was seen.
fn keep_mark<C: Chance>(seat: &mut Seat, shared: &Shared, chance: &mut C) -> Result<(), Stopped>
    requires seat { IsSeatOf shared.now seat.old }
    requires seen { (used : ℕ) × (seat.old.view.seen_used ≡ Some used) }
    ensures kept { OnOk result ((used : ℕ) → seat.old.view.seen_used ≡ Some used
        → HasKept used seat.old.view seat.new.view) }
    ensures stopped { IfErr result (λ e. Stops e.step seat.old.view seat.new.view) }
    ensures row { Row one_draw seat.old seat.new }
    ensures asked { HasAsked C.draw_gives seat.old.view seat.new.view chance.old chance.new }
    ensures seat { IsSeatOf shared.now seat.new }
{
    draw(seat, shared, chance)?;
    seat.keep_used(shared);
    Ok(())
}

/// Takes `n` adjoining superblocks in one try: none where another seat was faster.
fn try_take<C: Chance>(
    seat: &mut Seat,
    shared: &Shared,
    n: u64,
    chance: &mut C,
) -> Result<Option<Take>, Stopped>
    requires seat { IsSeatOf shared.now seat.old }
    requires some { 1 ≤ n }
    ensures done { IfOk result (λ take. TriesTake n take seat.old.view seat.new.view) }
    ensures stopped { IfErr result (λ e. Stops e.step seat.old.view seat.new.view) }
    ensures row { Row (record no_costs { draws = 3; wins = 1; taken = n }) seat.old seat.new }
    ensures asked { HasAsked C.draw_gives seat.old.view seat.new.view chance.old chance.new }
    ensures seat { IsSeatOf shared.now seat.new }
{
    let used = look_used(seat, shared, chance)?;
    if n > seat.capacity(shared) - used {
        return Ok(Some(Take::Past { used }));
    }
    if take_seen(seat, shared, n, chance)? {
        keep_mark(seat, shared, chance)?;
        return Ok(Some(Take::Got(used)));
    }
    Ok(None)
}

/// Takes `n` adjoining superblocks that were never taken: they are in this hand alone, their infos
/// and anchors are 0, and no crash forgets that they were taken. Where there is no room for so
/// many, that is answered, with the mark that said so.
///
/// It reads the mark of taken superblocks, exchanges it for one that is `n` higher, and makes that
/// durable. The exchange is where it takes effect; a refusal takes effect at its last look at the
/// mark. Where another seat was faster, the exchange is lost, nothing has changed, and it begins
/// anew with a look at the mark. A mark that is as it was seen says that nothing was taken since,
/// as it never falls. A seat that stops before the mark is durable may have taken superblocks all
/// the same: recovery finds them behind the durable mark, as ones that were never taken.
pub fn take_fresh<C: Chance>(
    seat: &mut Seat,
    shared: &Shared,
    n: u64,
    chance: &mut C,
) -> Result<Take, Stopped>
    requires seat { IsSeatOf shared.now seat.old }
    requires some { 1 ≤ n }
    ensures done { IfOk result (λ take. Takes n take seat.old.view seat.new.view) }
    ensures alone { IfOk result (λ take. AreInThisHandAlone n take seat.new.view) }
    ensures draws { seat.new.view.draws ≤ seat.old.view.draws + 4
        + 4 * (seat.new.view.losses - seat.old.view.losses) }
    ensures stopped { IfErr result (λ e. Stops e.step seat.old.view seat.new.view) }
    ensures row { Row (record no_costs { draws = 3; wins = 1; taken = n }) seat.old seat.new }
    ensures asked { HasAsked C.draw_gives seat.old.view seat.new.view chance.old chance.new }
    ensures seat { IsSeatOf shared.now seat.new }
{
    a_row_bounds_its_draws();
    a_claimed_superblock_is_in_one_hand();
    loop {
        if let Some(take) = try_take(seat, shared, n, chance)? {
            return Ok(take);
        }
    }
}
