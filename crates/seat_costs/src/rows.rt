//! What each step of a seat costs and leaves, and that rows of steps add up, as functions with
//! nothing to run: a caller cites their clauses.

ghost use Rattle.std.specs.Prelude.{◌≡◌, ◌≢◌, ◌≤◌, ◌+◌, ◌-◌, ◌*◌, ℕ, Option, None, Some};
ghost use Rattle.heap_model.specs.Counting.{times};
ghost use Rattle.core_model.specs.declared.event.Event.TheVariants.{Give, KeepUsed, Load, LookAnchor, LookHead, LookLink, LookUsed, Pop, Push, Settle, Store, TakeAll, TakeFresh, Tick};
ghost use Rattle.core_model.specs.declared.event.Shift.{Shift};
ghost use Rattle.core_model.specs.declared.event.Shift.TheVariants.{Cut, Lift};
ghost use Rattle.core_model.specs.Effects.{seen, seen_of, seen_word};
ghost use Rattle.core_model.specs.View.{View};
ghost use Rattle.heap_rule.specs.Fences.{IsLineMarked, IsSeatFence};
ghost use Rattle.heap_table.specs.Plays.{IsEvent};
ghost use Rattle.heap_rule.specs.Seated.{HasNewStore, KeepsStores, SeatView};
ghost use Rattle.heap_rule.specs.Shown.{Can};
ghost use Rattle.seat_costs.specs.Costs.{Costs, IsWithin, no_costs, one_draw, one_give, one_loss, one_move, one_push, one_win, shift_costs, sum_of};
ghost use Rattle.seat_costs.specs.Draws.{Settles};
ghost use Rattle.seat_costs.specs.Rows.{HasDrawn, HoldingRow, Row, Stops, StoringRow};
ghost use Rattle.seat_costs.specs.Words.{IsHeldWord};

/// Rows one after the other cost what both cost; what costs less costs no more; and a row that
/// changes no held block may stand before or behind one that does, or that stores to a held word.
pub fn rows_add_up()
    ensures none { (v : SeatView) → Row no_costs v v }
    ensures both { (a b : Costs) (u v w : SeatView) → Row a u v → Row b v w → Row (sum_of a b) u w }
    ensures within { (a b : Costs) (v w : SeatView) → IsWithin a b → Row a v w → Row b v w }
    ensures moves { (a : Costs) (v w : SeatView) → Row a v w
        → Row (record a { moves = w.view.moves - v.view.moves }) v w }
    ensures before { (a b : Costs) (u v w : SeatView) → Row a u v → HoldingRow b v w
        → HoldingRow (sum_of a b) u w }
    ensures behind { (a b : Costs) (u v w : SeatView) → HoldingRow a u v → Row b v w
        → HoldingRow (sum_of a b) u w }
    ensures before_store { (word : ℕ) (a b : Costs) (u v w : SeatView) → Row a u v
        → StoringRow word b v w → StoringRow word (sum_of a b) u w }
    ensures behind_store { (word : ℕ) (a b : Costs) (u v w : SeatView) → StoringRow word a u v
        → Row b v w → StoringRow word (sum_of a b) u w }
    ensures holding { (a b : Costs) (v w : SeatView) → IsWithin a b → HoldingRow a v w
        → HoldingRow b v w }
{}

/// A row draws what it costs, and four tickets for each exchange that it lost and sixteen for each
/// superblock that it moved to the list of the free ones.
pub fn a_row_bounds_its_draws()
    ensures told { (a : Costs) (v w : SeatView) → Row a v w
        → w.view.draws + a.credit ≤ v.view.draws + a.draws
        + 4 * (w.view.losses - v.view.losses) + 16 * (w.view.moves - v.view.moves) }
    ensures exact { (a : Costs) (v w : SeatView) → Row a v w
        → w.view.draws + a.credit ≤ v.view.draws + a.draws
        + 4 * (w.view.losses - v.view.losses) + 16 * a.moves }
{}

/// The rows of looks, and of keeping the mark. A look that is a last look is by the ticket that was
/// drawn for it: the row is that of the draw and the look.
pub fn a_look_is_a_row()
    ensures head { (list : ℕ) (v u w : SeatView) (found : ℕ) → HasDrawn v.view u.view
        → Row one_draw v u → IsEvent (LookHead list) u.view found w.view → KeepsStores u w
        → Row one_draw v w }
    ensures used { (v u w : SeatView) (found : ℕ) → HasDrawn v.view u.view
        → Row one_draw v u → IsEvent LookUsed u.view found w.view → KeepsStores u w
        → Row one_draw v w }
    ensures link { (v w : SeatView) (found : ℕ) → IsEvent LookLink v.view found w.view
        → KeepsStores v w → Row no_costs v w }
    ensures anchor { (d : ℕ) (v w : SeatView) (found : ℕ)
        → IsEvent (LookAnchor d) v.view found w.view → KeepsStores v w → Row no_costs v w }
    ensures keep_used { (v w : SeatView) (found : ℕ) → IsEvent KeepUsed v.view found w.view
        → KeepsStores v w → Row no_costs v w }
{}

/// The rows of exchanges, won or lost; and a superblock of a class that goes to the list of the
/// free ones pays for more draws and wins than it costs.
pub fn an_exchange_is_a_row()
    ensures take_fresh { (n : ℕ) (v w : SeatView) (found : ℕ)
        → IsEvent (TakeFresh n) v.view found w.view → KeepsStores v w
        → Row (record one_win { taken = n }) v w }
    ensures pop { (v w : SeatView) (found : ℕ) → IsEvent Pop v.view found w.view
        → KeepsStores v w → Row one_win v w }
    ensures push { (d : ℕ) (v w : SeatView) (found : ℕ) → IsEvent (Push d) v.view found w.view
        → KeepsStores v w → Row one_push v w }
    ensures move_free { (d : ℕ) (v w : SeatView) (found : ℕ)
        → IsEvent (Push d) v.view found w.view → KeepsStores v w
        → found ≡ seen_word v.view.seen_head → seen_of v.view.seen_head ≡ 0
        → times d v.view.raw + times d v.view.split ≡ 0 → Row one_move v w }
    ensures take_all { (d : ℕ) (v w : SeatView) (found : ℕ)
        → IsEvent (TakeAll d) v.view found w.view → KeepsStores v w → Row one_win v w }
    ensures give { (d : ℕ) (v w : SeatView) (found : ℕ) → IsEvent (Give d) v.view found w.view
        → KeepsStores v w → Row one_give v w }
{}

/// An exchange that is lost pays for four draws.
pub fn a_lost_exchange_is_a_row()
    ensures take_fresh { (n : ℕ) (v w : SeatView) (found : ℕ)
        → IsEvent (TakeFresh n) v.view found w.view → KeepsStores v w
        → found ≢ seen v.view.seen_used → Row one_loss v w }
    ensures pop { (v w : SeatView) (found : ℕ) → IsEvent Pop v.view found w.view
        → KeepsStores v w → found ≢ seen_word v.view.seen_head → Row one_loss v w }
    ensures push { (d : ℕ) (v w : SeatView) (found : ℕ) → IsEvent (Push d) v.view found w.view
        → KeepsStores v w → found ≢ seen_word v.view.seen_head → Row one_loss v w }
    ensures take_all { (d : ℕ) (v w : SeatView) (found : ℕ)
        → IsEvent (TakeAll d) v.view found w.view → KeepsStores v w
        → found ≢ seen_word v.view.seen_anchor → Row one_loss v w }
    ensures give { (d : ℕ) (v w : SeatView) (found : ℕ) → IsEvent (Give d) v.view found w.view
        → KeepsStores v w → found ≢ seen_word v.view.seen_anchor → Row one_loss v w }
{}

/// The rows of steps on own words. A store to a held word keeps all held words but that.
pub fn a_step_on_an_own_word_is_a_row()
    ensures load { (word : ℕ) (v w : SeatView) (found : ℕ)
        → IsEvent (Load word) v.view found w.view → KeepsStores v w → Row no_costs v w }
    ensures settle { (word : ℕ) (v w : SeatView) (found : ℕ)
        → IsEvent (Settle word) v.view found w.view → KeepsStores v w → Row no_costs v w }
    ensures store { (word value : ℕ) (v w : SeatView) (found : ℕ)
        → IsEvent (Store word value) v.view found w.view → HasNewStore word v w
        → (IsHeldWord v.view word → ⊥) → Row no_costs v w }
    ensures store_held { (word value : ℕ) (v w : SeatView) (found : ℕ)
        → IsEvent (Store word value) v.view found w.view → HasNewStore word v w
        → StoringRow word no_costs v w }
    ensures write_back { (word : ℕ) (v w : SeatView) → IsLineMarked word v w → Row no_costs v w }
    ensures fence { (v w : SeatView) → IsSeatFence v w → Row no_costs v w }
{}

/// The rows of draws, behind what chance settled, whether they go on or stop. One that changes the
/// seat's parts keeps the words that were held and still are; cutting and lifting change no held
/// block.
pub fn a_draw_is_a_row()
    ensures plain { (v w : SeatView) (early : View) (found : ℕ)
        → v.view.stopped ≡ None → Settles v.view early
        → IsEvent (Tick None) early found w.view → KeepsStores v w → Row one_draw v w }
    ensures stop { (shift : Option Shift) (v w : View) (early : View) (found step : ℕ)
        → v.stopped ≡ None → Settles v early → IsEvent (Tick shift) early found w
        → w.stopped ≡ Some step → Stops step v w }
    ensures shift { (shift : Shift) (v w : SeatView) (early : View) (found : ℕ)
        → v.view.stopped ≡ None → Settles v.view early
        → IsEvent (Tick (Some shift)) early found w.view → KeepsStores v w
        → HoldingRow (shift_costs shift) v w }
    ensures cut { (d : ℕ) (v w : SeatView) (early : View) (found : ℕ)
        → v.view.stopped ≡ None → Settles v.view early
        → IsEvent (Tick (Some (Cut d))) early found w.view → KeepsStores v w
        → Row (record one_draw { cuts = 1 }) v w }
    ensures lift { (class : ℕ) (v w : SeatView) (early : View) (found : ℕ)
        → v.view.stopped ≡ None → Settles v.view early
        → IsEvent (Tick (Some (Lift class))) early found w.view → KeepsStores v w
        → Row one_draw v w }
{}
