//! How what the seats have counted and looked at is bounded, as functions with nothing to run.

ghost use Rattle.std.specs.Prelude.{◌≡◌, ◌<◌, ◌≤◌, ◌+◌, ℕ, get_or, true, None, Some};
ghost use Rattle.heap_model.specs.Counting.{total};
ghost use Rattle.heap_model.specs.Geometry.{lists};
ghost use Rattle.heap_model.specs.Rest.{list_numbers};
ghost use Rattle.heap_model.specs.Words.{head_pops};
ghost use Rattle.core_model.specs.Cells.{Cell, is_cell};
ghost use Rattle.core_model.specs.Guards.{IsOwn};
ghost use Rattle.core_model.specs.Memory.{memory_of, used, head, durable_used};
ghost use Rattle.core_model.specs.View.{Setup, View, one_if_some, known};
ghost use Rattle.core_model.specs.Sound.{Each, stale};
ghost use Rattle.core_model.specs.Steps.{TableState, IsSoundState};

/// Each exchange that a seat lost, and each of its snapshots that is stale, is one that another seat
/// won. A seat has drawn no fewer tickets than it took part in exchanges, or cut superblocks; and
/// what it gave, or moved to the list of the free ones, is an exchange that it won.
pub fn each_loss_is_a_win_of_another_seat()
    ensures lost { (k : Setup) (s : TableState) → IsSoundState k s → Each s.views (λ v.
        v.losses + stale (memory_of k.capacity s.words) v + v.wins
        ≤ total (λ (u : View). u.wins) s.views) }
    ensures tried { (k : Setup) (s : TableState) → IsSoundState k s
        → Each s.views (λ v. v.wins + v.losses + one_if_some v.ticket ≤ v.draws) }
    ensures cuts { (k : Setup) (s : TableState) → IsSoundState k s
        → Each s.views (λ v. v.cuts ≤ v.draws) }
    ensures gives { (k : Setup) (s : TableState) → IsSoundState k s
        → Each s.views (λ v. v.gives + v.moves ≤ v.wins) }
{}

/// A superblock of a class that went to the list of the free ones became empty by a give, or was
/// empty at the opening.
pub fn each_move_is_a_give_or_was_there()
    ensures { (k : Setup) (s : TableState) → IsSoundState k s
        → total (λ (v : View). v.moves) s.views
        ≤ total (λ (v : View). v.gives) s.views + k.capacity }
{}

/// Each draw of a seat is a ticket, and no ticket past the budget is drawn but those at which the
/// seats stop, one for each.
pub fn tickets_end_at_the_budget()
    ensures all { (k : Setup) (s : TableState) → IsSoundState k s
        → (memory_of k.capacity s.words).drawn ≡ total (λ (v : View). v.draws) s.views }
    ensures past { (k : Setup) (s : TableState) → IsSoundState k s
        → (memory_of k.capacity s.words).drawn
        ≤ k.budget + total (λ (v : View). one_if_some v.stopped) s.views }
{}

/// The mark of taken superblocks is that of the opening and what the seats have taken since; so it
/// is no less than a seat's last look at it, with what that seat has taken from then on.
pub fn the_mark_is_what_was_taken()
    ensures taken { (k : Setup) (s : TableState) → IsSoundState k s
        → used (memory_of k.capacity s.words) ≡ k.used + total (λ (v : View). v.taken) s.views }
    ensures looked { (k : Setup) (s : TableState) → IsSoundState k s → Each s.views (λ v.
        v.used_look.word + v.taken ≤ used (memory_of k.capacity s.words) + v.used_look.taken) }
    ensures looked_then { (k : Setup) (s : TableState) → IsSoundState k s → Each s.views (λ v.
        (v.used_look.taken ≤ v.taken) × (v.used_look.wins ≤ v.wins)) }
{}

/// The tickets of a seat were drawn, and those of its last looks too. One in hand is its last one,
/// and below the budget; so is the last one of a seat that has not stopped. A seat stops at its last
/// ticket, which is not below the budget. All heads together count no more pops than the budget,
/// with the tickets in hand.
pub fn a_seat_stops_at_the_budget()
    ensures drawn { (k : Setup) (s : TableState) → IsSoundState k s → Each s.views (λ v. (t : ℕ)
        → v.last_ticket ≡ Some t → t < (memory_of k.capacity s.words).drawn) }
    ensures looked_used { (k : Setup) (s : TableState) → IsSoundState k s
        → Each s.views (λ v. (t : ℕ) → v.used_look.ticket ≡ Some t
        → t < (memory_of k.capacity s.words).drawn) }
    ensures looked_heads { (k : Setup) (s : TableState) → IsSoundState k s
        → Each s.views (λ v. (list t : ℕ) → list < lists
        → (get_or v.head_looks list v.used_look).ticket ≡ Some t
        → t < (memory_of k.capacity s.words).drawn) }
    ensures in_hand { (k : Setup) (s : TableState) → IsSoundState k s → Each s.views (λ v. (t : ℕ)
        → v.ticket ≡ Some t → (v.last_ticket ≡ Some t) × (t < k.budget)) }
    ensures going { (k : Setup) (s : TableState) → IsSoundState k s → Each s.views (λ v. (t : ℕ)
        → v.stopped ≡ None → v.last_ticket ≡ Some t → t < k.budget) }
    ensures stopping { (k : Setup) (s : TableState) → IsSoundState k s → Each s.views (λ v. (t : ℕ)
        → v.stopped ≡ Some t
        → (k.budget ≤ t) × (v.last_ticket ≡ Some t) × (v.ticket ≡ None)) }
    ensures pops { (k : Setup) (s : TableState) → IsSoundState k s
        → total (λ list. head_pops (head (memory_of k.capacity s.words) list)) list_numbers
        + total (λ (v : View). one_if_some v.ticket) s.views ≤ k.budget }
{}

/// What a seat knows is so: the superblocks below its floor are below the durable mark, and a word
/// that it knows is its own, with that volatile value or that durable one.
pub fn what_a_seat_knows_is_so()
    ensures floor { (k : Setup) (s : TableState) → IsSoundState k s
        → Each s.views (λ v. v.floor ≤ durable_used (memory_of k.capacity s.words)) }
    ensures volatile { (k : Setup) (s : TableState) → IsSoundState k s
        → Each s.views (λ v. (cell : Cell) (value : ℕ) → is_cell k.capacity cell ≡ true
        → known v.volatile cell ≡ Some value
        → IsOwn v cell × ((memory_of k.capacity s.words).volatile cell ≡ value)) }
    ensures durable { (k : Setup) (s : TableState) → IsSoundState k s
        → Each s.views (λ v. (cell : Cell) (value : ℕ) → is_cell k.capacity cell ≡ true
        → known v.durable cell ≡ Some value
        → IsOwn v cell × ((memory_of k.capacity s.words).durable cell ≡ value)) }
{}
