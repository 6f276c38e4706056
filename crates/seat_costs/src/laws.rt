//! What is so of a seat that is alone at its heap, of what chance does, and of
//! the seats of an opened heap, as functions with nothing to run.

ghost use Rattle.std.specs.Prelude.{◌≡◌, ◌<◌, ◌≤◌, ◌+◌, ℕ, List, [], ◌∷◌, Option, get_or, length, slice_index};
ghost use Rattle.core_model.specs.declared.event.Event.TheVariants.{Tick};
ghost use Rattle.core_model.specs.declared.event.Shift.{Shift};
ghost use Rattle.core_model.specs.declared.event.Event.{Event};
ghost use Rattle.core_model.specs.Guards.{MayStep};
ghost use Rattle.core_model.specs.Memory.{Memory, memory_of};
ghost use Rattle.core_model.specs.Sound.{Good, Sound};
ghost use Rattle.core_model.specs.Steps.{found_by, memory_after, seat_after};
ghost use Rattle.core_model.specs.View.{Setup, View};
ghost use Rattle.core_model.specs.Opening.{AreOwners, opened_view};
ghost use Rattle.heap_model.specs.declared.block.Block.{Block};
ghost use Rattle.heap_model.specs.Geometry.{head_word, lists, used_word};
ghost use Rattle.heap_model.specs.Rest.{IsReady};
ghost use Rattle.heap_rule.specs.Fences.{Owns};
ghost use Rattle.heap_table.specs.Plays.{HasSoundState, IsEvent};
ghost use Rattle.heap_rule.specs.Seated.{SeatView};
ghost use Rattle.heap_table.specs.AtTable.{IsClosedReached, SharedView};
ghost use Rattle.heap_table.specs.Rule.{Opening};
ghost use Rattle.heap_rule.specs.Seats.{AreOpenedSeats};
ghost use Rattle.heap_rule.specs.Shown.{Can};
ghost use Rattle.seat_costs.specs.Asked.{HasAsked};
ghost use Rattle.seat_costs.specs.Draws.{Settles};
ghost use Rattle.seat_costs.specs.Idle.{HasShortCaches, IsIdle};
ghost use Rattle.seat_costs.specs.Words.{KeepsWord};
ghost use Rattle.seat_costs.specs.Alone.{IsSteady, Steady};

use line_memory::Chance;

/// A seat that is alone loses no exchange, and its last looks say what the words are as long as it
/// has won no exchange since: at the opening, behind each step, and in the words of a closed heap where it offered no block.
pub fn a_seat_that_is_alone_loses_nothing()
    ensures losses { (k : Setup) (words : List ℕ) (v : View) → Sound k words (v ∷ []) → v.losses ≡ 0 }
    ensures event { (event : Event) (v w : View) (found : ℕ) → (e : IsEvent event v found w)
        → e.before.views ≡ v ∷ [] → w.losses ≡ 0 }
    ensures looks { (k : Setup) (m : Memory) (v : View) (event : Event) → Good k m (v ∷ [])
        → MayStep m v event → Steady m v → Steady (memory_after m v event) (seat_after m v event) }
    ensures opened { (k : Setup) (held : List Block) (block_owners root_owners : List ℕ) (i : ℕ)
        (m : Memory) → Steady m (opened_view k held block_owners root_owners i) }
    ensures left { (o : Opening) (now kept : List ℕ) (v : View) → IsReady o.words o.held
        → AreOwners o.held o.seats o.block_owners o.root_owners
        → IsClosedReached o now kept (v ∷ []) → v.offers ≡ 0
        → IsSteady v v.used_look (slice_index now used_word)
        × ((list : ℕ) → list < lists
        → IsSteady v (get_or v.head_looks list v.used_look) (slice_index now (head_word list))) }
{}

/// What chance may do at a draw changes what is recorded alone: of own words what was known is
/// known, and what the seat might do next it may do still.
pub fn an_early_settling_takes_nothing_away()
    ensures rest { (v early : View) → Settles v early
        → early ≡ record v { volatile = early.volatile; durable = early.durable } }
    ensures words { (v early : View) → Settles v early → (word : ℕ) → Owns v word
        → KeepsWord v early word }
    ensures can { (v early : View) (event : Event) → HasSoundState v → Settles v early
        → Can v event → Can early event }
{}

/// The seats of an opened heap are idle, and no cache has a block.
pub fn an_opened_seat_is_idle()
    ensures { (k : Setup) (held : List Block) (block_owners root_owners : List ℕ)
        (shared : SharedView) (seats : List SeatView)
        → AreOpenedSeats shared (opened_view k held block_owners root_owners) seats
        → (i : ℕ) (seat : SeatView) → i < length seats → get_or seats i seat ≡ seat
        → IsIdle seat.view × HasShortCaches seat.view }
{}

/// Chance is asked for no number where no ticket is drawn, and where one row is behind another for
/// the numbers of both.
pub fn asked_numbers_add_up<C: Chance>()
    ensures none { (v : View) (chance : C) → HasAsked C.draw_gives v v chance chance }
    ensures both { (u v w : View) (a b c : C) → HasAsked C.draw_gives u v a b
        → HasAsked C.draw_gives v w b c → HasAsked C.draw_gives u w a c }
{}
