//! What follows of a step of a seat, and of a closed heap, as functions with nothing to run: a
//! caller cites their clauses.

ghost use Rattle.std.specs.Prelude.{◌≡◌, ◌<◌, ◌≤◌, ◌+◌, ◌*◌, ℕ, List, Option, None, Some, length, slice_index};
ghost use Rattle.heap_model.specs.declared.block.Block.{Block};
ghost use Rattle.heap_model.specs.Blocks.{Names};
ghost use Rattle.heap_model.specs.Durability.{IsCrashImage, IsClosedImage, NamesAreDurable};
ghost use Rattle.heap_model.specs.Geometry.{image_words};
ghost use Rattle.heap_model.specs.Header.{IsWellFormed, HasKindsBelow, header_fault};
ghost use Rattle.heap_model.specs.Image.{Image};
ghost use Rattle.core_model.specs.declared.event.Event.{Event};
ghost use Rattle.core_model.specs.declared.event.Event.TheVariants.{Tick, Load};
ghost use Rattle.core_model.specs.declared.event.Shift.{Shift};
ghost use Rattle.core_model.specs.Cells.{cell_at};
ghost use Rattle.core_model.specs.Held.{AreHeldOnce, IsHeldBy, IsFirm};
ghost use Rattle.core_model.specs.View.{Setup, View};
ghost use Rattle.heap_table.specs.SeatViews.{SeatViews, all_views};
ghost use Rattle.heap_table.specs.Plays.{HasSoundState, IsEvent};
ghost use Rattle.heap_table.specs.Rule.{HasAllSeats, Opening, setup_for};
ghost use Rattle.heap_table.specs.AtTable.{IsClosedSound};
ghost use Rattle.heap_rule.specs.Held.{IsHeldByOne};
ghost use Rattle.heap_rule.specs.Shown.{Shows};

/// What a step tells of the heap: in the state in which it was taken, each mixed image names each
/// held block. A draw that does not stop has its ticket below the budget, and the seat has drawn at
/// most so many before; what is loaded of an own word is what the view had recorded of it.
pub fn a_step_tells_of_the_heap()
    ensures firm { (event : Event) (v w : View) (found : ℕ) (e : IsEvent event v found w)
        → IsFirm v.setup.capacity e.before.words e.before.views }
    ensures draw { (shift : Option Shift) (v w : View) (ticket : ℕ)
        → IsEvent (Tick shift) v ticket w
        → w.stopped ≡ None → (w.ticket ≡ Some ticket) × (ticket < v.setup.budget)
        × (v.draws ≤ ticket) × (w.draws ≡ v.draws + 1) }
    ensures stop { (shift : Option Shift) (v w : View) (ticket step : ℕ)
        → IsEvent (Tick shift) v ticket w → v.stopped ≡ None → w.stopped ≡ Some step
        → (step ≡ ticket) × (v.setup.budget ≤ ticket) }
    ensures load { (v w : View) (word value found : ℕ) → IsEvent (Load word) v found w
        → Shows v (cell_at v.setup.capacity word) value → found ≡ value }
{}

/// Each mixture of the volatile and the durable words of a closed heap names each block that its
/// seats hold, and so does what a crash leaves of it, or a close; what these leave has a good
/// header, if the opened image has one.
pub fn a_closed_heap_names_each_held_block()
    ensures firm { (k : Setup) (now kept : List ℕ) (views : List View)
        → IsClosedSound k now kept views
        → NamesAreDurable (slice_index now) (slice_index kept) (IsHeldBy views) }
    ensures crash { (k : Setup) (now kept : List ℕ) (views : List View)
        → IsClosedSound k now kept views
        → (image : Image) → IsCrashImage (slice_index kept) image
        → (b : Block) → IsHeldBy views b → Names image (8 * b.first_word) b }
    ensures closed { (k : Setup) (now kept : List ℕ) (views : List View)
        → IsClosedSound k now kept views
        → (image : Image) → IsClosedImage (slice_index now) image
        → (b : Block) → IsHeldBy views b → Names image (8 * b.first_word) b }
    ensures header { (k : Setup) (now kept : List ℕ) (views : List View)
        → IsClosedSound k now kept views
        → IsWellFormed (8 * length k.opened) (slice_index k.opened)
        → (limit : Option ℕ) → HasKindsBelow limit (slice_index k.opened)
        → (image : Image) → IsCrashImage (slice_index kept) image
        → header_fault limit (8 * image_words k.capacity) image ≡ None }
    ensures closed_header { (k : Setup) (now kept : List ℕ) (views : List View)
        → IsClosedSound k now kept views
        → IsWellFormed (8 * length k.opened) (slice_index k.opened)
        → (limit : Option ℕ) → HasKindsBelow limit (slice_index k.opened)
        → (image : Image) → IsClosedImage (slice_index now) image
        → header_fault limit (8 * image_words k.capacity) image ≡ None }
{}

/// No block is held twice: by the seats and the carriers of a shared heap between any two steps of
/// any seat, by those of each sound state in which a seat has its view, and by those of a closed
/// heap. The list of all views has the seats and the carriers. Between any two steps one of them
/// holds each held block, and each mixture of the volatile and the durable words names it.
pub fn no_block_is_held_twice()
    ensures shared { (o : Opening) (words : List ℕ) (joints : List SeatViews)
        → HasAllSeats o words joints
        → AreHeldOnce (setup_for o).capacity (all_views joints) }
    ensures holder { (o : Opening) (words : List ℕ) (joints : List SeatViews)
        → HasAllSeats o words joints
        → (b : Block) → IsHeldBy (all_views joints) b → IsHeldByOne (all_views joints) b }
    ensures firm { (o : Opening) (words : List ℕ) (joints : List SeatViews)
        → HasAllSeats o words joints
        → IsFirm (setup_for o).capacity words (all_views joints) }
    ensures state { (v : View) → (has : HasSoundState v)
        → AreHeldOnce v.setup.capacity has.views }
    ensures closed { (k : Setup) (now kept : List ℕ) (views : List View)
        → IsClosedSound k now kept views → AreHeldOnce k.capacity views }
{}
