//! What follows for a closed heap, as a function with nothing to run: a caller cites its clauses.

ghost use Rattle.std.specs.Prelude.{◌↔◌, ◌*◌, ℕ, List, Option, length, slice_index};
ghost use Rattle.heap_model.specs.declared.block.Block.{Block};
ghost use Rattle.heap_model.specs.Durability.{IsClosedImage};
ghost use Rattle.heap_model.specs.Geometry.{image_words};
ghost use Rattle.heap_model.specs.Header.{IsWellFormed, HasKindsBelow};
ghost use Rattle.heap_model.specs.Image.{Image};
ghost use Rattle.core_model.specs.Held.{IsHeldBy};
ghost use Rattle.core_model.specs.Sound.{Each};
ghost use Rattle.core_model.specs.View.{Setup, View};
ghost use Rattle.heap_table.specs.AtTable.{IsClosedSound};
ghost use Rattle.heap_at_rest.specs.Orderly.{IsOrderly, IsHeldByAnchors};
ghost use Rattle.seat_model.specs.Emptied.{KeepsNothing};

/// Where a heap is closed and no seat keeps anything back, the image tells what is held: its
/// anchors and its free list can be relied on, if the opened image has a good header, and what they
/// hold is what the seats hold.
pub fn a_closed_heap_tells_what_it_holds()
    ensures orderly { (k : Setup) (now kept : List ℕ) (views : List View)
        → IsClosedSound k now kept views → Each views KeepsNothing
        → IsWellFormed (8 * length k.opened) (slice_index k.opened)
        → (limit : Option ℕ) → HasKindsBelow limit (slice_index k.opened)
        → (image : Image) → IsClosedImage (slice_index now) image
        → IsOrderly limit (8 * image_words k.capacity) image }
    ensures held { (k : Setup) (now kept : List ℕ) (views : List View)
        → IsClosedSound k now kept views → Each views KeepsNothing
        → (image : Image) → IsClosedImage (slice_index now) image
        → (b : Block) → IsHeldByAnchors image b ↔ IsHeldBy views b }
{}
