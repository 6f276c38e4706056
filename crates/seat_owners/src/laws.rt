//! What follows for the seats of a dictionary, as a function with nothing to run.

ghost use Rattle.std.specs.Prelude.{◌≡◌, ◌<◌, ◌≤◌, ◌↔◌, ℕ, List, slice_index, Contains};
ghost use Rattle.heap_model.specs.declared.block.Block.{Block};
ghost use Rattle.heap_model.specs.Geometry.{roots};
ghost use Rattle.heap_model.specs.Rest.{IsReady};
ghost use Rattle.core_model.specs.Opening.{HasDoneNothing, opened_view, setup_of};
ghost use Rattle.seat_model.specs.CacheState.{CacheState, heap_view};
ghost use Rattle.run_model.specs.Opened.{IsDictionary, IsOpenedOver};
ghost use Rattle.run_model.specs.Workers.{root_owner};
ghost use Rattle.seat_owners.specs.Owning.{AreOwnersByRoot};

/// Where a dictionary at rest is opened for so many workers, the seat of each has the roots that
/// belong to the worker, holds exactly what they reach, with its words as they stand in the image,
/// and has done nothing yet.
pub fn each_seat_is_opened_over_its_part()
    ensures opened { (words : List ℕ) (held : List Block) (workers budget : ℕ)
        (block_owners root_owners : List ℕ) → IsReady words held
        → IsDictionary (slice_index words) (Contains held) → 1 ≤ workers → workers ≤ 8
        → AreOwnersByRoot (slice_index words) held workers block_owners root_owners
        → (i : ℕ) (s : CacheState) → i < workers
        → s.view ≡ opened_view (setup_of words budget workers) held block_owners root_owners i
        → IsOpenedOver (slice_index words) (heap_view s) }
    ensures roots { (words : List ℕ) (held : List Block) (workers budget : ℕ)
        (block_owners root_owners : List ℕ) → IsReady words held
        → IsDictionary (slice_index words) (Contains held) → 1 ≤ workers → workers ≤ 8
        → AreOwnersByRoot (slice_index words) held workers block_owners root_owners
        → (i : ℕ) (s : CacheState) → i < workers
        → s.view ≡ opened_view (setup_of words budget workers) held block_owners root_owners i
        → (root : ℕ) → root < roots
        → Contains s.view.roots root ↔ (root_owner workers root ≡ i) }
    ensures nothing { (words : List ℕ) (held : List Block) (workers budget : ℕ)
        (block_owners root_owners : List ℕ) (i : ℕ) (s : CacheState)
        → s.view ≡ opened_view (setup_of words budget workers) held block_owners root_owners i
        → HasDoneNothing (setup_of words budget workers) s.view }
{}
