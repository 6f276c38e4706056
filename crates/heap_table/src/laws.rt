//! What follows of a table's rule, as functions with nothing to run: a caller cites their clauses.

ghost use Rattle.std.specs.Prelude.{◌≡◌, ◌<◌, ◌≤◌, ℕ, List, slice_index};
ghost use Rattle.heap_model.specs.Geometry.{start_word, superblocks_end, used_word};
ghost use Rattle.heap_model.specs.Rest.{IsReady};
ghost use Rattle.core_model.specs.Opening.{AreOwners};
ghost use Rattle.core_model.specs.Sound.{Sound};
ghost use Rattle.core_model.specs.Steps.{TableState};
ghost use Rattle.core_model.specs.View.{Setup, View};
ghost use Rattle.heap_table.specs.AtTable.{IsClosedReached, IsClosedSound};
ghost use Rattle.heap_table.specs.Reached.{IsReached};
ghost use Rattle.heap_table.specs.Rule.{Opening, setup_for};

/// What a sound state comes to is sound, and so is what a heap that was opened at rest leaves.
pub fn what_a_heap_comes_to_is_sound()
    ensures kept { (k : Setup) (start : TableState) (words : List ℕ) (views : List View)
        → Sound k start.words start.views → IsReached k start words views → Sound k words views }
    ensures closed { (o : Opening) (now kept : List ℕ) (views : List View)
        → IsReady o.words o.held → AreOwners o.held o.seats o.block_owners o.root_owners
        → IsClosedReached o now kept views → IsClosedSound (setup_for o) now kept views }
{}

/// A heap that is opened with a budget of 0 is left as it was opened: no seat ever has a ticket in
/// hand, so no step changes what loads see of a word, or what a crash leaves of it.
pub fn a_heap_without_a_budget_stays_as_it_was_opened()
    ensures { (o : Opening) (now kept : List ℕ) (views : List View)
        → IsReady o.words o.held → AreOwners o.held o.seats o.block_owners o.root_owners
        → o.budget ≡ 0 → IsClosedReached o now kept views
        → (now ≡ o.words) × (kept ≡ o.words) }
{}

/// A superblock that was never taken is left as it was opened: what loads see of each of its words,
/// and what a crash leaves of it.
pub fn a_superblock_that_was_never_taken_stays_as_it_was_opened()
    ensures { (o : Opening) (now kept : List ℕ) (views : List View)
        → IsReady o.words o.held → AreOwners o.held o.seats o.block_owners o.root_owners
        → IsClosedReached o now kept views
        → (word : ℕ) → start_word (setup_for o).capacity (slice_index now used_word) ≤ word
        → word < superblocks_end (setup_for o).capacity
        → (slice_index now word ≡ slice_index o.words word)
        × (slice_index kept word ≡ slice_index o.words word) }
{}
