//! The last stores of a seat.

ghost use Rattle.std.specs.Prelude.{◌≡◌, ◌<◌, ℕ, None, Some, IfSome, IsNone, slice_get};
ghost use Rattle.core_model.specs.Cells.{cell_at};
ghost use Rattle.core_model.specs.Guards.{IsOwn};
ghost use Rattle.heap_rule.specs.Seated.{IsSeatOf};

use crate::seat::Seat;
use heap_table::Shared;

impl Seat {
    /// The word of one of the last sixteen stores, 0 for the latest; none where there was no such
    /// store, or where the word is not the seat's own now.
    pub fn last_store(&self, shared: &Shared, k: u64) -> Option<u64>
        requires seat { IsSeatOf shared.now self.now }
        requires going { self.now.view.stopped ≡ None }
        requires few { k < 16 }
        ensures own { IfSome result (λ word. (slice_get self.now.stores k ≡ Some word)
            × IsOwn self.now.view (cell_at self.now.view.setup.capacity word)) }
        ensures none { IsNone result → (word : ℕ) → slice_get self.now.stores k ≡ Some word
            → ¬ IsOwn self.now.view (cell_at self.now.view.setup.capacity word) }
    {
        let _seats = shared;
        let word = self.recent.get(k as usize)?;
        if self.owns(word) {
            return Some(word);
        }
        None
    }
}
