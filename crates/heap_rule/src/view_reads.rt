//! What a seat tells of itself: no events, which draw and change nothing.

ghost use Rattle.std.specs.Prelude.{◌≡◌, ◌<◌, ◌^◌, length, None};
ghost use Rattle.core_model.specs.Effects.{first_of};
ghost use Rattle.core_model.specs.View.{of_class};
ghost use Rattle.heap_table.specs.Plays.{HasReached, HasSoundState};
ghost use Rattle.heap_rule.specs.Seated.{IsSeatOf};

use crate::seat::Seat;
use heap_table::{Shared, recall};
use size_table::SizeClass;

impl Seat {
    /// There is a sound state in which the seat has its view.
    pub fn recall_soundness(&self)
        ensures { HasSoundState self.now.view }
    {
        let _opened = self.geometry;
    }

    /// Tells that the opened heap came to a state in which the seat has its view. It reads one word,
    /// draws no ticket, and changes nothing.
    pub fn recall(&mut self, shared: &Shared)
        requires seat { IsSeatOf shared.now self.old }
        ensures same { self.new ≡ self.old }
        ensures reached { HasReached shared.now.opening self.old.view }
    {
        recall(shared, &mut self.table_seat);
    }

    /// The budget is below 2^40, so counts of tickets fit a `u64`.
    pub fn has_a_low_budget(&self)
        ensures { self.now.view.setup.budget < 2 ^ 40 }
    {
        let _opened = self.geometry;
    }

    /// The ticket at which the seat stopped, if it has.
    pub fn stopped(&self) -> Option<u64>
        ensures { result ≡ self.now.view.stopped }
    {
        self.notes.stopped
    }

    /// How many superblocks the heap has.
    pub fn capacity(&self, shared: &Shared) -> u64
        requires seat { IsSeatOf shared.now self.now }
        ensures { result ≡ self.now.view.setup.capacity }
    {
        self.geometry.capacity()
    }

    /// The first word of the first block of a class's cache, and how many blocks there are; both 0
    /// where there is none.
    pub fn cache(&self, shared: &Shared, class: SizeClass) -> (u64, u64)
        requires seat { IsSeatOf shared.now self.now }
        requires going { self.now.view.stopped ≡ None }
        ensures first { result.0 ≡ first_of (of_class self.now.view.caches class.number) }
        ensures count { result.1 ≡ length (of_class self.now.view.caches class.number) }
    {
        let cache = self.notes.caches[class.number as usize];
        if cache.count == 0 {
            return (0, 0);
        }
        (cache.first, cache.count)
    }
}
