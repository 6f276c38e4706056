//! A seat's caches are emptied, so that other threads can have the blocks.

use crate::cache_seat::CacheSeat;
use cache_flush::flush_all;
use line_memory::{Chance, Stopped};
use size_table::{LAST_CLASS, SizeClass};

impl<'a, C: Chance> CacheSeat<'a, C> {
    ghost use Rattle.std.specs.Prelude.{◌≡◌, ◌<◌, ◌≤◌, ℕ, None, Some, false, IsTrue, OnOk, IfErr};
    ghost use Rattle.heap_seat.specs.Tickets.{Stops};
    ghost use Rattle.heap_seat.specs.Words.{IsOwn, KeepsOwn, KeepsPending};
    ghost use Rattle.cache_flush.specs.All.{HasFlushedAll, all_costs, cached};
    ghost use Rattle.seat_costs.specs.Rows.{Passes};
    ghost use Rattle.seat_model.specs.CacheState.{heap_view};
    ghost use Rattle.thread_cache.specs.Keeps.{KeepsSeat};
    ghost use Rattle.thread_cache.specs.Quiet.{HasEmptyCaches, IsQuietCall};

    /// Whether a cache has a block.
    fn has_cached(&self) -> bool
        requires going { self.now.state.view.stopped ≡ None }
        ensures yes { IsTrue result → 1 ≤ cached self.now.state.view }
        ensures no { result ≡ false → HasEmptyCaches self.now.state }
    {
        for number in 1..=LAST_CLASS {
            let (_, count) = self.seat.cache(self.shared, SizeClass::new(number));
            if count > 0 {
                return true;
            }
        }
        false
    }

    /// Gives all cached blocks back to their superblocks: other threads can have them then. It takes
    /// no superblock, and draws nothing where no cache has a block.
    pub fn quiet(&mut self) -> Result<(), Stopped>
        ensures quiet { OnOk result (HasEmptyCaches self.new.state) }
        ensures runs { OnOk result (self.new.state.view.stopped ≡ None) }
        ensures stopped { IfErr result (λ e. Stops e.step
            (heap_view self.old.state) (heap_view self.new.state)) }
        ensures unchanged { KeepsOwn (heap_view self.old.state) (heap_view self.new.state) }
        ensures pending { (word : ℕ)
            → IsOwn (heap_view self.old.state).held self.old.state.view.roots word
            → KeepsPending (heap_view self.old.state) (heap_view self.new.state) word }
        ensures counted { IsQuietCall self.old.state self.new.state }
        ensures costs { Passes (all_costs self.old.state.view)
            self.old.state.view self.new.state.view }
        ensures gave { OnOk result (self.old.state.view.gives < self.new.state.view.gives
            → HasFlushedAll self.old.state.view self.new.state.view) }
        ensures light { OnOk result (self.new.state.view.gives ≡ self.old.state.view.gives
            → self.new ≡ self.old) }
        ensures idle { (ticket : ℕ) → self.old.state.view.stopped ≡ Some ticket
            → self.new ≡ self.old }
        ensures kept { KeepsSeat C.draw_gives self.old self.new }
    {
        self.check_running()?;
        if !self.has_cached() {
            return Ok(());
        }
        self.seat.has_a_low_budget();
        self.seat.recall_soundness();
        let answer = flush_all(&mut self.seat, self.shared, &mut self.chance);
        self.seat.recall_soundness();
        self.large_calls += 1;
        answer
    }
}
