//! The calls of a seat that allocates by caches.

ghost use Rattle.std.specs.Prelude.{◌≡◌, ◌-◌, ℕ, Contains, IfErr, IfOk, IfSome, IsNone, OnErr, OnOk, Err, Some};
ghost use Rattle.heap_seat.specs.declared.fault.AllocFault.TheVariants.{Full};
ghost use Rattle.heap_seat.specs.declared.fault.Looks.{Looks};

use crate::cache_seat::CacheSeat;
use crate::requests::{alloc, free};
use crate::words::{fence, load, store, write_back};
use heap_model::Block;
use heap_seat::{AllocFault, HeapSeat, Looks, Spot};
use line_memory::{Chance, Stopped};

/// The looks of a refusal for want of room.
fn refusal_of(answer: &Result<Block, AllocFault>) -> Option<Looks>
    ensures some { IfSome result (λ looks. answer.now ≡ Err (Full looks)) }
    ensures none { IsNone result → (looks : Looks) → answer.now ≡ Err (Full looks) → ⊥ }
{
    match answer {
        Err(AllocFault::Full(looks)) => Some(*looks),
        _ => None,
    }
}

impl<'a, C: Chance> HeapSeat for CacheSeat<'a, C> {
    ghost use Rattle.heap_model.specs.Sizes.{span_of};
    ghost use Rattle.heap_seat.specs.Alloc.{Allocates, FailsBy};
    ghost use Rattle.heap_seat.specs.Calls.{IsLargeCall};
    ghost use Rattle.heap_seat.specs.Free.{Frees, MayHaveFreed};
    ghost use Rattle.heap_seat.specs.Tickets.{Stops};
    ghost use Rattle.heap_seat.specs.Words.{KeepsOwn};
    ghost use Rattle.heap_rule.specs.Left.{MayBeLeft};
    ghost use Rattle.thread_cache.specs.Requests.{most_free_costs, request_costs};
    ghost use Rattle.seat_costs.specs.Rows.{Passes};
    ghost use Rattle.seat_model.specs.CacheState.{heap_view};
    ghost use Rattle.seat_model.proofs.HeldLemmas.{may_be_law, mixed_law, named_law, seat_law, stored_law};
    ghost use Rattle.thread_cache.specs.Keeps.{KeepsSeat};
    ghost use Rattle.thread_cache.specs.Serving.{IsPutBack, IsServed, IsTurnedAway};
    ghost use Rattle.thread_cache.specs.Laws.{seat_none_law, seat_row_law};

    ghost view = { λ s. heap_view s.state };

    ghost images = { λ s image. MayBeLeft s.state.view image };

    ghost has_room = { λ s t bytes. IsServed bytes s.state.view t.state.view };

    ghost has_none = { λ s t bytes looks. IsTurnedAway bytes looks s.state.view t.state.view };

    ghost gives_back = { λ s t b. IsPutBack b s.state.view t.state.view };

    ghost keeps = { KeepsSeat C.draw_gives };

    /// Holds a block of at least so many bytes, as the trait says. Beside that: what it may cost, also
    /// where it stops.
    fn alloc(&mut self, bytes: u64) -> Result<Block, AllocFault>
        ensures ok { IfOk result (λ b. Allocates bytes b
            (heap_view self.old.state) (heap_view self.new.state)) }
        ensures cause { IfErr result (λ fault. FailsBy bytes fault
            (heap_view self.old.state) (heap_view self.new.state)) }
        ensures room { OnOk result (IsServed bytes self.old.state.view self.new.state.view) }
        ensures none { IfErr result (λ fault. (looks : Looks) → fault ≡ Full looks
            → IsTurnedAway bytes looks self.old.state.view self.new.state.view) }
        ensures unchanged { OnErr result (KeepsOwn
            (heap_view self.old.state) (heap_view self.new.state)) }
        ensures counted { IsLargeCall (span_of bytes)
            (heap_view self.old.state) (heap_view self.new.state) }
        ensures idle { (ticket : ℕ) → (heap_view self.old.state).stopped ≡ Some ticket
            → self.new ≡ self.old }
        ensures kept { KeepsSeat C.draw_gives self.old self.new }
        ensures costs { Passes
            (request_costs bytes (self.new.state.view.moves - self.old.state.view.moves))
            self.old.state.view self.new.state.view }
    {
        self.check_running()?;
        self.seat.has_a_low_budget();
        self.seat.recall_soundness();
        let answer = alloc(&mut self.seat, self.shared, bytes, &mut self.chance);
        self.seat.recall_soundness();
        self.large_calls += 1;
        match refusal_of(&answer) {
            Some(looks) => {
                self.refusals += 1;
                self.refused_bytes = bytes;
                self.refused_looks = looks;
            }
            None => {}
        }
        answer
    }

    /// Frees a held block, as the trait says. Beside that: what it may cost, also where it stops. It
    /// cuts nothing.
    fn free(&mut self, b: Block) -> Result<(), Stopped>
        requires { Contains (heap_view self.old.state).held b }
        ensures ok { OnOk result (Frees b (heap_view self.old.state) (heap_view self.new.state)) }
        ensures given { OnOk result (IsPutBack b self.old.state.view self.new.state.view) }
        ensures stopped { IfErr result (λ e. Stops e.step
            (heap_view self.old.state) (heap_view self.new.state)) }
        ensures others { MayHaveFreed b (heap_view self.old.state) (heap_view self.new.state) }
        ensures counted { IsLargeCall 0 (heap_view self.old.state) (heap_view self.new.state) }
        ensures idle { (ticket : ℕ) → (heap_view self.old.state).stopped ≡ Some ticket
            → self.new ≡ self.old }
        ensures kept { KeepsSeat C.draw_gives self.old self.new }
        ensures costs { Passes most_free_costs self.old.state.view self.new.state.view }
    {
        self.check_running()?;
        self.seat.has_a_low_budget();
        self.seat.recall_soundness();
        let answer = free(&mut self.seat, self.shared, b, &mut self.chance);
        self.seat.recall_soundness();
        self.large_calls += 1;
        answer
    }

    fn load(&mut self, s: Spot) -> Result<u64, Stopped> {
        self.check_running()?;
        self.seat.has_a_low_budget();
        self.seat.recall_soundness();
        let word = s.word();
        let answer = load(&mut self.seat, self.shared, word, &mut self.chance);
        self.seat.recall_soundness();
        self.small_calls += 1;
        answer
    }

    fn store(&mut self, s: Spot, value: u64) -> Result<(), Stopped> {
        self.check_running()?;
        self.seat.has_a_low_budget();
        self.seat.recall_soundness();
        let word = s.word();
        let answer = store(&mut self.seat, self.shared, word, value, &mut self.chance);
        self.seat.recall_soundness();
        self.small_calls += 1;
        answer
    }

    fn write_back(&mut self, s: Spot) -> Result<(), Stopped> {
        self.check_running()?;
        self.seat.has_a_low_budget();
        self.seat.recall_soundness();
        let word = s.word();
        let answer = write_back(&mut self.seat, self.shared, word, &mut self.chance);
        self.seat.recall_soundness();
        self.small_calls += 1;
        answer
    }

    fn fence(&mut self) -> Result<(), Stopped> {
        self.check_running()?;
        self.seat.has_a_low_budget();
        self.seat.recall_soundness();
        let answer = fence(&mut self.seat, self.shared, &mut self.chance);
        self.seat.recall_soundness();
        self.small_calls += 1;
        answer
    }

    fn block(&self, offset: u64) -> Block {
        self.seat.recall_soundness();
        self.seat.block(self.shared, offset)
    }

    ghost seat = { λ s. seat_law s.state };

    ghost mixed = { λ s. mixed_law s.state };

    ghost stored_kinds = { λ s. stored_law s.state };

    ghost named = { λ s. named_law s.state };

    ghost keeps_none = { seat_none_law C.draw_gives };

    ghost keeps_row = { seat_row_law C.draw_gives };

    ghost may_be = { λ s. may_be_law s.state };
}
