//! A seat offers a held block to a carrier, or accepts the block of one.

ghost use Rattle.std.specs.Prelude.{◌≡◌, ◌+◌, ℕ, Some, Contains, IfErr, IfOk, OnErr, OnOk};

use crate::cache_seat::CacheSeat;
use crate::sending::{accept, offer};
use heap_model::Block;
use heap_rule::Carrier;
use line_memory::{Chance, Stopped};

impl<'a, C: Chance> CacheSeat<'a, C> {
    ghost use Rattle.core_model.specs.View.{role};
    ghost use Rattle.heap_seat.specs.Calls.{IsSmallCall};
    ghost use Rattle.heap_seat.specs.Handing.{Accepts, ComesWith, Offers};
    ghost use Rattle.heap_seat.specs.Tickets.{Stops};
    ghost use Rattle.heap_seat.specs.Words.{KeepsOwn};
    ghost use Rattle.seat_costs.specs.Asked.{HasAsked};
    ghost use Rattle.seat_model.specs.CacheState.{heap_view};
    ghost use Rattle.thread_cache.specs.Handing.{IsSent, OnlyDraws, contents_of};
    ghost use Rattle.thread_cache.specs.Keeps.{KeepsCounts};

    /// Gives a held block to a carrier, with what is known of its words. Where the seat stops it is
    /// still held.
    pub fn offer(&mut self, block: Block) -> Result<Carrier, Stopped>
        requires { Contains (heap_view self.old.state).held block }
        ensures ok { OnOk result (Offers block (heap_view self.old.state) (heap_view self.new.state)) }
        ensures sent { IfOk result (λ carrier. IsSent block carrier self.old.state) }
        ensures stopped { IfErr result (λ e. Stops e.step
            (heap_view self.old.state) (heap_view self.new.state)) }
        ensures unchanged { OnErr result (KeepsOwn (heap_view self.old.state) (heap_view self.new.state)) }
        ensures counted { IsSmallCall (heap_view self.old.state) (heap_view self.new.state) }
        ensures idle { (ticket : ℕ) → (heap_view self.old.state).stopped ≡ Some ticket
            → self.new ≡ self.old }
        ensures offered { OnOk result (role self.new.state.view
            ≡ record (role self.old.state.view) { offers = self.old.state.view.offers + 1 }) }
        ensures none_offered { OnErr result (role self.new.state.view ≡ role self.old.state.view) }
        ensures draws { OnlyDraws self.old.state.view self.new.state.view }
        ensures costs { KeepsCounts self.old.state self.new.state }
        ensures asked { HasAsked C.draw_gives self.old.state.view self.new.state.view
            self.old.chance self.new.chance }
        ensures table { self.new.state.table ≡ self.old.state.table }
    {
        self.check_running()?;
        self.seat.has_a_low_budget();
        self.seat.recall_soundness();
        let answer = offer(&mut self.seat, self.shared, block, &mut self.chance);
        self.seat.recall_soundness();
        self.small_calls += 1;
        answer
    }

    /// Takes the block of a carrier of this heap, with what the carrier knows of its words. Where the
    /// seat stops the carrier comes back.
    pub fn accept(&mut self, carrier: Carrier) -> Result<Block, (Stopped, Carrier)>
        requires { carrier.table ≡ self.old.state.table }
        ensures block { IfOk result (λ block. block ≡ carrier.block) }
        ensures ok { OnOk result (Accepts carrier.block
            (heap_view self.old.state) (heap_view self.new.state)) }
        ensures brought { OnOk result (ComesWith carrier.block (contents_of carrier)
            (heap_view self.new.state)) }
        ensures back { IfErr result (λ e. e.1 ≡ carrier) }
        ensures stopped { IfErr result (λ e. Stops e.0.step
            (heap_view self.old.state) (heap_view self.new.state)) }
        ensures unchanged { OnErr result (KeepsOwn (heap_view self.old.state) (heap_view self.new.state)) }
        ensures counted { IsSmallCall (heap_view self.old.state) (heap_view self.new.state) }
        ensures idle { (ticket : ℕ) → (heap_view self.old.state).stopped ≡ Some ticket
            → self.new ≡ self.old }
        ensures accepted { OnOk result (role self.new.state.view
            ≡ record (role self.old.state.view) { accepts = self.old.state.view.accepts + 1 }) }
        ensures none_accepted { OnErr result (role self.new.state.view ≡ role self.old.state.view) }
        ensures draws { OnlyDraws self.old.state.view self.new.state.view }
        ensures costs { KeepsCounts self.old.state self.new.state }
        ensures asked { HasAsked C.draw_gives self.old.state.view self.new.state.view
            self.old.chance self.new.chance }
        ensures table { self.new.state.table ≡ self.old.state.table }
    {
        match self.check_running() {
            Err(stopped) => Err((stopped, carrier)),
            Ok(()) => {
                self.seat.has_a_low_budget();
                self.seat.recall_soundness();
                let answer = accept(&mut self.seat, self.shared, carrier, &mut self.chance);
                self.seat.recall_soundness();
                self.small_calls += 1;
                answer
            }
        }
    }
}
