//! A thread's part of an open heap that is shared with other threads.

ghost use Rattle.std.specs.Prelude.{◌≡◌};
ghost use Rattle.std.proofs.Props.{props};
ghost use Rattle.heap_table.specs.Plays.{HasSoundState};
ghost use Rattle.heap_rule.specs.Seated.{IsSeatOf};
ghost use Rattle.seat_model.specs.CacheState.{HasCounts, IsBetweenCalls};

use heap_rule::{Seat, Shared};
use heap_seat::Looks;
use line_memory::{Chance, Stopped};
use std::marker::Model;

/// A thread's part of an open heap: it allocates by caches of its own, and by lists and anchors that
/// it shares with the other threads without a lock. Between its calls no superblock is claimed and
/// each cache has fewer blocks than a superblock of its class, unless the seat has stopped.
#[derive(Drop)]
pub struct CacheSeat<'a, C> {
    pub(crate) shared: &'a Shared,
    pub(crate) seat: Seat,
    pub(crate) chance: C,
    pub(crate) small_calls: u64,
    pub(crate) large_calls: u64,
    pub(crate) refusals: u64,
    pub(crate) refused_bytes: u64,
    pub(crate) refused_looks: Looks,
    ghost of: { IsSeatOf shared.now seat } by { Prim.hlevel props },
    ghost sound: { ∥ HasSoundState seat.view ∥₁ },
    ghost between: { IsBetweenCalls seat.view } by { Prim.hlevel props },
    ghost counted: { HasCounts small_calls large_calls refusals seat.view } by { Prim.hlevel props },
}

impl<'a, C> Model for CacheSeat<'a, C> {
    ghost use Rattle.seat_model.specs.CacheState.{CacheValue};

    ghost Value = { CacheValue C };

    ghost view = { λ s. record {
      state = record {
        table = s.seat.table;
        view = s.seat.view;
        marks = s.seat.marks;
        stores = s.seat.stores;
        small_calls = s.small_calls;
        large_calls = s.large_calls;
        refusals = s.refusals;
        refused_bytes = s.refused_bytes;
        refused_looks = s.refused_looks;
        sound = s.sound;
        between = s.between;
        counted = s.counted;
      };
      chance = s.chance;
    } };
}

impl<'a, C: Chance> CacheSeat<'a, C> {
    ghost use Rattle.std.specs.Prelude.{◌≡◌, None, OnOk, IfErr};
    ghost use Rattle.heap_rule.specs.Seated.{IsSeatOf};
    ghost use Rattle.seat_costs.specs.Idle.{HasShortCaches, IsIdle};
    ghost use Rattle.heap_seat.specs.Tickets.{Stops};
    ghost use Rattle.seat_model.specs.CacheState.{heap_view};
    ghost use Rattle.thread_cache.specs.Keeps.{IsNew};

    /// Makes a seat of a heap one that allocates. The seat is idle, as those of an opened heap are.
    pub fn new(shared: &'a Shared, seat: Seat, chance: C) -> CacheSeat<'a, C>
        requires is_of { IsSeatOf shared.now seat }
        requires going { seat.view.stopped ≡ None }
        requires idle { IsIdle seat.view }
        requires short { HasShortCaches seat.view }
        ensures state { IsNew seat result.state }
        ensures chance { result.chance ≡ chance }
    {
        seat.recall_soundness();
        CacheSeat {
            shared,
            seat,
            chance,
            small_calls: 0,
            large_calls: 0,
            refusals: 0,
            refused_bytes: 0,
            refused_looks: Looks {
                class_head: 0,
                free_head: 0,
                used: 0,
            },
        }
    }

    /// The ticket at which the seat stopped, if it has.
    pub fn stopped(&self) -> Option<u64>
        ensures { result ≡ self.now.state.view.stopped }
    {
        self.seat.stopped()
    }

    /// The seat again, as it is: what closes the heap asks for all its seats.
    pub fn into_seat(self) -> Seat
        ensures table { result.table ≡ self.entry.state.table }
        ensures view { result.view ≡ self.entry.state.view }
        ensures marks { result.marks ≡ self.entry.state.marks }
        ensures stores { result.stores ≡ self.entry.state.stores }
    {
        self.seat
    }

    /// Refuses the call if the seat has stopped.
    pub(crate) fn check_running(&self) -> Result<(), Stopped>
        ensures ok { OnOk result (self.now.state.view.stopped ≡ None) }
        ensures stopped { IfErr result (λ e. Stops e.step
            (heap_view self.now.state) (heap_view self.now.state)) }
    {
        match self.seat.stopped() {
            Some(step) => Err(Stopped { step }),
            None => Ok(()),
        }
    }
}
