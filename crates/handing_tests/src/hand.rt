//! A seat that gives and takes blocks, and counts them.

ghost use Rattle.std.proofs.Props.{props};
ghost use Rattle.handing_tests.specs.Handing.{HasHanded};

use crate::marks::{check, publish, write};
use heap_rule::{Carrier, Seat, Shared};
use heap_seat::{AllocFault, HeapSeat};
use line_memory::{ConstantChance, Stopped};
use std::alloc::{AllocError, AllocFailed};
use super_block::Block;
use thread_cache::CacheSeat;

/// Why a seat goes no further.
#[derive(Clone, Copy, Debug)]
pub enum Halt {
    /// It has stopped at this ticket.
    Stopped(u64),
    /// It found something else than it must.
    Failed(&'static str),
}

impl From<Stopped> for Halt {
    fn from(stopped: Stopped) -> Halt {
        Halt::Stopped(stopped.step)
    }
}

impl From<AllocFault> for Halt {
    fn from(fault: AllocFault) -> Halt {
        match fault {
            AllocFault::Stopped(stopped) => Halt::Stopped(stopped.step),
            AllocFault::Full(_) => Halt::Failed("there was no room"),
        }
    }
}

impl From<AllocError> for Halt {
    fn from(_error: AllocError) -> Halt {
        Halt::Failed("memory ran out")
    }
}

impl<T: Drop> From<AllocFailed<T>> for Halt {
    fn from(_refused: AllocFailed<T>) -> Halt {
        Halt::Failed("memory ran out")
    }
}

/// A seat, with how many blocks it has offered and accepted.
#[derive(Drop)]
pub struct Hand<'a> {
    seat: CacheSeat<'a, ConstantChance>,
    offers: u64,
    accepts: u64,
    ghost counted: { HasHanded offers accepts seat.state.view } by { Prim.hlevel props },
}

/// The seat of a hand again, with its counts.
#[derive(Drop)]
pub struct Back {
    pub seat: Seat,
    pub offers: u64,
    pub accepts: u64,
    pub ghost counted: { HasHanded offers accepts seat.view } by { Prim.hlevel props },
}

impl<'a> Hand<'a> {
    ghost use Rattle.std.specs.Prelude.{◌≡◌, Contains, IfErr, IfOk, IfSome, OnErr, OnOk};
    ghost use Rattle.seat_model.specs.CacheState.{heap_view};
    ghost use Rattle.handing_tests.specs.Handing.{HasAllRoots, IsBackFrom, IsFreshSeatOf, IsHandOf, IsSameSeat};

    /// The hand of a seat that was opened just now. Chance gives it this number at each ticket.
    pub fn new(shared: &'a Shared, seat: Seat, drawn: u64) -> Hand<'a>
        requires { IsFreshSeatOf shared.now seat }
        ensures at { IsHandOf shared.now result.seat.state }
        ensures roots { result.seat.state.view.roots ≡ seat.view.roots }
    {
        Hand {
            seat: CacheSeat::new(shared, seat, ConstantChance(drawn)),
            offers: 0,
            accepts: 0,
        }
    }

    /// The ticket at which the seat stopped, if it has.
    pub fn stopped(&self) -> Option<u64> {
        self.seat.stopped()
    }

    /// Takes a block of so many bytes.
    pub fn take(&mut self, bytes: u64) -> Result<Block, Halt>
        ensures held { IfOk result (λ b. Contains (heap_view self.new.seat.state).held b) }
        ensures same { IsSameSeat self.old.seat.state self.new.seat.state }
    {
        Ok(self.seat.alloc(bytes)?)
    }

    /// Stores the mark of a turn in a block.
    pub fn write(&mut self, block: Block, turn: u64) -> Result<(), Halt>
        requires { Contains (heap_view self.old.seat.state).held block }
        ensures held { OnOk result (Contains (heap_view self.new.seat.state).held block) }
        ensures same { IsSameSeat self.old.seat.state self.new.seat.state }
    {
        write(&mut self.seat, block, turn)
    }

    /// Asserts that a block has the mark of a turn.
    pub fn check(&mut self, block: Block, turn: u64) -> Result<(), Halt>
        requires { Contains (heap_view self.old.seat.state).held block }
        ensures held { OnOk result (Contains (heap_view self.new.seat.state).held block) }
        ensures same { IsSameSeat self.old.seat.state self.new.seat.state }
    {
        check(&mut self.seat, block, turn)
    }

    /// Has the root of the block of this number lead to it.
    pub fn publish(&mut self, index: usize, block: Block) -> Result<(), Halt>
        requires roots { HasAllRoots self.old.seat.state.view.roots }
        requires held { Contains (heap_view self.old.seat.state).held block }
        ensures held { OnOk result (Contains (heap_view self.new.seat.state).held block) }
        ensures same { IsSameSeat self.old.seat.state self.new.seat.state }
    {
        publish(&mut self.seat, index, block)
    }

    /// Frees a block.
    pub fn free(&mut self, block: Block) -> Result<(), Halt>
        requires { Contains (heap_view self.old.seat.state).held block }
        ensures { IsSameSeat self.old.seat.state self.new.seat.state }
    {
        Ok(self.seat.free(block)?)
    }

    /// What a seat that stopped at this ticket answers: the same at each later call.
    fn stays_stopped(&mut self, ticket: u64) -> Halt
        ensures { IsSameSeat self.old.seat.state self.new.seat.state }
    {
        match self.seat.fence() {
            Err(again) if again.step == ticket => Halt::Stopped(ticket),
            _ => Halt::Failed("a seat that stopped goes on"),
        }
    }

    /// Offers a block, which counts where it is done. A seat that stops holds it still.
    fn try_offer(&mut self, block: Block) -> Result<Carrier, Halt>
        requires { Contains (heap_view self.old.seat.state).held block }
        ensures table { IfOk result (λ carrier. carrier.table ≡ self.old.seat.state.table) }
        ensures still { OnErr result (Contains (heap_view self.new.seat.state).held block) }
        ensures same { IsSameSeat self.old.seat.state self.new.seat.state }
    {
        if self.offers == u64::MAX {
            return Err(Halt::Failed("more offers than a count has"));
        }
        let carrier = self.seat.offer(block)?;
        self.offers += 1;
        Ok(carrier)
    }

    /// Offers a block. A seat that stops answers the same ticket to each later call.
    pub fn offer(&mut self, block: Block) -> Result<Carrier, Halt>
        requires { Contains (heap_view self.old.seat.state).held block }
        ensures table { IfOk result (λ carrier. carrier.table ≡ self.old.seat.state.table) }
        ensures same { IsSameSeat self.old.seat.state self.new.seat.state }
    {
        match self.try_offer(block) {
            Err(Halt::Stopped(ticket)) => match self.try_offer(block) {
                Err(Halt::Stopped(again)) if again == ticket => Err(self.stays_stopped(ticket)),
                _ => Err(Halt::Failed("a seat that stopped offers a block")),
            },
            answer => answer,
        }
    }

    /// Accepts the block of a carrier, which counts where it is done. Else the carrier comes back.
    fn try_accept(&mut self, carrier: Carrier) -> Result<Block, (Halt, Carrier)>
        requires { carrier.table ≡ self.old.seat.state.table }
        ensures held { IfOk result (λ b. Contains (heap_view self.new.seat.state).held b) }
        ensures back { IfErr result (λ e. e.1.table ≡ self.old.seat.state.table) }
        ensures same { IsSameSeat self.old.seat.state self.new.seat.state }
    {
        if self.accepts == u64::MAX {
            return Err((Halt::Failed("more accepts than a count has"), carrier));
        }
        match self.seat.accept(carrier) {
            Ok(block) => {
                self.accepts += 1;
                Ok(block)
            }
            Err((stopped, carrier)) => Err((Halt::Stopped(stopped.step), carrier)),
        }
    }

    /// What a seat that stopped tells once it was asked again.
    fn stays_as(&mut self, halt: Halt, again: Halt) -> Halt
        ensures { IsSameSeat self.old.seat.state self.new.seat.state }
    {
        match (halt, again) {
            (Halt::Stopped(ticket), Halt::Stopped(next)) if ticket == next => {
                self.stays_stopped(ticket)
            }
            _ => Halt::Failed("a seat stops at two tickets"),
        }
    }

    /// Accepts the block of a carrier, which comes back where the seat stops. Then it answers the
    /// same ticket to each later call.
    pub fn accept(&mut self, carrier: Carrier) -> Result<Block, (Halt, Option<Carrier>)>
        requires { carrier.table ≡ self.old.seat.state.table }
        ensures held { IfOk result (λ b. Contains (heap_view self.new.seat.state).held b) }
        ensures back { IfErr result (λ e. IfSome e.1 (λ carrier. carrier.table
            ≡ self.old.seat.state.table)) }
        ensures same { IsSameSeat self.old.seat.state self.new.seat.state }
    {
        match self.try_accept(carrier) {
            Ok(block) => Ok(block),
            Err((halt, carrier)) => match self.try_accept(carrier) {
                Ok(_) => Err((Halt::Failed("a seat that stopped accepts a block"), None)),
                Err((again, carrier)) => Err((self.stays_as(halt, again), Some(carrier))),
            },
        }
    }

    /// The seat again, with its counts.
    pub fn into_back(self) -> Back
        ensures { IsBackFrom self.entry.seat.state result.seat }
    {
        let Hand {
            seat,
            offers,
            accepts,
        } = self;
        Back {
            seat: seat.into_seat(),
            offers,
            accepts,
        }
    }
}
