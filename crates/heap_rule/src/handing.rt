//! A seat offers a held block to a carrier, and accepts the block of one.
//!
//! Linearization point: of an offer the split of the seat of the table; of an accept the load by the
//! seat of the table once it stands for both. Neither stores a word, and neither can be lost.

ghost use Rattle.std.specs.Prelude.{◌≡◌};
ghost use Rattle.core_model.specs.Carriers.{accepted, carrier_of, MayHand, offered};
ghost use Rattle.core_model.specs.Held.{IsHeld};
ghost use Rattle.heap_rule.specs.Carried.{Carries};
ghost use Rattle.seat_index.specs.Holdings.{Holds};
ghost use Rattle.heap_rule.specs.Seated.{IsSeatOf, KeepsStores};

use crate::carrier::Carrier;
use crate::seat::Seat;
use heap_table::{Shared, accept, offer};
use seat_index::Holding;
use super_block::Block;

impl Seat {
    /// Gives a held block to a carrier.
    pub fn offer(&mut self, shared: &Shared, block: Block) -> Carrier
        requires seat { IsSeatOf shared.now self.old }
        requires may { MayHand self.old.view }
        requires held { IsHeld self.old.view block }
        ensures view { self.new.view ≡ offered self.old.view block.first_word }
        ensures seat { IsSeatOf shared.now self.new }
        ensures stores { KeepsStores self.old self.new }
        ensures carrier_table { result.table ≡ shared.now.table }
        ensures carrier { result.view ≡ carrier_of self.old.view block.first_word }
        ensures block { result.block ≡ block }
        ensures carries { Carries self.old.view.setup.capacity result.view block }
    {
        shared.has_its_length();
        let holding = self.holding_of(block);
        let table_seat = offer(shared, &mut self.table_seat, block);
        self.notes.ticket = None;
        self.owned.lose(block, holding);
        Carrier {
            table_seat,
            block,
            holding,
        }
    }

    /// Takes the block of a carrier.
    pub fn accept(&mut self, shared: &Shared, carrier: Carrier) -> Block
        requires seat { IsSeatOf shared.now self.old }
        requires may { MayHand self.old.view }
        requires carrier_table { carrier.table ≡ shared.now.table }
        ensures view { self.new.view ≡ accepted self.old.view carrier.view }
        ensures seat { IsSeatOf shared.now self.new }
        ensures stores { KeepsStores self.old self.new }
        ensures block { result ≡ carrier.block }
        ensures setup { carrier.view.setup ≡ self.old.view.setup }
        ensures held { IsHeld self.new.view result }
        ensures carries { Carries self.old.view.setup.capacity carrier.view carrier.block }
    {
        shared.has_its_length();
        let Carrier {
            table_seat,
            block,
            holding,
        } = carrier;
        accept(shared, &mut self.table_seat, table_seat);
        self.notes.ticket = None;
        self.owned.gain(self.geometry, block, holding);
        block
    }

    /// How a held block is held.
    fn holding_of(&self, block: Block) -> Holding
        requires held { IsHeld self.now.view block }
        ensures { Holds self.now.view block result }
    {
        let d = self.geometry.superblock_of(block.first_word);
        let n = self.owned.ownerships[d as usize].count();
        if n > 0 {
            return Holding::Large { d, n };
        }
        let class = self.owned.classes[d as usize];
        Holding::Small { class }
    }
}
