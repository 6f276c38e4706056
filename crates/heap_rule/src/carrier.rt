//! A block between two seats of a shared heap.

ghost use Rattle.std.specs.Prelude.{◌≡◌};
ghost use Rattle.core_model.specs.Carriers.{IsCarrier};
ghost use Rattle.core_model.specs.Held.{IsHeld};
ghost use Rattle.heap_model.specs.declared.block.Block.{Block};
ghost use Rattle.seat_index.specs.Holdings.{HoldsAlone};
ghost use Rattle.seat_index.specs.declared.owned.Holding.{Holding};

use heap_table::TableSeat;
use seat_index::Holding;
use std::marker::Model;
use super_block::Block;

/// A block that a seat offered and that none has accepted: no seat holds it.
///
/// One that is dropped is lost: no seat can free its block, and the heap can't be closed in good
/// order. All else stays sound, and the block is held until a recovery.
#[derive(Drop)]
pub struct Carrier {
    pub(crate) table_seat: TableSeat,
    pub(crate) block: Block,
    pub(crate) holding: Holding,
}

impl Model for Carrier {
    ghost use Rattle.heap_table.specs.SeatViews.{view_in};
    ghost use Rattle.heap_rule.specs.Carried.{CarrierView, IsWholeCarrier};

    ghost Value = { CarrierView };

    ghost view = { λ a. record {
      table = a.table_seat.table_id;
      view = view_in a.table_seat.me.0;
      block = a.block;
    } };

    ghost invariant = { λ a. IsWholeCarrier a.table_seat.table_id
        a.table_seat.me a.block a.holding };
}

impl Carrier {
    /// It holds its block, once, and no other.
    pub fn holds_its_block(&self)
        ensures carrier { IsCarrier self.now.view }
        ensures alone { (h : Holding) × HoldsAlone self.now.view self.now.block h }
        ensures held { IsHeld self.now.view self.now.block }
        ensures only { (b : Block) → IsHeld self.now.view b → b ≡ self.now.block }
    {
        let _block = self.block;
    }
}
