//! A seat of the table offers a block to a carrier, and takes in what a carrier has.

ghost use Rattle.std.specs.Prelude.{◌≡◌, ◌<◌, [], ◌∷◌};
ghost use Rattle.heap_model.specs.declared.block.Block.{Block};
ghost use Rattle.core_model.specs.Carriers.{accepted, carrier_of, IsCarrier, MayHand, offered};
ghost use Rattle.core_model.specs.Held.{IsHeld};
ghost use Rattle.core_model.specs.View.{View};
ghost use Rattle.heap_table.specs.SeatViews.{IsSingle, view_in};
ghost use Rattle.heap_table.specs.AtTable.{IsAt};
ghost use Rattle.heap_table.specs.Plays.{DidAccept};
ghost use Rattle.heap_table.specs.Rule.{setup_for};

use crate::closing::join;
use crate::rule::{Known, TableSeat, Words};
use crate::shared::Shared;
use atomic_table::{Play, Split};
use std::marker::{Brand, PhantomData};
use super_block::Block;

/// A block, for the proof alone.
pub trait ProofBlock {
    ghost use Rattle.heap_model.specs.declared.block.Block.{Block};

    ghost block: { Block };
}

impl ProofBlock for Brand {
    ghost use Rattle.heap_table.specs.SeatViews.{no_block};

    ghost block = { no_block };
}

/// A seat gives a block to a carrier, which is a new seat of the table.
pub struct Offering<J: ProofBlock> {
    marker: PhantomData<J>,
}

impl<J: ProofBlock> Split<Known> for Offering<J> {
    ghost use Rattle.heap_table.specs.SeatViews.{left_by_offer, made_by_offer};

    ghost left = { left_by_offer J.block };

    ghost right = { made_by_offer J.block };
}

/// A seat that stands for a carrier and a seat stands for the seat that accepted.
pub struct Accepts;

impl Play<u8, Known> for Accepts {
    ghost use Rattle.heap_table.specs.Plays.{DidAccept};

    ghost then = { λ _ me _ after. DidAccept me after };
}

/// The split that makes a carrier.
pub(crate) fn split_as<J: ProofBlock>(
    shared: &Words,
    seat: &mut TableSeat,
    _block: Block,
) -> TableSeat
    requires table { seat.old.table_id ≡ shared.now.table_id }
    requires some { 0 < shared.now.table_id.words }
    requires told { J.block ≡ _block }
    requires single { (v : View) × IsSingle seat.old.me.0 v × MayHand v × IsHeld v _block }
    ensures table { seat.new.table_id ≡ seat.old.table_id }
    ensures left { seat.new.me ≡ (offered (view_in seat.old.me.0) _block.first_word ∷ [], seat.old.me.1) }
    ensures carrier_table { result.table_id ≡ seat.old.table_id }
    ensures carrier { result.me ≡ (carrier_of (view_in seat.old.me.0) _block.first_word ∷ [], []) }
{
    shared.split_seat::<Offering<J>>(seat)
}

/// Offers a held block: a seat of the table that stands for its carrier.
pub fn offer(shared: &Shared, seat: &mut TableSeat, block: Block) -> TableSeat
    requires at { IsAt shared.now seat.old.table_id seat.old.me (view_in seat.old.me.0) }
    requires may { MayHand (view_in seat.old.me.0) }
    requires held { IsHeld (view_in seat.old.me.0) block }
    ensures at { IsAt shared.now seat.new.table_id seat.new.me (view_in seat.new.me.0) }
    ensures view { view_in seat.new.me.0 ≡ offered (view_in seat.old.me.0) block.first_word }
    ensures carrier_table { result.table_id ≡ shared.now.table }
    ensures carrier { result.me ≡ (carrier_of (view_in seat.old.me.0) block.first_word ∷ [], []) }
{
    split_as::<Brand>(&shared.table.shared, seat, block)
}

/// The load by which a seat accepts what the carrier before it has.
pub(crate) fn accept_as(shared: &Words, seat: &mut TableSeat)
    requires table { seat.old.table_id ≡ shared.now.table_id }
    requires some { 0 < shared.now.table_id.words }
    requires both { (v : View) × (u : View) × (seat.old.me.0 ≡ u ∷ v ∷ [])
        × (v.setup ≡ setup_for shared.now.key) × MayHand v × IsCarrier u }
    ensures did { DidAccept seat.old.me seat.new.me }
    ensures table { seat.new.table_id ≡ seat.old.table_id }
{
    shared.load::<Accepts>(seat, 0);
}

/// Accepts the block of a carrier.
pub fn accept(shared: &Shared, seat: &mut TableSeat, carrier: TableSeat)
    requires at { IsAt shared.now seat.old.table_id seat.old.me (view_in seat.old.me.0) }
    requires may { MayHand (view_in seat.old.me.0) }
    requires carrier_table { carrier.table_id ≡ shared.now.table }
    requires carrier { IsCarrier (view_in carrier.me.0) }
    requires carrier_me { carrier.me ≡ (view_in carrier.me.0 ∷ [], []) }
    ensures at { IsAt shared.now seat.new.table_id seat.new.me (view_in seat.new.me.0) }
    ensures view { view_in seat.new.me.0 ≡ accepted (view_in seat.old.me.0) (view_in carrier.me.0) }
    ensures setup { (view_in carrier.me.0).setup ≡ (view_in seat.old.me.0).setup }
{
    join(shared, seat, carrier);
    accept_as(&shared.table.shared, seat);
}
