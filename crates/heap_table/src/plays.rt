//! The atomic steps on a word of the shared table, each as the event that it is told to be.

ghost use Rattle.std.specs.Prelude.{◌≡◌, ◌<◌, ◌+◌, ◌%◌, ◌^◌, ◌==◌, ◌⊎◌, max};
ghost use prog.Atomic.{either};
ghost use Rattle.core_model.specs.Cells.{cell_at};
ghost use Rattle.core_model.specs.Guards.{IsOwn};
ghost use Rattle.core_model.specs.View.{View};
ghost use Rattle.heap_table.specs.SeatViews.{IsSingle};
ghost use Rattle.heap_table.specs.Plays.{Did, DidFind, DidStore, DidRead, DidRecall, DidLearn, IsStepAt, May};
ghost use Rattle.heap_table.specs.Rule.{setup_for};

use crate::rule::{Known, TableSeat, Words};
use atomic_table::Play;
use core_model::Event;
use std::marker::{Brand, PhantomData};

/// An event, for the proof alone.
pub trait ProofEvent {
    ghost use Rattle.core_model.specs.declared.event.Event.{Event};

    ghost event: { Event };
}

impl ProofEvent for Brand {
    ghost use Rattle.core_model.specs.declared.event.Event.TheVariants.{LookUsed};

    ghost event = { LookUsed };
}

/// What a step that tells the word that it found tells its caller: that it was this event.
pub struct StepIs<J: ProofEvent> {
    marker: PhantomData<J>,
}

impl<J: ProofEvent> Play<u8, Known> for StepIs<J> {
    ghost use Rattle.heap_table.specs.Plays.{Did};

    ghost then = { λ _ me found after. Did J.event me found after };
}

/// What a store tells its caller: that it was this event.
pub struct StoreIs<J: ProofEvent> {
    marker: PhantomData<J>,
}

impl<J: ProofEvent> Play<u8, Known> for StoreIs<J> {
    ghost use Rattle.heap_table.specs.Plays.{DidStore};

    ghost then = { λ _ me _ after. DidStore J.event me after };
}

/// What a read that is no event tells its caller.
pub struct Reads;

impl Play<u8, Known> for Reads {
    ghost use Rattle.heap_table.specs.Plays.{DidRead};

    ghost then = { λ step me found after. DidRead step.word me found after };
}

/// Reads a word, and changes nothing.
pub(crate) fn read_as(shared: &Words, seat: &mut TableSeat, place: usize) -> u64
    requires table { seat.old.table_id ≡ shared.now.table_id }
    requires inside { place < shared.now.table_id.words }
    requires single { (v : View) × IsSingle seat.old.me.0 v
        × (v.setup ≡ setup_for shared.now.key) × (v.carries ≡ 0) }
    ensures did { DidRead place seat.old.me result seat.new.me }
    ensures table { seat.new.table_id ≡ seat.old.table_id }
{
    shared.load::<Reads>(seat, place)
}

/// An opening, for the proof alone.
pub trait ProofOpening {
    ghost use Rattle.heap_table.specs.Rule.{Opening};

    ghost opening: { Opening };
}

impl ProofOpening for Brand {
    ghost use Rattle.std.specs.Prelude.{[]};

    ghost opening = { record {
      words = [];
      held = [];
      block_owners = [];
      root_owners = [];
      seats = 0;
      budget = 0;
    } };
}

/// What a read tells its caller of the heap: that it came to a state in which the seat has its
/// view.
pub struct Recalls<J: ProofOpening> {
    marker: PhantomData<J>,
}

impl<J: ProofOpening> Play<u8, Known> for Recalls<J> {
    ghost use Rattle.heap_table.specs.Plays.{DidRecall};

    ghost then = { λ _ me _ after. DidRecall J.opening me after };
}

/// Reads a word, and changes nothing.
pub(crate) fn recall_as<J: ProofOpening>(shared: &Words, seat: &mut TableSeat)
    requires table { seat.old.table_id ≡ shared.now.table_id }
    requires told { J.opening ≡ shared.now.key }
    requires inside { 0 < shared.now.table_id.words }
    requires single { (v : View) × IsSingle seat.old.me.0 v × (v.carries ≡ 0) }
    ensures did { DidRecall shared.now.key seat.old.me seat.new.me }
    ensures table { seat.new.table_id ≡ seat.old.table_id }
{
    shared.load::<Recalls<J>>(seat, 0);
}

/// What a read that is recorded tells its caller.
pub struct Learns;

impl Play<u8, Known> for Learns {
    ghost use Rattle.heap_table.specs.Plays.{DidLearn};

    ghost then = { λ step me found after. DidLearn step.word me found after };
}

/// Reads a word of the seat's own, and records it in its view.
pub(crate) fn learn_as(shared: &Words, seat: &mut TableSeat, word: usize) -> u64
    requires table { seat.old.table_id ≡ shared.now.table_id }
    requires inside { word < shared.now.table_id.words }
    requires own { (v : View) × IsSingle seat.old.me.0 v × (v.setup ≡ setup_for shared.now.key)
        × (v.carries ≡ 0) × IsOwn v (cell_at v.setup.capacity word) }
    ensures did { DidLearn word seat.old.me result seat.new.me }
    ensures table { seat.new.table_id ≡ seat.old.table_id }
{
    shared.load::<Learns>(seat, word)
}

/// Loads a word.
pub(crate) fn load_as<J: ProofEvent>(
    shared: &Words,
    seat: &mut TableSeat,
    place: usize,
    _event: Event,
) -> u64
    requires table { seat.old.table_id ≡ shared.now.table_id }
    requires told { J.event ≡ _event }
    requires inside { place < shared.now.table_id.words }
    requires step { (v : View) × IsSingle seat.old.me.0 v
        × IsStepAt shared.now.key v _event place (λ n. n) }
    ensures did { Did _event seat.old.me result seat.new.me }
    ensures table { seat.new.table_id ≡ seat.old.table_id }
{
    shared.load::<StepIs<J>>(seat, place)
}

/// Adds 1 to a word.
pub(crate) fn draw_as<J: ProofEvent>(
    shared: &Words,
    seat: &mut TableSeat,
    place: usize,
    _event: Event,
) -> u64
    requires table { seat.old.table_id ≡ shared.now.table_id }
    requires told { J.event ≡ _event }
    requires inside { place < shared.now.table_id.words }
    requires step { (v : View) × IsSingle seat.old.me.0 v
        × IsStepAt shared.now.key v _event place (λ n. (n + 1) % 2 ^ 64) }
    ensures did { Did _event seat.old.me result seat.new.me }
    ensures table { seat.new.table_id ≡ seat.old.table_id }
{
    shared.fetch_add::<StepIs<J>>(seat, place, 1)
}

/// Raises a word to a value, where it is less.
pub(crate) fn raise_as<J: ProofEvent>(
    shared: &Words,
    seat: &mut TableSeat,
    place: usize,
    value: u64,
    _event: Event,
) -> u64
    requires table { seat.old.table_id ≡ shared.now.table_id }
    requires told { J.event ≡ _event }
    requires inside { place < shared.now.table_id.words }
    requires step { (v : View) × IsSingle seat.old.me.0 v
        × IsStepAt shared.now.key v _event place (λ n. max n value) }
    ensures did { Did _event seat.old.me result seat.new.me }
    ensures table { seat.new.table_id ≡ seat.old.table_id }
{
    shared.fetch_max::<StepIs<J>>(seat, place, value)
}

/// Exchanges a word that is still as it was seen, and tells what it was.
pub(crate) fn exchange_as<J: ProofEvent>(
    shared: &Words,
    seat: &mut TableSeat,
    place: usize,
    seen: u64,
    new: u64,
    _event: Event,
) -> u64
    requires table { seat.old.table_id ≡ shared.now.table_id }
    requires told { J.event ≡ _event }
    requires inside { place < shared.now.table_id.words }
    requires step { (v : View) × IsSingle seat.old.me.0 v
        × IsStepAt shared.now.key v _event place (λ n. either (n == seen) new n) }
    ensures did { Did _event seat.old.me result seat.new.me }
    ensures table { seat.new.table_id ≡ seat.old.table_id }
{
    shared.compare_exchange::<StepIs<J>>(seat, place, seen, new)
}

/// Stores to a word.
pub(crate) fn store_as<J: ProofEvent>(
    shared: &Words,
    seat: &mut TableSeat,
    place: usize,
    value: u64,
    _event: Event,
)
    requires table { seat.old.table_id ≡ shared.now.table_id }
    requires told { J.event ≡ _event }
    requires inside { place < shared.now.table_id.words }
    requires step { (v : View) × IsSingle seat.old.me.0 v
        × IsStepAt shared.now.key v _event place (λ _. value) }
    ensures did { DidStore _event seat.old.me seat.new.me }
    ensures table { seat.new.table_id ≡ seat.old.table_id }
{
    shared.store::<StoreIs<J>>(seat, place, value);
}

/// What a read that is recorded of own words tells its caller.
pub struct LearnsOwn;

impl Play<u8, Known> for LearnsOwn {
    ghost use Rattle.heap_table.specs.Plays.{DidLearnOwn};

    ghost then = { λ step me found after. DidLearnOwn step.word me found after };
}

/// A store with its value, for the proof alone.
pub trait ProofStore {
    ghost use Rattle.std.specs.Prelude.{ℕ};
    ghost use Rattle.core_model.specs.declared.event.Event.{Event};

    ghost event: { Event };

    ghost value: { ℕ };
}

impl ProofStore for Brand {
    ghost use Rattle.core_model.specs.declared.event.Event.TheVariants.{LookUsed};

    ghost event = { LookUsed };

    ghost value = { 0 };
}

/// What a load tells its caller that is a store where it finds the value to be stored.
pub struct Finds<J: ProofStore> {
    marker: PhantomData<J>,
}

impl<J: ProofStore> Play<u8, Known> for Finds<J> {
    ghost use Rattle.heap_table.specs.Plays.{DidFind};

    ghost then = { λ _ me found after. DidFind J.event J.value me found after };
}

/// Loads a word: where it has the value already, that is the store of it.
pub(crate) fn find_as<J: ProofStore>(
    shared: &Words,
    seat: &mut TableSeat,
    place: usize,
    _value: u64,
    _event: Event,
) -> u64
    requires table { seat.old.table_id ≡ shared.now.table_id }
    requires told { J.event ≡ _event }
    requires told_value { J.value ≡ _value }
    requires inside { place < shared.now.table_id.words }
    requires step { (v : View) × IsSingle seat.old.me.0 v × (v.setup ≡ setup_for shared.now.key)
        × (IsStepAt shared.now.key v _event place (λ _. _value) ⊎ (May v _event → ⊥)) }
    ensures did { DidFind _event _value seat.old.me result seat.new.me }
    ensures table { seat.new.table_id ≡ seat.old.table_id }
{
    shared.load::<Finds<J>>(seat, place)
}
