//! A ring of seats that hand blocks round, and what is left of it.

ghost use Rattle.std.specs.Prelude.{◌<◌, All, IfOk, IfSome, length};
ghost use Rattle.heap_rule.specs.Seated.{IsSeatOf};
ghost use Rattle.handing_tests.specs.Handing.{AreAt, HasAllRoots, HasLastAllRoots, IsFreshSeatOf, IsHandOf, IsSameSeat};

use crate::closing::{Done, add, close, listed, none_done};
use crate::fixtures::{last_seat, open};
use crate::goods::{Goods, begin_one, end_one, pass_one};
use crate::hand::{Halt, Hand};
use heap_rule::{Seat, Shared};
use line_memory::Closed;
use std::alloc::{AllocError, Global};
use std::collections::VecDeque;
use std::test::Fail;
use super_block::Block;

/// What a ring does.
#[derive(Clone, Copy)]
pub struct Plan<'a> {
    /// How many superblocks the heap has.
    pub capacity: u64,
    pub seats: usize,
    /// How many bytes each block is to have.
    pub sizes: &'a [u64],
    /// Whether roots of the first seat lead to the blocks.
    pub is_rooted: bool,
    /// How many turns there are before the last one.
    pub turns: usize,
    /// Whether the last seat accepts all blocks. Else they are left to their carriers.
    pub is_ended: bool,
    pub budget: u64,
    /// What chance gives: by 1 each store is durable at once.
    pub drawn: u64,
}

/// The seats of a ring, the one whose turn it is first, and the blocks that go round.
#[derive(Drop)]
struct Ring<'a> {
    hands: VecDeque<Hand<'a>>,
    goods: Goods,
}

/// The first hand takes all blocks, and offers them.
fn begin(hand: &mut Hand<'_>, goods: &mut Goods, plan: Plan<'_>) -> Result<(), Halt>
    requires roots { HasAllRoots hand.old.seat.state.view.roots }
    requires at { AreAt hand.old.seat.state.table goods.old.carriers.items }
    ensures at { AreAt hand.new.seat.state.table goods.new.carriers.items }
    ensures same { IsSameSeat hand.old.seat.state hand.new.seat.state }
{
    for bytes in plan.sizes {
        begin_one(hand, goods, *bytes, plan.is_rooted)?;
    }
    Ok(())
}

/// A hand passes all blocks on, or accepts them for good.
fn act(hand: &mut Hand<'_>, goods: &mut Goods, is_last: bool) -> Result<(), Halt>
    requires at { AreAt hand.old.seat.state.table goods.old.carriers.items }
    ensures at { AreAt hand.new.seat.state.table goods.new.carriers.items }
    ensures same { IsSameSeat hand.old.seat.state hand.new.seat.state }
{
    goods.turn = goods.turn.wrapping_add(1);
    for index in 0..goods.blocks.len() {
        if is_last {
            end_one(hand, goods, index)?;
        } else {
            pass_one(hand, goods, index)?;
        }
    }
    Ok(())
}

/// The hand whose turn it is.
fn next_hand<'a>(shared: &Shared, hands: &mut VecDeque<Hand<'a>>) -> Option<Hand<'a>>
    requires { All (λ hand. IsHandOf shared.now hand.seat.state) hands.old.items }
    ensures rest { All (λ hand. IsHandOf shared.now hand.seat.state) hands.new.items }
    ensures next { IfSome result (λ hand. IsHandOf shared.now hand.seat.state) }
    ensures fewer { IfSome result (λ _. length hands.new.items < length hands.old.items) }
{
    let _shared = shared;
    hands.pop_front()
}

/// The hand whose turn it is acts.
fn take_turn(shared: &Shared, ring: &mut Ring<'_>, is_last: bool) -> Result<(), Halt>
    requires hands { All (λ hand. IsHandOf shared.now hand.seat.state) ring.old.hands.items }
    requires at { AreAt shared.now.table ring.old.goods.carriers.items }
    ensures hands { All (λ hand. IsHandOf shared.now hand.seat.state) ring.new.hands.items }
    ensures at { AreAt shared.now.table ring.new.goods.carriers.items }
{
    let Some(mut hand) = next_hand(shared, &mut ring.hands) else {
        return Err(Halt::Failed("there is no seat"));
    };
    let told = act(&mut hand, &mut ring.goods, is_last);
    ring.hands.push_back(hand)?;
    told
}

/// All turns of a ring.
fn go_round(shared: &Shared, ring: &mut Ring<'_>, plan: Plan<'_>) -> Result<(), Halt>
    requires hands { All (λ hand. IsHandOf shared.now hand.seat.state) ring.old.hands.items }
    requires at { AreAt shared.now.table ring.old.goods.carriers.items }
    ensures hands { All (λ hand. IsHandOf shared.now hand.seat.state) ring.new.hands.items }
    ensures at { AreAt shared.now.table ring.new.goods.carriers.items }
{
    for _turn in 0..plan.turns {
        take_turn(shared, ring, false)?;
    }
    if plan.is_ended {
        take_turn(shared, ring, true)?;
    }
    Ok(())
}

/// All turns of a ring, once it has begun.
fn go_on(
    shared: &Shared,
    ring: &mut Ring<'_>,
    plan: Plan<'_>,
    begun: Result<(), Halt>,
) -> Result<(), Halt>
    requires hands { All (λ hand. IsHandOf shared.now hand.seat.state) ring.old.hands.items }
    requires at { AreAt shared.now.table ring.old.goods.carriers.items }
    ensures hands { All (λ hand. IsHandOf shared.now hand.seat.state) ring.new.hands.items }
    ensures at { AreAt shared.now.table ring.new.goods.carriers.items }
{
    match begun {
        Ok(()) => go_round(shared, ring, plan),
        Err(halt) => Err(halt),
    }
}

/// The hand of the last seat.
fn last_hand<'a>(shared: &'a Shared, seats: &mut Vec<Seat>, drawn: u64) -> Option<Hand<'a>>
    requires { All (IsFreshSeatOf shared.now) seats.old.items }
    ensures rest { All (IsFreshSeatOf shared.now) seats.new.items }
    ensures hand { IfSome result (λ hand. IsHandOf shared.now hand.seat.state) }
    ensures roots { HasLastAllRoots seats.old.items → IfSome result (λ hand.
        HasAllRoots hand.seat.state.view.roots) }
    ensures fewer { IfSome result (λ _. length seats.new.items < length seats.old.items) }
{
    match last_seat(shared, seats) {
        Some(seat) => Some(Hand::new(shared, seat, drawn)),
        None => None,
    }
}

/// A hand for each seat, the last one first.
fn hands_of<'a>(
    alloc: Global,
    shared: &'a Shared,
    mut seats: Vec<Seat>,
    drawn: u64,
) -> Result<VecDeque<Hand<'a>>, AllocError>
    requires { All (IsFreshSeatOf shared.now) seats.items }
    ensures { IfOk result (λ hands. All (λ hand. IsHandOf shared.now hand.seat.state) hands.items) }
{
    let mut hands = VecDeque::new(alloc);
    while let Some(hand) = last_hand(shared, &mut seats, drawn) {
        hands.push_back(hand)?;
    }
    Ok(hands)
}

/// The seats of all hands.
fn gather(alloc: Global, shared: &Shared, mut hands: VecDeque<Hand<'_>>) -> Result<Done, AllocError>
    requires { All (λ hand. IsHandOf shared.now hand.seat.state) hands.items }
    ensures { IfOk result (λ done. All (IsSeatOf shared.now) done.seats.items) }
{
    let mut done = none_done(alloc);
    while let Some(hand) = next_hand(shared, &mut hands) {
        done = add(shared, done, hand.into_back())?;
    }
    Ok(done)
}

/// The last seat begins, and then all seats have their turns.
fn work(
    alloc: Global,
    shared: &Shared,
    mut seats: Vec<Seat>,
    plan: Plan<'_>,
) -> Result<Worked, Fail>
    requires seats { All (IsFreshSeatOf shared.now) seats.items }
    requires last { HasLastAllRoots seats.items }
    ensures seats { IfOk result (λ worked. All (IsSeatOf shared.now) worked.done.seats.items) }
    ensures at { IfOk result (λ worked. AreAt shared.now.table worked.goods.carriers.items) }
{
    let Some(mut hand) = last_hand(shared, &mut seats, plan.drawn) else {
        return Err("there is no seat".into());
    };
    let mut goods = Goods::new(alloc);
    let begun = begin(&mut hand, &mut goods, plan);
    let mut hands = hands_of(alloc, shared, seats, plan.drawn)?;
    hands.push_back(hand)?;
    let mut ring = Ring { hands, goods };
    let told = go_on(shared, &mut ring, plan, begun);
    let Ring { hands, goods } = ring;
    Ok(Worked {
        done: gather(alloc, shared, hands)?,
        goods,
        told,
    })
}

/// What the seats of a ring end with.
#[derive(Drop)]
struct Worked {
    done: Done,
    goods: Goods,
    told: Result<(), Halt>,
}

/// What is left of a ring, once its heap is closed.
#[derive(Drop)]
pub struct Left {
    pub closed: Closed,
    pub told: Result<(), Halt>,
    /// The blocks that went round, to how many of which roots lead, and how many turns were begun.
    pub blocks: Vec<Block>,
    pub published: usize,
    pub turn: u64,
    /// How many carriers none accepted.
    pub carriers: usize,
}

/// Plays a ring.
pub fn play(alloc: Global, plan: Plan<'_>) -> Result<Left, Fail> {
    let (shared, seats) = open(alloc, plan.capacity, plan.seats, plan.budget)?;
    let Worked { done, goods, told } = work(alloc, &shared, seats, plan)?;
    let Goods {
        carriers,
        blocks,
        published,
        turn,
    } = goods;
    let carriers = listed(alloc, &shared, carriers)?;
    let count = carriers.len();
    Ok(Left {
        closed: close(alloc, shared, plan.seats, done, carriers)?,
        told,
        blocks,
        published,
        turn,
        carriers: count,
    })
}
