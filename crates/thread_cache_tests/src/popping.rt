//! The lists of superblocks themselves: pops and pushes by two seats, in one thread.

ghost use Rattle.std.specs.Prelude.{◌<◌, IfOk};
ghost use Rattle.heap_rule.specs.Seated.{IsSeatOf};
ghost use Rattle.heap_rule.specs.Shown.{CanList};
ghost use Rattle.superblock_lists.specs.Pops.{Pops};
ghost use Rattle.thread_cache_tests.specs.Holding.{IsFreshSeatOf, list_of};

use crate::fixtures::{last_seat, open, recovered};
use free_list::Pop;
use heap_rule::{Seat, Shared};
use line_memory::{ConstantChance, Stopped};
use size_table::SizeClass;
use std::alloc::Global;
use std::process::Abort;
use std::test::Fail;

/// No word is made durable early.
const LATE: ConstantChance = ConstantChance(0);

/// Pops off the list of the class, or off that of the free superblocks.
fn pop_off(seat: &mut Seat, shared: &Shared, class: Option<SizeClass>) -> Result<Pop, Stopped>
    requires { IsSeatOf shared.now seat.old }
    ensures done { IfOk result (λ pop. Pops (list_of class) pop seat.old.view seat.new.view) }
    ensures seat { IsSeatOf shared.now seat.new }
{
    let mut chance = LATE;
    match class {
        None => free_list::pop(seat, shared, &mut chance),
        Some(class) => partial_list::pop(seat, shared, class, &mut chance),
    }
}

/// Pushes a superblock on that list.
fn push_on(
    seat: &mut Seat,
    shared: &Shared,
    class: Option<SizeClass>,
    d: u64,
) -> Result<(), Stopped>
    requires seat { IsSeatOf shared.now seat.old }
    requires durable { d < seat.old.view.floor }
    requires can { CanList seat.old.view d (list_of class) }
    ensures { IsSeatOf shared.now seat.new }
{
    let mut chance = LATE;
    match class {
        None => free_list::push(seat, shared, d, &mut chance),
        Some(class) => partial_list::push(seat, shared, class, d, &mut chance),
    }
}

/// What the pops of two seats give, in their order.
type Popped = Result<(Pop, Pop, Pop, Pop, Pop), Stopped>;

/// The first seat pops, and the second one till the list is empty. The first one pushes what it
/// has, which the second one pops, and finds the list empty.
fn pop_in_turn(a: &mut Seat, b: &mut Seat, shared: &Shared, class: Option<SizeClass>) -> Popped
    requires a { IsFreshSeatOf shared.now a.old }
    requires b { IsFreshSeatOf shared.now b.old }
{
    let first = pop_off(a, shared, class)?;
    let second = pop_off(b, shared, class)?;
    let none = pop_off(b, shared, class)?;
    if let Pop::Got(d) = first {
        push_on(a, shared, class, d)?;
    }
    let again = pop_off(b, shared, class)?;
    let last = pop_off(a, shared, class)?;
    Ok((first, second, none, again, last))
}

/// What they give over an image of two superblocks with these words, with so many tickets.
fn pops_over(
    alloc: Global,
    words: &str,
    class: Option<SizeClass>,
    budget: u64,
) -> Result<Popped, Fail> {
    let heap = recovered(alloc, 2, words)?;
    let (shared, mut seats) = open(alloc, heap, 2, budget)?;
    let b = last_seat(&shared, &mut seats);
    let a = last_seat(&shared, &mut seats);
    match (a, b) {
        (Some(mut a), Some(mut b)) => Ok(pop_in_turn(&mut a, &mut b, &shared, class)),
        _ => Err("no seat".into()),
    }
}

/// How many tickets they draw: 3 each for three pops and a push, and 1 each for two looks at an
/// empty list.
const TICKETS: u64 = 14;

/// Asserts what they give, and that a seat stops at the first ticket that is wanting.
fn must_pop(
    rt: &(impl Abort + AllocGlobal),
    words: &str,
    class: Option<SizeClass>,
) -> Result<(), Fail> {
    for step in 0..TICKETS {
        let popped = pops_over(rt.alloc(), words, class, step)?;
        assert_eq!(rt; popped, Err(Stopped { step }));
    }
    let popped = pops_over(rt.alloc(), words, class, TICKETS)?;
    let none = Pop::Empty { head: 33_554_432 };
    let last = Pop::Empty { head: 50_331_648 };
    assert_eq!(rt;
        popped,
        Ok((Pop::Got(0), Pop::Got(1), none, Pop::Got(0), last))
    );
    Ok(())
}

#[test]
fn superblocks_are_popped_and_pushed_in_turn(rt: HostRuntime) -> Result<(), Fail> {
    must_pop(&rt, "used 2", None)?;
    let listed = "used 2, info:0 20, info:1 20, root:8 @1080, root:9 @9272";
    must_pop(&rt, listed, Some(SizeClass::new(20)))
}
