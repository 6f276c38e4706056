//! Two threads that hand blocks round through two queues, one each way.

ghost use Rattle.std.specs.Prelude.{◌≡◌, All, IfOk, IsTrue, OnOk};
ghost use Rattle.heap_rule.specs.Seated.{IsSeatOf};
ghost use Rattle.handing_tests.specs.Handing.{AreAt, HasAllRoots, IsFreshSeatOf};

use crate::closing::{Done, add, close, listed, none_done};
use crate::ends::Ends;
use crate::fixtures::{MANY, held_in, last_seat, must_hold, open};
use crate::goods::Goods;
use crate::hand::{Back, Halt, Hand};
use crate::marks::has_marks;
use crate::queue::{Queue, Run, pass_of, queue, try_take};
use crate::rounds::{ROUNDS, SIZES, go_round};
use heap_rule::{Carrier, Seat, Shared};
use line_memory::Closed;
use std::alloc::{AllocError, Global};
use std::collections::VecDeque;
use std::marker::Brand;
use std::process::Abort;
use std::test::Fail;
use std::thread;
use std::thread::Threads;
use super_block::Block;

/// Room for all carriers that are on their way.
const ROOM: usize = 8;

/// How many superblocks the heap has.
const CAPACITY: u64 = 8;

/// What a thread ends with: its seat, the blocks, and the carriers that it has.
#[derive(Drop)]
struct Worked {
    back: Back,
    goods: Goods,
    told: Result<(), Halt>,
}

/// The work of the first thread, whose seat has all roots, or of the second one.
fn work<J: Run>(
    alloc: Global,
    shared: &Shared,
    seat: Seat,
    is_first: bool,
    takes_from: &Queue<J>,
    puts_to: &Queue<J>,
) -> Worked
    requires run { J.table ≡ shared.now.table }
    requires seat { IsFreshSeatOf shared.now seat }
    requires roots { IsTrue is_first → HasAllRoots seat.view.roots }
    ensures seat { IsSeatOf shared.now result.back.seat }
    ensures at { AreAt J.table result.goods.carriers.items }
{
    let mut hand = Hand::new(shared, seat, 0);
    let mut goods = Goods::new(alloc);
    let mut ends = Ends::new(takes_from, puts_to);
    let told = go_round(&mut hand, &mut ends, &mut goods, is_first);
    Worked {
        back: hand.into_back(),
        goods,
        told,
    }
}

/// The carriers that are in a queue once all threads are back come behind the others.
fn drain<J: Run>(line: &Queue<J>, carriers: &mut VecDeque<Carrier>) -> Result<(), AllocError>
    requires at { AreAt J.table carriers.old.items }
    ensures at { OnOk result (AreAt J.table carriers.new.items) }
{
    let mut pass = pass_of(line);
    for _ in 0..ROOM {
        if let Some(carrier) = try_take(line, &mut pass) {
            carriers.push_back(carrier)?;
        }
    }
    Ok(())
}

/// What both threads leave: their seats, and all carriers.
#[derive(Drop)]
struct Gathered {
    done: Done,
    carriers: VecDeque<Carrier>,
    blocks: Vec<Block>,
    told: Result<(), Halt>,
}

/// What both threads leave, with what is in the queues.
fn gather<J: Run>(
    alloc: Global,
    one: Worked,
    other: Worked,
    shared: &Shared,
    forth: &Queue<J>,
    back: &Queue<J>,
) -> Result<Gathered, AllocError>
    requires run { J.table ≡ shared.now.table }
    requires one { IsSeatOf shared.now one.back.seat }
    requires other { IsSeatOf shared.now other.back.seat }
    requires at_one { AreAt J.table one.goods.carriers.items }
    requires at_other { AreAt J.table other.goods.carriers.items }
    ensures seats { IfOk result (λ g. All (IsSeatOf shared.now) g.done.seats.items) }
    ensures at { IfOk result (λ g. AreAt J.table g.carriers.items) }
{
    let Worked {
        back: first,
        goods,
        told,
    } = one;
    let Worked {
        back: second,
        goods: others,
        told: also,
    } = other;
    let done = add(shared, none_done(alloc), first)?;
    let done = add(shared, done, second)?;
    let Goods {
        mut carriers,
        blocks,
        published: _,
        turn: _,
    } = goods;
    move_all(forth, others.carriers, &mut carriers)?;
    drain(forth, &mut carriers)?;
    drain(back, &mut carriers)?;
    Ok(Gathered {
        done,
        carriers,
        blocks,
        told: told.and(also),
    })
}

/// Some carriers of a queue's heap come behind others.
fn move_all<J: Run>(
    line: &Queue<J>,
    mut more: VecDeque<Carrier>,
    carriers: &mut VecDeque<Carrier>,
) -> Result<(), AllocError>
    requires more { AreAt J.table more.items }
    requires at { AreAt J.table carriers.old.items }
    ensures at { OnOk result (AreAt J.table carriers.new.items) }
{
    let _line = line;
    while let Some(carrier) = more.pop_front() {
        carriers.push_back(carrier)?;
    }
    Ok(())
}

/// Two threads hand blocks round. The first one takes them, and their roots are its own.
fn run<J: Run + Sync, R: Threads + Sync>(
    rt: &R,
    alloc: Global,
    shared: &Shared,
    first: Seat,
    second: Seat,
) -> Result<Gathered, AllocError>
    requires run { J.table ≡ shared.now.table }
    requires first { IsFreshSeatOf shared.now first }
    requires roots { HasAllRoots first.view.roots }
    requires second { IsFreshSeatOf shared.now second }
    ensures seats { IfOk result (λ g. All (IsSeatOf shared.now) g.done.seats.items) }
    ensures at { IfOk result (λ g. AreAt J.table g.carriers.items) }
{
    let forth = queue::<J>(alloc, ROOM)?;
    let back = queue::<J>(alloc, ROOM)?;
    let (one, other) = thread::join(
        rt,
        || -> Worked
            requires { (J.table ≡ shared.now.table) × IsFreshSeatOf shared.now first
                × HasAllRoots first.view.roots }
            ensures { IsSeatOf shared.entry.now result.back.seat
                × AreAt J.table result.goods.carriers.items }
        { work::<J>(alloc, shared, first, true, &back, &forth) },
        || -> Worked
            requires { (J.table ≡ shared.now.table) × IsFreshSeatOf shared.now second }
            ensures { IsSeatOf shared.entry.now result.back.seat
                × AreAt J.table result.goods.carriers.items }
        { work::<J>(alloc, shared, second, false, &forth, &back) },
    );
    gather(alloc, one, other, shared, &forth, &back)
}

/// What is left, once the heap is closed.
#[derive(Drop)]
struct Left {
    closed: Closed,
    blocks: Vec<Block>,
    carriers: usize,
}

/// Opens a heap, lets two threads hand blocks round, and closes it.
fn hand_round<R: Threads + Sync>(rt: &R, alloc: Global) -> Result<Left, Fail> {
    let (shared, mut seats) = open(alloc, CAPACITY, 2, MANY)?;
    let Some(first) = last_seat(&shared, &mut seats) else {
        return Err("there is no seat".into());
    };
    let Some(second) = last_seat(&shared, &mut seats) else {
        return Err("there is one seat".into());
    };
    let Gathered {
        done,
        carriers,
        blocks,
        told,
    } = run::<Brand, R>(rt, alloc, &shared, first, second)?;
    told?;
    let carriers = listed(alloc, &shared, carriers)?;
    let count = carriers.len();
    Ok(Left {
        closed: close(alloc, shared, 2, done, carriers)?,
        blocks,
        carriers: count,
    })
}

/// Whether recovery of an image holds exactly these blocks, with the words of the last round.
fn holds_all(alloc: Global, image: &[u64], blocks: &[Block]) -> Result<bool, Fail> {
    let held = held_in(alloc, image)?;
    Ok(held.as_slice() == blocks && held.iter().all(|b| has_marks(image, *b, [ROUNDS, ROUNDS])))
}

#[test]
fn blocks_go_round_between_threads(rt: HostRuntime) -> Result<(), Fail> {
    let left = hand_round(&rt, rt.alloc())?;
    assert_eq!(rt; left.carriers, SIZES.len());
    assert_eq!(rt; left.blocks.len(), SIZES.len());
    let now = holds_all(rt.alloc(), &left.closed.now, &left.blocks)?;
    let kept = holds_all(rt.alloc(), &left.closed.kept, &left.blocks)?;
    must_hold(&rt, now, "what loads see");
    must_hold(&rt, kept, "what a crash leaves");
    Ok(())
}
