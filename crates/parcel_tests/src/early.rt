//! A letter that is taken while its sender is still at work.

ghost use Rattle.std.specs.Prelude.{◌≡◌, ◌<◌, [], ◌∷◌, length};
ghost use Rattle.parcel_queue.specs.Row.{ArePassesOf};
ghost use Rattle.parcel_tests.specs.Sending.{IsPassOf};

use crate::letters::{Letter, Line, Run};
use crate::threads::MOST_LOOKS;
use parcel_queue::{Pass, Senders};
use std::alloc::{AllocError, Global};
use std::marker::Brand;
use std::process::Abort;
use std::sync::Wait;
use std::sync::atomic::{AtomicU64, Ordering};
use std::test::*;
use std::thread::Threads;
use std::{slice, thread};

/// Looks many times whether the letter was taken.
fn was_taken(taken: &AtomicU64) -> bool {
    for _ in 0..MOST_LOOKS {
        if taken.load(Ordering::SeqCst) == 1 {
            return true;
        }
        thread::yield_now();
    }
    false
}

/// Sends a letter, and ends once that was taken: until then it has its passes.
fn send<J: Run>(queues: &[Line<J>], passes: Vec<Pass<Letter>>, day: u64, taken: &AtomicU64) -> bool
    requires passes { ArePassesOf queues.now passes.items }
    requires queues { 0 < length queues.now }
    requires day { J.day ≡ day }
{
    let mut senders = Senders::new(queues, passes);
    let is_put = senders.try_put(0, Letter { number: 1, day }).is_ok();
    let is_taken = is_put && was_taken(taken);
    is_taken && !senders.into_passes().is_empty()
}

/// Takes the letter once it is there, and tells the sender.
fn take<J: Run, R: Wait>(rt: &R, line: &Line<J>, mut pass: Pass<Letter>, taken: &AtomicU64) -> bool
    requires { IsPassOf line.now pass }
{
    for _ in 0..MOST_LOOKS {
        if let Some(letter) = line.take(rt, &mut pass) {
            taken.store(1, Ordering::SeqCst);
            return letter.number == 1;
        }
        thread::yield_now();
    }
    false
}

/// One thread sends and another one takes. The answer is whether both did.
fn run<J: Run + Sync, R: Threads + Wait + Sync>(
    rt: &R,
    alloc: Global,
    day: u64,
) -> Result<bool, AllocError>
    requires { J.day ≡ day }
{
    let (line, mut owner) = Line::<J>::new(alloc, 1)?;
    let taker = line.another(&mut owner);
    let passes = vec![in alloc; line.another(&mut owner)]?;
    let taken = AtomicU64::new(0);
    let (is_sent, is_taken) = thread::join(
        rt,
        || -> bool
            requires { (J.day ≡ day) × ArePassesOf (line ∷ []) passes.items }
        { send::<J>(slice::from_ref(&line), passes, day, &taken) },
        || -> bool
            requires { IsPassOf line taker }
        { take::<J, R>(rt, &line, taker, &taken) },
    );
    Ok(is_sent && is_taken)
}

/// The same on a day that is a number of the program.
fn run_on<R: Threads + Wait + Sync>(rt: &R, alloc: Global, day: u64) -> Result<bool, AllocError> {
    run::<Brand, R>(rt, alloc, day)
}

#[test]
fn a_letter_is_taken_before_its_sender_ends(rt: HostRuntime) -> Result<(), Fail> {
    assert!(rt; run_on(&rt, rt.alloc(), 3)?);
    Ok(())
}
