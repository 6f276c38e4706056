//! Two senders, each in a thread of its own, and an owner that takes all once they are back.

ghost use Rattle.std.specs.Prelude.{◌≡◌, ◌<◌, ◌+◌, [], ◌∷◌, All, IfOk, IsTrue, map, sum_by};
ghost use Rattle.parcel_queue.specs.Account.{all_parts, unused};
ghost use Rattle.parcel_queue.specs.Delivery.{AreDelivered};
ghost use Rattle.parcel_tests.specs.Sending.{IsFreshPassOf, IsSenderOf};

use crate::letters::{Letter, Line, Run};
use crate::threads::{ALL, LETTERS, are_all, send};
use parcel_queue::{Pass, an_owner_takes_what_its_senders_put};
use std::alloc::{AllocError, Global};
use std::marker::Brand;
use std::process::Abort;
use std::sync::Wait;
use std::test::*;
use std::thread;
use std::thread::Threads;

/// What a sender ends with: its pass, and whether there was room for all its letters.
#[derive(Drop)]
struct Sent {
    pass: Pass<Letter>,
    all: bool,
}

/// The work of a sender.
fn work<J: Run>(
    alloc: Global,
    line: &Line<J>,
    mut pass: Pass<Letter>,
    first: u64,
    day: u64,
) -> Result<Sent, AllocError>
    requires pass { IsFreshPassOf line.now pass }
    requires day { J.day ≡ day }
    requires first { first < 10000 }
    ensures { IfOk result (λ sent. IsSenderOf line.now sent.pass) }
{
    let mut letters = Vec::new(alloc);
    send(line, &mut pass, first, day, &mut letters)?;
    Ok(Sent {
        pass,
        all: letters.is_empty(),
    })
}

/// What the senders put: the owner takes in their passes, and takes until it finds no letter.
fn collect<J: Run, R: Wait>(
    rt: &R,
    alloc: Global,
    line: &Line<J>,
    mut owner: Pass<Letter>,
    senders: Vec<Pass<Letter>>,
) -> Result<Vec<Letter>, AllocError>
    requires owner { (owner.queue ≡ line.now.queue) × (owner.account ≡ unused owner.account.parts)
        × (0 < owner.account.parts) }
    requires senders { All (λ sender. sender.queue ≡ line.now.queue) senders.items }
    requires none { All (λ sender. sender.account.taken ≡ []) senders.items }
    requires parts { owner.account.parts + sum_by (λ sender. sender.account.parts) senders.items ≡ all_parts }
    ensures { IfOk result (λ letters. AreDelivered (map (λ sender. sender.account.put) senders.items) letters.items) }
{
    let mut letters = Vec::new(alloc);
    line.absorb_all(&mut owner, senders);
    line.take_all(rt, &mut owner, &mut letters)?;
    an_owner_takes_what_its_senders_put::<Letter>();
    Ok(letters)
}

/// The letters that the owner has in the end, and whether there was room for all.
#[derive(Drop)]
struct Back {
    letters: Vec<Letter>,
    all: bool,
}

/// Two senders put letters into a queue with room for all, and the owner collects them.
fn run<J: Run + Sync, R: Threads + Wait + Sync>(
    rt: &R,
    alloc: Global,
    day: u64,
) -> Result<Back, AllocError>
    requires { J.day ≡ day }
{
    let (line, mut owner) = Line::<J>::new(alloc, ALL)?;
    let first = line.another(&mut owner);
    let second = line.another(&mut owner);
    let (one, other) = thread::join(
        rt,
        || -> Result<Sent, AllocError>
            requires { (J.day ≡ day) × IsFreshPassOf line first }
            ensures { IfOk result (λ sent. IsSenderOf line sent.pass) }
        { work::<J>(alloc, &line, first, 0, day) },
        || -> Result<Sent, AllocError>
            requires { (J.day ≡ day) × IsFreshPassOf line second }
            ensures { IfOk result (λ sent. IsSenderOf line sent.pass) }
        { work::<J>(alloc, &line, second, LETTERS, day) },
    );
    let one = one?;
    let other = other?;
    let all = one.all && other.all;
    let passes = vec![in alloc; one.pass, other.pass]?;
    let letters = collect(rt, alloc, &line, owner, passes)?;
    Ok(Back { letters, all })
}

/// The same on a day that is a number of the program.
fn run_on<R: Threads + Wait + Sync>(rt: &R, alloc: Global, day: u64) -> Result<Back, AllocError> {
    run::<Brand, R>(rt, alloc, day)
}

#[test]
fn an_owner_takes_all_in_the_end(rt: HostRuntime) -> Result<(), Fail> {
    let back = run_on(&rt, rt.alloc(), 3)?;
    assert!(rt; back.all);
    assert!(rt; are_all(rt.alloc(), &back.letters)?);
    Ok(())
}
