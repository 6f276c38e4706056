//! A queue that one thread uses.

ghost use Rattle.std.specs.Prelude.{◌≡◌, ◌<◌};

use crate::letters::Letter;
use parcel_queue::{ParcelQueue, Pass};
use std::alloc::Global;
use std::marker::Brand;
use std::process::Abort;
use std::sync::Wait;
use std::test::*;

type Line = ParcelQueue<Letter, Brand>;

/// Puts a letter; answers the number of one that comes back.
fn put(line: &Line, pass: &mut Pass<Letter>, number: u64) -> Option<u64>
    requires { (pass.old.queue ≡ line.now.queue) × (0 < pass.old.account.parts) }
    ensures { (pass.new.queue ≡ line.now.queue) × (0 < pass.new.account.parts) }
{
    match line.try_put(pass, Letter { number, day: 0 }) {
        Ok(()) => None,
        Err(letter) => Some(letter.number),
    }
}

/// Takes the oldest letter; answers its number.
fn take(rt: &impl Wait, line: &Line, pass: &mut Pass<Letter>) -> Option<u64>
    requires { (pass.old.queue ≡ line.now.queue) × (0 < pass.old.account.parts) }
    ensures { (pass.new.queue ≡ line.now.queue) × (0 < pass.new.account.parts) }
{
    line.take(rt, pass).map(|letter| letter.number)
}

#[test]
fn a_full_queue_gives_a_parcel_back(rt: HostRuntime) -> Result<(), Fail> {
    let (line, mut pass) = Line::new(rt.alloc(), 2)?;
    assert_eq!(rt; line.room(), 2);
    assert_eq!(rt; take(&rt, &line, &mut pass), None);
    assert_eq!(rt; put(&line, &mut pass, 7), None);
    assert_eq!(rt; put(&line, &mut pass, 5), None);
    assert_eq!(rt; put(&line, &mut pass, 6), Some(6));
    assert_eq!(rt; take(&rt, &line, &mut pass), Some(7));
    assert_eq!(rt; put(&line, &mut pass, 6), None);
    assert_eq!(rt; take(&rt, &line, &mut pass), Some(5));
    assert_eq!(rt; take(&rt, &line, &mut pass), Some(6));
    assert_eq!(rt; take(&rt, &line, &mut pass), None);
    Ok(())
}

/// The numbers of all letters that are taken, behind one that is there.
fn all_numbers(
    rt: &impl Wait,
    alloc: Global,
    line: &Line,
    pass: &mut Pass<Letter>,
) -> Result<Vec<u64>, Fail>
    requires { (pass.old.queue ≡ line.now.queue) × (0 < pass.old.account.parts) }
{
    let mut letters = vec![in alloc; Letter { number: 1, day: 0 }]?;
    line.take_all(rt, pass, &mut letters)?;
    let mut numbers = Vec::with_capacity(alloc, letters.len())?;
    for letter in &letters {
        numbers.push(letter.number)?;
    }
    Ok(numbers)
}

#[test]
fn an_owner_takes_what_other_passes_put(rt: HostRuntime) -> Result<(), Fail> {
    let (line, mut owner) = Line::new(rt.alloc(), 4)?;
    let mut first = line.another(&mut owner);
    let mut second = line.another(&mut owner);
    assert_eq!(rt; put(&line, &mut first, 7), None);
    assert_eq!(rt; put(&line, &mut second, 5), None);
    assert_eq!(rt; put(&line, &mut first, 6), None);
    let passes = vec![in rt.alloc(); first, second]?;
    line.absorb_all(&mut owner, passes);
    let numbers = all_numbers(&rt, rt.alloc(), &line, &mut owner)?;
    assert_eq!(rt; numbers.as_slice(), [1, 7, 5, 6].as_slice());
    Ok(())
}
