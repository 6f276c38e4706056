//! A row of queues, one for each worker: passes to all of them, made of the owners' passes and
//! joined to these again.

ghost use Rattle.std.specs.Prelude.{◌≡◌, ◌<◌, ℕ, suc, IfOk, get_or, if◌then◌else◌, is_ok, length, map};
ghost use Rattle.parcel_queue.specs.Row.{ArePassesOf, ArePassesWith, IsOfPlace, IsOwnedAt, changed_at, each_joined, giving_a_part, having_joined, with_a_part};

use crate::pass::Pass;
use crate::queue::ParcelQueue;
use crate::rule::Fact;
use std::alloc::{AllocError, Global};

/// One of the owners takes in another pass.
fn absorb_at<T, J: Fact<T>>(
    queues: &[ParcelQueue<T, J>],
    owners: &mut Vec<Pass<T>>,
    at: usize,
    other: Pass<T>,
)
    requires owners { ArePassesOf queues.now owners.old.items }
    requires at { at < length queues.now }
    requires other { IsOfPlace queues.now at other }
    ensures owners { ArePassesOf queues.now owners.new.items }
    ensures changed { owners.new.items ≡ changed_at (having_joined other) at owners.old.items }
{
    queues[at].absorb(&mut owners[at], other)
}

/// The owners take in a pass each, that to their own queue.
pub fn absorb_each<T, J: Fact<T>>(
    queues: &[ParcelQueue<T, J>],
    owners: &mut Vec<Pass<T>>,
    mut others: Vec<Pass<T>>,
)
    requires owners { ArePassesOf queues.now owners.old.items }
    requires others { ArePassesOf queues.now others.items }
    ensures owners { ArePassesOf queues.now owners.new.items }
    ensures joined { owners.new.items ≡ each_joined owners.old.items others.items }
{
    while let Some(other) = others.pop() {
        let at = others.len();
        absorb_at(queues, owners, at, other);
    }
}

/// A pass more to one of the queues, made of its owner's.
fn another_at<T, J: Fact<T>>(
    queues: &[ParcelQueue<T, J>],
    owners: &mut Vec<Pass<T>>,
    at: usize,
) -> Pass<T>
    requires at { at < length queues.now }
    requires owner { IsOwnedAt queues.now owners.old.items at }
    ensures changed { owners.new.items ≡ changed_at giving_a_part at owners.old.items }
    ensures pass { result ≡ with_a_part (get_or owners.old.items at result) }
{
    queues[at].another(&mut owners[at])
}

/// A pass to each queue, made of the owners' passes, each of which gives a part. `Err` where memory
/// is short: the owners are as they were.
pub fn a_pass_to_each<T, J: Fact<T>>(
    alloc: Global,
    queues: &[ParcelQueue<T, J>],
    owners: &mut Vec<Pass<T>>,
) -> Result<Vec<Pass<T>>, AllocError>
    requires owners { ArePassesWith 1 queues.now owners.old.items }
    ensures given { owners.new.items ≡ (if is_ok result then map giving_a_part owners.old.items else owners.old.items) }
    ensures passes { IfOk result (λ passes. passes.items ≡ map with_a_part owners.old.items) }
    ensures parts { (parts : ℕ) → ArePassesWith (suc parts) queues.now owners.old.items
        → ArePassesWith parts queues.now owners.new.items }
    ensures all { IfOk result (λ passes. ArePassesOf queues.now passes.items) }
{
    let mut passes = Vec::with_capacity(alloc, queues.len())?;
    for at in 0..queues.len() {
        let pass = another_at(queues, owners, at);
        passes.push_reserved(pass);
    }
    Ok(passes)
}
