//! The rule of a queue of parcels, and what each step does to the account of its pass.

use crossbeam_queue::protocol::{Join, Lesson, Outcome, Protocol, Split};
use std::marker::{Brand, Model, PhantomData};

/// What holds of each parcel of a queue, for the proof alone: who puts one shows it, and who takes
/// one may rely on it.
pub trait Fact<T> {
    ghost holds: { T → Type 0 };
}

impl<T> Fact<T> for Brand {
    ghost use Rattle.std.specs.Prelude.{⊤};

    ghost holds = { λ _. ⊤ };
}

/// What is noted of a pass. No value of it is made.
pub struct Noted<T> {
    parcels: PhantomData<T>,
}

impl<T> Model for Noted<T> {
    ghost use Rattle.parcel_queue.specs.Account.{Account, unused};

    ghost Value = { Account T };

    ghost view = { λ _. unused 0 };
}

/// The rule: what was put is what was taken and what is there.
pub struct Fair<T, J: Fact<T>> {
    parcels: PhantomData<T>,
    fact: PhantomData<J>,
}

impl<T, J: Fact<T>> Protocol<T, Noted<T>> for Fair<T, J> {
    ghost use Rattle.parcel_queue.specs.Account.{all_parts, unused};
    ghost use Rattle.parcel_queue.specs.Rule.{IsFair};

    ghost holds = { IsFair J.holds };

    ghost first = { unused all_parts };
}

/// One part of a pass becomes a pass of its own, or two passes become one.
pub struct Parts;

impl<T> Split<Noted<T>> for Parts {
    ghost use Rattle.parcel_queue.specs.Account.{less_a_part, unused};

    ghost left = { less_a_part };

    ghost right = { λ _. unused 1 };
}

impl<T> Join<Noted<T>> for Parts {
    ghost use Rattle.parcel_queue.specs.Account.{joined, unused};

    ghost both = { joined };

    ghost spent = { unused 0 };
}

/// A parcel is put.
pub struct Puts;

impl<T> Outcome<T, Noted<T>> for Puts {
    ghost use Rattle.std.specs.Prelude.{◌≡◌};
    ghost use Rattle.parcel_queue.specs.Account.{with_put};

    ghost then = { λ a x b. b ≡ with_put a x };
}

/// A parcel is taken, or there is none.
pub struct Takes<J> {
    fact: PhantomData<J>,
}

impl<T, J: Fact<T>> Outcome<T, Noted<T>> for Takes<J> {
    ghost use Rattle.std.specs.Prelude.{◌≡◌};
    ghost use Rattle.parcel_queue.specs.Account.{with_taken};

    ghost then = { λ a x b. J.holds x × (b ≡ with_taken a x) };
}

impl<T, J: Fact<T>> Lesson<T, Noted<T>> for Takes<J> {
    ghost use Rattle.std.specs.Prelude.{◌≡◌, ◌++◌};
    ghost use Rattle.std.specs.List.Sorted.{IsPermutation};
    ghost use Rattle.parcel_queue.specs.Account.{all_parts};

    ghost fact = { λ a items. a.parts ≡ all_parts → IsPermutation a.put (a.taken ++ items) };
}
