//! Letters, which the tests send: each is of the day of its run.

use parcel_queue::{Fact, ParcelQueue};
use std::marker::{Brand, PhantomData};

/// A parcel that owns nothing.
#[derive(Drop)]
pub struct Letter {
    pub number: u64,
    pub day: u64,
}

/// Which day it is, for the proof alone.
pub trait Run {
    ghost use Rattle.std.specs.Prelude.{ℕ};

    ghost day: { ℕ };
}

impl Run for Brand {
    ghost day = { 0 };
}

/// Each letter is of the day of the run.
pub struct OfRun<J: Run> {
    run: PhantomData<J>,
}

impl<J: Run> Fact<Letter> for OfRun<J> {
    ghost use Rattle.std.specs.Prelude.{◌≡◌};

    ghost holds = { λ letter. letter.day ≡ J.day };
}

/// A queue of letters of one day.
pub type Line<J> = ParcelQueue<Letter, OfRun<J>>;
