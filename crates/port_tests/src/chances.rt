//! The numbers that chances by a seed give.
use crate::asserts::must_hold;
use line_memory::Chance;
use std::test::Fail;
use tool_ports::{Chances, SeededChances};

// The first number of each worker and the first word, after this seed.
fn first_numbers<C: Chances>(chances: &mut C, seed: u64) -> (u64, u64, u64) {
    chances.seed(seed);
    let mut zero = chances.chance(0);
    let mut one = chances.chance(1);
    (zero.draw(), one.draw(), chances.word())
}

#[test]
fn a_seed_gives_the_same_numbers_again(rt: HostRuntime) -> Result<(), Fail> {
    let mut chances = SeededChances::new();
    let first = first_numbers(&mut chances, 42);
    let other = first_numbers(&mut chances, 43);
    let again = first_numbers(&mut chances, 42);
    must_hold(&rt, again == first, "the same again");
    let differ = first.0 != other.0 && first.1 != other.1 && first.2 != other.2;
    must_hold(&rt, differ, "another seed gives others");
    let are_apart = first.0 != first.1 && first.0 != first.2;
    must_hold(&rt, are_apart, "the workers have their own");
    Ok(())
}
