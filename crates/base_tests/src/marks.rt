//! Marks on 130 numbers, which take two words and two bits.

ghost use Rattle.std.specs.Prelude.{◌≡◌, length};

use bit_marks::BitMarks;
use std::alloc::{AllocError, Global};
use std::test::Fail;

/// The numbers that are marked.
fn marked(alloc: Global, marks: &BitMarks) -> Result<Vec<u64>, AllocError>
    requires { length marks.now ≡ 130 }
{
    let mut numbers = Vec::new(alloc);
    for n in 0..130 {
        if marks.get(n) {
            numbers.push(n)?;
        }
    }
    Ok(numbers)
}

/// The ends of words are marked, and one of them is cleared: what is marked before, between and
/// then.
fn mark_ends(alloc: Global) -> Result<(Vec<u64>, Vec<u64>, Vec<u64>), AllocError> {
    let mut marks = BitMarks::new(alloc, 130)?;
    let none = marked(alloc, &marks)?;
    marks.set(0);
    marks.set(63);
    marks.set(64);
    marks.set(129);
    let ends = marked(alloc, &marks)?;
    marks.clear(64);
    Ok((none, ends, marked(alloc, &marks)?))
}

#[test]
fn marks_are_set_and_cleared(rt: HostRuntime) -> Result<(), Fail> {
    let (none, ends, rest) = mark_ends(rt.alloc())?;
    assert!(rt; none.is_empty());
    assert!(rt; ends.as_slice() == [0, 63, 64, 129].as_slice());
    assert!(rt; rest.as_slice() == [0, 63, 129].as_slice());
    Ok(())
}

/// The first marked numbers of four groups of 64, of which the third one has two numbers and the
/// last one none; the same once the first mark of the first group is cleared.
fn first_marked(alloc: Global) -> Result<([Option<u64>; 4], [Option<u64>; 4]), AllocError> {
    let mut marks = BitMarks::new(alloc, 130)?;
    marks.set(5);
    marks.set(63);
    marks.set(129);
    let before = firsts(&marks);
    marks.clear(5);
    Ok((before, firsts(&marks)))
}

/// The first marked number of each of four groups.
fn firsts(marks: &BitMarks) -> [Option<u64>; 4] {
    [
        marks.first_in(0),
        marks.first_in(1),
        marks.first_in(2),
        marks.first_in(3),
    ]
}

#[test]
fn the_first_of_a_group_is_told(rt: HostRuntime) -> Result<(), Fail> {
    let (before, then) = first_marked(rt.alloc())?;
    assert!(rt; before == [Some(5), None, Some(129), None]);
    assert!(rt; then == [Some(63), None, Some(129), None]);
    Ok(())
}

#[test]
fn there_are_as_many_numbers_as_were_asked_for(rt: HostRuntime) -> Result<(), Fail> {
    let marks = BitMarks::new(rt.alloc(), 130)?;
    assert!(rt; marks.len() == 130);
    Ok(())
}
