//! Schedules as texts.
//!
//! A schedule has lines, between commas: the number of a seat, and an event or a change of the
//! seat's parts with its numbers, as in `0 head 4, 0 link, 0 store link:0 7`.
use crash_core::{Event, Shift};
use std::test::Fail;
use test_images::number;

/// The number that the word tells, or 0 where there is no word.
fn argument(word: Option<&str>) -> Result<u64, Fail> {
    match word {
        Some(word) => number(word),
        None => Ok(0),
    }
}

/// The seat and the event of a line.
pub fn parse(line: &str) -> Result<(usize, Event), Fail> {
    let mut words = line.split(' ');
    let seat = argument(words.next())? as usize;
    let name = words.next().ok_or("no event")?;
    let a = argument(words.next())?;
    let b = argument(words.next())?;
    let event = event(name, a, b).ok_or("no event of this name")?;
    Ok((seat, event))
}

/// The event of this name.
fn event(name: &str, a: u64, b: u64) -> Option<Event> {
    match name {
        "load" => Some(Event::Load { word: a }),
        "store" => Some(Event::Store { word: a, value: b }),
        "settle" => Some(Event::Settle { word: a }),
        "look-used" => Some(Event::LookUsed),
        "take" => Some(Event::TakeFresh { n: a }),
        "keep" => Some(Event::KeepUsed),
        "head" => Some(Event::LookHead { list: a }),
        "link" => Some(Event::LookLink),
        "pop" => Some(Event::Pop),
        "push" => Some(Event::Push { d: a }),
        "anchor" => Some(Event::LookAnchor { d: a }),
        "take-all" => Some(Event::TakeAll { d: a }),
        "give" => Some(Event::Give { d: a }),
        "tick" => Some(Event::Tick { shift: None }),
        _ => shift(name, a, b).map(|shift| Event::Tick { shift: Some(shift) }),
    }
}

/// The change of this name.
fn shift(name: &str, a: u64, b: u64) -> Option<Shift> {
    match name {
        "cut" => Some(Shift::Cut { d: a }),
        "alloc" => Some(Shift::Alloc { class: a }),
        "free" => Some(Shift::Free { block: a }),
        "lift" => Some(Shift::Lift { class: a }),
        "large" => Some(Shift::Large { d: a, n: b }),
        "split" => Some(Shift::Split { block: a }),
        _ => None,
    }
}
