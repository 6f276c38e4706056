//! Reads a line of a schedule: a seat and its step.
ghost use Rattle.std.specs.Prelude.{◌≡◌, ◌∷◌, []};
ghost use Rattle.core_model.specs.declared.event.Event.TheVariants.{Tick};
ghost use Rattle.trace_text.specs.Lines.{IsReadAs};
ghost use Rattle.trace_text.specs.Schedule.{IsSeatsLine, IsStepLine, IsEventWords, IsPartsReading};

use crate::number::parse_number;
use crate::pieces::{behind, split_once};
use core_model::{Event, Shift};

/// The most seats of a schedule.
const MOST_SEATS: u64 = 8;

/// How many seats a schedule's first line tells.
pub(crate) fn parse_seats(line: &[u8]) -> Option<usize>
    ensures { IsReadAs IsSeatsLine line.now result }
{
    let seats = parse_number(behind(line, b"seats ")?)?;
    if seats == 0 || seats > MOST_SEATS {
        return None;
    }
    Some(seats as usize)
}

/// The seat below `seats` and its step that a line tells.
pub(crate) fn parse_step(line: &[u8], seats: usize) -> Option<(usize, Event)>
    ensures { IsReadAs (IsStepLine seats) line.now result }
{
    let (seat, words) = split_once(line, b' ')?;
    let seat = parse_number(seat)?;
    if seat >= seats as u64 {
        return None;
    }
    Some((seat as usize, parse_event(words)?))
}

/// The event that words write: a verb and at most two numbers.
fn parse_event(words: &[u8]) -> Option<Event>
    ensures { IsReadAs IsEventWords words.now result }
{
    let Some((verb, rest)) = split_once(words, b' ') else {
        return event_of_none(words);
    };
    let Some((first, second)) = split_once(rest, b' ') else {
        return event_of_one(verb, parse_number(rest)?);
    };
    event_of_two(verb, parse_number(first)?, parse_number(second)?)
}

/// The event of a verb alone.
fn event_of_none(verb: &[u8]) -> Option<Event>
    ensures { IsPartsReading verb.now [] result }
{
    Some(match verb {
        b"tick" => Event::Tick { shift: None },
        b"look-used" => Event::LookUsed,
        b"keep" => Event::KeepUsed,
        b"link" => Event::LookLink,
        b"pop" => Event::Pop,
        _ => return None,
    })
}

/// The event of a verb and a number.
fn event_of_one(verb: &[u8], n: u64) -> Option<Event>
    ensures { IsPartsReading verb.now (n ∷ []) result }
{
    Some(match verb {
        b"cut" => draw(Shift::Cut { d: n }),
        b"alloc" => draw(Shift::Alloc { class: n }),
        b"free" => draw(Shift::Free { block: n }),
        b"lift" => draw(Shift::Lift { class: n }),
        b"split" => draw(Shift::Split { block: n }),
        b"load" => Event::Load { word: n },
        b"settle" => Event::Settle { word: n },
        b"take" => Event::TakeFresh { n },
        b"head" => Event::LookHead { list: n },
        b"push" => Event::Push { d: n },
        b"anchor" => Event::LookAnchor { d: n },
        b"take-all" => Event::TakeAll { d: n },
        b"give" => Event::Give { d: n },
        _ => return None,
    })
}

/// The event of a verb and two numbers.
fn event_of_two(verb: &[u8], a: u64, b: u64) -> Option<Event>
    ensures { IsPartsReading verb.now (a ∷ b ∷ []) result }
{
    Some(match verb {
        b"large" => draw(Shift::Large { d: a, n: b }),
        b"store" => Event::Store { word: a, value: b },
        _ => return None,
    })
}

/// A draw with a shift.
fn draw(shift: Shift) -> Event
    ensures { result ≡ Tick (Some shift) }
{
    Event::Tick { shift: Some(shift) }
}
