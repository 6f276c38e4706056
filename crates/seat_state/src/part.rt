//! The parts of an image whose words may be a seat's own.

ghost use Rattle.seat_state.specs.Parts.{IsPart};

use super_block::{ANCHOR_OFFSET, DESCRIPTOR_WORDS, FIXED_WORDS, Geometry, LINK_OFFSET, ROOT_WORD};

/// What a word is.
#[derive(Clone, Copy)]
pub enum Part {
    /// No seat's own, whichever it is: of the header, without a meaning, or the kind of a root.
    Shared,
    /// A root.
    Root { i: u64 },
    /// What a superblock holds.
    Info { d: u64 },
    /// Which of its blocks are free.
    Anchor { d: u64 },
    /// Its link in a list.
    Link { d: u64 },
    /// A word of a superblock.
    Data { word: u64 },
}

/// The part of the image that a word is.
pub fn part_at(geometry: Geometry, word: u64) -> Part
    ensures { IsPart geometry.capacity word result }
{
    if word < ROOT_WORD {
        return Part::Shared;
    }
    if word < FIXED_WORDS {
        return Part::Root {
            i: word - ROOT_WORD,
        };
    }
    if word >= geometry.end() {
        return Part::Shared;
    }
    if word >= geometry.start(0) {
        return Part::Data { word };
    }
    let d = (word - FIXED_WORDS) / DESCRIPTOR_WORDS;
    match (word - FIXED_WORDS) % DESCRIPTOR_WORDS {
        0 => Part::Info { d },
        ANCHOR_OFFSET => Part::Anchor { d },
        LINK_OFFSET => Part::Link { d },
        _ => Part::Shared,
    }
}
