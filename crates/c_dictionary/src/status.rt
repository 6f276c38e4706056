//! What the calls answer. The numbers up to 10 are those with which the program ends.

/// It was done.
pub const DONE: u32 = 0;

/// The key is not there.
pub const ABSENT: u32 = 1;

/// An argument is out of range.
pub const USAGE: u32 = 2;

/// Memory ran out.
pub const MEMORY: u32 = 3;

/// The header is bad: the cause says how.
pub const HEADER: u32 = 7;

/// A pointer leads outside, at that word.
pub const OUTSIDE: u32 = 8;

/// A shard is no map, at that word.
pub const SHARD: u32 = 9;

/// The heap has no room.
pub const FULL: u32 = 11;

/// The heap has stopped: its steps are used up.
pub const STOPPED: u32 = 12;

/// The room that was given has another size.
pub const ROOM: u32 = 13;
