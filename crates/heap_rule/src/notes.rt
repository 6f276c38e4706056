//! What a change of a seat's parts makes of what is noted of it. It is done in place: a seat's notes
//! are long, and a change is of a few words.

ghost use Rattle.std.specs.Prelude.{◌<◌, ◌≤◌, ◌+◌, length};
ghost use Rattle.heap_rule.specs.Noted.{CanNote, CanUncache, IsNoted, IsUncached};

use seat_index::Change;
use seat_state::{BatchEnds, Cache, SeatNotes, Seen};
use size_table::blocks_of;
use super_block::Geometry;

/// Notes the change.
pub(crate) fn note(notes: &mut SeatNotes, geometry: Geometry, change: Change)
    requires { CanNote change geometry.capacity notes.old }
    ensures { IsNoted change geometry.capacity notes.old notes.new }
{
    match change {
        Change::Allocated { class, first } => uncache(notes, class, first),
        Change::Freed { class, block } => {
            let count = notes.caches[class as usize].count + 1;
            notes.caches[class as usize] = Cache {
                first: block,
                count,
            };
        }
        Change::Lifted {
            class,
            block,
            first,
        } => {
            uncache(notes, class, first);
            notes.batch = BatchEnds {
                descriptor: geometry.superblock_of(block),
                class,
                first: notes.batch.first_with(block),
                last: block,
                count: notes.batch.count + 1,
                linked: true,
            };
        }
        Change::Cut { d, class } => {
            notes.caches[class.number as usize] = Cache {
                first: geometry.start(d),
                count: blocks_of(class.number),
            };
            notes.seen_anchor = Seen::cleared(notes.seen_anchor, d, 1);
        }
        Change::Large { d, n } | Change::Split { d, n } => {
            notes.seen_anchor = Seen::cleared(notes.seen_anchor, d, n);
        }
    }
}

/// The first block of a cache is gone, and the one behind it comes first.
fn uncache(notes: &mut SeatNotes, class: u64, first: u64)
    requires { CanUncache notes.old class }
    ensures { IsUncached notes.old notes.new class first }
{
    let count = notes.caches[class as usize].count - 1;
    notes.caches[class as usize] = Cache { first, count };
}
