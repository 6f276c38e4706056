//! Images of the version before, which stored no kinds of roots, as images of this version.
ghost use Rattle.std.specs.Prelude.{◌≡◌, ◌*◌, None, length, slice_index, IfOk};
ghost use Rattle.heap_model.specs.Geometry.{roots};
ghost use Rattle.heap_model.specs.Header.{IsOldWellFormed, HasGoodHeader};
ghost use Rattle.region_header.specs.Migration.{migrated, current_words};

use std::alloc::{AllocError, Global};
use super_block::{OLD_VERSION, VERSION, VERSION_WORD};

/// The words of an image of the old version as those of one of this version: the same words, but
/// the version, and the kinds of the roots behind them, which the old version left to the program.
pub fn migrate(alloc: Global, words: &[u64], kinds: &[u32]) -> Result<Vec<u64>, AllocError>
    requires old { IsOldWellFormed (8 * length words.now) (slice_index words.now) }
    requires roots { length kinds.now ≡ roots }
    ensures ok { IfOk result (λ new. new.items ≡ migrated words.now kinds.now) }
{
    let mut copy = Vec::with_capacity(alloc, words.len() + kinds.len())?;
    copy.extend_from_slice(words)?;
    migrate_owned(copy, kinds)
}

/// The same in the room of the words, where they have room for the kinds.
pub fn migrate_owned(words: Vec<u64>, kinds: &[u32]) -> Result<Vec<u64>, AllocError>
    requires old { IsOldWellFormed (8 * length words.items) (slice_index words.items) }
    requires roots { length kinds.now ≡ roots }
    ensures ok { IfOk result (λ new. new.items ≡ migrated words.items kinds.now) }
{
    let mut new = words;
    new.reserve(kinds.len())?;
    new[VERSION_WORD as usize] = VERSION;
    for i in 0..kinds.len() {
        new.push_reserved(kinds[i] as u64);
    }
    Ok(new)
}

/// The words of an image with a good header in this version: as they are or, where they are of the
/// old version, migrated in their room.
pub fn current(words: Vec<u64>, kinds: &[u32]) -> Result<Vec<u64>, AllocError>
    requires good { HasGoodHeader None (8 * length words.items) (slice_index words.items) }
    requires roots { length kinds.now ≡ roots }
    ensures ok { IfOk result (λ new. new.items ≡ current_words words.items kinds.now) }
{
    if words[VERSION_WORD as usize] == OLD_VERSION {
        migrate_owned(words, kinds)
    } else {
        Ok(words)
    }
}
