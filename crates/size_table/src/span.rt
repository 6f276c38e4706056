//! Requests that are too large for a class.

ghost use Rattle.std.specs.Prelude.{◌≡◌};
ghost use Rattle.heap_model.specs.Sizes.{span_of};

/// The bytes of a superblock.
pub const SUPERBLOCK_BYTES: u64 = 65536;

/// How many adjoining superblocks hold so many bytes: at least one, for 0 bytes too.
pub fn span_of(bytes: u64) -> u64
    ensures { result ≡ span_of bytes }
{
    bytes.div_ceil(SUPERBLOCK_BYTES).max(1)
}
