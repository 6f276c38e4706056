//! A value as words, eight of its bytes in each, the lowest first.
ghost use Rattle.std.specs.Prelude.{◌≡◌, ◌+◌, ◌-◌, ◌*◌, ◌^◌, ◌<◌, ◌≤◌, ◌++◌};
ghost use Rattle.std.specs.Prelude.{length, take, drop, slice_index};
ghost use Rattle.byteorder.specs.Endian.{little_bytes};
ghost use Rattle.heap_model.specs.Image.{image_of_bytes};

/// The byte at the index; 0 behind the end.
fn byte_at(value: &[u8], index: usize) -> u8
    ensures { result ≡ slice_index value.now index }
{
    match value.get(index) {
        Some(byte) => *byte,
        None => 0,
    }
}

/// Word `index` of a value; behind its end zeros.
pub(crate) fn value_word(value: &[u8], index: usize) -> u64
    requires { index < 2 ^ 32 }
    ensures { result ≡ image_of_bytes value.now index }
{
    let from = 8 * index;
    u64::from_le_bytes([
        byte_at(value, from),
        byte_at(value, from + 1),
        byte_at(value, from + 2),
        byte_at(value, from + 3),
        byte_at(value, from + 4),
        byte_at(value, from + 5),
        byte_at(value, from + 6),
        byte_at(value, from + 7),
    ])
}

/// Puts the bytes of a word into the output from an index on, as far as they fit.
pub(crate) fn put_word(out: &mut [u8], from: usize, word: u64)
    requires { from ≤ length out.old }
    ensures bytes { out.new ≡ take from out.old
        ++ (take (length out.old - from) (little_bytes 8 word) ++ drop (from + 8) out.old) }
    ensures same { length out.new ≡ length out.old }
{
    let count = 8.min(out.len() - from);
    out[from..from + count].copy_from_slice(&word.to_le_bytes()[..count]);
}
