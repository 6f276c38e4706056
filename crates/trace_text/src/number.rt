//! Reads a number from its digits.
ghost use Rattle.std.specs.Prelude.{◌<◌, ◌≤◌, ◌↔◌, slice_index, IsTrue};
ghost use Rattle.trace_text.specs.Lines.{IsReadAs};
ghost use Rattle.trace_text.specs.Numbers.{IsNumber};

/// The number that a word writes.
pub(crate) fn parse_number(word: &[u8]) -> Option<u64>
    ensures { IsReadAs IsNumber word.now result }
{
    if word == b"0".as_slice() {
        return Some(0);
    }
    if !begins_from_1(word) {
        return None;
    }
    parse_positive(word)
}

/// Whether the word begins with a digit other than 0.
fn begins_from_1(word: &[u8]) -> bool
    ensures { IsTrue result ↔ ((48 < slice_index word.now 0) × (slice_index word.now 0 ≤ 57)) }
{
    matches!(word, [b'1'..=b'9', ..])
}

/// The number that a word writes which doesn't begin with a zero or a sign.
fn parse_positive(word: &[u8]) -> Option<u64>
    requires { 48 < slice_index word.now 0 }
    ensures { IsReadAs IsNumber word.now result }
{
    match str::from_utf8(word) {
        Ok(text) => text.parse().ok(),
        Err(_) => None,
    }
}
