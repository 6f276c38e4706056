//! Bytes in front of a separator, and behind it.
ghost use Rattle.std.specs.Prelude.{◌≡◌, ◌≢◌, ◌∷◌, ◌++◌, ◌↔◌, [], false, Contains, IfSome, IfNone, IsTrue};
ghost use Rattle.std.specs.List.{All};
ghost use Rattle.trace_text.specs.Lines.{lines_of};
ghost use Rattle.trace_faults.specs.Faults.{Has, words_of};

/// The bytes before the first separator and those behind it, or `None` where there is no separator.
pub(crate) fn split_once(bytes: &[u8], separator: u8) -> Option<(&[u8], &[u8])>
    ensures some { IfSome result (λ parts. bytes.now ≡ parts.0.now ++ separator ∷ parts.1.now) }
    ensures first { IfSome result (λ parts. All (λ b. b ≢ separator) parts.0.now) }
    ensures none { IfNone result (All (λ b. b ≢ separator) bytes.now) }
{
    let at = bytes.iter().position(|byte| *byte == separator)?;
    Some((&bytes[..at], &bytes[at + 1..]))
}

/// Whether the byte stands in the line.
pub(crate) fn has(line: &[u8], byte: u8) -> bool
    ensures yes { IsTrue result → Has byte line.now }
    ensures no { result ≡ false → All (λ b. b ≢ byte) line.now }
{
    split_once(line, byte).is_some()
}

/// Whether the line begins or ends with a space, or has two in a row.
pub(crate) fn has_empty_word(line: &[u8]) -> bool
    ensures { IsTrue result ↔ Contains (words_of line.now) [] }
{
    let mut rest = line;
    while let Some((word, after)) = split_once(rest, b' ') {
        if word.is_empty() {
            return true;
        }
        rest = after;
    }
    rest.is_empty()
}

/// The first line of a text and what follows it.
pub(crate) fn first_line(text: &[u8]) -> (&[u8], &[u8])
    ensures { text.now ≢ [] → lines_of text.now ≡ result.0.now ∷ lines_of result.1.now }
{
    match split_once(text, b'\n') {
        Some((line, after)) => (line, after),
        None => (text, &[]),
    }
}
