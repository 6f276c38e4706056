//! Bytes in front of a separator, and behind it.
ghost use Rattle.std.specs.Prelude.{◌≡◌, ◌≢◌, ℕ, List, ◌∷◌, ◌++◌, [], ◌<◌, length, IfSome, IfNone, MatchOption};
ghost use Rattle.std.specs.List.{All};
ghost use Rattle.trace_text.specs.Lines.{lines_of};

/// The bytes before the first separator and those behind it, or `None` where there is no separator.
pub(crate) fn split_once(bytes: &[u8], separator: u8) -> Option<(&[u8], &[u8])>
    ensures some { IfSome result (λ parts. bytes.now ≡ parts.0.now ++ separator ∷ parts.1.now) }
    ensures first { IfSome result (λ parts. All (λ b. b ≢ separator) parts.0.now) }
    ensures none { IfNone result (All (λ b. b ≢ separator) bytes.now) }
{
    let at = bytes.iter().position(|byte| *byte == separator)?;
    Some((&bytes[..at], &bytes[at + 1..]))
}

/// The bytes behind a prefix, or `None` where they begin otherwise.
pub(crate) fn behind<'a>(bytes: &'a [u8], prefix: &[u8]) -> Option<&'a [u8]>
    ensures { MatchOption result ((rest : List ℕ) → bytes.now ≢ prefix.now ++ rest)
        (λ rest. bytes.now ≡ prefix.now ++ rest.now) }
{
    bytes.strip_prefix(prefix)
}

/// The first line of a text and what follows it, or `None` where the text is empty.
pub(crate) fn next_line(text: &[u8]) -> Option<(&[u8], &[u8])>
    ensures some { IfSome result (λ parts.
        lines_of text.now ≡ parts.0.now ∷ lines_of parts.1.now) }
    ensures shorter { IfSome result (λ parts. length parts.1.now < length text.now) }
    ensures none { IfNone result (text.now ≡ []) }
{
    if text.is_empty() {
        return None;
    }
    match split_once(text, b'\n') {
        Some((line, after)) => Some((line, after)),
        None => Some((text, &[])),
    }
}

/// How many lines the text has.
pub(crate) fn count_lines(text: &[u8]) -> usize
    ensures { result ≡ length (lines_of text.now) }
{
    let mut lines = 0;
    let mut rest = text;
    while let Some((_, after)) = next_line(rest) {
        lines += 1;
        rest = after;
    }
    lines
}
