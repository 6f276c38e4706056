//! The first word of a request.
ghost use Rattle.std.specs.Prelude.{◌≡◌, ◌≢◌, ◌↔◌, IfSome, IfNone, IsTrue};
ghost use Rattle.trace_faults.specs.Verbs.{word_of};

/// What a request does, by its first word.
#[derive(Clone, Copy)]
pub(crate) enum Verb {
    Put,
    Get,
    Del,
    Move,
}

/// The verb that the word is, or `None` where it is none.
pub(crate) fn verb_of(word: &[u8]) -> Option<Verb>
    ensures some { IfSome result (λ verb. word.now ≡ word_of verb) }
    ensures none { IfNone result ((verb : Verb) → word.now ≢ word_of verb) }
{
    if is_word(word, b"put") {
        return Some(Verb::Put);
    }
    if is_word(word, b"get") {
        return Some(Verb::Get);
    }
    if is_word(word, b"del") {
        return Some(Verb::Del);
    }
    if is_word(word, b"move") {
        return Some(Verb::Move);
    }
    None
}

fn is_word(word: &[u8], wanted: &[u8]) -> bool
    ensures { IsTrue result ↔ (word.now ≡ wanted.now) }
{
    word == wanted
}

/// Whether the verb is that of a put.
pub(crate) fn is_put(verb: Verb) -> bool
    ensures { IsTrue result ↔ (verb ≡ Verb.Put) }
{
    matches!(verb, Verb::Put)
}
