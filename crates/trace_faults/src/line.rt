//! Why a line asks for nothing.
ghost use Rattle.std.specs.Prelude.{◌≡◌, ◌∷◌, ◌++◌, ℕ, List, codes, Contains, []};
ghost use Rattle.trace_text.specs.Numbers.{IsNumber};
ghost use Rattle.trace_text.specs.Trace.{IsOutside};
ghost use Rattle.trace_faults.specs.Faults.{IsLineFault, IsWordsFault, words_of};
ghost use Rattle.trace_faults.specs.Verbs.{word_of, words_taken};

use crate::fault::LineFault;
use crate::number::number_fault;
use crate::pieces::{has, has_empty_word, split_once};
use crate::value::value_fault;
use crate::verb::{Verb, is_put, verb_of};

/// Why a line that asks for nothing does so.
pub fn fault_of_line(line: &[u8]) -> LineFault
    requires { IsOutside line.now }
    ensures { IsLineFault line.now result }
{
    if line.is_empty() {
        return LineFault::Empty;
    }
    if has(line, b'\r') {
        return LineFault::CarriageReturn;
    }
    if has(line, b'\t') {
        return LineFault::Tab;
    }
    if has_empty_word(line) {
        return LineFault::Space;
    }
    fault_of_words(line)
}

// Why the words of a line ask for nothing, of which none is empty.
fn fault_of_words(line: &[u8]) -> LineFault
    requires outside { IsOutside line.now }
    requires no_empty { ¬ (Contains (words_of line.now) []) }
    ensures { IsWordsFault (words_of line.now) result }
{
    let Some((word, behind)) = split_once(line, b' ') else {
        return fault_of_word(line);
    };
    match verb_of(word) {
        Some(verb) => fault_behind(verb, behind),
        None => LineFault::UnknownWord,
    }
}

// Why a line of one word asks for nothing.
fn fault_of_word(word: &[u8]) -> LineFault
    ensures { IsWordsFault (word.now ∷ []) result }
{
    match verb_of(word) {
        Some(_) => LineFault::TooFewWords,
        None => LineFault::UnknownWord,
    }
}

// Why a verb and the words behind it ask for nothing.
fn fault_behind(verb: Verb, behind: &[u8]) -> LineFault
    requires outside { IsOutside (word_of verb ++ 32 ∷ behind.now) }
    requires no_empty { ¬ (Contains (words_of behind.now) []) }
    ensures { IsWordsFault (word_of verb ∷ words_of behind.now) result }
{
    match verb {
        Verb::Get | Verb::Del => fault_of_one(verb, behind),
        Verb::Put | Verb::Move => fault_of_two(verb, behind),
    }
}

// Why a verb that takes a key asks for nothing.
fn fault_of_one(verb: Verb, behind: &[u8]) -> LineFault
    requires one { words_taken verb ≡ 1 }
    requires outside { (key : ℕ) → ¬ (IsNumber behind.now key) }
    ensures { IsWordsFault (word_of verb ∷ words_of behind.now) result }
{
    if has(behind, b' ') {
        return LineFault::TooManyWords;
    }
    match number_fault(behind) {
        Some(fault) => LineFault::Key(fault),
        None => unreachable!(),
    }
}

// Why a verb that takes a key and one word more asks for nothing.
fn fault_of_two(verb: Verb, behind: &[u8]) -> LineFault
    requires two { words_taken verb ≡ 2 }
    requires outside { IsOutside (word_of verb ++ 32 ∷ behind.now) }
    requires no_empty { ¬ (Contains (words_of behind.now) []) }
    ensures { IsWordsFault (word_of verb ∷ words_of behind.now) result }
{
    let Some((key, last)) = split_once(behind, b' ') else {
        return LineFault::TooFewWords;
    };
    if has(last, b' ') {
        return LineFault::TooManyWords;
    }
    if let Some(fault) = number_fault(key) {
        return LineFault::Key(fault);
    }
    if is_put(verb) {
        return LineFault::Value(value_fault(last));
    }
    match number_fault(last) {
        Some(fault) => LineFault::SecondKey(fault),
        None => unreachable!(),
    }
}
