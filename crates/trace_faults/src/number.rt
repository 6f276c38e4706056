//! Why a word is no key.
ghost use Rattle.std.specs.Prelude.{◌≡◌, ◌<◌, ◌^◌, ◌↔◌, ℕ, IfSome, IfNone, IsTrue, length, slice_index};
ghost use Rattle.std.specs.Str.Parse.{AllDigits, digits_value};
ghost use Rattle.trace_text.specs.Numbers.{IsNumber};
ghost use Rattle.trace_faults.specs.Faults.{IsNumberFault, IsNumeral};

use crate::fault::NumberFault;

/// Why the word is no number of 64 bits in decimal digits, or `None` where it is one.
pub(crate) fn number_fault(word: &[u8]) -> Option<NumberFault>
    ensures some { IfSome result (IsNumberFault word.now) }
    ensures none { IfNone result ((number : ℕ) × IsNumber word.now number) }
{
    if !is_numeral(word) {
        return Some(NumberFault::NotDecimal);
    }
    if begins_with_a_zero(word) {
        return Some(NumberFault::LeadingZero);
    }
    if fits(word) {
        return None;
    }
    Some(NumberFault::TooLarge)
}

/// Whether the word has decimal digits, and nothing else.
fn is_numeral(word: &[u8]) -> bool
    ensures { IsTrue result ↔ IsNumeral word.now }
{
    !word.is_empty() && are_digits(word)
}

fn are_digits(word: &[u8]) -> bool
    ensures { IsTrue result ↔ AllDigits 10 word.now }
{
    let mut rest = word;
    while let [first, after @ ..] = rest {
        if *first < b'0' || *first > b'9' {
            return false;
        }
        rest = after;
    }
    true
}

/// Whether digits begin with a zero, and go on.
fn begins_with_a_zero(word: &[u8]) -> bool
    requires { 0 < length word.now }
    ensures { IsTrue result ↔ ((slice_index word.now 0 ≡ 48) × (1 < length word.now)) }
{
    word[0] == b'0' && word.len() > 1
}

/// Whether digits without a leading zero write a number of 64 bits.
fn fits(word: &[u8]) -> bool
    requires digits { IsNumeral word.now }
    requires no_zero { slice_index word.now 0 ≡ 48 → length word.now ≡ 1 }
    ensures { IsTrue result ↔ (digits_value 10 word.now < 2 ^ 64) }
{
    match str::from_utf8(word) {
        Ok(text) => text.parse::<u64>().is_ok(),
        Err(_) => false,
    }
}
