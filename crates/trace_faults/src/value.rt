//! Why a word is no value.
ghost use Rattle.std.specs.Prelude.{ℕ, List, ◌<◌, length};
ghost use Rattle.trace_text.specs.Trace.{IsValue};
ghost use Rattle.trace_faults.specs.Faults.{IsValueFault};

use crate::fault::ValueFault;
use dict_model::LARGEST_VALUE;

/// Why the word, which has a byte or more, writes no value.
pub(crate) fn value_fault(word: &[u8]) -> ValueFault
    requires some { 0 < length word.now }
    requires none { (value : List ℕ) → ¬ (IsValue word.now value) }
    ensures { IsValueFault word.now result }
{
    if word.len() > 2 * LARGEST_VALUE as usize {
        return ValueFault::TooLong;
    }
    if word.len() % 2 == 1 {
        return ValueFault::OddDigits;
    }
    ValueFault::NotHexadecimal
}
