//! Ascending numbers, printed as their longest runs.
ghost use Rattle.std.specs.Prelude.{◌≡◌, ◌+◌, ◌++◌, ◌↔◌, IsTrue, OnOk};
ghost use Rattle.std.specs.String.{string_bytes};
ghost use Rattle.trace_text.specs.Ranges.{ranges_of, run_text};

use std::alloc::AllocError;

/// Writes ascending numbers as their longest runs, each behind a space: ` 7` or ` 3-9`.
pub(crate) fn write_ranges(text: &mut String, numbers: &[u64]) -> Result<(), AllocError>
    ensures ok { OnOk result
        (string_bytes text.new ≡ string_bytes text.old ++ ranges_of numbers.now) }
{
    let [first, others @ ..] = numbers else {
        return Ok(());
    };
    let mut first = *first;
    let mut last = first;
    for number in others {
        if !is_next(last, *number) {
            write_run(text, first, last)?;
            first = *number;
        }
        last = *number;
    }
    write_run(text, first, last)
}

fn write_run(text: &mut String, first: u64, last: u64) -> Result<(), AllocError>
    ensures ok { OnOk result (string_bytes text.new
        ≡ string_bytes text.old ++ run_text (record { first = first; last = last })) }
{
    if first == last {
        return write!(text, " {first}");
    }
    write!(text, " {first}-{last}")
}

/// Whether the number follows the last one.
fn is_next(last: u64, number: u64) -> bool
    ensures { IsTrue result ↔ (number ≡ last + 1) }
{
    last < number && number - last == 1
}
