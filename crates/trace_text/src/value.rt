//! Values as printed words.
ghost use Rattle.std.specs.Prelude.{◌≡◌, ◌++◌, OnOk};
ghost use Rattle.std.specs.String.{string_bytes};
ghost use Rattle.trace_text.specs.Values.{value_word};

use std::alloc::AllocError;

/// Writes a value in lower-case hexadecimal digits, or a hyphen where it is empty.
pub(crate) fn write_value(text: &mut String, value: &[u8]) -> Result<(), AllocError>
    ensures ok { OnOk result
        (string_bytes text.new ≡ string_bytes text.old ++ value_word value.now) }
{
    if value.is_empty() {
        return text.push_str("-");
    }
    let digits = hex::encode(*text.allocator(), value)?;
    text.push_str(&digits)
}
