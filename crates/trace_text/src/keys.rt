//! The keys of maps and their values, as lines.
ghost use Rattle.std.specs.Prelude.{◌≡◌, ◌++◌, Some, true, false, map, IfOk, OnOk};
ghost use Rattle.std.specs.String.{string_bytes};
ghost use Rattle.std.specs.List.{flat_map};
ghost use Rattle.trace_text.specs.Keys.{key_line, sum_line, bytes_of, AreEntries, WritesKeys};
ghost use Rattle.trace_text.specs.Shown.{shown};

use crate::value::write_value;
use region_header::Bytes;
use std::alloc::{AllocError, Global};
use std::collections::BTreeMap;

/// Writes what is told of the keys of all maps: their sum, or a line for each in ascending order.
pub(crate) fn write_keys(
    text: &mut String,
    maps: &[BTreeMap<u64, Bytes>],
    sum: bool,
) -> Result<(), AllocError>
    ensures ok { OnOk result
        (WritesKeys (Some maps.now) sum (string_bytes text.old) (string_bytes text.new)) }
{
    let entries = sorted_entries(*text.allocator(), maps)?;
    if sum {
        write_sum(text, &entries)
    } else {
        write_lines(text, &entries)
    }
}

/// The keys of all maps with their values, in ascending order.
fn sorted_entries<'a>(
    alloc: Global,
    maps: &'a [BTreeMap<u64, Bytes>],
) -> Result<Vec<(u64, &'a Bytes)>, AllocError>
    ensures ok { IfOk result (λ entries. AreEntries maps.now (map shown entries.items)) }
{
    let mut entries = Vec::new(alloc);
    for keys in maps {
        add_entries(&mut entries, keys)?;
    }
    entries.sort_by_key(|entry| entry.0)?;
    Ok(entries)
}

/// Adds the keys of a map with their values.
fn add_entries<'a>(
    entries: &mut Vec<(u64, &'a Bytes)>,
    keys: &'a BTreeMap<u64, Bytes>,
) -> Result<(), AllocError>
    ensures ok { OnOk result (map shown entries.new.items
        ≡ map shown entries.old.items ++ keys.now.entries) }
{
    for (key, value) in keys {
        entries.push((*key, value))?;
    }
    Ok(())
}

/// Writes the line that counts keys and bytes.
fn write_sum(text: &mut String, entries: &[(u64, &Bytes)]) -> Result<(), AllocError>
    ensures ok { OnOk result (string_bytes text.new
        ≡ string_bytes text.old ++ sum_line (map shown entries.now)) }
{
    let count = entries.len();
    let bytes = count_bytes(entries);
    writeln!(text, "keys {count} bytes {bytes}")
}

/// How many bytes the values have, which a `u128` counts in any case.
fn count_bytes(entries: &[(u64, &Bytes)]) -> u128
    ensures { result ≡ bytes_of (map shown entries.now) }
{
    let mut bytes: u128 = 0;
    for (_, value) in entries {
        bytes += value.as_slice().len() as u128;
    }
    bytes
}

/// Writes a line for each key.
fn write_lines(text: &mut String, entries: &[(u64, &Bytes)]) -> Result<(), AllocError>
    ensures ok { OnOk result (string_bytes text.new
        ≡ string_bytes text.old ++ flat_map key_line (map shown entries.now)) }
{
    for (key, value) in entries {
        write_line(text, *key, value.as_slice())?;
    }
    Ok(())
}

/// Writes the line of a key.
fn write_line(text: &mut String, key: u64, value: &[u8]) -> Result<(), AllocError>
    ensures ok { OnOk result (string_bytes text.new
        ≡ string_bytes text.old ++ key_line (key, value.now)) }
{
    write!(text, "key {key} ")?;
    write_value(text, value)?;
    text.push_str("\n")
}
