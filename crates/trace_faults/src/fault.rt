//! The causes, and what is said of each.
ghost use Rattle.std.specs.Prelude.{◌≡◌};
ghost use Rattle.trace_faults.specs.Texts.{fault_text, key_text, second_key_text, value_text};

use std::fmt;

/// Why a line of a trace asks for nothing. Of more causes it is the first in this order.
#[derive(Clone, Copy, PartialEq, Eq, Debug)]
pub enum LineFault {
    /// It has no byte.
    Empty,
    /// It has a carriage return.
    CarriageReturn,
    /// It has a tab.
    Tab,
    /// It begins or ends with a space, or has two in a row.
    Space,
    /// Its first word is none of `put`, `get`, `del` and `move`.
    UnknownWord,
    /// Behind its first word are fewer than this takes.
    TooFewWords,
    /// Behind its first word are more than this takes.
    TooManyWords,
    /// Its key is no number of 64 bits.
    Key(NumberFault),
    /// The key that a move leads to is none.
    SecondKey(NumberFault),
    /// The value of a put is none.
    Value(ValueFault),
}

/// Why a word is no key.
#[derive(Clone, Copy, PartialEq, Eq, Debug)]
pub enum NumberFault {
    /// It has a byte that is no decimal digit, or none at all.
    NotDecimal,
    /// It begins with a zero, and goes on.
    LeadingZero,
    /// Its digits are those of 2^64 or more.
    TooLarge,
}

/// Why a word is no value.
#[derive(Clone, Copy, PartialEq, Eq, Debug)]
pub enum ValueFault {
    /// It has more digits than the longest value.
    TooLong,
    /// It has an odd number of digits.
    OddDigits,
    /// It has a byte that is no hexadecimal digit.
    NotHexadecimal,
}

impl LineFault {
    /// What is said of the line.
    pub fn text(self) -> &'static str
        ensures { result.now ≡ fault_text self }
    {
        match self {
            LineFault::Empty => "it is empty",
            LineFault::CarriageReturn => "it has a carriage return; lines end in a line feed alone",
            LineFault::Tab => "it has a tab; one space stands between words",
            LineFault::Space => "it has a space too many; one stands between words, none at an end",
            LineFault::UnknownWord => "its first word is none of put, get, del and move",
            LineFault::TooFewWords => "it has too few words",
            LineFault::TooManyWords => "it has too many words",
            LineFault::Key(fault) => text_of_key(fault),
            LineFault::SecondKey(fault) => text_of_second_key(fault),
            LineFault::Value(fault) => text_of_value(fault),
        }
    }
}

fn text_of_key(fault: NumberFault) -> &'static str
    ensures { result.now ≡ key_text fault }
{
    match fault {
        NumberFault::NotDecimal => "its key is no decimal number",
        NumberFault::LeadingZero => "its key begins with a zero",
        NumberFault::TooLarge => "its key is above 18446744073709551615",
    }
}

fn text_of_second_key(fault: NumberFault) -> &'static str
    ensures { result.now ≡ second_key_text fault }
{
    match fault {
        NumberFault::NotDecimal => "its second key is no decimal number",
        NumberFault::LeadingZero => "its second key begins with a zero",
        NumberFault::TooLarge => "its second key is above 18446744073709551615",
    }
}

fn text_of_value(fault: ValueFault) -> &'static str
    ensures { result.now ≡ value_text fault }
{
    match fault {
        ValueFault::TooLong => "its value is longer than 131072 bytes",
        ValueFault::OddDigits => "its value has an odd number of digits",
        ValueFault::NotHexadecimal => "its value has a byte that is no hexadecimal digit",
    }
}

impl fmt::Display for LineFault {
    fn fmt<W: fmt::Write>(&self, f: &mut fmt::Formatter<W>) -> fmt::Result {
        f.write_str(self.text())
    }
}
