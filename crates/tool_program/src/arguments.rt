//! The arguments of a command, and the words that stand for one.

/// An argument of a command: its name in the help, what it is, and the bounds of its number.
#[derive(Clone, Copy)]
pub struct Argument {
    pub name: &'static str,
    pub kind: Kind,
    pub least: u64,
    pub most: u64,
}

/// What an argument is.
#[derive(Clone, Copy, PartialEq, Eq)]
pub enum Kind {
    /// A word in its place, with any text.
    Text,
    /// A word in its place, with a number.
    Number,
    /// An option with a number.
    Option,
    /// An option with a number that has to be there.
    NeededOption,
    /// An option without a value.
    Flag,
}

pub fn text(name: &'static str) -> Argument {
    bounded(name, Kind::Text, 0, 0)
}

pub fn number(name: &'static str, least: u64, most: u64) -> Argument {
    bounded(name, Kind::Number, least, most)
}

pub fn option(name: &'static str, most: u64) -> Argument {
    bounded(name, Kind::Option, 0, most)
}

pub fn flag(name: &'static str) -> Argument {
    bounded(name, Kind::Flag, 0, 0)
}

pub fn bounded(name: &'static str, kind: Kind, least: u64, most: u64) -> Argument {
    Argument {
        name,
        kind,
        least,
        most,
    }
}

impl Argument {
    pub fn is_option(self) -> bool {
        self.name.starts_with('-')
    }

    pub fn is_needed(self) -> bool {
        !matches!(self.kind, Kind::Option | Kind::Flag)
    }

    pub fn takes(self, value: &str) -> bool {
        if self.kind == Kind::Text {
            return true;
        }
        match value.parse::<u64>() {
            Ok(number) => self.least <= number && number <= self.most,
            Err(_) => false,
        }
    }
}

/// The argument in a place, by its number from 1.
pub fn place(arguments: &[Argument], number: usize) -> Option<Argument> {
    let mut passed = 0usize;
    for argument in arguments {
        if !argument.is_option() {
            passed = passed.saturating_add(1);
            if passed == number {
                return Some(*argument);
            }
        }
    }
    None
}

pub fn option_of(arguments: &[Argument], name: &str) -> Option<Argument> {
    for argument in arguments {
        if argument.name == name {
            return Some(*argument);
        }
    }
    None
}

/// How often an option stands among the words.
pub fn times(words: &[String], name: &str) -> usize {
    let mut count = 0usize;
    for word in words {
        if parts_of(word.as_str()).0 == name {
            count = count.saturating_add(1);
        }
    }
    count
}

/// The name of an option, and the value behind an equals sign.
pub fn parts_of(word: &str) -> (&str, Option<&str>) {
    match word.split_once('=') {
        Some((name, value)) => (name, Some(value)),
        None => (word, None),
    }
}
