//! What is wrong in words that ask for no command, in a line for the user. What words ask for is
//! decided elsewhere, by clap: this only finds the word to name.
ghost use Rattle.std.specs.Prelude.{IfOk};
ghost use Rattle.std.specs.String.{string_bytes};
ghost use Rattle.tool_program.specs.Errors.{IsComplaint};

use crate::arguments::{
    Argument, Kind, bounded, flag, number, option, option_of, parts_of, place, text, times,
};
use image_run::{MOST_BUDGET, MOST_WORKERS};
use std::alloc::{AllocError, Global};
use super_block::{LARGEST_CAPACITY, LAST_CLASS};
use tool_command::{GREATEST_SEED, MOST_REQUESTS};

/// The line on what is wrong in the words behind the program's name. It is empty where they wish
/// for help, and where nothing wrong is found.
pub fn complaint_on(alloc: Global, words: &[String]) -> Result<String, AllocError>
    ensures { IfOk result (λ line. IsComplaint (string_bytes line)) }
{
    match fault_in(alloc, words)? {
        Some(fault) => format!(in alloc; "heap_tool: {fault}\n"),
        None => Ok(String::new(alloc)),
    }
}

// What is wrong, by the command that the first word names.
fn fault_in(alloc: Global, words: &[String]) -> Result<Option<String>, AllocError> {
    match words {
        [first, ..] if wishes_for_help(first.as_str(), words) => Ok(None),
        [first, rest @ ..] => fault_behind(alloc, first.as_str(), rest),
        [] => told(format!(in alloc; "no command is named")),
    }
}

fn fault_behind(
    alloc: Global,
    command: &str,
    words: &[String],
) -> Result<Option<String>, AllocError> {
    let image = text("IMAGE");
    let stop = option("--stop", MOST_BUDGET);
    let seed = option("--seed", u64::MAX);
    let map = flag("--map");
    if command == "format" {
        let capacity = number("S", 1, LARGEST_CAPACITY);
        return fault_of(alloc, command, &[image, capacity], words);
    }
    if command == "show" {
        return fault_of(alloc, command, &[image, map, flag("--par")], words);
    }
    if command == "drain" {
        let class = number("CLASS", 1, LAST_CLASS);
        return fault_of(alloc, command, &[image, class], words);
    }
    if command == "gen" {
        let requests = number("N", 0, MOST_REQUESTS);
        let seed = number("SEED", 0, GREATEST_SEED);
        return fault_of(alloc, command, &[requests, seed], words);
    }
    if command == "run" {
        let workers = bounded("--workers", Kind::NeededOption, 1, MOST_WORKERS);
        let arguments = [image, workers, stop, seed, flag("--sum"), map];
        return fault_of(alloc, command, &arguments, words);
    }
    if command == "rebuild" {
        return fault_of(alloc, command, &[image, stop, seed], words);
    }
    if command == "replay" {
        return fault_of(alloc, command, &[image, seed], words);
    }
    if command == "conservative" || command == "count" {
        return fault_of(alloc, command, &[image, map], words);
    }
    told(format!(in alloc; "{command:?} is no command"))
}

fn told(fault: Result<String, AllocError>) -> Result<Option<String>, AllocError> {
    Ok(Some(fault?))
}

fn wishes_for_help(first: &str, words: &[String]) -> bool {
    if first == "help" {
        return true;
    }
    for word in words {
        let word = word.as_str();
        if word == "--help" || word == "-h" {
            return true;
        }
        if word == "--" {
            return false;
        }
    }
    false
}

/// How far the words of a command were looked through.
#[derive(Clone, Copy)]
struct Walk {
    /// How many words stood in a place of their own.
    places: usize,
    /// The option whose value comes next.
    waiting: Option<Argument>,
    /// Whether options have ended.
    only_places: bool,
}

// The first word that a command with these arguments doesn't take, or else the first argument that
// it lacks.
fn fault_of(
    alloc: Global,
    command: &str,
    arguments: &[Argument],
    words: &[String],
) -> Result<Option<String>, AllocError> {
    let mut walk = Walk {
        places: 0,
        waiting: None,
        only_places: false,
    };
    for word in words {
        let fault = walk.step(alloc, command, arguments, word.as_str(), words)?;
        if fault.is_some() {
            return Ok(fault);
        }
    }
    if let Some(option) = walk.waiting {
        return told(format!(in alloc; "{} has no value", option.name));
    }
    lack(alloc, arguments, words, walk.places)
}

impl Walk {
    // Looks at one word more, of these.
    fn step(
        &mut self,
        alloc: Global,
        command: &str,
        arguments: &[Argument],
        word: &str,
        words: &[String],
    ) -> Result<Option<String>, AllocError> {
        if let Some(option) = self.waiting {
            self.waiting = None;
            return wrong_value(alloc, option, word);
        }
        if self.only_places || !word.starts_with('-') || word == "-" {
            self.places = self.places.saturating_add(1);
            return match place(arguments, self.places) {
                Some(argument) => wrong_value(alloc, argument, word),
                None => told(format!(in alloc; "{word:?} is a word too many")),
            };
        }
        if word == "--" {
            self.only_places = true;
            return Ok(None);
        }
        self.take_option(alloc, command, arguments, word, words)
    }

    // Looks at an option, which stands among these words.
    fn take_option(
        &mut self,
        alloc: Global,
        command: &str,
        arguments: &[Argument],
        word: &str,
        words: &[String],
    ) -> Result<Option<String>, AllocError> {
        let (name, value) = parts_of(word);
        let Some(option) = option_of(arguments, name) else {
            return told(format!(in alloc; "{word:?} is no option of {command}"));
        };
        if times(words, name) > 1 {
            return told(format!(in alloc; "{name} stands twice"));
        }
        match value {
            Some(_) if option.kind == Kind::Flag => {
                told(format!(in alloc; "{word:?} has a value, and {name} takes none"))
            }
            Some(value) => wrong_value(alloc, option, value),
            None => {
                if option.kind != Kind::Flag {
                    self.waiting = Some(option);
                }
                Ok(None)
            }
        }
    }
}

// What is wrong in a value that an argument was given, if it doesn't take it.
fn wrong_value(
    alloc: Global,
    argument: Argument,
    value: &str,
) -> Result<Option<String>, AllocError> {
    if argument.takes(value) {
        return Ok(None);
    }
    let Argument {
        name,
        least,
        most,
        ..
    } = argument;
    told(format!(in alloc; "{name} is {least} to {most}, and not {value:?}"))
}

// The first argument that has to be there, and isn't.
fn lack(
    alloc: Global,
    arguments: &[Argument],
    words: &[String],
    places: usize,
) -> Result<Option<String>, AllocError> {
    let mut number = 0usize;
    for argument in arguments {
        let is_there = if argument.is_option() {
            times(words, argument.name) > 0
        } else {
            number = number.saturating_add(1);
            number <= places
        };
        if argument.is_needed() && !is_there {
            return told(format!(in alloc; "{} is missing", argument.name));
        }
    }
    Ok(None)
}
