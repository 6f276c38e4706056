//! What the crate clap is told of each command, and what is read of its matches.
ghost use Rattle.std.specs.Prelude.{◌≡◌, ◌≢◌, ◌<◌, ◌^◌, ℕ, true, List, [], IfOk, IsOkAnd, IsErrOf};
ghost use Rattle.clap.specs.Words.{app_of, kind_of, is_simple, is_simple_and_free, fault_of, rows_of, found_of, with_rule};
ghost use Rattle.clap.specs.declared.error.kind.ErrorKind.TheVariants.{OutOfMemory};
ghost use Rattle.tool_command.specs.Command.{texts};
ghost use Rattle.tool_command.specs.CommandLine.{format_app, show_app, drain_app, gen_app, with_limits, run_app, rebuild_app, replay_app, conservative_app, count_app, word_rule, number_rule, option_rule, needed_option_rule, flag_rule, IsMatchedBy, HasText, HasNumber, HasNumberOr, HasFlag};
ghost use Rattle.tool_command.specs.declared.command_line.Refusal.TheVariants.{Usage, Memory};

use crate::trace_plan::{GREATEST_SEED, MOST_REQUESTS};
use clap::builder::ValueParser;
use clap::error::ErrorKind;
use clap::{Arg, ArgAction, ArgMatches, Command, Error};
use image_run::{MOST_BUDGET, MOST_WORKERS};
use std::alloc::{AllocError, Global};
use super_block::{LARGEST_CAPACITY, LAST_CLASS};

/// Why words were not taken.
#[derive(Clone, Copy, Debug, PartialEq, Eq)]
pub enum Refusal {
    /// They ask for nothing that there is.
    Usage,
    /// Memory ran out.
    Memory,
}

impl From<AllocError> for Refusal {
    ghost from_gives = { λ _ refusal. refusal ≡ Memory };

    fn from(_: AllocError) -> Self {
        Refusal::Memory
    }
}

impl From<Error> for Refusal {
    ghost from_gives = { λ error refusal. refusal ≡ Usage → kind_of error ≢ OutOfMemory };

    fn from(error: Error) -> Self {
        if error.kind() == ErrorKind::OutOfMemory {
            Refusal::Memory
        } else {
            Refusal::Usage
        }
    }
}

// Each part is added to the command as it was built so far, want of memory and all: so a command is
// a chain of parts, and no step of it has a way out of its own.

/// `format IMAGE S`.
pub fn format_command<'a>(alloc: Global) -> Result<Command<'a>, AllocError>
    ensures { IfOk result (λ command. app_of command ≡ format_app) }
{
    let command = with_word(alloc, Ok(Command::new(alloc, "format")), "IMAGE");
    with_number(alloc, command, "S", 1, LARGEST_CAPACITY)
}

/// `show IMAGE [--map] [--par]`.
pub fn show_command<'a>(alloc: Global) -> Result<Command<'a>, AllocError>
    ensures { IfOk result (λ command. app_of command ≡ show_app) }
{
    let command = with_word(alloc, Ok(Command::new(alloc, "show")), "IMAGE");
    let command = with_flag(alloc, command, "map");
    with_flag(alloc, command, "par")
}

/// `drain IMAGE CLASS`.
pub fn drain_command<'a>(alloc: Global) -> Result<Command<'a>, AllocError>
    ensures { IfOk result (λ command. app_of command ≡ drain_app) }
{
    let command = with_word(alloc, Ok(Command::new(alloc, "drain")), "IMAGE");
    with_number(alloc, command, "CLASS", 1, LAST_CLASS)
}

/// `gen N SEED`.
pub fn gen_command<'a>(alloc: Global) -> Result<Command<'a>, AllocError>
    ensures { IfOk result (λ command. app_of command ≡ gen_app) }
{
    let command = with_number(alloc, Ok(Command::new(alloc, "gen")), "N", 0, MOST_REQUESTS);
    with_number(alloc, command, "SEED", 0, GREATEST_SEED)
}

/// `run IMAGE --workers N [--stop K] [--seed X] [--sum] [--map]`.
pub fn run_command<'a>(alloc: Global) -> Result<Command<'a>, AllocError>
    ensures { IfOk result (λ command. app_of command ≡ run_app) }
{
    let command = with_word(alloc, Ok(Command::new(alloc, "run")), "IMAGE");
    let command = with_needed_option(alloc, command, "workers", 1, MOST_WORKERS);
    let command = with_limits(alloc, command);
    let command = with_flag(alloc, command, "sum");
    with_flag(alloc, command, "map")
}

/// `rebuild IMAGE [--stop K] [--seed X]`.
pub fn rebuild_command<'a>(alloc: Global) -> Result<Command<'a>, AllocError>
    ensures { IfOk result (λ command. app_of command ≡ rebuild_app) }
{
    let command = with_word(alloc, Ok(Command::new(alloc, "rebuild")), "IMAGE");
    with_limits(alloc, command)
}

/// `replay IMAGE [--seed X]`.
pub fn replay_command<'a>(alloc: Global) -> Result<Command<'a>, AllocError>
    ensures { IfOk result (λ command. app_of command ≡ replay_app) }
{
    let command = with_word(alloc, Ok(Command::new(alloc, "replay")), "IMAGE");
    with_option(alloc, command, "seed", 0, u64::MAX)
}

/// `conservative IMAGE [--map]`.
pub fn conservative_command<'a>(alloc: Global) -> Result<Command<'a>, AllocError>
    ensures { IfOk result (λ command. app_of command ≡ conservative_app) }
{
    let command = with_word(alloc, Ok(Command::new(alloc, "conservative")), "IMAGE");
    with_flag(alloc, command, "map")
}

/// `count IMAGE [--map]`.
pub fn count_command<'a>(alloc: Global) -> Result<Command<'a>, AllocError>
    ensures { IfOk result (λ command. app_of command ≡ count_app) }
{
    let command = with_word(alloc, Ok(Command::new(alloc, "count")), "IMAGE");
    with_flag(alloc, command, "map")
}

// The command with the options `[--stop K] [--seed X]`.
fn with_limits<'a>(
    alloc: Global,
    command: Result<Command<'a>, AllocError>,
) -> Result<Command<'a>, AllocError>
    ensures { IfOk result (λ limited. IsOkAnd command.entry (λ shorter.
        app_of limited ≡ with_limits (app_of shorter))) }
{
    let command = with_option(alloc, command, "stop", 0, MOST_BUDGET);
    with_option(alloc, command, "seed", 0, u64::MAX)
}

// The command with a word that has to be there.
fn with_word<'a>(
    alloc: Global,
    command: Result<Command<'a>, AllocError>,
    id: &'a str,
) -> Result<Command<'a>, AllocError>
    ensures { IfOk result (λ longer. IsOkAnd command.entry (λ shorter.
        app_of longer ≡ with_rule (app_of shorter) (word_rule id.entry.now))) }
{
    let command = command?;
    command.arg(Arg::new(alloc, id).required(true))
}

// The command with a number of these bounds that has to be there.
fn with_number<'a>(
    alloc: Global,
    command: Result<Command<'a>, AllocError>,
    id: &'a str,
    least: u64,
    most: u64,
) -> Result<Command<'a>, AllocError>
    ensures { IfOk result (λ longer. IsOkAnd command.entry (λ shorter.
        app_of longer ≡ with_rule (app_of shorter) (number_rule id.entry.now least most))) }
{
    let command = command?;
    let number = ValueParser::unsigned(least, most);
    command.arg(Arg::new(alloc, id).required(true).value_parser(number))
}

// The command with an option that takes a number of these bounds.
fn with_option<'a>(
    alloc: Global,
    command: Result<Command<'a>, AllocError>,
    id: &'a str,
    least: u64,
    most: u64,
) -> Result<Command<'a>, AllocError>
    ensures { IfOk result (λ longer. IsOkAnd command.entry (λ shorter.
        app_of longer ≡ with_rule (app_of shorter) (option_rule id.entry.now least most))) }
{
    let command = command?;
    let number = ValueParser::unsigned(least, most);
    command.arg(Arg::new(alloc, id).long(id).value_parser(number))
}

// The command with such an option that has to be there.
fn with_needed_option<'a>(
    alloc: Global,
    command: Result<Command<'a>, AllocError>,
    id: &'a str,
    least: u64,
    most: u64,
) -> Result<Command<'a>, AllocError>
    ensures { IfOk result (λ longer. IsOkAnd command.entry (λ shorter.
        app_of longer ≡ with_rule (app_of shorter) (needed_option_rule id.entry.now least most))) }
{
    let command = command?;
    let number = ValueParser::unsigned(least, most);
    let option = Arg::new(alloc, id).long(id).required(true);
    command.arg(option.value_parser(number))
}

// The command with an option without a value.
fn with_flag<'a>(
    alloc: Global,
    command: Result<Command<'a>, AllocError>,
    id: &'a str,
) -> Result<Command<'a>, AllocError>
    ensures { IfOk result (λ longer. IsOkAnd command.entry (λ shorter.
        app_of longer ≡ with_rule (app_of shorter) (flag_rule id.entry.now))) }
{
    let command = command?;
    let flag = Arg::new(alloc, id).long(id).action(ArgAction::SetTrue);
    command.arg(flag)
}

/// What clap makes of the words, of which the first is the command's name. It takes the command as
/// it was built, with the want of memory that there may have been.
pub fn match_words<'a>(
    command: Result<Command<'a>, AllocError>,
    words: &'a [String],
) -> Result<ArgMatches<'a>, Refusal>
    requires simple { IfOk command (λ built. is_simple (app_of built) ≡ true) }
    requires free { IfOk command (λ built. is_simple_and_free (app_of built) ≡ true) }
    ensures ok { IfOk result (λ matches. IsOkAnd command.entry (λ built.
        IsMatchedBy (app_of built) (texts words.entry.now) matches)) }
    ensures err { IsErrOf result Refusal.Usage → IsOkAnd command.entry (λ built.
        fault_of (app_of built) (texts words.entry.now) ≢ []) }
{
    Ok(command?.try_get_matches_from(words)?)
}

/// The text given for an argument, which is given.
#[tactic(auto, using(crate::proofs::CommandLemmas::text_in_rows))]
pub fn text_of<'a>(matches: &ArgMatches<'a>, id: &str) -> &'a str
    requires { (text : List ℕ) × HasText (rows_of (found_of matches.now)) id.now text }
    ensures { HasText (rows_of (found_of matches.now)) id.now result.now }
{
    let Some(text) = matches.get_str(id) else {
        unreachable!();
    };
    text
}

/// The number given for an argument, which is given.
pub fn number_of(matches: &ArgMatches<'_>, id: &str) -> u64
    requires { (n : ℕ) × HasNumber (rows_of (found_of matches.now)) id.now n × (n < 2 ^ 64) }
    ensures { HasNumber (rows_of (found_of matches.now)) id.now result }
{
    let Some(number) = matches.get_one::<u64>(id) else {
        unreachable!();
    };
    number
}

/// The number given for an argument; where none was given, the other.
pub fn number_or(matches: &ArgMatches<'_>, id: &str, other: u64) -> u64
    requires { (n : ℕ) × HasNumberOr (rows_of (found_of matches.now)) id.now other n
        × (n < 2 ^ 64) }
    ensures { HasNumberOr (rows_of (found_of matches.now)) id.now other result }
{
    match matches.get_one::<u64>(id) {
        Some(number) => number,
        None => other,
    }
}

/// Whether an option was given.
#[tactic(auto, using(crate::proofs::CommandLemmas::text_in_rows))]
pub fn has_flag(matches: &ArgMatches<'_>, id: &str) -> bool
    ensures { HasFlag (rows_of (found_of matches.now)) id.now result }
{
    match matches.get_str(id) {
        Some(text) => text == "true",
        None => false,
    }
}
