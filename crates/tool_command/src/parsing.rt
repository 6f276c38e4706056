//! The command that the words of the command line ask for, as the crate clap takes them.
ghost use Rattle.std.specs.Prelude.{◌≡◌, ◌≢◌, [], Some, codes, slice_get, IfOk, IsErrOf};
ghost use Rattle.clap.specs.Words.{fault_of};
ghost use Rattle.tool_command.specs.Command.{Asks, IsFaultless, IsUsage, texts};
ghost use Rattle.tool_command.specs.CommandLine.{format_app, show_app, drain_app, gen_app, run_app, rebuild_app, replay_app, conservative_app, count_app};
ghost use Rattle.tool_command.specs.Invocations.{command_of};

use crate::command::{
    Invocation, read_conservative, read_count, read_drain, read_format, read_gen, read_rebuild,
    read_replay, read_run, read_show,
};
use crate::command_line::{
    Refusal, conservative_command, count_command, drain_command, format_command, gen_command,
    match_words, rebuild_command, replay_command, run_command, show_command,
};
use std::alloc::Global;

/// The invocation that the words are. The first one chooses the command; clap reads the others, and
/// where it finds no fault in them, they ask for the command: no words are refused but those that
/// name none, and those in which clap finds a fault.
pub fn parse<'a>(alloc: Global, words: &'a [String]) -> Result<Invocation<'a>, Refusal>
    ensures ok { IfOk result (λ invocation. Asks (texts words.entry.now) (command_of invocation)) }
    ensures err { IsErrOf result Refusal.Usage → IsUsage (texts words.entry.now) }
    ensures faultless { IfOk result (λ _. IsFaultless (texts words.entry.now)) }
    ensures faulty { IsErrOf result Refusal.Usage → ¬ (IsFaultless (texts words.entry.now)) }
{
    match words {
        [first, ..] => parse_command(alloc, first.as_str(), words),
        [] => Err(Refusal::Usage),
    }
}

fn parse_command<'a>(
    alloc: Global,
    command: &str,
    words: &'a [String],
) -> Result<Invocation<'a>, Refusal>
    requires { slice_get (texts words.now) 0 ≡ Some command.now }
    ensures ok { IfOk result (λ invocation. Asks (texts words.entry.now) (command_of invocation)) }
    ensures err { IsErrOf result Refusal.Usage → IsUsage (texts words.entry.now) }
{
    if command == "format" {
        return parse_format(alloc, words);
    }
    if command == "show" {
        return parse_show(alloc, words);
    }
    if command == "drain" {
        return parse_drain(alloc, words);
    }
    if command == "gen" {
        return parse_gen(alloc, words);
    }
    if command == "run" {
        return parse_run(alloc, words);
    }
    if command == "rebuild" {
        return parse_rebuild(alloc, words);
    }
    if command == "replay" {
        return parse_replay(alloc, words);
    }
    if command == "conservative" {
        return parse_conservative(alloc, words);
    }
    if command == "count" {
        return parse_count(alloc, words);
    }
    Err(Refusal::Usage)
}

fn parse_format<'a>(alloc: Global, words: &'a [String]) -> Result<Invocation<'a>, Refusal>
    requires { slice_get (texts words.now) 0 ≡ Some (codes "format") }
    ensures ok { IfOk result (λ invocation. Asks (texts words.entry.now) (command_of invocation)) }
    ensures err { IsErrOf result Refusal.Usage
        → fault_of format_app (texts words.entry.now) ≢ [] }
{
    let matches = match_words(format_command(alloc), words)?;
    Ok(read_format(&matches))
}

fn parse_show<'a>(alloc: Global, words: &'a [String]) -> Result<Invocation<'a>, Refusal>
    requires { slice_get (texts words.now) 0 ≡ Some (codes "show") }
    ensures ok { IfOk result (λ invocation. Asks (texts words.entry.now) (command_of invocation)) }
    ensures err { IsErrOf result Refusal.Usage
        → fault_of show_app (texts words.entry.now) ≢ [] }
{
    let matches = match_words(show_command(alloc), words)?;
    Ok(read_show(&matches))
}

fn parse_drain<'a>(alloc: Global, words: &'a [String]) -> Result<Invocation<'a>, Refusal>
    requires { slice_get (texts words.now) 0 ≡ Some (codes "drain") }
    ensures ok { IfOk result (λ invocation. Asks (texts words.entry.now) (command_of invocation)) }
    ensures err { IsErrOf result Refusal.Usage
        → fault_of drain_app (texts words.entry.now) ≢ [] }
{
    let matches = match_words(drain_command(alloc), words)?;
    Ok(read_drain(&matches))
}

fn parse_gen<'a>(alloc: Global, words: &'a [String]) -> Result<Invocation<'a>, Refusal>
    requires { slice_get (texts words.now) 0 ≡ Some (codes "gen") }
    ensures ok { IfOk result (λ invocation. Asks (texts words.entry.now) (command_of invocation)) }
    ensures err { IsErrOf result Refusal.Usage
        → fault_of gen_app (texts words.entry.now) ≢ [] }
{
    let matches = match_words(gen_command(alloc), words)?;
    Ok(read_gen(&matches))
}

fn parse_run<'a>(alloc: Global, words: &'a [String]) -> Result<Invocation<'a>, Refusal>
    requires { slice_get (texts words.now) 0 ≡ Some (codes "run") }
    ensures ok { IfOk result (λ invocation. Asks (texts words.entry.now) (command_of invocation)) }
    ensures err { IsErrOf result Refusal.Usage
        → fault_of run_app (texts words.entry.now) ≢ [] }
{
    let matches = match_words(run_command(alloc), words)?;
    Ok(read_run(&matches))
}

fn parse_rebuild<'a>(alloc: Global, words: &'a [String]) -> Result<Invocation<'a>, Refusal>
    requires { slice_get (texts words.now) 0 ≡ Some (codes "rebuild") }
    ensures ok { IfOk result (λ invocation. Asks (texts words.entry.now) (command_of invocation)) }
    ensures err { IsErrOf result Refusal.Usage
        → fault_of rebuild_app (texts words.entry.now) ≢ [] }
{
    let matches = match_words(rebuild_command(alloc), words)?;
    Ok(read_rebuild(&matches))
}

fn parse_replay<'a>(alloc: Global, words: &'a [String]) -> Result<Invocation<'a>, Refusal>
    requires { slice_get (texts words.now) 0 ≡ Some (codes "replay") }
    ensures ok { IfOk result (λ invocation. Asks (texts words.entry.now) (command_of invocation)) }
    ensures err { IsErrOf result Refusal.Usage
        → fault_of replay_app (texts words.entry.now) ≢ [] }
{
    let matches = match_words(replay_command(alloc), words)?;
    Ok(read_replay(&matches))
}

fn parse_conservative<'a>(alloc: Global, words: &'a [String]) -> Result<Invocation<'a>, Refusal>
    requires { slice_get (texts words.now) 0 ≡ Some (codes "conservative") }
    ensures ok { IfOk result (λ invocation. Asks (texts words.entry.now) (command_of invocation)) }
    ensures err { IsErrOf result Refusal.Usage
        → fault_of conservative_app (texts words.entry.now) ≢ [] }
{
    let matches = match_words(conservative_command(alloc), words)?;
    Ok(read_conservative(&matches))
}

fn parse_count<'a>(alloc: Global, words: &'a [String]) -> Result<Invocation<'a>, Refusal>
    requires { slice_get (texts words.now) 0 ≡ Some (codes "count") }
    ensures ok { IfOk result (λ invocation. Asks (texts words.entry.now) (command_of invocation)) }
    ensures err { IsErrOf result Refusal.Usage
        → fault_of count_app (texts words.entry.now) ≢ [] }
{
    let matches = match_words(count_command(alloc), words)?;
    Ok(read_count(&matches))
}
