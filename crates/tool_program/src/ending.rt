//! What the program does with a command line, over any store, source and sink.
ghost use Rattle.std.specs.Prelude.{◌≡◌, ◌≢◌, IfOk, IsErrAnd};
ghost use Rattle.std.specs.IoError.{error_kind};
ghost use Rattle.std.specs.Process.{exit_status};
ghost use Rattle.std.specs.String.{string_bytes};
ghost use Rattle.tool_program.specs.Errors.{IsHelp, TellsHelp};
ghost use Rattle.tool_program.specs.Words.{words_behind};
ghost use Rattle.tool_run.specs.ChancesUse.{UsesChances};
ghost use Rattle.tool_run.specs.Completeness.{IsComplete};
ghost use Rattle.tool_run.specs.Lines.{Tells, Explains};
ghost use Rattle.tool_run.specs.Seen.{seen};
ghost use Rattle.tool_run.specs.SourceUse.{UsesSource};
ghost use Rattle.tool_run.specs.Status.{out_of_memory, usage, bad_trace};
ghost use Rattle.tool_run.specs.Statuses.{IsStatusOf};
ghost use Rattle.tool_run.specs.StoreUse.{UsesStore};

use crate::complaint::complaint_on;
use crate::usage::USAGE;
use crate::words::words_of;
use std::alloc::{AllocError, Global};
use std::env::Args;
use std::io;
use std::io::ErrorKind;
use std::process::ExitCode;
use std::sync::Wait;
use std::thread::Threads;
use tool_ports::{Chances, Gate, ImageStore, Sink, Source, write_all};
use tool_run::{Status, run_tool, tell_out_of_memory};

/// Does what the words behind the program's name ask for, and ends with the status of that. At
/// status 2 it writes to `help` too: a line on what is wrong in the words, and the usage. Where a
/// line of a trace asks for nothing it writes one line there, on the cause. Else it writes nothing
/// there.
pub fn run_line<
    R: Threads + Wait + Sync,
    I: ImageStore,
    T: Source,
    O: Sink,
    H: Sink,
    G: Gate + Sync,
    C: Chances,
>(
    rt: &R,
    alloc: Global,
    args: io::Result<Args>,
    images: &mut I,
    trace: &mut T,
    out: &mut O,
    help: &mut H,
    gate: &G,
    chances: &mut C,
) -> ExitCode
    ensures status { IsStatusOf (words_behind args)
        (seen (I.contents images.old) (I.calls images.old) (I.faults images.old)
        (T.left trace.old) (T.faults trace.old) (O.taken out.old) (O.faults out.old))
        (seen (I.contents images.new) (I.calls images.new) (I.faults images.new)
        (T.left trace.new) (T.faults trace.new) (O.taken out.new) (O.faults out.new))
        (Explains H.faults H.taken help.old help.new) (exit_status result) }
    ensures store { UsesStore (words_behind args)
        (seen (I.contents images.old) (I.calls images.old) (I.faults images.old)
        (T.left trace.old) (T.faults trace.old) (O.taken out.old) (O.faults out.old))
        (seen (I.contents images.new) (I.calls images.new) (I.faults images.new)
        (T.left trace.new) (T.faults trace.new) (O.taken out.new) (O.faults out.new))
        (exit_status result) }
    ensures source { UsesSource (words_behind args)
        (seen (I.contents images.old) (I.calls images.old) (I.faults images.old)
        (T.left trace.old) (T.faults trace.old) (O.taken out.old) (O.faults out.old))
        (seen (I.contents images.new) (I.calls images.new) (I.faults images.new)
        (T.left trace.new) (T.faults trace.new) (O.taken out.new) (O.faults out.new))
        T.has_ended trace.old trace.new (exit_status result) }
    ensures chances { UsesChances C.seed_gives C.chance_gives C.One.draw_gives C.word_gives
        (words_behind args)
        (seen (I.contents images.old) (I.calls images.old) (I.faults images.old)
        (T.left trace.old) (T.faults trace.old) (O.taken out.old) (O.faults out.old))
        (seen (I.contents images.new) (I.calls images.new) (I.faults images.new)
        (T.left trace.new) (T.faults trace.new) (O.taken out.new) (O.faults out.new))
        chances.old chances.new (exit_status result) }
    ensures complete { IsComplete (words_behind args)
        (seen (I.contents images.old) (I.calls images.old) (I.faults images.old)
        (T.left trace.old) (T.faults trace.old) (O.taken out.old) (O.faults out.old))
        (seen (I.contents images.new) (I.calls images.new) (I.faults images.new)
        (T.left trace.new) (T.faults trace.new) (O.taken out.new) (O.faults out.new))
        (exit_status result) }
    ensures no_memory { IsErrAnd args (λ e. error_kind e ≡ ErrorKind.OutOfMemory)
        → exit_status result ≡ out_of_memory }
    ensures help { exit_status result ≡ usage → TellsHelp
        (H.faults help.old) (H.faults help.new) (H.taken help.old) (H.taken help.new) }
    ensures no_help { exit_status result ≢ usage → exit_status result ≢ bad_trace
        → help.new ≡ help.old }
{
    let status = answer(rt, alloc, args, images, trace, out, help, gate, chances);
    ExitCode::from(status.code())
}

// Runs the tool on the words, and writes the help. Where there is no memory for the words, it tells
// that.
fn answer<
    R: Threads + Wait + Sync,
    I: ImageStore,
    T: Source,
    O: Sink,
    H: Sink,
    G: Gate + Sync,
    C: Chances,
>(
    rt: &R,
    alloc: Global,
    args: io::Result<Args>,
    images: &mut I,
    trace: &mut T,
    out: &mut O,
    help: &mut H,
    gate: &G,
    chances: &mut C,
) -> Status
    ensures status { IsStatusOf (words_behind args)
        (seen (I.contents images.old) (I.calls images.old) (I.faults images.old)
        (T.left trace.old) (T.faults trace.old) (O.taken out.old) (O.faults out.old))
        (seen (I.contents images.new) (I.calls images.new) (I.faults images.new)
        (T.left trace.new) (T.faults trace.new) (O.taken out.new) (O.faults out.new))
        (Explains H.faults H.taken help.old help.new) result }
    ensures store { UsesStore (words_behind args)
        (seen (I.contents images.old) (I.calls images.old) (I.faults images.old)
        (T.left trace.old) (T.faults trace.old) (O.taken out.old) (O.faults out.old))
        (seen (I.contents images.new) (I.calls images.new) (I.faults images.new)
        (T.left trace.new) (T.faults trace.new) (O.taken out.new) (O.faults out.new)) result }
    ensures source { UsesSource (words_behind args)
        (seen (I.contents images.old) (I.calls images.old) (I.faults images.old)
        (T.left trace.old) (T.faults trace.old) (O.taken out.old) (O.faults out.old))
        (seen (I.contents images.new) (I.calls images.new) (I.faults images.new)
        (T.left trace.new) (T.faults trace.new) (O.taken out.new) (O.faults out.new))
        T.has_ended trace.old trace.new result }
    ensures chances { UsesChances C.seed_gives C.chance_gives C.One.draw_gives C.word_gives
        (words_behind args)
        (seen (I.contents images.old) (I.calls images.old) (I.faults images.old)
        (T.left trace.old) (T.faults trace.old) (O.taken out.old) (O.faults out.old))
        (seen (I.contents images.new) (I.calls images.new) (I.faults images.new)
        (T.left trace.new) (T.faults trace.new) (O.taken out.new) (O.faults out.new))
        chances.old chances.new result }
    ensures complete { IsComplete (words_behind args)
        (seen (I.contents images.old) (I.calls images.old) (I.faults images.old)
        (T.left trace.old) (T.faults trace.old) (O.taken out.old) (O.faults out.old))
        (seen (I.contents images.new) (I.calls images.new) (I.faults images.new)
        (T.left trace.new) (T.faults trace.new) (O.taken out.new) (O.faults out.new)) result }
    ensures no_memory { IsErrAnd args (λ e. error_kind e ≡ ErrorKind.OutOfMemory)
        → result ≡ out_of_memory }
    ensures help { result ≡ usage → TellsHelp
        (H.faults help.old) (H.faults help.new) (H.taken help.old) (H.taken help.new) }
    ensures no_help { result ≢ usage → result ≢ bad_trace → help.new ≡ help.old }
{
    match words_of(alloc, args) {
        Ok(words) => {
            let status = run_tool(rt, alloc, &words, images, trace, out, help, gate, chances);
            tell_help(alloc, &words, status, help);
            status
        }
        Err(_) => tell_out_of_memory(out),
    }
}

// Writes the help at status 2. Where there is no memory for the line on the words, it is the usage
// alone.
fn tell_help<H: Sink>(alloc: Global, words: &[String], status: Status, help: &mut H)
    ensures usage { status ≡ usage → TellsHelp
        (H.faults help.old) (H.faults help.new) (H.taken help.old) (H.taken help.new) }
    ensures other { status ≢ usage → help.new ≡ help.old }
{
    if status.code() == 2 {
        match help_text(alloc, words) {
            Ok(text) => write_text(help, text.as_str()),
            Err(_) => write_text(help, USAGE),
        }
    }
}

// What is wrong in the words, and the usage.
fn help_text(alloc: Global, words: &[String]) -> Result<String, AllocError>
    ensures { IfOk result (λ text. IsHelp (string_bytes text)) }
{
    let mut text = complaint_on(alloc, words)?;
    text.push_str(USAGE)?;
    Ok(text)
}

// Writes a text. One that is refused is lost.
fn write_text<H: Sink>(help: &mut H, text: &str)
    ensures { Tells text.now
        (H.faults help.old) (H.faults help.new) (H.taken help.old) (H.taken help.new) }
{
    let _ = write_all(help, text.as_bytes());
}
