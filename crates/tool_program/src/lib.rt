//! What the program does: it makes the real store, input and output, works off the words of the
//! command line, and ends with the status.
#![tactic(auto)]

mod arguments;
mod complaint;
mod ending;
mod ports;
mod usage;
mod words;

ghost use Rattle.std.specs.Prelude.{Contains};
ghost use Rattle.std.specs.Process.{exit_status};
ghost use Rattle.tool_run.specs.Status.{statuses};

pub use ending::run_line;
use file_ports::{
    FileStore, InputSource, OutputSink, Progress, Stopwatch, ToldSink, ToldSource, ToldStore,
};
pub use ports::run_ports;
use std::io::{IsTerminal, Print};
use std::process::ExitCode;
use std::rt::Runtime;
use std::sync::Wait;
use std::thread::Threads;
use std::{env, io};
pub use usage::USAGE;

/// Does what the words of the process ask for: `run_ports` over files, standard input and output.
/// `err` is the standard error, which is told too what the system said of a call that failed, and,
/// where it is a terminal, of each step that took a second or longer.
pub fn run_program<R: Runtime + AllocGlobal + Threads + Wait + Sync, E: Print + IsTerminal>(
    rt: &R,
    err: &E,
) -> ExitCode
    ensures { Contains statuses (exit_status result) }
{
    let watch = Stopwatch::start(rt);
    let tells = err.is_terminal();
    let of_store = Progress::new(&watch, io::writer(err), tells);
    let of_source = Progress::new(&watch, io::writer(err), tells);
    let of_sink = Progress::new(&watch, io::writer(err), tells);
    let mut images = ToldStore::new(FileStore::new(rt), of_store);
    let mut trace = ToldSource::new(InputSource::new(rt.reader()), of_source);
    let mut out = ToldSink::new(OutputSink::new(io::writer(rt)), of_sink);
    let status = run_ports(
        rt,
        rt.alloc(),
        env::args(rt),
        &mut images,
        &mut trace,
        &mut out,
        &mut OutputSink::new(io::writer(err)),
    );
    let file = images.store().failure();
    tell_failures(err, file, trace.source().failure(), out.sink().failure());
    status
}

// Says of which file, or of which stream, a call failed, and why. What can't be written is lost.
fn tell_failures<E: Print>(
    err: &E,
    file: Option<&str>,
    input: Option<io::Error>,
    output: Option<io::Error>,
) {
    if let Some(failure) = file {
        let _ = println!(err; "heap_tool: {failure}");
    }
    if let Some(error) = input {
        let _ = println!(err; "heap_tool: standard input: {error}");
    }
    if let Some(error) = output {
        let _ = println!(err; "heap_tool: standard output: {error}");
    }
}
