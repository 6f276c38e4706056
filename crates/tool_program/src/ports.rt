//! What the program does over any store, source and sinks.
ghost use Rattle.std.specs.Prelude.{◌≡◌, ◌≢◌, IsErrAnd};
ghost use Rattle.std.specs.IoError.{error_kind};
ghost use Rattle.std.specs.Process.{exit_status};
ghost use Rattle.tool_command.specs.Command.{Command, Asks, image_name};
ghost use Rattle.tool_ports.specs.Causes.{RoseByOne};
ghost use Rattle.tool_program.specs.Errors.{TellsHelp};
ghost use Rattle.tool_program.specs.Seeds.{IsMadeBySeed};
ghost use Rattle.tool_program.specs.Words.{words_behind};
ghost use Rattle.tool_run.specs.Asking.{IsDoneWith, IsToldCutOff};
ghost use Rattle.tool_run.specs.Completeness.{IsComplete};
ghost use Rattle.tool_run.specs.Lines.{Explains};
ghost use Rattle.tool_run.specs.Seen.{seen};
ghost use Rattle.tool_run.specs.SourceUse.{UsesSource};
ghost use Rattle.tool_run.specs.Status.{done, out_of_memory, usage, write_fault, bad_trace};
ghost use Rattle.tool_run.specs.Statuses.{IsStatusOf};
ghost use Rattle.tool_run.specs.StoreUse.{UsesStore};

use crate::ending::run_line;
use std::alloc::Global;
use std::env::Args;
use std::io;
use std::io::ErrorKind;
use std::process::ExitCode;
use std::sync::Wait;
use std::thread::Threads;
use tool_ports::{ImageStore, OpenGate, SeededChances, Sink, Source};

/// What `run_line` does, with a gate that holds nobody back, and with the numbers that the seed of
/// the command line gives: nothing that it does is left to the caller but what lies outside.
pub fn run_ports<R: Threads + Wait + Sync, I: ImageStore, T: Source, O: Sink, H: Sink>(
    rt: &R,
    alloc: Global,
    args: io::Result<Args>,
    images: &mut I,
    trace: &mut T,
    out: &mut O,
    help: &mut H,
) -> ExitCode
    ensures status { IsStatusOf (words_behind args)
        (seen (I.contents images.old) (I.calls images.old) (I.faults images.old)
        (T.left trace.old) (T.faults trace.old) (O.taken out.old) (O.faults out.old))
        (seen (I.contents images.new) (I.calls images.new) (I.faults images.new)
        (T.left trace.new) (T.faults trace.new) (O.taken out.new) (O.faults out.new))
        (Explains H.faults H.taken help.old help.new) (exit_status result) }
    ensures store { UsesStore (words_behind args)
        (seen (I.contents images.old) (I.calls images.old) (I.faults images.old)
        (T.left trace.old) (T.faults trace.old) (O.taken out.old) (O.faults out.old))
        (seen (I.contents images.new) (I.calls images.new) (I.faults images.new)
        (T.left trace.new) (T.faults trace.new) (O.taken out.new) (O.faults out.new))
        (exit_status result) }
    ensures source { UsesSource (words_behind args)
        (seen (I.contents images.old) (I.calls images.old) (I.faults images.old)
        (T.left trace.old) (T.faults trace.old) (O.taken out.old) (O.faults out.old))
        (seen (I.contents images.new) (I.calls images.new) (I.faults images.new)
        (T.left trace.new) (T.faults trace.new) (O.taken out.new) (O.faults out.new))
        T.has_ended trace.old trace.new (exit_status result) }
    ensures complete { IsComplete (words_behind args)
        (seen (I.contents images.old) (I.calls images.old) (I.faults images.old)
        (T.left trace.old) (T.faults trace.old) (O.taken out.old) (O.faults out.old))
        (seen (I.contents images.new) (I.calls images.new) (I.faults images.new)
        (T.left trace.new) (T.faults trace.new) (O.taken out.new) (O.faults out.new))
        (exit_status result) }
    ensures by_seed { (command : Command) → Asks (words_behind args) command
        → exit_status result ≡ done
        → IsDoneWith (image_name command) (I.contents images.old) (I.contents images.new)
        (O.taken out.old) (O.taken out.new)
        (IsMadeBySeed command (I.contents images.old) (T.left trace.old)) }
    ensures by_seed_cut_off { (command : Command) → Asks (words_behind args) command
        → exit_status result ≡ write_fault
        → IsToldCutOff (image_name command) (I.contents images.old) (I.contents images.new)
        (RoseByOne (I.faults images.old) (I.faults images.new))
        (O.faults out.old) (O.faults out.new) (O.taken out.old) (O.taken out.new)
        (IsMadeBySeed command (I.contents images.old) (T.left trace.old)) }
    ensures no_memory { IsErrAnd args (λ e. error_kind e ≡ ErrorKind.OutOfMemory)
        → exit_status result ≡ out_of_memory }
    ensures help { exit_status result ≡ usage → TellsHelp
        (H.faults help.old) (H.faults help.new) (H.taken help.old) (H.taken help.new) }
    ensures no_help { exit_status result ≢ usage → exit_status result ≢ bad_trace
        → help.new ≡ help.old }
{
    let mut chances = SeededChances::new();
    run_line(
        rt,
        alloc,
        args,
        images,
        trace,
        out,
        help,
        &OpenGate,
        &mut chances,
    )
}
