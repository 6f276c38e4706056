//! Runs the trace that the source has left over a named image.
ghost use Rattle.std.specs.Prelude.{◌≡◌, ◌⊎◌, ◌≤◌, ◌+◌, ℕ, IfOk, IfErr, OnOk, IsErrOf};
ghost use Rattle.image_run.specs.Running.{options_of};
ghost use Rattle.tool_ports.specs.Calls.{with_get};
ghost use Rattle.tool_ports.specs.Causes.{RoseByOne};
ghost use Rattle.tool_ports.specs.Chances.{ComesFromSeed};
ghost use Rattle.tool_ports.specs.Left.{IsAtEnd, GivesAtMost};
ghost use Rattle.tool_run.specs.Asking.{NamedRunAsks};
ghost use Rattle.tool_run.specs.Calls.{get_limit};
ghost use Rattle.tool_command.specs.Command.{Command, run_image, image_name};
ghost use Rattle.tool_run.specs.Inside.{Refuses, RefusesEither, IsTraceFault, IsTraceLeft, IsBeforeReading, IsBeforeSeeding};
ghost use Rattle.tool_run.specs.Making.{RunsTrace, longest_trace};
ghost use Rattle.tool_run.specs.CommandUses.{Reads};
ghost use Rattle.tool_run.specs.Outcome.{HoldsOutside};
ghost use Rattle.tool_run.specs.Recovering.{IsMapped};

use crate::fault::Fault;
use crate::recovering::recover_image;
use dictionary::MappedHeap;
use image_run::{Product, RunOptions, run_image};
use std::alloc::Global;
use std::sync::Wait;
use std::thread::Threads;
use tool_ports::{Chances, Gate, ImageStore, Source, read_all};
use trace_faults::fault_at;
use trace_text::{Request, TraceError, parse_trace};

/// The most bytes of a trace or a schedule.
pub const LONGEST_TRACE: usize = 1 << 24;

/// Runs the trace that the source has left over the image of this name, and makes the image that is
/// left and the text on the run.
pub fn run_command<R: Threads + Wait + Sync, I: ImageStore, T: Source, G: Gate + Sync, C: Chances>(
    rt: &R,
    alloc: Global,
    name: &str,
    options: RunOptions,
    images: &mut I,
    trace: &mut T,
    gate: &G,
    chances: &mut C,
) -> Result<Product, Fault>
    ensures ok { IfOk result (λ product. RunsTrace (I.contents images.old) (T.left trace.old)
        name.now (options_of options) product.image product.text) }
    ensures end { OnOk result (IsAtEnd (T.left trace.new)) }
    ensures ended { OnOk result (T.has_ended trace.new) }
    ensures at_most { GivesAtMost (longest_trace + 1) (T.left trace.old) (T.left trace.new) }
    ensures steady { ¬ (IsErrOf result Fault.ReadFault)
        → T.faults trace.new ≡ T.faults trace.old }
    ensures err { IfErr result (RefusesEither (run_image name.now (options_of options))
        (I.contents images.old) (T.left trace.old)
        (RoseByOne (I.faults images.old) (I.faults images.new))
        (RoseByOne (T.faults trace.old) (T.faults trace.new))) }
    ensures unread { IfErr result (λ fault.
        IsBeforeReading (run_image name.now (options_of options))
        fault → trace.new ≡ trace.old) }
    ensures image_first { (at : ℕ) → HoldsOutside (I.contents images.old) name.now at
        → trace.new ≡ trace.old }
    ensures unchanged { I.contents images.new ≡ I.contents images.old }
    ensures later { I.faults images.old ≤ I.faults images.new }
    ensures store_steady { ¬ (IsErrOf result Fault.ReadFault)
        → I.faults images.new ≡ I.faults images.old }
    ensures one_failed { (I.faults images.new ≡ I.faults images.old)
        ⊎ (T.faults trace.new ≡ T.faults trace.old) }
    ensures calls { I.calls images.new ≡ with_get get_limit (I.calls images.old) }
    ensures seeded { IfOk result (λ _. ComesFromSeed C.seed_gives C.chance_gives C.word_gives
        chances.old options.seed chances.new) }
    ensures asked { IfOk result (λ product. NamedRunAsks C.seed_gives C.chance_gives C.word_gives
        (I.contents images.old) name.now (options_of options) chances.old chances.new
        product.image) }
    ensures no_chance { IfErr result (λ fault.
        IsBeforeSeeding (run_image name.now (options_of options)) fault
        → chances.new ≡ chances.old) }
{
    let mapped = mapped_heap(alloc, name, images)?;
    let requests = read_trace(alloc, trace)?;
    let product = run_image(rt, alloc, mapped, &requests, options, gate, chances)?;
    Ok(product)
}

// The image of this name, recovered: each shard of it has a map.
fn mapped_heap<I: ImageStore>(
    alloc: Global,
    name: &str,
    images: &mut I,
) -> Result<MappedHeap, Fault>
    ensures ok { IfOk result (λ mapped.
        IsMapped (I.contents images.old) name.now mapped.words mapped.held) }
    ensures err { IfErr result (λ fault. (command : Command) → Reads command
        → image_name command ≡ name.now → Refuses command (I.contents images.old)
        (RoseByOne (I.faults images.old) (I.faults images.new)) fault) }
    ensures unchanged { I.contents images.new ≡ I.contents images.old }
    ensures later { I.faults images.old ≤ I.faults images.new }
    ensures store_steady { ¬ (IsErrOf result Fault.ReadFault)
        → I.faults images.new ≡ I.faults images.old }
    ensures calls { I.calls images.new ≡ with_get get_limit (I.calls images.old) }
{
    let recovered = recover_image(alloc, name, images)?;
    let mapped = MappedHeap::read(alloc, recovered.heap)?;
    Ok(mapped)
}

// The requests of the trace that the source has left.
fn read_trace<T: Source>(alloc: Global, trace: &mut T) -> Result<Vec<Request>, Fault>
    ensures ok { IfOk result (λ requests. IsTraceLeft (T.left trace.old) requests.items) }
    ensures end { OnOk result (IsAtEnd (T.left trace.new)) }
    ensures ended { OnOk result (T.has_ended trace.new) }
    ensures at_most { GivesAtMost (longest_trace + 1) (T.left trace.old) (T.left trace.new) }
    ensures steady { ¬ (IsErrOf result Fault.ReadFault)
        → T.faults trace.new ≡ T.faults trace.old }
    ensures err { IfErr result
        (IsTraceFault (T.left trace.old) (RoseByOne (T.faults trace.old) (T.faults trace.new))) }
{
    let text = read_all(alloc, trace, LONGEST_TRACE)?;
    match parse_trace(alloc, &text) {
        Ok(requests) => Ok(requests),
        Err(TraceError::BadLine { line }) => {
            let cause = fault_at(&text, line);
            Err(Fault::BadLine { line, cause })
        }
        Err(TraceError::Memory) => Err(Fault::Memory),
    }
}
