//! The top call.
ghost use Rattle.std.specs.Prelude.{◌≡◌, ◌≢◌, ◌⊎◌, ◌≤◌, ◌+◌, ℕ, OnOk, IfErr, IsErrOf};
ghost use Rattle.tool_ports.specs.Causes.{RoseByOne};
ghost use Rattle.tool_ports.specs.Left.{IsAtEnd, GivesAtMost};
ghost use Rattle.tool_run.specs.Asking.{AsksOf, IsDoneWith, IsCutOffWith};
ghost use Rattle.tool_run.specs.Calls.{with_command, with_status};
ghost use Rattle.tool_command.specs.Command.{texts, image_name};
ghost use Rattle.tool_command.specs.Invocations.{command_of};
ghost use Rattle.tool_run.specs.Inside.{status_of, IsCarriedOut, IsStopped, IsBeforeReading, IsBeforeSeeding};
ghost use Rattle.tool_run.specs.Making.{longest_trace};
ghost use Rattle.tool_run.specs.CommandUses.{RefusesOutside, ReadsSource};
ghost use Rattle.tool_run.specs.Lines.{Tells, Explains, memory_line};
ghost use Rattle.tool_run.specs.ChancesUse.{UsesChances};
ghost use Rattle.tool_run.specs.Completeness.{IsComplete};
ghost use Rattle.tool_run.specs.Seen.{seen};
ghost use Rattle.tool_run.specs.SourceUse.{UsesSource};
ghost use Rattle.tool_run.specs.Statuses.{IsStatusOf};
ghost use Rattle.tool_run.specs.StoreUse.{UsesStore};
ghost use Rattle.tool_run.specs.Seeding.{seed_of, BeginBy};
ghost use Rattle.tool_run.specs.Outcome.{HoldsOutside};
ghost use Rattle.tool_run.specs.Status.{out_of_memory, write_fault, bad_trace};

use crate::delivery::deliver;
use crate::fault::Fault;
use crate::making::make;
use crate::status::Status;
use std::alloc::Global;
use std::sync::Wait;
use std::thread::Threads;
use tool_command::{Invocation, Refusal, parse};
use tool_ports::{Chances, Gate, ImageStore, Sink, Source};

/// Does what the words ask for. They are those after the program's name: `format IMAGE S` puts an
/// empty image of S superblocks, `show IMAGE` recovers an image and prints a report on it, with
/// `--map` a map too, and with `--par` recovers by threads; `conservative IMAGE [--map]` recovers
/// an image with no filter, and prints the report without keys; `count IMAGE [--map]` opens an image
/// by its own anchors where it is orderly, and else recovers it, and prints by which way and that
/// report; `run IMAGE --workers N` runs the
/// trace that the source has left over an image, puts the image that is left and prints the replies
/// and a report, with `--stop K` and `--seed X` as far as step K, with early write-backs by that
/// seed, and with `--sum` and `--map` other texts; `rebuild IMAGE [--stop K] [--seed X]` recovers
/// an image in place, puts the image that is left and prints a report; `replay IMAGE [--seed X]`
/// takes the steps of the schedule that the source has left over a recovered image, and prints what
/// they answer and a report on what a crash then leaves; `drain IMAGE CLASS` recovers an image and
/// prints the offsets of the blocks that the class then gives, and `gen N SEED` prints a trace.
/// Where there is no result, a line tells why; one that the sink refuses is lost. Of a line of a
/// trace that asks for nothing `help` is told the cause, and it is told nothing else. What a heap
/// writes back early comes from `chances`, with the seed 0 where none is given.
pub fn run_tool<
    R: Threads + Wait + Sync,
    I: ImageStore,
    T: Source,
    O: Sink,
    H: Sink,
    G: Gate + Sync,
    C: Chances,
>(
    rt: &R,
    alloc: Global,
    words: &[String],
    images: &mut I,
    trace: &mut T,
    out: &mut O,
    help: &mut H,
    gate: &G,
    chances: &mut C,
) -> Status
    // What each status says.
    ensures status { IsStatusOf (texts words.now)
        (seen (I.contents images.old) (I.calls images.old) (I.faults images.old)
        (T.left trace.old) (T.faults trace.old) (O.taken out.old) (O.faults out.old))
        (seen (I.contents images.new) (I.calls images.new) (I.faults images.new)
        (T.left trace.new) (T.faults trace.new) (O.taken out.new) (O.faults out.new))
        (Explains H.faults H.taken help.old help.new) result }
    ensures unexplained { result ≢ bad_trace → help.new ≡ help.old }

    // What becomes of the store, and how often it is called.
    ensures store { UsesStore (texts words.now)
        (seen (I.contents images.old) (I.calls images.old) (I.faults images.old)
        (T.left trace.old) (T.faults trace.old) (O.taken out.old) (O.faults out.old))
        (seen (I.contents images.new) (I.calls images.new) (I.faults images.new)
        (T.left trace.new) (T.faults trace.new) (O.taken out.new) (O.faults out.new)) result }

    // When the source is read, and how far.
    ensures source { UsesSource (texts words.now)
        (seen (I.contents images.old) (I.calls images.old) (I.faults images.old)
        (T.left trace.old) (T.faults trace.old) (O.taken out.old) (O.faults out.old))
        (seen (I.contents images.new) (I.calls images.new) (I.faults images.new)
        (T.left trace.new) (T.faults trace.new) (O.taken out.new) (O.faults out.new))
        T.has_ended trace.old trace.new result }

    // By which seed the chances begin, and for what they are asked.
    ensures chances { UsesChances C.seed_gives C.chance_gives C.One.draw_gives C.word_gives
        (texts words.now)
        (seen (I.contents images.old) (I.calls images.old) (I.faults images.old)
        (T.left trace.old) (T.faults trace.old) (O.taken out.old) (O.faults out.old))
        (seen (I.contents images.new) (I.calls images.new) (I.faults images.new)
        (T.left trace.new) (T.faults trace.new) (O.taken out.new) (O.faults out.new))
        chances.old chances.new result }

    // When a status comes.
    ensures complete { IsComplete (texts words.now)
        (seen (I.contents images.old) (I.calls images.old) (I.faults images.old)
        (T.left trace.old) (T.faults trace.old) (O.taken out.old) (O.faults out.old))
        (seen (I.contents images.new) (I.calls images.new) (I.faults images.new)
        (T.left trace.new) (T.faults trace.new) (O.taken out.new) (O.faults out.new)) result }
{
    let command = match parse(alloc, words) {
        Ok(command) => command,
        Err(Refusal::Usage) => return Fault::Usage.tell("", out),
        Err(Refusal::Memory) => return Fault::Memory.tell("", out),
    };
    match carry_out(rt, alloc, command, images, trace, out, gate, chances) {
        Ok(()) => Status::new(0),
        Err(fault) => {
            fault.explain(help);
            fault.tell(command.image(), out)
        }
    }
}

/// Tells that memory ran out before there were words, and answers that status.
pub fn tell_out_of_memory<O: Sink>(out: &mut O) -> Status
    ensures status { result ≡ out_of_memory }
    ensures line { Tells memory_line (O.faults out.old) (O.faults out.new)
        (O.taken out.old) (O.taken out.new) }
{
    Fault::Memory.tell("", out)
}

// Makes the whole result first, then puts and prints it.
fn carry_out<
    R: Threads + Wait + Sync,
    I: ImageStore,
    T: Source,
    O: Sink,
    G: Gate + Sync,
    C: Chances,
>(
    rt: &R,
    alloc: Global,
    command: Invocation<'_>,
    images: &mut I,
    trace: &mut T,
    out: &mut O,
    gate: &G,
    chances: &mut C,
) -> Result<(), Fault>
    ensures ok { OnOk result (IsCarriedOut (command_of command.entry) (I.contents images.old)
        (I.contents images.new) (T.left trace.old) (O.taken out.old) (O.taken out.new)) }
    ensures err { IfErr result (IsStopped (command_of command.entry)
        (I.contents images.old) (I.contents images.new) (T.left trace.old)
        (RoseByOne (I.faults images.old) (I.faults images.new))
        (RoseByOne (T.faults trace.old) (T.faults trace.new))
        (O.faults out.old) (O.faults out.new) (O.taken out.old) (O.taken out.new)) }
    ensures unread { IfErr result (λ fault. IsBeforeReading (command_of command.entry) fault
        → trace.new ≡ trace.old) }
    ensures image_first { (at : ℕ)
        (has : HoldsOutside (I.contents images.old) (image_name (command_of command.entry)) at)
        → RefusesOutside (command_of command.entry) has.bytes → trace.new ≡ trace.old }
    ensures no_source { ¬ (ReadsSource (command_of command.entry)) → trace.new ≡ trace.old }
    ensures end { OnOk result (ReadsSource (command_of command.entry)
        → IsAtEnd (T.left trace.new)) }
    ensures ended { OnOk result (ReadsSource (command_of command.entry)
        → T.has_ended trace.new) }
    ensures at_most { GivesAtMost (longest_trace + 1) (T.left trace.old) (T.left trace.new) }
    ensures steady { ¬ (IsErrOf result Fault.ReadFault)
        → T.faults trace.new ≡ T.faults trace.old }
    ensures later_store { I.faults images.old ≤ I.faults images.new }
    ensures later_sink { O.faults out.old ≤ O.faults out.new }
    ensures store_steady { ¬ (IsErrOf result Fault.ReadFault)
        → ¬ (IsErrOf result Fault.WriteFault) → I.faults images.new ≡ I.faults images.old }
    ensures one_failed { (I.faults images.new ≡ I.faults images.old)
        ⊎ (T.faults trace.new ≡ T.faults trace.old) }
    ensures sink_steady { ¬ (IsErrOf result Fault.WriteFault)
        → O.faults out.new ≡ O.faults out.old }
    ensures calls { OnOk result
        (I.calls images.new ≡ with_command (command_of command.entry) (I.calls images.old)) }
    ensures calls_err { IfErr result (λ fault. I.calls images.new
        ≡ with_status (command_of command.entry) (status_of fault) (I.calls images.old)) }
    ensures seeded { OnOk result (BeginBy C.seed_gives C.chance_gives C.word_gives
        (seed_of (command_of command.entry)) chances.old chances.new) }
    ensures seeded_err { IfErr result (λ fault. status_of fault ≡ write_fault
        → BeginBy C.seed_gives C.chance_gives C.word_gives
        (seed_of (command_of command.entry)) chances.old chances.new) }
    ensures asked { OnOk result (IsDoneWith (image_name (command_of command.entry))
        (I.contents images.old) (I.contents images.new) (O.taken out.old) (O.taken out.new)
        (AsksOf C.seed_gives C.chance_gives C.One.draw_gives C.word_gives
        (command_of command.entry) (I.contents images.old) (T.left trace.old)
        chances.old chances.new)) }
    ensures asked_cut_off { IfErr result (λ fault. status_of fault ≡ write_fault
        → IsCutOffWith (image_name (command_of command.entry))
        (I.contents images.old) (I.contents images.new)
        (RoseByOne (I.faults images.old) (I.faults images.new))
        (O.faults out.old) (O.faults out.new) (O.taken out.old) (O.taken out.new)
        (AsksOf C.seed_gives C.chance_gives C.One.draw_gives C.word_gives
        (command_of command.entry) (I.contents images.old) (T.left trace.old)
        chances.old chances.new)) }
    ensures no_chance { IfErr result (λ fault. IsBeforeSeeding (command_of command.entry) fault
        → chances.new ≡ chances.old) }
    ensures never_asked { seed_of (command_of command.entry) ≡ None → chances.new ≡ chances.old }
{
    let product = make(rt, alloc, command, images, trace, gate, chances)?;
    deliver(alloc, command.image(), &product, images, out)
}
