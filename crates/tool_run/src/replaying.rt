//! Replays the schedule that the source has left over a named image.
ghost use Rattle.std.specs.Prelude.{◌≡◌, ◌⊎◌, ◌≤◌, ◌+◌, ℕ, List, IfOk, IfErr, OnOk, IsErrOf};
ghost use Rattle.tool_ports.specs.Calls.{with_get};
ghost use Rattle.tool_ports.specs.Causes.{RoseByOne};
ghost use Rattle.tool_ports.specs.Chances.{ComesFromSeed};
ghost use Rattle.tool_ports.specs.Contents.{Contents};
ghost use Rattle.tool_ports.specs.Left.{IsAtEnd, GivesAtMost};
ghost use Rattle.tool_run.specs.Asking.{NamedReplayAsks};
ghost use Rattle.tool_run.specs.Calls.{get_limit};
ghost use Rattle.tool_command.specs.Command.{replay_image};
ghost use Rattle.tool_run.specs.Inside.{RefusesEither, IsReplayFault, IsBeforeReading, IsBeforeSeeding};
ghost use Rattle.tool_run.specs.Making.{HasSchedule, ReplaysNamed, longest_trace};
ghost use Rattle.tool_run.specs.Outcome.{HoldsOutside};

use crate::fault::Fault;
use crate::recovering::recover_image;
use crate::working::LONGEST_TRACE;
use image_run::{Product, replay_image};
use std::alloc::Global;
use tool_ports::{Chances, ImageStore, Source, read_all};
use trace_text::{Schedule, TraceError, parse_schedule};

/// Replays the schedule that the source has left over the image of this name, and makes the text on
/// it. The image stays as it is.
pub fn replay_named<I: ImageStore, T: Source, C: Chances>(
    alloc: Global,
    name: &str,
    seed: u64,
    images: &mut I,
    source: &mut T,
    chances: &mut C,
) -> Result<Product, Fault>
    ensures ok { IfOk result (λ product. (product.image ≡ None)
        × ReplaysNamed (I.contents images.old) (T.left source.old) name.now product.text) }
    ensures end { OnOk result (IsAtEnd (T.left source.new)) }
    ensures ended { OnOk result (T.has_ended source.new) }
    ensures at_most { GivesAtMost (longest_trace + 1) (T.left source.old) (T.left source.new) }
    ensures steady { ¬ (IsErrOf result Fault.ReadFault)
        → T.faults source.new ≡ T.faults source.old }
    ensures err { IfErr result (RefusesEither (replay_image name.now seed)
        (I.contents images.old) (T.left source.old)
        (RoseByOne (I.faults images.old) (I.faults images.new))
        (RoseByOne (T.faults source.old) (T.faults source.new))) }
    ensures unread { IfErr result (λ fault. IsBeforeReading (replay_image name.now seed) fault
        → source.new ≡ source.old) }
    ensures image_first { (at : ℕ) → HoldsOutside (I.contents images.old) name.now at
        → source.new ≡ source.old }
    ensures unchanged { I.contents images.new ≡ I.contents images.old }
    ensures later { I.faults images.old ≤ I.faults images.new }
    ensures store_steady { ¬ (IsErrOf result Fault.ReadFault)
        → I.faults images.new ≡ I.faults images.old }
    ensures one_failed { (I.faults images.new ≡ I.faults images.old)
        ⊎ (T.faults source.new ≡ T.faults source.old) }
    ensures calls { I.calls images.new ≡ with_get get_limit (I.calls images.old) }
    ensures seeded { IfOk result (λ _. ComesFromSeed C.seed_gives C.chance_gives C.word_gives
        chances.old seed chances.new) }
    ensures asked { IfOk result (λ product. NamedReplayAsks C.seed_gives C.word_gives
        (I.contents images.old) (T.left source.old) name.now seed chances.old chances.new
        product.text) }
    ensures no_chance { IfErr result (λ fault. IsBeforeSeeding (replay_image name.now seed) fault
        → chances.new ≡ chances.old) }
{
    let recovered = recover_image(alloc, name, images)?;
    let schedule = read_schedule(alloc, source)?;
    let product = replay_image(alloc, recovered.heap, &schedule, seed, chances)?;
    Ok(product)
}

// The schedule that the source has left.
fn read_schedule<T: Source>(alloc: Global, source: &mut T) -> Result<Schedule, Fault>
    ensures ok { IfOk result (HasSchedule (T.left source.old)) }
    ensures end { OnOk result (IsAtEnd (T.left source.new)) }
    ensures ended { OnOk result (T.has_ended source.new) }
    ensures at_most { GivesAtMost (longest_trace + 1) (T.left source.old) (T.left source.new) }
    ensures steady { ¬ (IsErrOf result Fault.ReadFault)
        → T.faults source.new ≡ T.faults source.old }
    ensures err { IfErr result (λ fault. (contents : Contents) (name : List ℕ)
        → IsReplayFault contents (T.left source.old) name
        (RoseByOne (T.faults source.old) (T.faults source.new)) fault) }
{
    let text = read_all(alloc, source, LONGEST_TRACE)?;
    match parse_schedule(alloc, &text) {
        Ok(schedule) => Ok(schedule),
        Err(TraceError::BadLine { line }) => Err(Fault::BadStep { line }),
        Err(TraceError::Memory) => Err(Fault::Memory),
    }
}
