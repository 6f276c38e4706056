//! What each command makes, all of it before anything is put or printed.
ghost use Rattle.std.specs.Prelude.{◌≡◌, ◌⊎◌, ◌≤◌, ◌+◌, ℕ, IfOk, IfErr, OnOk, IsErrOf};
ghost use Rattle.tool_ports.specs.Calls.{with_get};
ghost use Rattle.tool_ports.specs.Causes.{RoseByOne};
ghost use Rattle.tool_run.specs.Asking.{AsksOf};
ghost use Rattle.tool_run.specs.Calls.{get_limit, with_making};
ghost use Rattle.tool_command.specs.Invocations.{command_of};
ghost use Rattle.tool_run.specs.Inside.{Refuses, RefusesEither, IsBeforeReading, IsBeforeSeeding};
ghost use Rattle.tool_command.specs.Command.{show_image, image_name};
ghost use Rattle.tool_ports.specs.Left.{IsAtEnd, GivesAtMost};
ghost use Rattle.tool_run.specs.Making.{Makes, IsFormatted, Shows, longest_trace};
ghost use Rattle.tool_run.specs.CommandUses.{RefusesOutside, ReadsSource};
ghost use Rattle.tool_run.specs.Outcome.{HoldsOutside};
ghost use Rattle.tool_run.specs.Seeding.{seed_of, BeginBy};

use crate::conservative::report_conservatively;
use crate::counting::count_command;
use crate::draining::drain_image;
use crate::fault::Fault;
use crate::generating::generate;
use crate::rebuilding::rebuild_named;
use crate::recovering::recover_shown;
use crate::replaying::replay_named;
use crate::working::run_command;
use dictionary::read_maps;
use image_run::{Product, recovered_text};
use region_header::{Bytes, format, words_to_bytes};
use std::alloc::{AllocError, Global};
use std::sync::Wait;
use std::thread::Threads;
use super_block::{Geometry, WORD_BYTES};
use tool_command::Invocation;
use tool_ports::{Chances, Gate, ImageStore, Source};

/// Makes what the command is to put and to print.
pub fn make<R: Threads + Wait + Sync, I: ImageStore, T: Source, G: Gate + Sync, C: Chances>(
    rt: &R,
    alloc: Global,
    command: Invocation<'_>,
    images: &mut I,
    trace: &mut T,
    gate: &G,
    chances: &mut C,
) -> Result<Product, Fault>
    ensures ok { IfOk result (λ product. Makes (command_of command.entry) (I.contents images.old)
        (T.left trace.old) product.image product.text) }
    ensures err { IfErr result (RefusesEither (command_of command.entry)
        (I.contents images.old) (T.left trace.old)
        (RoseByOne (I.faults images.old) (I.faults images.new))
        (RoseByOne (T.faults trace.old) (T.faults trace.new))) }
    ensures unread { IfErr result (λ fault. IsBeforeReading (command_of command.entry) fault
        → trace.new ≡ trace.old) }
    ensures image_first { (at : ℕ)
        (has : HoldsOutside (I.contents images.old) (image_name (command_of command.entry)) at)
        → RefusesOutside (command_of command.entry) has.bytes → trace.new ≡ trace.old }
    ensures no_source { ¬ (ReadsSource (command_of command.entry)) → trace.new ≡ trace.old }
    ensures end { OnOk result (ReadsSource (command_of command.entry)
        → IsAtEnd (T.left trace.new)) }
    ensures ended { OnOk result (ReadsSource (command_of command.entry)
        → T.has_ended trace.new) }
    ensures at_most { GivesAtMost (longest_trace + 1) (T.left trace.old) (T.left trace.new) }
    ensures steady { ¬ (IsErrOf result Fault.ReadFault)
        → T.faults trace.new ≡ T.faults trace.old }
    ensures unchanged { I.contents images.new ≡ I.contents images.old }
    ensures later { I.faults images.old ≤ I.faults images.new }
    ensures store_steady { ¬ (IsErrOf result Fault.ReadFault)
        → I.faults images.new ≡ I.faults images.old }
    ensures one_failed { (I.faults images.new ≡ I.faults images.old)
        ⊎ (T.faults trace.new ≡ T.faults trace.old) }
    ensures calls { I.calls images.new
        ≡ with_making (command_of command.entry) (I.calls images.old) }
    ensures seeded { OnOk result (BeginBy C.seed_gives C.chance_gives C.word_gives
        (seed_of (command_of command.entry)) chances.old chances.new) }
    ensures asked { IfOk result (λ product. AsksOf C.seed_gives C.chance_gives C.One.draw_gives
        C.word_gives (command_of command.entry) (I.contents images.old) (T.left trace.old)
        chances.old chances.new product.image product.text) }
    ensures no_chance { IfErr result (λ fault. IsBeforeSeeding (command_of command.entry) fault
        → chances.new ≡ chances.old) }
    ensures never_asked { seed_of (command_of command.entry) ≡ None → chances.new ≡ chances.old }
{
    match command {
        Invocation::Format { image: _, layout } => Ok(empty_image(alloc, layout)?),
        Invocation::Show {
            image,
            with_map,
            in_parallel,
        } => report(rt, alloc, image, with_map, in_parallel, images),
        Invocation::Drain { image, class } => { drain_image(alloc, image, class, images, chances) }
        Invocation::Gen { plan } => Ok(generate(alloc, plan)?),
        Invocation::Run { image, options } => {
            run_command(rt, alloc, image, options, images, trace, gate, chances)
        }
        Invocation::Rebuild {
            image,
            budget,
            seed,
        } => rebuild_named(alloc, image, budget, seed, images, chances),
        Invocation::Replay { image, seed } => {
            replay_named(alloc, image, seed, images, trace, chances)
        }
        Invocation::Conservative { image, with_map } => {
            report_conservatively(alloc, image, with_map, images)
        }
        Invocation::Count { image, with_map } => count_command(alloc, image, with_map, images),
    }
}

// An empty image, closed.
#[tactic(auto, using(heap_model::specs::Geometry::largest_capacity_fits))]
fn empty_image(alloc: Global, layout: Geometry) -> Result<Product, AllocError>
    ensures ok { IfOk result
        (λ product. IsFormatted layout.capacity product.image product.text) }
{
    let capacity = layout.capacity();
    let words = format(alloc, capacity)?;
    let image = words_to_bytes(alloc, &words)?;
    let length = WORD_BYTES * layout.length();
    let line = format!(in alloc; "formatted {capacity} bytes {length}\n")?;
    Ok(Product {
        image: Some(image),
        text: Bytes::from_vec(line.into_bytes()),
    })
}

// The report on an image, recovered, by threads or by one, and its map where that is asked for.
fn report<R: Threads + Sync, I: ImageStore>(
    rt: &R,
    alloc: Global,
    name: &str,
    with_map: bool,
    in_parallel: bool,
    images: &mut I,
) -> Result<Product, Fault>
    ensures ok { IfOk result (λ product. (product.image ≡ None)
        × Shows (I.contents images.old) name.now with_map product.text) }
    ensures err { IfErr result (λ fault. Refuses (show_image name.now with_map in_parallel)
        (I.contents images.old) (RoseByOne (I.faults images.old) (I.faults images.new)) fault) }
    ensures unchanged { I.contents images.new ≡ I.contents images.old }
    ensures later { I.faults images.old ≤ I.faults images.new }
    ensures store_steady { ¬ (IsErrOf result Fault.ReadFault)
        → I.faults images.new ≡ I.faults images.old }
    ensures calls { I.calls images.new ≡ with_get get_limit (I.calls images.old) }
{
    let recovered = recover_shown(rt, alloc, name, in_parallel, images)?;
    let maps = read_maps(alloc, &recovered)?;
    let text = recovered_text(alloc, &recovered, &maps, false, with_map)?;
    Ok(Product { image: None, text })
}
