//! Replays a schedule over a heap at rest, and makes what is printed.
ghost use Rattle.std.specs.Prelude.{◌≡◌, ◌*◌, ◌++◌, ◌≤◌, Some, None, length, map, replicate, slice_index, IfOk, IfErr, IsErr, ℕ};
ghost use Rattle.heap_model.specs.Durability.{IsCrashImage};
ghost use Rattle.heap_model.specs.Geometry.{image_words, roots, version, version_word};
ghost use Rattle.heap_model.specs.Header.{capacity_of, header_fault, HasKindsBelow};
ghost use Rattle.crash_image.specs.Crash.{GivesAll, transient_words};
ghost use Rattle.core_model.specs.Held.{durable_image};
ghost use Rattle.core_model.specs.Steps.{TableState};
ghost use Rattle.core_model.specs.View.{Setup};
ghost use Rattle.crash_core.specs.Standing.{Represents};
ghost use Rattle.dict_model.specs.Links.{kind_count};
ghost use Rattle.tool_ports.specs.Chances.{ComesFrom, ComesFromSeed};
ghost use Rattle.trace_text.specs.Answered.{answers_text_of, tickets_line_of};
ghost use Rattle.image_run.specs.Replaying.{CanBeReplayed, IsReplayed, LeavesOutside, ReplayAsks, Replays, StopsReplay, replay_opening, replay_setup};
ghost use Rattle.heap_model.specs.Rest.{IsReady};

use crate::fault::ReplayFault;
use crate::lines::{events_of, last_answers};
use crate::options::MOST_BUDGET;
use crate::product::Product;
use crate::recovering::recover_left;
use crate::reporting::heap_text;
use core_model::StepAnswer;
use crash_core::{Core, Owners};
use region_header::Bytes;
use std::alloc::{AllocError, Global};
use super_block::{ROOTS, Ready};
use tool_ports::Chances;
use trace_text::{Schedule, answers_text, tickets_line};
use worker_run::CrashWords;

// What the seats come to: the answer to each event, and of a crash then the image that it leaves.
#[derive(Drop)]
struct Replayed {
    answers: Vec<StepAnswer>,
    tickets: u64,
    left: Vec<u64>,
}

/// Takes the steps of a schedule over a heap, all of whose blocks and roots belong to seat 0, and
/// gives the text on them and on the image that a crash then leaves. The chances begin anew by the
/// seed.
pub fn replay_image<C: Chances>(
    alloc: Global,
    heap: Ready,
    schedule: &Schedule,
    seed: u64,
    chances: &mut C,
) -> Result<Product, ReplayFault>
    requires schedule { CanBeReplayed schedule.now.seats schedule.now.lines.items }
    requires kinds { HasKindsBelow (Some kind_count) (slice_index heap.words) }
    ensures ok { IfOk result (λ product. Replays heap.words heap.held
        schedule.now.seats schedule.now.lines.items product.text) }
    ensures no_image { IfOk result (λ product. product.image ≡ None) }
    ensures err { IfErr result (StopsReplay heap.words heap.held
        schedule.now.seats schedule.now.lines.items) }
    ensures always_outside { (at value : ℕ) → LeavesOutside heap.words heap.held
        schedule.now.seats schedule.now.lines.items at value → IsErr result }
    ensures seeded { ComesFromSeed C.seed_gives C.chance_gives C.word_gives
        chances.old seed chances.new }
    ensures asked { IfOk result (λ product. ReplayAsks C.seed_gives C.word_gives
        heap.words heap.held schedule.now.seats schedule.now.lines.items seed
        product.text chances.old chances.new) }
{
    chances.seed(seed);
    let replayed = replay_lines(alloc, heap, schedule, chances)?;
    let recovered = recover_left(alloc, replayed.left)?;
    let report = heap_text(alloc, &recovered)?;
    let answers = last_answers(alloc, &schedule.lines, &replayed.answers)?;
    let text = replayed_text(alloc, &answers, replayed.tickets, &report)?;
    Ok(Product { image: None, text })
}

// Takes the steps, and crashes.
fn replay_lines<C: Chances>(
    alloc: Global,
    heap: Ready,
    schedule: &Schedule,
    chances: &mut C,
) -> Result<Replayed, AllocError>
    requires schedule { CanBeReplayed schedule.now.seats schedule.now.lines.items }
    requires kinds { HasKindsBelow (Some kind_count) (slice_index heap.words) }
    ensures replayed { IfOk result (λ r. IsReplayed heap.words heap.held
        schedule.now.seats schedule.now.lines.items r.answers.items r.tickets r.left.items) }
    ensures good { IfOk result (λ r. header_fault (Some kind_count) (8 * length r.left.items)
        (slice_index r.left.items) ≡ None) }
    ensures version { IfOk result (λ r. slice_index r.left.items version_word ≡ version) }
    ensures chances { ComesFrom C.chance_gives C.word_gives chances.old chances.new }
    ensures drawn { IfOk result (λ r. GivesAll C.word_gives chances.old
        (map (slice_index r.left.items)
        (transient_words (capacity_of (slice_index heap.words)))) chances.new) }
{
    let mut core = core_over(alloc, heap, schedule.seats)?;
    let events = events_of(alloc, &schedule.lines)?;
    let answers = core.replay(alloc, &events)?;
    let mut scramble = CrashWords { chances };
    let left = left_by_words(alloc, &core, &mut scramble)?;
    let tickets = core.tickets();
    Ok(Replayed {
        answers,
        tickets,
        left,
    })
}

// The core opened over the heap. It has words of its own, so the heap's are gone before its steps.
fn core_over(alloc: Global, heap: Ready, seats: usize) -> Result<Core, AllocError>
    requires some { 1 ≤ seats }
    requires few { seats ≤ 8 }
    ensures ready { IsReady heap.words heap.held }
    ensures ok { IfOk result (λ core. Represents core.state (replay_setup heap.words seats)
        (replay_opening heap.words heap.held seats)) }
    ensures seats { IfOk result (λ core. length core.state.seats.items ≡ seats) }
{
    let owners = owned_by_the_first(alloc, heap.held().len())?;
    Core::of(alloc, &heap, &owners, seats, MOST_BUDGET)
}

// The image that a crash leaves, with the chances that something else has.
fn left_by_words<C: Chances>(
    alloc: Global,
    core: &Core,
    scramble: &mut CrashWords<'_, C>,
) -> Result<Vec<u64>, AllocError>
    ensures ok { IfOk result (λ left. (k : Setup) (s : TableState)
        → Represents core.now.state k s
        → IsCrashImage (durable_image k.capacity s.words) (slice_index left.items)) }
    ensures length { IfOk result (λ left. (k : Setup) (s : TableState)
        → Represents core.now.state k s → length left.items ≡ image_words k.capacity) }
    ensures same_reference { scramble.new.chances.ghost_name ≡ scramble.old.chances.ghost_name }
    ensures chances { ComesFrom C.chance_gives C.word_gives
        scramble.old.chances.now scramble.new.chances.now }
    ensures drawn { IfOk result (λ left. (k : Setup) (s : TableState)
        → Represents core.now.state k s → GivesAll C.word_gives scramble.old.chances.now
        (map (slice_index left.items) (transient_words k.capacity)) scramble.new.chances.now) }
{
    core.image(alloc, scramble)
}

// So many blocks, and all roots, are seat 0's.
fn owned_by_the_first(alloc: Global, blocks: usize) -> Result<Owners, AllocError>
    ensures held { IfOk result (λ owners. owners.held ≡ replicate blocks 0) }
    ensures roots { IfOk result (λ owners. owners.roots ≡ replicate roots 0) }
{
    let held = vec![in alloc; 0; blocks]?;
    let roots = vec![in alloc; 0; ROOTS as usize]?;
    Ok(Owners::new(held, roots))
}

// A line for each answer, the line of the tickets, and the report.
fn replayed_text(
    alloc: Global,
    answers: &[StepAnswer],
    tickets: u64,
    report: &Bytes,
) -> Result<Bytes, AllocError>
    ensures { IfOk result (λ text. text
        ≡ answers_text_of answers.now ++ tickets_line_of tickets ++ report.now) }
{
    let mut text = answers_text(alloc, answers)?.into_vec();
    text.extend_from_slice(tickets_line(alloc, tickets)?.as_slice())?;
    text.extend_from_slice(report.as_slice())?;
    Ok(Bytes::from_vec(text))
}
