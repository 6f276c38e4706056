//! Recovery made in place: the words that it changes are stored one after the other, so that it
//! may itself be cut off anywhere and begun again.
ghost use Rattle.std.specs.Prelude.{◌≡◌, ◌↔◌, ◌+◌, ◌-◌, ◌*◌, ◌/◌, ◌<◌, ◌≤◌, ℕ, All, length, slice_index, IsTrue, IfOk, OnOk, IfErr, Some};
ghost use Rattle.heap_model.specs.Geometry.{roots};
ghost use Rattle.heap_model.specs.Image.{Image};
ghost use Rattle.heap_model.specs.Durability.{Mixes, IsCrashImage};
ghost use Rattle.line_memory.specs.View.{View, word_count};
ghost use Rattle.heap_recover.specs.InPlace.{changed_lines, differences, steps_between, HoldsDurably, IsRecoveryOf, RecoversAlike, IsBetween, IsStoredTo, IsStoppedBetween, IsStoppedAt, Differ};
ghost use Rattle.heap_recover.specs.InOrder.{stores_from, steps_in, TakesAll, IsDoneBy, IsCutOffIn};

use filter_trace::Filter;
use line_memory::{LineMemory, Stopped};
use super_block::{LINE_WORDS, Ready};

/// The words of a line, as a count of words in memory.
const LINE: usize = LINE_WORDS as usize;

/// Stores the words of the line in which the images differ, and tells whether there are some.
fn store_line<M: LineMemory>(
    memory: &mut M,
    old: &[u64],
    new: &[u64],
    line: usize,
) -> Result<bool, Stopped>
    requires lengths { length new.now ≡ length old.now }
    requires line { 8 * line + 8 ≤ length old.now }
    requires before { IsStoredTo old.now new.now (8 * line) (8 * line) (M.view memory.old) }
    ensures ok { OnOk result
        (IsStoredTo old.now new.now (8 * line) (8 * line + 8) (M.view memory.new)) }
    ensures some { IfOk result (λ some. IsTrue some
        ↔ Differ old.now new.now (8 * line) (8 * line + 8)) }
    ensures budget { (M.view memory.new).budget ≡ (M.view memory.old).budget }
    ensures drawn { OnOk result ((M.view memory.new).drawn
        + differences (slice_index old.now) (slice_index new.now) (8 * line)
        ≡ (M.view memory.old).drawn
        + differences (slice_index old.now) (slice_index new.now) (8 * line + 8)) }
    ensures going { OnOk result ((M.view memory.new).stopped ≡ (M.view memory.old).stopped) }
    ensures cut_off { IfErr result (λ e. IsStoppedBetween old.now new.now
        (differences (slice_index old.now) (slice_index new.now) (8 * line)
        + changed_lines (slice_index old.now) (slice_index new.now) line)
        (differences (slice_index old.now) (slice_index new.now) (8 * line + 8)
        - differences (slice_index old.now) (slice_index new.now) (8 * line)) e.step
        (M.view memory.old) (M.view memory.new)) }
    ensures steps { OnOk result (TakesAll M.view M.draws memory.old
        (stores_from (slice_index old.now) (slice_index new.now) (8 * line) 8) memory.new) }
    ensures first_steps { IfErr result (λ e. IsCutOffIn M.view M.draws
        (stores_from (slice_index old.now) (slice_index new.now) (8 * line) 8) e.step
        memory.old memory.new) }
{
    let mut some = false;
    for word in LINE * line..LINE * line + LINE {
        if old[word] != new[word] {
            memory.store(word as u64, new[word])?;
            some = true;
        }
    }
    Ok(some)
}

/// Stores each word in which the images differ, and asks for each line to be written back in which
/// one was stored.
fn store_differences<M: LineMemory>(memory: &mut M, old: &[u64], new: &[u64]) -> Result<(), Stopped>
    requires lengths { length new.now ≡ length old.now }
    requires whole { 8 * (length old.now / 8) ≡ length old.now }
    requires before { IsStoredTo old.now new.now 0 0 (M.view memory.old) }
    ensures ok { OnOk result
        (IsStoredTo old.now new.now (length old.now) (length old.now) (M.view memory.new)) }
    ensures budget { (M.view memory.new).budget ≡ (M.view memory.old).budget }
    ensures drawn { OnOk result ((M.view memory.new).drawn + 1 ≡ (M.view memory.old).drawn
        + steps_between (slice_index old.now) (slice_index new.now) (length old.now)) }
    ensures going { OnOk result ((M.view memory.new).stopped ≡ (M.view memory.old).stopped) }
    ensures cut_off { IfErr result (λ e. IsStoppedBetween old.now new.now 0
        (steps_between (slice_index old.now) (slice_index new.now) (length old.now)) e.step
        (M.view memory.old) (M.view memory.new)) }
    ensures steps { OnOk result (TakesAll M.view M.draws memory.old
        (steps_in (slice_index old.now) (slice_index new.now) (length old.now / 8)) memory.new) }
    ensures first_steps { IfErr result (λ e. IsCutOffIn M.view M.draws
        (steps_in (slice_index old.now) (slice_index new.now) (length old.now / 8)) e.step
        memory.old memory.new) }
{
    for line in 0..old.len() / LINE {
        if store_line(memory, old, new, line)? {
            memory.write_back(line as u64)?;
        }
    }
    Ok(())
}

/// Makes the words of the old image those of the new one, all of them durable.
fn store_image<M: LineMemory>(memory: &mut M, old: &[u64], new: &[u64]) -> Result<(), Stopped>
    requires lengths { length new.now ≡ length old.now }
    requires whole { 8 * (length old.now / 8) ≡ length old.now }
    requires before { HoldsDurably old.now (M.view memory.old) }
    ensures ok { OnOk result (HoldsDurably new.now (M.view memory.new)) }
    ensures stopped { IfErr result (λ e. IsStoppedAt old.now new.now
        (steps_between (slice_index old.now) (slice_index new.now) (length old.now)) e.step (M.view memory.old) (M.view memory.new)) }
    ensures between { IsBetween old.now new.now (M.view memory.new) }
    ensures budget { (M.view memory.new).budget ≡ (M.view memory.old).budget }
    ensures drawn { (M.view memory.new).drawn ≤ (M.view memory.old).drawn
        + steps_between (slice_index old.now) (slice_index new.now) (length old.now) }
    ensures drew { OnOk result ((M.view memory.new).drawn ≡ (M.view memory.old).drawn
        + steps_between (slice_index old.now) (slice_index new.now) (length old.now)) }
    ensures within { OnOk result ((M.view memory.new).drawn ≤ (M.view memory.old).budget) }
    ensures steps { OnOk result (IsDoneBy M.view M.draws
        (steps_in (slice_index old.now) (slice_index new.now) (length old.now / 8))
        memory.old memory.new) }
    ensures first_steps { IfErr result (λ e. IsCutOffIn M.view M.draws
        (steps_in (slice_index old.now) (slice_index new.now) (length old.now / 8)) e.step
        memory.old memory.new) }
{
    store_differences(memory, old, new)?;
    memory.fence()
}

/// Makes the words of a memory those of a recovered heap: what recovery changes of the image is
/// stored in the order of word index, each line in which it changed a word is written back once,
/// and at the end a fence makes all of it durable. Nothing is loaded.
///
/// The memory has the image `x`, of this version, perhaps migrated, of which recovery with this
/// filter makes the heap `to`. Its kinds of roots are those that it stores: nothing is read of
/// `kinds`. The answer is `Stopped` where the memory allows no further step; what is left then is
/// recovered to the same heap.
pub fn rebuild<M: LineMemory, F: Filter>(
    memory: &mut M,
    x: &[u64],
    kinds: &[u32],
    filter: &F,
    to: &Ready,
) -> Result<(), Stopped>
    requires memory { HoldsDurably x.now (M.view memory.old) }
    requires recovered { IsRecoveryOf (Some F.KINDS) x.now (F.links_of filter.now) to.now.words
        to.now.held }
    ensures ok { OnOk result (HoldsDurably to.now.words (M.view memory.new)) }
    ensures stopped { IfErr result (λ e. IsStoppedAt x.now to.now.words
        (steps_between (slice_index x.now) (slice_index to.now.words) (length x.now)) e.step (M.view memory.old) (M.view memory.new)) }
    ensures budget { (M.view memory.new).budget ≡ (M.view memory.old).budget }
    ensures drawn { (M.view memory.new).drawn ≤ (M.view memory.old).drawn
        + steps_between (slice_index x.now) (slice_index to.now.words) (length x.now) }

    // Done, it drew a ticket for each word that it changed, for each of their lines and for the
    // fence, all of them below the budget.
    ensures drew { OnOk result ((M.view memory.new).drawn ≡ (M.view memory.old).drawn
        + steps_between (slice_index x.now) (slice_index to.now.words) (length x.now)) }
    ensures within { OnOk result ((M.view memory.new).drawn ≤ (M.view memory.old).budget) }

    // It leaves what these steps lead to, in this order, or stopped the first of them: so which words
    // are durable then is told by its stores and by the numbers drawn.
    ensures steps { OnOk result (IsDoneBy M.view M.draws
        (steps_in (slice_index x.now) (slice_index to.now.words) (length x.now / 8))
        memory.old memory.new) }
    ensures first_steps { IfErr result (λ e. IsCutOffIn M.view M.draws
        (steps_in (slice_index x.now) (slice_index to.now.words) (length x.now / 8)) e.step
        memory.old memory.new) }

    // At every exit each word is that of the image or of the heap, and recovery begun again keeps
    // the same, whatever a crash leaves.
    ensures between { IsBetween x.now to.now.words (M.view memory.new) }
    ensures crash { (image : Image)
        → IsCrashImage (slice_index (M.view memory.new).durable) image
        → RecoversAlike (Some F.KINDS) (8 * length x.now) (slice_index x.now) image
        (F.links_of filter.now) }
    ensures mixed { (image : Image) → Mixes (slice_index (M.view memory.new).volatile)
        (slice_index (M.view memory.new).durable) image
        → RecoversAlike (Some F.KINDS) (8 * length x.now) (slice_index x.now) image
        (F.links_of filter.now) }
{
    store_image(memory, x, to.words())
}
