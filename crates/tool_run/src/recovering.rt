//! Recovers the image that a command names.
ghost use Rattle.std.specs.Prelude.{◌≡◌, ◌↔◌, ◌*◌, ◌≤◌, ℕ, Some, length, slice_index, IfOk, IfErr, OnOk, IsErrOf, IsTrue};
ghost use Rattle.heap_model.specs.Geometry.{clean};
ghost use Rattle.heap_model.specs.Header.{IsWellFormed, HasKindsBelow, state_of};
ghost use Rattle.heap_recover.specs.Answer.{IsMadeOf};
ghost use Rattle.heap_recover.specs.Fault.{TellsOutsideIn};
ghost use Rattle.dict_model.specs.Links.{dict_links, kind_count};
ghost use Rattle.tool_ports.specs.Calls.{with_get};
ghost use Rattle.tool_ports.specs.Causes.{RoseByOne};
ghost use Rattle.tool_run.specs.Calls.{get_limit};
ghost use Rattle.tool_command.specs.Command.{Command, image_name};
ghost use Rattle.tool_run.specs.Inside.{Refuses};
ghost use Rattle.tool_run.specs.Making.{IsKept, PointsOutside};
ghost use Rattle.tool_run.specs.CommandUses.{FollowsLinks};
ghost use Rattle.tool_run.specs.Recovering.{IsRecoveredHeapOf, IsRecoveredFrom};

use crate::fault::Fault;
use crate::getting::dictionary_image;
use dictionary::DictFilter;
use heap_recover::{InOrder, RecoverFault, Recovered, recover_current};
use par_recover::recover_current_par;
use std::alloc::Global;
use std::thread::Threads;
use tool_ports::ImageStore;

/// Recovers the image of this name.
pub fn recover_image<I: ImageStore>(
    alloc: Global,
    name: &str,
    images: &mut I,
) -> Result<Recovered, Fault>
    ensures ok { IfOk result (IsRecoveredHeapOf (I.contents images.old) name.now) }
    ensures err { IfErr result (λ fault. (command : Command) → FollowsLinks command
        → image_name command ≡ name.now → Refuses command (I.contents images.old)
        (RoseByOne (I.faults images.old) (I.faults images.new)) fault) }
    ensures unchanged { I.contents images.new ≡ I.contents images.old }
    ensures later { I.faults images.old ≤ I.faults images.new }
    ensures store_steady { ¬ (IsErrOf result Fault.ReadFault)
        → I.faults images.new ≡ I.faults images.old }
    ensures calls { I.calls images.new ≡ with_get get_limit (I.calls images.old) }
{
    let image = dictionary_image(alloc, name, images)?;
    let recovered = recover_current(alloc, image.words, image.closed, &DictFilter, &InOrder)?;
    Ok(recovered)
}

/// Recovers the image of this name, by threads where that is asked for.
pub fn recover_shown<R: Threads + Sync, I: ImageStore>(
    rt: &R,
    alloc: Global,
    name: &str,
    in_parallel: bool,
    images: &mut I,
) -> Result<Recovered, Fault>
    ensures ok { IfOk result (IsRecoveredHeapOf (I.contents images.old) name.now) }
    ensures err { IfErr result (λ fault. (command : Command) → FollowsLinks command
        → image_name command ≡ name.now → Refuses command (I.contents images.old)
        (RoseByOne (I.faults images.old) (I.faults images.new)) fault) }
    ensures unchanged { I.contents images.new ≡ I.contents images.old }
    ensures later { I.faults images.old ≤ I.faults images.new }
    ensures store_steady { ¬ (IsErrOf result Fault.ReadFault)
        → I.faults images.new ≡ I.faults images.old }
    ensures calls { I.calls images.new ≡ with_get get_limit (I.calls images.old) }
{
    if !in_parallel {
        return recover_image(alloc, name, images);
    }
    let image = dictionary_image(alloc, name, images)?;
    let recovered = recover_current_par(rt, alloc, image.words, image.closed, &DictFilter)?;
    Ok(recovered)
}

/// Recovers the image of this name, and gives its words beside what recovery makes of them.
pub fn recover_words<I: ImageStore>(
    alloc: Global,
    name: &str,
    images: &mut I,
) -> Result<(Vec<u64>, Recovered), Fault>
    ensures ok { IfOk result (λ both.
        IsRecoveredFrom (I.contents images.old) name.now both.0.items both.1) }
    ensures err { IfErr result (λ fault. (command : Command) → FollowsLinks command
        → image_name command ≡ name.now → Refuses command (I.contents images.old)
        (RoseByOne (I.faults images.old) (I.faults images.new)) fault) }
    ensures unchanged { I.contents images.new ≡ I.contents images.old }
    ensures later { I.faults images.old ≤ I.faults images.new }
    ensures store_steady { ¬ (IsErrOf result Fault.ReadFault)
        → I.faults images.new ≡ I.faults images.old }
    ensures calls { I.calls images.new ≡ with_get get_limit (I.calls images.old) }
{
    let image = dictionary_image(alloc, name, images)?;
    let recovered = recover_beside(alloc, &image.words, image.closed)?;
    Ok((image.words, recovered))
}

// Recovers a copy of the words of an image of this version with a good header, of which it is known
// whether it was closed.
fn recover_beside(alloc: Global, words: &[u64], closed: bool) -> Result<Recovered, RecoverFault>
    requires formed { IsWellFormed (8 * length words.now) (slice_index words.now) }
    requires below { HasKindsBelow (Some kind_count) (slice_index words.now) }
    requires closed { IsTrue closed ↔ (state_of (slice_index words.now) ≡ clean) }
    ensures ok { IfOk result (IsMadeOf words.now (IsKept (slice_index words.now))) }
    ensures kinds { IfOk result (λ answer.
        HasKindsBelow (Some kind_count) (slice_index answer.heap.words)) }
    ensures none { OnOk result ((at : ℕ) → PointsOutside (slice_index words.now) at → ⊥) }
    ensures cause { IfErr result (TellsOutsideIn (slice_index words.now) dict_links) }
{
    let copy = Vec::from_slice(alloc, words)?;
    recover_current(alloc, copy, closed, &DictFilter, &InOrder)
}
