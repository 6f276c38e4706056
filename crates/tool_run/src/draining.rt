//! What draining a class of an image gives, once the image is recovered.
ghost use Rattle.std.specs.Prelude.{◌≡◌, ◌≤◌, ℕ, IfOk, IfErr, IsErrOf};
ghost use Rattle.tool_ports.specs.Calls.{with_get};
ghost use Rattle.tool_ports.specs.Causes.{RoseByOne};
ghost use Rattle.tool_ports.specs.Chances.{ComesFromSeed};
ghost use Rattle.tool_run.specs.Asking.{DrainAsks};
ghost use Rattle.tool_run.specs.Calls.{get_limit};
ghost use Rattle.tool_command.specs.Command.{drain_image};
ghost use Rattle.tool_run.specs.Inside.{Refuses, IsBeforeSeeding};
ghost use Rattle.tool_run.specs.Making.{TellsDrained, drained_text};
ghost use Rattle.tool_run.specs.Recovering.{IsDrainableAtRest, IsGivenText};

use crate::drained::drain_heap;
use crate::fault::Fault;
use crate::recovering::recover_image;
use block_heap::Chance;
use heap_recover::Recovered;
use image_run::Product;
use region_header::Bytes;
use size_table::{SizeClass, size_of};
use std::alloc::{AllocError, Global};
use super_block::Ready;
use tool_ports::{Chances, ImageStore};

/// The offsets of the blocks that the class of an image gives until nothing is left.
pub fn drain_image<I: ImageStore, C: Chances>(
    alloc: Global,
    name: &str,
    class: SizeClass,
    images: &mut I,
    chances: &mut C,
) -> Result<Product, Fault>
    ensures ok { IfOk result (λ product. (product.image ≡ None)
        × TellsDrained (I.contents images.old) name.now class.number product.text) }
    ensures err { IfErr result (λ fault. Refuses (drain_image name.now class.number)
        (I.contents images.old) (RoseByOne (I.faults images.old) (I.faults images.new)) fault) }
    ensures unchanged { I.contents images.new ≡ I.contents images.old }
    ensures later { I.faults images.old ≤ I.faults images.new }
    ensures store_steady { ¬ (IsErrOf result Fault.ReadFault)
        → I.faults images.new ≡ I.faults images.old }
    ensures calls { I.calls images.new ≡ with_get get_limit (I.calls images.old) }
    ensures seeded { IfOk result (λ _. ComesFromSeed C.seed_gives C.chance_gives C.word_gives
        chances.old 0 chances.new) }
    ensures asked { IfOk result (λ _. DrainAsks C.seed_gives C.chance_gives
        chances.old chances.new) }
    ensures no_chance { IfErr result (λ fault. IsBeforeSeeding (drain_image name.now class.number)
        fault → chances.new ≡ chances.old) }
{
    let recovered = recover_image(alloc, name, images)?;
    let Recovered {
        heap,
        was: _,
        free: _,
    } = recovered;
    chances.seed(0);
    let text = heap_text(alloc, heap, class, chances.chance(0))?;
    Ok(Product { image: None, text })
}

// The text on what a heap gives.
fn heap_text<C: Chance>(
    alloc: Global,
    heap: Ready,
    class: SizeClass,
    chance: C,
) -> Result<Bytes, AllocError>
    requires { IsDrainableAtRest heap.words heap.held class.number }
    ensures { IfOk result (IsGivenText heap.words heap.held class.number) }
{
    let mut offsets = drain_heap(alloc, heap, class, chance)?;
    offsets.sort_unstable();
    offsets_text(alloc, class, &offsets)
}

// The line on a class, and a line for each of these offsets.
fn offsets_text(alloc: Global, class: SizeClass, offsets: &[u64]) -> Result<Bytes, AllocError>
    ensures { IfOk result (λ text. text ≡ drained_text class.number offsets.now) }
{
    let number = class.number;
    let size = size_of(number);
    let count = offsets.len();
    let mut text = String::new(alloc);
    writeln!(text, "class {number} size {size} blocks {count}")?;
    for offset in offsets {
        writeln!(text, "{offset}")?;
    }
    Ok(Bytes::from_vec(text.into_bytes()))
}
