//! Recovers a named image in place, as far as a budget goes.
ghost use Rattle.std.specs.Prelude.{◌≡◌, ◌≤◌, ℕ, IfOk, IfErr, IsErrOf};
ghost use Rattle.tool_ports.specs.Calls.{with_get};
ghost use Rattle.tool_ports.specs.Causes.{RoseByOne};
ghost use Rattle.tool_ports.specs.Chances.{ComesFromSeed};
ghost use Rattle.tool_run.specs.Asking.{NamedRebuildAsks};
ghost use Rattle.tool_run.specs.Calls.{get_limit};
ghost use Rattle.tool_command.specs.Command.{Command, rebuild_image, image_name};
ghost use Rattle.tool_run.specs.Inside.{Refuses, IsBeforeSeeding};
ghost use Rattle.tool_run.specs.Making.{RebuildsNamed};
ghost use Rattle.tool_run.specs.CommandUses.{FollowsLinks};

use crate::fault::Fault;
use crate::recovering::recover_words;
use image_run::{Product, rebuild_image};
use std::alloc::Global;
use tool_ports::{Chances, ImageStore};

/// Recovers the image of this name in place, with so many steps, and makes the image that is left
/// and the text on it.
pub fn rebuild_named<I: ImageStore, C: Chances>(
    alloc: Global,
    name: &str,
    budget: u64,
    seed: u64,
    images: &mut I,
    chances: &mut C,
) -> Result<Product, Fault>
    ensures ok { IfOk result (λ product. RebuildsNamed (I.contents images.old) name.now budget
        product.image product.text) }
    ensures err { IfErr result (λ fault. (command : Command) → FollowsLinks command
        → image_name command ≡ name.now → Refuses command (I.contents images.old)
        (RoseByOne (I.faults images.old) (I.faults images.new)) fault) }
    ensures unchanged { I.contents images.new ≡ I.contents images.old }
    ensures later { I.faults images.old ≤ I.faults images.new }
    ensures store_steady { ¬ (IsErrOf result Fault.ReadFault)
        → I.faults images.new ≡ I.faults images.old }
    ensures calls { I.calls images.new ≡ with_get get_limit (I.calls images.old) }
    ensures seeded { IfOk result (λ _. ComesFromSeed C.seed_gives C.chance_gives C.word_gives
        chances.old seed chances.new) }
    ensures asked { IfOk result (λ product. NamedRebuildAsks C.seed_gives C.chance_gives
        C.One.draw_gives C.word_gives (I.contents images.old) name.now budget seed
        chances.old chances.new product.image product.text) }
    ensures no_chance { IfErr result (λ fault. IsBeforeSeeding (rebuild_image name.now budget seed)
        fault → chances.new ≡ chances.old) }
{
    let (words, recovered) = recover_words(alloc, name, images)?;
    let product = rebuild_image(alloc, &words, &recovered.heap, budget, seed, chances)?;
    Ok(product)
}
