//! Recovers an image in place over a line memory, and makes what is put and printed.
ghost use Rattle.std.specs.Prelude.{◌≡◌, ◌++◌, length, slice_index, IfOk, IsSomeAnd, Some};
ghost use Rattle.heap_recover.specs.InPlace.{IsRecoveryOf};
ghost use Rattle.dict_model.specs.Links.{dict_links, kind_count};
ghost use Rattle.tool_ports.specs.Chances.{ComesFrom, ComesFromSeed};
ghost use Rattle.image_run.specs.Rebuilding.{IsRebuilt, RebuildAsks, RebuildDraws, Rebuilds, rebuilt_line};

use crate::product::Product;
use crate::recovering::recover_inside;
use crate::reporting::heap_text;
use dictionary::{DictFilter, root_kinds};
use heap_recover::rebuild;
use line_memory::{Closed, PlainMemory};
use region_header::{Bytes, words_to_bytes};
use std::alloc::{AllocError, Global};
use super_block::Ready;
use tool_ports::Chances;
use worker_run::left_by_crash;

// The words that are left, and whether recovery was stopped.
#[derive(Drop)]
struct Rebuilt {
    words: Vec<u64>,
    stopped: bool,
}

/// Makes the words of an image those of the heap that recovery makes of it, with so many steps, and
/// makes all that is to be put and printed. The chances begin anew by the seed.
pub fn rebuild_image<C: Chances>(
    alloc: Global,
    words: &[u64],
    heap: &Ready,
    budget: u64,
    seed: u64,
    chances: &mut C,
) -> Result<Product, AllocError>
    requires { IsRecoveryOf (Some kind_count) words.now dict_links heap.now.words heap.now.held }
    ensures ok { IfOk result (λ product. IsSomeAnd product.image (λ image. Rebuilds
        (slice_index words.now) (length words.now) budget image product.text)) }
    ensures seeded { ComesFromSeed C.seed_gives C.chance_gives C.word_gives
        chances.old seed chances.new }
    ensures asked { IfOk result (λ product. IsSomeAnd product.image (λ image. RebuildAsks
        C.seed_gives C.chance_gives C.One.draw_gives C.word_gives (slice_index words.now)
        budget seed image product.text chances.old chances.new)) }
{
    chances.seed(seed);
    let rebuilt = rebuild_words(alloc, words, heap, budget, chances)?;
    let image = words_to_bytes(alloc, &rebuilt.words)?;
    let recovered = recover_inside(alloc, rebuilt.words)?;
    let report = heap_text(alloc, &recovered)?;
    let text = rebuilt_text(alloc, rebuilt.stopped, &report)?;
    Ok(Product {
        image: Some(image),
        text,
    })
}

// Makes the words those of the heap, as far as so many steps go.
fn rebuild_words<C: Chances>(
    alloc: Global,
    words: &[u64],
    heap: &Ready,
    budget: u64,
    chances: &mut C,
) -> Result<Rebuilt, AllocError>
    requires { IsRecoveryOf (Some kind_count) words.now dict_links heap.now.words heap.now.held }
    ensures ok { IfOk result (λ rebuilt. IsRebuilt (slice_index words.now) (length words.now)
        budget rebuilt.stopped rebuilt.words.items) }
    ensures chances { ComesFrom C.chance_gives C.word_gives chances.old chances.new }
    ensures asked { IfOk result (λ rebuilt. RebuildDraws C.chance_gives C.One.draw_gives
        C.word_gives (slice_index words.now) budget rebuilt.stopped rebuilt.words.items
        chances.old chances.new) }
{
    let copy = Vec::from_slice(alloc, words)?;
    let geometry = heap.geometry();
    let mut memory = PlainMemory::new(alloc, copy, budget, chances.chance(0))?;
    let end = rebuild(&mut memory, words, &root_kinds(), &DictFilter, heap);
    let Closed { now, kept } = memory.finish();
    match end {
        Ok(()) => Ok(Rebuilt {
            words: now,
            stopped: false,
        }),
        Err(_) => Ok(Rebuilt {
            words: left_by_crash(kept, geometry, chances),
            stopped: true,
        }),
    }
}

// The line on whether it was stopped, and the report.
fn rebuilt_text(alloc: Global, stopped: bool, report: &Bytes) -> Result<Bytes, AllocError>
    ensures { IfOk result (λ text. text ≡ rebuilt_line stopped ++ report.now) }
{
    let line = if stopped {
        "rebuild stopped\n"
    } else {
        "rebuild done\n"
    };
    let mut text = Vec::from_slice(alloc, line.as_bytes())?;
    text.extend_from_slice(report.as_slice())?;
    Ok(Bytes::from_vec(text))
}
