//! Runs a trace over a recovered heap, and makes what is put and printed.
ghost use Rattle.std.specs.Prelude.{◌≡◌, false, length, IfOk, IfSome, IsSomeAnd, Contains, slice_index};
ghost use Rattle.dict_model.specs.Links.{shards};
ghost use Rattle.dictionary.specs.Reading.{AreMaps};
ghost use Rattle.run_model.specs.Opened.{IsDictionary, CanBeRun};
ghost use Rattle.worker_run.specs.Said.{requests_of, ValuesAreShort};
ghost use Rattle.tool_ports.specs.Chances.{ComesFromSeed};
ghost use Rattle.image_run.specs.Reporting.{Reports};
ghost use Rattle.image_run.specs.Running.{RunAsks, RunsRequests, options_of};

use crate::options::RunOptions;
use crate::product::Product;
use crate::recovering::recover_inside;
use crate::reporting::recovered_text;
use dictionary::{MapFault, MappedHeap, read_maps};
use region_header::{Bytes, words_to_bytes};
use shared_run::run_trace;
use std::alloc::{AllocError, Global};
use std::collections::BTreeMap;
use std::sync::Wait;
use std::thread::Threads;
use tool_ports::{Chances, Gate};
use trace_text::{Request, reply_text};

/// Runs the requests over a recovered heap in which nothing is outside and each shard has a map,
/// and makes all that is to be put and printed. The chances begin anew by the options' seed. The
/// shards of the image that is left are read only where a worker was stopped.
pub fn run_image<R: Threads + Wait + Sync, G: Gate + Sync, C: Chances>(
    rt: &R,
    alloc: Global,
    mapped: MappedHeap,
    requests: &[Request],
    options: RunOptions,
    gate: &G,
    chances: &mut C,
) -> Result<Product, AllocError>
    requires dictionary { IsDictionary (slice_index mapped.words)
        (Contains mapped.held) }
    requires short { ValuesAreShort (requests_of requests.now) }
    ensures ok { IfOk result (λ product. IsSomeAnd product.image (λ image. RunsRequests
        (slice_index mapped.words) (requests_of requests.now) (options_of options) image
        product.text)) }
    ensures seeded { ComesFromSeed C.seed_gives C.chance_gives C.word_gives
        chances.old options.seed chances.new }
    ensures asked { IfOk result (λ product. IsSomeAnd product.image (λ image. RunAsks
        C.seed_gives C.chance_gives C.word_gives (slice_index mapped.words)
        (options_of options) image chances.old chances.new)) }
{
    chances.seed(options.seed);
    let workers = options.workers as usize;
    let budget = options.budget;
    let outcome = run_trace(rt, alloc, mapped, requests, workers, budget, gate, chances)?;
    let replies = reply_text(alloc, &outcome.replies, outcome.stopped, options.with_sum)?;
    let image = words_to_bytes(alloc, &outcome.image)?;
    let report = left_text(alloc, outcome.image, outcome.maps, options)?;
    let mut text = replies.into_vec();
    text.extend_from_slice(report.as_slice())?;
    Ok(Product {
        image: Some(image),
        text: Bytes::from_vec(text),
    })
}

// The text on an image that a run left, once it is recovered. Its maps are read where they aren't
// known.
fn left_text(
    alloc: Global,
    words: Vec<u64>,
    known: Option<Vec<BTreeMap<u64, Bytes>>>,
    options: RunOptions,
) -> Result<Bytes, AllocError>
    requires run { CanBeRun (length words.items) (slice_index words.items) }
    requires maps { IfSome known (λ maps. AreMaps (slice_index words.items) shards maps.items) }
    ensures { IfOk result (Reports (slice_index words.items) options.with_sum options.with_map) }
{
    let recovered = recover_inside(alloc, words)?;
    if let Some(maps) = known {
        return recovered_text(alloc, &recovered, &maps, options.with_sum, options.with_map);
    }
    let maps = match read_maps(alloc, &recovered) {
        Ok(maps) => maps,
        Err(MapFault::Memory) => return Err(AllocError),
        Err(MapFault::BadShard { shard: _, at: _ }) => unreachable!(),
    };
    recovered_text(alloc, &recovered, &maps, options.with_sum, options.with_map)
}
