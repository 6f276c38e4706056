//! How many blocks have which size, found in one pass over them.
ghost use Rattle.std.specs.Prelude.{◌≡◌, ◌<◌, ◌^◌, IfOk};
ghost use Rattle.trace_text.specs.Sizes.{CountAlike, counted_in};

use std::alloc::{AllocError, Global};
use super_block::Block;

/// Blocks of one size that stand side by side.
#[derive(Clone, Copy)]
pub struct SizeRun {
    /// How many words each has.
    pub words: u64,
    /// How many there are.
    pub count: usize,
}

/// The runs of blocks of one size, behind an empty one. Those of one superblock are one run, so there
/// are few.
pub(crate) fn size_runs(alloc: Global, blocks: &[Block]) -> Result<Vec<SizeRun>, AllocError>
    ensures ok { IfOk result (λ runs. CountAlike blocks.now runs.items) }
{
    let mut runs = Vec::new(alloc);
    let mut run = SizeRun { words: 0, count: 0 };
    for block in blocks {
        if block.words != run.words {
            runs.push(run)?;
            run = SizeRun {
                words: block.words,
                count: 0,
            };
        }
        run.count += 1;
    }
    runs.push(run)?;
    Ok(runs)
}

/// How many blocks of these runs have so many words.
pub(crate) fn count_in(runs: &[SizeRun], words: u64) -> usize
    requires { counted_in words runs.now < 2 ^ 64 }
    ensures { result ≡ counted_in words runs.now }
{
    runs.iter()
        .map(|run| if run.words == words { run.count } else { 0 })
        .sum()
}
