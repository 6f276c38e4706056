//! Threads with random acts, each on a seat of its own of one heap.

use crate::apart::are_all_apart;
use crate::dice::Dice;
use crate::fixtures::{MANY, recovered};
use crate::rooted::held_in;
use crate::together::{Left, Plan, work_together};
use dictionary::{DictFilter, root_kinds};
use heap_recover::RecoverFault;
use line_memory::Closed;
use quick_recover::{Path, Quick, quick_open};
use std::alloc::{AllocError, Global};
use std::test::Fail;
use super_block::{Block, CLEAN, STATE_WORD};

/// How many superblocks the heap has: fewer than the threads could fill.
const CAPACITY: u64 = 6;

/// What each thread does. At last all blocks that it has are published, and no other is kept back.
const PLAN: Plan<'static> = Plan {
    order: None,
    first: ACTS,
    others: ACTS,
    drawn: None,
};

const ACTS: &str = "roll 2000, publish, quiet";

/// How many mixtures are tried of what loads saw and what a crash leaves.
const MIXTURES: u64 = 4;

/// Recovery of an image holds exactly these blocks.
fn must_recover(alloc: Global, image: &[u64], blocks: &[Block]) -> Result<(), Fail> {
    if held_in(alloc, image)?.as_slice() != blocks {
        return Err("other blocks are held than the threads have".into());
    }
    Ok(())
}

/// Of each word what loads saw or what a crash leaves, by chance.
fn mixed(alloc: Global, closed: &Closed, seed: u64) -> Result<Vec<u64>, AllocError> {
    let mut dice = Dice::new(seed);
    let mut words = Vec::new(alloc);
    for (now, kept) in closed.now.iter().zip(closed.kept.iter()) {
        let word = if dice.below(2) == 0 { *now } else { *kept };
        words.push(word)?;
    }
    Ok(words)
}

/// Recovery of what loads saw, of what a crash leaves, and of mixtures of both holds exactly these
/// blocks.
fn must_recover_all(alloc: Global, closed: &Closed, blocks: &[Block]) -> Result<(), Fail> {
    must_recover(alloc, &closed.now, blocks)?;
    must_recover(alloc, &closed.kept, blocks)?;
    for seed in 0..MIXTURES {
        must_recover(alloc, &mixed(alloc, closed, seed)?, blocks)?;
    }
    Ok(())
}

/// What an image tells, without what is ensured of that.
fn opened(alloc: Global, image: &[u64]) -> Result<Quick, RecoverFault> {
    quick_open(alloc, image, &root_kinds(), &DictFilter)
}

/// Once they are closed, the words tell by their own lists and anchors that exactly these blocks are
/// held.
fn must_tell(alloc: Global, words: &[u64], blocks: &[Block]) -> Result<(), Fail> {
    let mut closed = Vec::from_slice(alloc, words)?;
    if let Some(state) = closed.get_mut(STATE_WORD as usize) {
        *state = CLEAN;
    }
    let found = opened(alloc, &closed)?;
    if !matches!(found.path, Path::Quick) || found.recovered.heap.held() != blocks {
        return Err("lists and anchors tell something else".into());
    }
    Ok(())
}

/// No word is held twice, and what is left has exactly the blocks that the threads have.
fn must_leave(alloc: Global, left: &Left) -> Result<(), Fail> {
    left.report.told?;
    if !are_all_apart(&left.report.given) {
        return Err("two threads hold one word".into());
    }
    must_tell(alloc, &left.closed.now, &left.report.given)?;
    must_recover_all(alloc, &left.closed, &left.report.given)
}

#[test]
fn recovery_holds_what_threads_have(rt: HostRuntime) -> Result<(), Fail> {
    for threads in [1, 2, 4, 8] {
        let heap = recovered(rt.alloc(), CAPACITY, "")?;
        let left = work_together(&rt, rt.alloc(), heap, threads, MANY, PLAN)?;
        must_leave(rt.alloc(), &left)?;
    }
    Ok(())
}
