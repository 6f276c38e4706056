//! Rings of two and of three seats, in which blocks of each size go round.

use crate::fixtures::{MANY, held_in, must_hold};
use crate::marks::has_marks;
use crate::ring::{Left, Plan, play};
use std::alloc::Global;
use std::process::Abort;
use std::test::Fail;
use super_block::Block;

/// How many bytes blocks of all classes have, and at last those of a large block of two superblocks.
const SIZES: [u64; 21] = [
    16, 32, 48, 64, 96, 128, 192, 256, 384, 512, 768, 1_024, 1_536, 2_048, 3_072, 4_096, 6_144,
    8_192, 10_240, 14_336, 131_072,
];

/// A ring in which blocks of all sizes go round, and are freed at last.
const FREED: Plan<'static> = Plan {
    capacity: 24,
    seats: 2,
    sizes: &SIZES,
    is_rooted: false,
    turns: 7,
    is_ended: true,
    budget: MANY,
    drawn: 0,
};

/// One in which roots lead to them.
const ROOTED: Plan<'static> = Plan {
    capacity: 24,
    seats: 2,
    sizes: &SIZES,
    is_rooted: true,
    turns: 7,
    is_ended: true,
    budget: MANY,
    drawn: 0,
};

/// Whether recovery of an image holds exactly the blocks that roots lead to, with the words of one of
/// the last two turns.
pub fn holds_published(alloc: Global, image: &[u64], left: &Left) -> Result<bool, Fail> {
    let turns = [left.turn.saturating_sub(1), left.turn];
    let held = held_in(alloc, image)?;
    let wanted = left.blocks.get(..left.published).unwrap_or(&[]);
    Ok(held.as_slice() == wanted && held.iter().all(|b| has_marks(image, *b, turns)))
}

/// Asserts that both images of a closed heap hold exactly those.
fn must_hold_published(rt: &(impl Abort + AllocGlobal), left: &Left) -> Result<(), Fail> {
    let now = holds_published(rt.alloc(), &left.closed.now, left)?;
    let kept = holds_published(rt.alloc(), &left.closed.kept, left)?;
    must_hold(rt, now, "what loads see");
    must_hold(rt, kept, "what a crash leaves");
    Ok(())
}

/// Plays a ring, asserts that it comes to its end, and that recovery holds what roots lead to.
fn must_go_round(rt: &(impl Abort + AllocGlobal), plan: Plan<'_>, told: &str) -> Result<(), Fail> {
    let left = play(rt.alloc(), plan)?;
    left.told?;
    must_hold(rt, left.blocks.len() == plan.sizes.len(), told);
    must_hold_published(rt, &left)
}

#[test]
fn blocks_of_each_size_go_round_and_are_freed(rt: HostRuntime) -> Result<(), Fail> {
    for seats in [1, 2, 3] {
        must_go_round(&rt, Plan { seats, ..FREED }, "all blocks go round")?;
    }
    Ok(())
}

#[test]
fn blocks_of_each_size_go_round_behind_roots(rt: HostRuntime) -> Result<(), Fail> {
    for seats in [1, 2, 3] {
        must_go_round(&rt, Plan { seats, ..ROOTED }, "all blocks go round")?;
    }
    Ok(())
}

#[test]
fn carriers_are_left_at_the_close(rt: HostRuntime) -> Result<(), Fail> {
    for plan in [FREED, ROOTED] {
        let left = play(
            rt.alloc(),
            Plan {
                is_ended: false,
                ..plan
            },
        )?;
        left.told?;
        assert_eq!(rt; left.carriers, SIZES.len());
        must_hold_published(&rt, &left)?;
    }
    Ok(())
}
