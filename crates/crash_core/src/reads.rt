//! The words that steps look at, by what they are.

ghost use Rattle.std.specs.Prelude.{◌≡◌, ◌<◌, ◌≤◌};
ghost use Rattle.heap_model.specs.Geometry.{start_word, superblocks_end};
ghost use Rattle.core_model.specs.Memory.{info, anchor, link, next, durable_used, durable_info};
ghost use Rattle.crash_core.specs.Standing.{IsCore, memory_at};

use crate::state::CoreState;
use super_block::USED_WORD;

/// What superblock `d` holds.
pub(crate) fn info(core: &CoreState, d: u64) -> u64
    requires core { IsCore core.now }
    requires d { d < core.now.geometry.capacity }
    ensures { result ≡ info (memory_at core.now) d }
{
    core.words[core.geometry.info(d) as usize]
}

/// Which blocks of superblock `d` are free.
pub(crate) fn anchor(core: &CoreState, d: u64) -> u64
    requires core { IsCore core.now }
    requires d { d < core.now.geometry.capacity }
    ensures { result ≡ anchor (memory_at core.now) d }
{
    core.words[core.geometry.anchor(d) as usize]
}

/// The link of superblock `d` to the next one of its list.
pub(crate) fn link(core: &CoreState, d: u64) -> u64
    requires core { IsCore core.now }
    requires d { d < core.now.geometry.capacity }
    ensures { result ≡ link (memory_at core.now) d }
{
    core.words[core.geometry.link(d) as usize]
}

/// The durable value of what superblock `d` holds.
pub(crate) fn durable_info(core: &CoreState, d: u64) -> u64
    requires core { IsCore core.now }
    requires d { d < core.now.geometry.capacity }
    ensures { result ≡ durable_info (memory_at core.now) d }
{
    core.words[(core.geometry.length() + core.geometry.info(d)) as usize]
}

/// The durable mark.
pub(crate) fn durable_used(core: &CoreState) -> u64
    requires core { IsCore core.now }
    ensures { result ≡ durable_used (memory_at core.now) }
{
    core.words[(core.geometry.length() + USED_WORD) as usize]
}

/// Where the first word of a block leads.
pub(crate) fn next(core: &CoreState, block: u64) -> u64
    requires core { IsCore core.now }
    requires from { start_word core.now.geometry.capacity 0 ≤ block }
    requires until { block < superblocks_end core.now.geometry.capacity }
    ensures { result ≡ next (memory_at core.now) block }
{
    core.words[block as usize]
}
