//! A recovery made in place, over the dictionary's filter.
use dictionary::{DictFilter, root_kinds};
use line_memory::ConstantChance;
use recovery_tests::{InPlace, recover_in_place};
use std::alloc::Global;
use std::test::Fail;

/// Recovers the image in place with so many steps, as one with a dictionary.
pub fn in_place(
    alloc: Global,
    image: &[u64],
    budget: u64,
    chance: ConstantChance,
) -> Result<InPlace, Fail> {
    recover_in_place(alloc, image, &root_kinds(), &DictFilter, budget, chance)
}
