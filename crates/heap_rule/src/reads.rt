//! Reads of what a seat's view does not say, which change nothing.

ghost use Rattle.std.specs.Prelude.{◌≡◌, ◌<◌, ◌≤◌, length};
ghost use Rattle.core_model.specs.View.{of_class, times_classed};
ghost use Rattle.core_model.specs.Effects.{claim_class, span_count, first_of, rest_of};
ghost use Rattle.core_model.specs.Guards.{MayAlloc};
ghost use Rattle.heap_rule.specs.Seated.{IsSeatOf};
ghost use Rattle.heap_rule.specs.Shown.{CanFree, CanCut};

use crate::seat::Seat;
use heap_table::{Shared, read};
use size_table::SizeClass;

impl Seat {
    /// The class of a superblock that is claimed with a class.
    pub(crate) fn claimed_class(&self, d: u64) -> SizeClass
        requires claimed { 0 < times_classed d self.now.view.classed }
        ensures class { result.number ≡ claim_class d self.now.view.classed }
    {
        let class = self.owned.ownerships[d as usize].class();
        SizeClass::new(class as u8)
    }

    /// The block after the first one of a cache, where there is one: the stack tells it, and a load
    /// only where more blocks were cached than a superblock has.
    pub(crate) fn next_cached(&mut self, shared: &Shared, class: u64) -> u64
        requires seat { IsSeatOf shared.now self.old }
        requires may { MayAlloc self.old.view class }
        ensures same { self.new ≡ self.old }
        ensures next { 1 ≤ length (rest_of (of_class self.old.view.caches class))
            → first_of (rest_of (of_class self.old.view.caches class)) ≡ result }
    {
        let cache = self.notes.caches[class as usize];
        if cache.count < 2 {
            return 0;
        }
        if let Some(second) = self.owned.stacks[class as usize].second() {
            return second;
        }
        read(shared, &mut self.table_seat, cache.first)
    }

    /// The class of a held block that may be freed.
    pub(crate) fn held_class(&self, block: u64) -> SizeClass
        requires can { CanFree self.now.view block }
        ensures class { (can : CanFree self.now.view block) → result.number ≡ can.class }
    {
        let d = self.geometry.superblock_of(block);
        let class = self.owned.classes[d as usize];
        SizeClass::new(class as u8)
    }

    /// How many superblocks a held large block takes.
    pub(crate) fn span_length(&self, d: u64) -> u64
        requires held { 1 ≤ span_count d self.now.view.large }
        ensures { result ≡ span_count d self.now.view.large }
    {
        self.owned.ownerships[d as usize].count()
    }

    /// The class of a superblock that was made ready.
    pub(crate) fn cutting_class(&mut self, shared: &Shared, d: u64) -> SizeClass
        requires seat { IsSeatOf shared.now self.old }
        requires can { CanCut self.old.view d }
        ensures same { self.new ≡ self.old }
        ensures class { (can : CanCut self.old.view d) → result.number ≡ can.class }
    {
        let class = read(shared, &mut self.table_seat, self.geometry.info(d));
        SizeClass::new(class as u8)
    }
}
