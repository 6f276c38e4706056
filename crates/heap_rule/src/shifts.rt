//! How a seat's parts change with a draw, by the shift that goes with it.

ghost use Rattle.std.specs.Prelude.{◌≡◌, Some};
ghost use Rattle.core_model.specs.declared.event.Shift.TheVariants.{Cut, Alloc, Free, Lift, Split};
ghost use Rattle.core_model.specs.Guards.{MayAlloc, MaySplit};
ghost use Rattle.heap_rule.specs.Noted.{FitsChange, FitsNotes};
ghost use Rattle.heap_rule.specs.Seated.{IsSeatOf};
ghost use Rattle.heap_rule.specs.Shown.{CanFree, CanLift, CanCut, CanShift};

use crate::seat::Seat;
use core_model::Shift;
use heap_table::Shared;
use seat_index::Change;

impl Seat {
    /// The first block of the cache is held.
    fn alloc_change(&mut self, shared: &Shared, class: u64) -> Change
        requires seat { IsSeatOf shared.now self.old }
        requires may { MayAlloc self.old.view class }
        ensures same { self.new ≡ self.old }
        ensures notes { FitsNotes result self.old.view (Some (Alloc class)) }
        ensures change { FitsChange result self.old.view (Some (Alloc class)) }
    {
        let first = self.next_cached(shared, class);
        Change::Allocated { class, first }
    }

    /// The first block of the cache is behind the batch.
    fn lift_change(&mut self, shared: &Shared, class: u64) -> Change
        requires seat { IsSeatOf shared.now self.old }
        requires can { CanLift self.old.view class }
        ensures same { self.new ≡ self.old }
        ensures notes { FitsNotes result self.old.view (Some (Lift class)) }
        ensures change { FitsChange result self.old.view (Some (Lift class)) }
    {
        let first = self.next_cached(shared, class);
        let block = self.notes.caches[class as usize].first;
        Change::Lifted {
            class,
            block,
            first,
        }
    }

    /// A held block is in front of the cache of its class.
    fn free_change(&self, block: u64) -> Change
        requires can { CanFree self.now.view block }
        ensures notes { FitsNotes result self.now.view (Some (Free block)) }
        ensures change { FitsChange result self.now.view (Some (Free block)) }
    {
        let class = self.held_class(block);
        Change::Freed {
            class: class.number as u64,
            block,
        }
    }

    /// The superblocks of a held large block are claimed.
    fn split_change(&self, block: u64) -> Change
        requires may { MaySplit self.now.view block }
        ensures notes { FitsNotes result self.now.view (Some (Split block)) }
        ensures change { FitsChange result self.now.view (Some (Split block)) }
    {
        let d = self.geometry.superblock_of(block);
        let n = self.span_length(d);
        Change::Split { d, n }
    }

    /// All blocks of a superblock that was made ready are in the cache of its class.
    fn cut_change(&mut self, shared: &Shared, d: u64) -> Change
        requires seat { IsSeatOf shared.now self.old }
        requires can { CanCut self.old.view d }
        ensures same { self.new ≡ self.old }
        ensures notes { FitsNotes result self.old.view (Some (Cut d)) }
        ensures change { FitsChange result self.old.view (Some (Cut d)) }
    {
        let class = self.cutting_class(shared, d);
        Change::Cut { d, class }
    }

    /// How the parts change.
    pub(crate) fn change_by(&mut self, shared: &Shared, shift: Shift) -> Change
        requires seat { IsSeatOf shared.now self.old }
        requires can { CanShift self.old.view (Some shift) }
        ensures same { self.new ≡ self.old }
        ensures notes { FitsNotes result self.old.view (Some shift) }
        ensures change { FitsChange result self.old.view (Some shift) }
    {
        match shift {
            Shift::Cut { d } => self.cut_change(shared, d),
            Shift::Alloc { class } => self.alloc_change(shared, class),
            Shift::Free { block } => self.free_change(block),
            Shift::Lift { class } => self.lift_change(shared, class),
            Shift::Large { d, n } => Change::Large { d, n },
            Shift::Split { block } => self.split_change(block),
        }
    }
}
