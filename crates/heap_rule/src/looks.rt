//! The steps of a seat that read a word.

ghost use Rattle.core_model.specs.declared.event.Event.TheVariants.{Load, LookUsed, LookHead, LookLink, LookAnchor};
ghost use Rattle.heap_table.specs.Plays.{IsEvent};
ghost use Rattle.heap_rule.specs.Seated.{KeepsStores, IsSeatOf};
ghost use Rattle.heap_rule.specs.Shown.{Can};

use crate::seat::Seat;
use core_model::Event;
use heap_table::{Shared, look};
use seat_state::{Seen, head_first};
use super_block::{HEAD_WORD, USED_WORD};

impl Seat {
    /// Reads the mark below which superblocks have been taken.
    pub fn look_used(&mut self, shared: &Shared) -> u64
        requires seat { IsSeatOf shared.now self.old }
        requires can { Can self.old.view LookUsed }
        ensures event { IsEvent LookUsed self.old.view result self.new.view }
        ensures seat { IsSeatOf shared.now self.new }
        ensures stores { KeepsStores self.old self.new }
    {
        let found = look(shared, &mut self.table_seat, USED_WORD, Event::LookUsed);
        self.notes.ticket = None;
        self.notes.seen_used = Some(found);
        found
    }

    /// Reads the head of a list.
    pub fn look_head(&mut self, shared: &Shared, list: u64) -> u64
        requires seat { IsSeatOf shared.now self.old }
        requires can { Can self.old.view (LookHead list) }
        ensures event { IsEvent (LookHead list) self.old.view result self.new.view }
        ensures seat { IsSeatOf shared.now self.new }
        ensures stores { KeepsStores self.old self.new }
    {
        let event = Event::LookHead { list };
        let found = look(shared, &mut self.table_seat, HEAD_WORD + list, event);
        self.notes.ticket = None;
        self.notes.seen_head = Some(Seen {
            of: list,
            word: found,
        });
        self.notes.seen_link = None;
        found
    }

    /// Loads a word of its own.
    pub fn load_word(&mut self, shared: &Shared, word: u64) -> u64
        requires seat { IsSeatOf shared.now self.old }
        requires can { Can self.old.view (Load word) }
        ensures event { IsEvent (Load word) self.old.view result self.new.view }
        ensures seat { IsSeatOf shared.now self.new }
        ensures stores { KeepsStores self.old self.new }
    {
        let found = look(shared, &mut self.table_seat, word, Event::Load { word });
        self.notes.ticket = None;
        found
    }

    /// Reads the link of the first descriptor of the list whose head was seen.
    pub fn look_link(&mut self, shared: &Shared) -> u64
        requires seat { IsSeatOf shared.now self.old }
        requires can { Can self.old.view LookLink }
        ensures event { IsEvent LookLink self.old.view result self.new.view }
        ensures seat { IsSeatOf shared.now self.new }
        ensures stores { KeepsStores self.old self.new }
    {
        let Some(head) = self.notes.seen_head else {
            unreachable!();
        };
        let place = self.geometry.link(head_first(head.word) - 1);
        let found = look(shared, &mut self.table_seat, place, Event::LookLink);
        self.notes.ticket = None;
        self.notes.seen_link = Some(found);
        found
    }

    /// Reads the anchor of a claimed superblock, or of the batch's.
    pub fn look_anchor(&mut self, shared: &Shared, d: u64) -> u64
        requires seat { IsSeatOf shared.now self.old }
        requires can { Can self.old.view (LookAnchor d) }
        ensures event { IsEvent (LookAnchor d) self.old.view result self.new.view }
        ensures seat { IsSeatOf shared.now self.new }
        ensures stores { KeepsStores self.old self.new }
    {
        let event = Event::LookAnchor { d };
        let found = look(shared, &mut self.table_seat, self.geometry.anchor(d), event);
        self.notes.ticket = None;
        self.notes.seen_anchor = Some(Seen { of: d, word: found });
        found
    }
}
