//! The pending write-backs of a memory, in room that is taken once.
ghost use Rattle.std.specs.Prelude.{◌≡◌, ◌≢◌, ℕ, ◌+◌, ◌*◌, ◌/◌, ◌<◌, ◌≤◌, false, true, length, replicate, slice_index, slice_index_or, slice_set, IfOk, IfSome, IsNone, vec_len};
ghost use Rattle.line_memory.specs.Marks.{completed_at, mark_at, CoversGroups, IsMarked};

use crate::memory;
use bit_marks::BitMarks;
use std::alloc::{AllocError, Global};
use std::marker::Model;

/// How many words a line has.
const LINE: u64 = memory::LINE;

/// How many words a group has, whose marks are looked at together.
const GROUP: u64 = 64;

/// How many words a page has: those of 64 groups.
const PAGE: u64 = GROUP * GROUP;

/// A mark for each word, one bit each, and one for each group that may have marked words. Since a
/// page is listed once at most, the list never outgrows its room, and a fence goes over the groups
/// with words that were written back, and not over the whole memory.
#[derive(Drop)]
pub struct Pending {
    marks: BitMarks,
    groups: BitMarks,
    listed: Vec<bool>,
    pages: Vec<u64>,
    /// The group that is looked at first: of the line that was marked last, or of the word that was
    /// found last.
    latest: u64,
}

impl Model for Pending {
    ghost use Rattle.std.specs.Prelude.{List, Bool};
    ghost use Rattle.std.specs.Vec.{vec_capacity};
    ghost use Rattle.line_memory.specs.Marks.{CoversGroups, ListsPages};

    ghost Value = { List Bool };

    ghost view = { λ p. p.marks };

    ghost invariant = { λ p. CoversGroups p.marks p.groups
        × ListsPages p.marks p.listed.items p.pages.items (vec_capacity p.pages) };
}

impl Pending {
    pub fn new(alloc: Global, words: usize) -> Result<Pending, AllocError>
        ensures { IfOk result (λ p. p ≡ replicate words false) }
    {
        let pages = words.div_ceil(PAGE as usize);
        Ok(Pending {
            marks: BitMarks::new(alloc, words as u64)?,
            groups: BitMarks::new(alloc, (words as u64).div_ceil(GROUP))?,
            listed: vec![in alloc; false; pages]?,
            pages: Vec::with_capacity(alloc, pages)?,
            latest: 0,
        })
    }

    /// Marks the words of the line.
    pub fn mark_line(&mut self, line: u64)
        requires { 8 * line < length self.old }
        ensures len { length self.new ≡ length self.old }
        ensures in_line { (k : ℕ) → k < length self.old → k / 8 ≡ line → IsMarked self.new k }
        ensures others { (k : ℕ) → k / 8 ≢ line → mark_at self.new k ≡ mark_at self.old k }
    {
        let page = line / (PAGE / LINE);
        self.marks.set_eight(line);
        self.latest = line / (GROUP / LINE);
        self.groups.set(self.latest);
        if !self.listed[page as usize] {
            self.listed[page as usize] = true;
            self.pages.push_reserved(page);
        }
    }

    /// Takes back the mark of the word.
    pub fn unmark(&mut self, word: usize)
        requires { word < length self.old }
        ensures { self.new ≡ slice_set self.old word false }
    {
        self.marks.clear(word as u64);
    }

    /// Takes back the mark of one marked word, if there is one, and tells the word.
    #[inline(always)]
    pub fn take_marked(&mut self) -> Option<u64>
        ensures some { IfSome result (λ word. IsMarked self.old word
            × (self.new ≡ slice_set self.old word false)) }
        ensures none { IsNone result
            → ((word : ℕ) → mark_at self.old word ≡ false) × (self.new ≡ self.old) }
    {
        if let Some(word) = self.marks.first_in(self.latest) {
            self.marks.clear(word);
            return Some(word);
        }
        self.take_elsewhere()
    }

    /// The same by the list of pages. It is a function of its own, so that the first look is inlined.
    #[inline(never)]
    fn take_elsewhere(&mut self) -> Option<u64>
        ensures some { IfSome result (λ word. IsMarked self.old word
            × (self.new ≡ slice_set self.old word false)) }
        ensures none { IsNone result
            → ((word : ℕ) → mark_at self.old word ≡ false) × (self.new ≡ self.old) }
    {
        while let Some(page) = self.pages.pop() {
            if let Some(word) = first_marked(&self.marks, &mut self.groups, page) {
                self.pages.push_reserved(page);
                self.latest = word / GROUP;
                self.marks.clear(word);
                return Some(word);
            }
            self.listed[page as usize] = false;
        }
        None
    }

    /// Makes each marked word durable, and takes back all marks.
    pub fn complete(&mut self, volatile: &[u64], durable: &mut [u64])
        requires marks { length self.old ≡ length volatile.now }
        requires lengths { length durable.old ≡ length volatile.now }
        ensures len { length self.new ≡ length self.old }
        ensures clear { (k : ℕ) → mark_at self.new k ≡ false }
        ensures completed { (k : ℕ) → slice_index durable.new k
            ≡ completed_at self.old volatile.now durable.old k }
    {
        while let Some(word) = self.take_marked() {
            durable[word as usize] = volatile[word as usize];
        }
    }
}

/// The first marked word of the page. The marks of groups go that have no marked word.
fn first_marked(marks: &BitMarks, groups: &mut BitMarks, page: u64) -> Option<u64>
    requires { CoversGroups marks.now groups.old }
    ensures covers { CoversGroups marks.now groups.new }
    ensures some { IfSome result (λ word. IsMarked marks.now word × (word / 4096 ≡ page)) }
    ensures none { IsNone result → (k : ℕ) → k / 4096 ≡ page → mark_at marks.now k ≡ false }
{
    while let Some(group) = groups.first_in(page) {
        let found = marks.first_in(group);
        if found.is_some() {
            return found;
        }
        groups.clear(group);
    }
    None
}
