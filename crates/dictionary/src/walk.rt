//! The steps of reading a shard: where its root and links lead, and what stands in a node.
ghost use Rattle.std.specs.Prelude.{◌≡◌, ◌≢◌, ◌+◌, ◌*◌, ◌<◌, ◌≤◌, ◌^◌, ◌↔◌, ℕ, false, length, slice_index, IfOk, OnOk, IsTrue, IsSome};
ghost use Rattle.std.specs.BTreeMap.{get, IsOrdered};
ghost use Rattle.std.specs.Ordering.{nat_cmp};
ghost use Rattle.heap_model.specs.declared.block.Block.{Block};
ghost use Rattle.heap_model.specs.Geometry.{kind_word};
ghost use Rattle.heap_model.specs.Header.{capacity_of};
ghost use Rattle.heap_model.specs.Blocks.{layout_of, IsBlock};
ghost use Rattle.dict_model.specs.Layout.{value_index};
ghost use Rattle.dict_model.specs.Nodes.{buckets, value_words, key_in, length_in, value_in, IsNode};
ghost use Rattle.dict_model.specs.Shards.{LeadsAlone, but};
ghost use Rattle.dictionary.specs.Reading.{IsRead, IsLead, AddsNode};

use crate::fault::MapFault;
use dict_model::{BUCKETS, KEY_INDEX, LARGEST_VALUE, LENGTH_INDEX, SHARDS, VALUE_INDEX};
use filter_trace::{Scan, Target};
use heap_model::Block;
use region_header::{Bytes, words_to_bytes};
use root_reach::Origins;
use std::alloc::{AllocError, Global};
use std::collections::BTreeMap;
use super_block::{CAPACITY_WORD, Geometry};

/// Where a root or a link of a shard leads.
#[derive(Clone, Copy)]
pub enum Lead {
    /// It is null.
    Null,
    /// To a block that may stand there.
    To(Block),
    /// To anything else.
    Astray,
}

/// A shard of an image.
#[derive(Clone, Copy)]
pub struct Walk<'a> {
    pub scan: Scan<'a>,
    pub origins: &'a Origins,
    pub shard: u16,
}

impl Walk<'_> {
    /// That the word at the index leads to what it may not.
    pub fn fault(&self, at: u64) -> MapFault
        ensures { result ≡ MapFault.BadShard self.now.shard at }
    {
        MapFault::BadShard {
            shard: self.shard as usize,
            at,
        }
    }

    /// The word that has the kind of the shard's root.
    pub fn kind_place(&self) -> u64
        requires read { IsRead self.now.scan.words.now self.now.scan.directory.now self.now.origins.now }
        requires shard { self.now.shard < 8 }
        ensures is { result
            ≡ kind_word (capacity_of (slice_index self.now.scan.words.now)) self.now.shard }
        ensures inside { result < length self.now.scan.words.now }
    {
        Geometry::new(self.scan.words[CAPACITY_WORD as usize]).kind(self.shard as u64)
    }

    /// Where the word leads among the blocks that no other root reaches.
    fn lead(&self, word: u64) -> Lead
        requires { IsRead self.now.scan.words.now self.now.scan.directory.now self.now.origins.now }
        ensures { IsLead (LeadsAlone (slice_index self.now.scan.words.now) self.now.shard)
            (λ b. IsBlock (layout_of (slice_index self.now.scan.words.now)) b) word result }
    {
        match self.scan.target_of(word) {
            Target::Null => Lead::Null,
            Target::Nowhere => Lead::Astray,
            Target::To(block) => {
                if self.origins.is_reached_beside(block, self.shard) {
                    Lead::Astray
                } else {
                    Lead::To(block)
                }
            }
        }
    }

    /// Word `at` of the block.
    fn word(&self, block: Block, at: u64) -> u64
        requires read { IsRead self.now.scan.words.now self.now.scan.directory.now
            self.now.origins.now }
        requires block { IsBlock (layout_of (slice_index self.now.scan.words.now)) block }
        requires at { at < block.words }
        ensures { result ≡ slice_index self.now.scan.words.now (block.first_word + at) }
    {
        self.scan.words[(block.first_word + at) as usize]
    }

    /// Whether the block can be a node of the bucket.
    fn is_node(&self, bucket: u64, block: Block) -> bool
        requires read { IsRead self.now.scan.words.now self.now.scan.directory.now
            self.now.origins.now }
        requires block { IsBlock (layout_of (slice_index self.now.scan.words.now)) block }
        ensures yes { IsTrue result
            → IsNode (slice_index self.now.scan.words.now) self.now.shard bucket block }
        ensures no { result ≡ false
            → IsNode (slice_index self.now.scan.words.now) self.now.shard bucket block → ⊥ }
    {
        if block.words < VALUE_INDEX {
            return false;
        }
        let key = self.word(block, KEY_INDEX);
        let length = self.word(block, LENGTH_INDEX);
        if length > LARGEST_VALUE {
            return false;
        }
        key % SHARDS == self.shard as u64
            && key / SHARDS % BUCKETS == bucket
            && VALUE_INDEX + (length + 7) / 8 <= block.words
    }

    /// The table of the shard, where the root leads.
    pub fn table(&self, word: u64) -> Lead
        requires { IsRead self.now.scan.words.now self.now.scan.directory.now self.now.origins.now }
        ensures { IsLead (LeadsAlone (slice_index self.now.scan.words.now) self.now.shard)
            (λ b. b.words ≡ buckets) word result }
    {
        match self.lead(word) {
            Lead::Null => Lead::Null,
            Lead::Astray => Lead::Astray,
            Lead::To(block) => {
                if block.words == BUCKETS {
                    Lead::To(block)
                } else {
                    Lead::Astray
                }
            }
        }
    }

    /// The node of the bucket to which a link leads.
    pub fn node(&self, table: Block, bucket: u64, word: u64) -> Lead
        requires { IsRead self.now.scan.words.now self.now.scan.directory.now self.now.origins.now }
        ensures { IsLead
            (but table (LeadsAlone (slice_index self.now.scan.words.now) self.now.shard))
            (IsNode (slice_index self.now.scan.words.now) self.now.shard bucket) word result }
    {
        match self.lead(word) {
            Lead::Null => Lead::Null,
            Lead::Astray => Lead::Astray,
            Lead::To(block) => {
                if block != table && self.is_node(bucket, block) {
                    Lead::To(block)
                } else {
                    Lead::Astray
                }
            }
        }
    }

    /// The value of a node.
    fn value(&self, alloc: Global, block: Block) -> Result<Bytes, AllocError>
        requires read { IsRead self.now.scan.words.now self.now.scan.directory.now
            self.now.origins.now }
        requires block { IsBlock (layout_of (slice_index self.now.scan.words.now)) block }
        requires fits { value_index + value_words (length_in (slice_index self.now.scan.words.now) block)
            ≤ block.words }
        ensures ok { IfOk result (λ value.
            value ≡ value_in (slice_index self.now.scan.words.now) block) }
    {
        let length = self.word(block, LENGTH_INDEX);
        let from = (block.first_word + VALUE_INDEX) as usize;
        let words = &self.scan.words[from..from + ((length + 7) / 8) as usize];
        let mut bytes = words_to_bytes(alloc, words)?.into_vec();
        bytes.truncate(length as usize);
        Ok(Bytes::from_vec(bytes))
    }

    /// Adds the key of a node and its value, and tells whether the key is new.
    pub fn add(
        &self,
        alloc: Global,
        block: Block,
        map: &mut BTreeMap<u64, Bytes>,
    ) -> Result<bool, AllocError>
        requires read { IsRead self.now.scan.words.now self.now.scan.directory.now
            self.now.origins.now }
        requires block { IsBlock (layout_of (slice_index self.now.scan.words.now)) block }
        requires fits { value_index + value_words (length_in (slice_index self.now.scan.words.now) block)
            ≤ block.words }
        ensures new { IfOk result (λ new. IsTrue new
            → AddsNode (slice_index self.now.scan.words.now) block map.old map.new) }
        ensures ordered { OnOk result (IsOrdered nat_cmp map.new) }
        ensures known { IfOk result (λ new. new ≡ false
            → IsSome (get nat_cmp map.old (key_in (slice_index self.now.scan.words.now) block))) }
    {
        let key = self.word(block, KEY_INDEX);
        let keys = map.len();
        map.insert(key, self.value(alloc, block)?)?;
        Ok(map.len() > keys)
    }
}
