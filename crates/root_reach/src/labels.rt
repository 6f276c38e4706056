//! What has been found of the roots that reach blocks: a growing list, and a label for each word
//! of the image and each kind, which tells the last thing found.
ghost use Rattle.std.specs.Prelude.{◌≡◌, ◌≢◌, ◌+◌, ◌*◌, ◌<◌, ◌≤◌, ◌^◌, ◌↔◌, ℕ, [], IsTrue, length, IfOk, OnOk};
ghost use Rattle.std.specs.List.{All};
ghost use Rattle.heap_model.specs.declared.block.Block.{Block};
ghost use Rattle.heap_model.specs.Image.{Image};
ghost use Rattle.heap_model.specs.Blocks.{layout_of, IsBlock};
ghost use Rattle.heap_model.specs.Reach.{Links};
ghost use Rattle.filter_trace.specs.Pairs.{mark_of};
ghost use Rattle.root_reach.specs.Origins.{origin_at, IsRoot};
ghost use Rattle.root_reach.specs.Reaching.{AreOrigins, IsReachedBeside};
ghost use Rattle.root_reach.specs.Steps.{AddsOrigin};

use crate::origin::Origin;
use filter_trace::mark_at;
use heap_model::Block;
use std::alloc::{AllocError, Global};

/// That these roots reach the block as one of the kind.
#[derive(Clone, Copy)]
pub struct Finding {
    pub block: Block,
    pub kind: u32,
    pub origin: Origin,
}

/// What the labels tell: of each block as one of each kind, which roots reach it.
#[derive(Drop)]
pub struct Origins {
    pub(crate) kinds: u32,
    pub(crate) labels: Vec<u16>,
}

impl Origins {
    /// What is told of the block as one of the kind.
    pub fn origin_of(&self, block: Block, kind: u32) -> Option<Origin>
        requires { mark_of self.now.kinds block kind < length self.now.labels.items }
        ensures { result ≡ origin_at self.now.kinds self.now.labels.items block kind }
    {
        Origin::unpack(self.labels[mark_at(self.kinds, block.first_word, kind)])
    }

    /// Whether another root than this one reaches the block, as one of any kind.
    pub fn is_reached_beside(&self, block: Block, root: u16) -> bool
        requires { block.first_word * self.now.kinds + self.now.kinds
            ≤ length self.now.labels.items }
        ensures { (image : Image) (kinds : ℕ → ℕ) (links : Links)
            → AreOrigins image kinds links self.now → IsBlock (layout_of image) block
            → IsTrue result ↔ IsReachedBeside image kinds links root block }
    {
        for kind in 0..self.kinds {
            if Origin::is_beside(self.origin_of(block, kind), root) {
                return true;
            }
        }
        false
    }
}

/// What has been found, in the order in which it was, and the labels.
#[derive(Drop)]
pub struct Labelling {
    pub list: Vec<Finding>,
    pub origins: Origins,
}

impl Labelling {
    /// Nothing, of an image of so many words.
    pub fn new(alloc: Global, words: usize, kinds: u32) -> Result<Self, AllocError>
        requires { words < 2 ^ 31 }
        ensures kinds { IfOk result (λ found. found.origins.kinds ≡ kinds) }
        ensures empty { IfOk result (λ found. found.list.items ≡ []) }
        ensures long { IfOk result (λ found. length found.origins.labels.items ≡ words * kinds) }
        ensures clear { IfOk result (λ found. All (λ label. label ≡ 0) found.origins.labels.items) }
    {
        Ok(Labelling {
            list: Vec::new(alloc),
            origins: Origins {
                kinds,
                labels: vec![in alloc; 0; words * kinds as usize]?,
            },
        })
    }

    /// Adds that these roots reach the block as one of the kind, unless that is told.
    pub fn add(&mut self, block: Block, kind: u32, origin: Origin) -> Result<(), AllocError>
        requires here { mark_of self.old.origins.kinds block kind
            < length self.old.origins.labels.items }
        requires root { IsRoot origin }
        ensures kinds { self.new.origins.kinds ≡ self.old.origins.kinds }
        ensures ok { OnOk result (AddsOrigin self.old.origins.kinds block kind origin
            self.old.list.items self.new.list.items self.old.origins.labels.items
            self.new.origins.labels.items) }
    {
        let told = self.origins.origin_of(block, kind);
        if let Some(joined) = origin.joined_to(told) {
            self.list.push(Finding {
                block,
                kind,
                origin: joined,
            })?;
            let at = mark_at(self.origins.kinds, block.first_word, kind);
            self.origins.labels[at] = joined.pack();
        }
        Ok(())
    }
}
