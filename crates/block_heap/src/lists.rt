//! The lists of descriptors: LIFO, linked from a counted head. Only a pop raises the count.
use crate::medium::Medium;
use line_memory::{Chance, Stopped};
use super_block::{Geometry, HEAD_WORD, ListHead};

/// A descriptor that was popped, if the list had one, and the head as it was read.
#[derive(Clone, Copy)]
pub(crate) struct Popped {
    pub(crate) head: u64,
    pub(crate) first: Option<u64>,
}

impl<C: Chance> Medium<C> {
    ghost use Rattle.std.specs.Prelude.{◌≡◌, ◌<◌, IfOk, OnOk, IfErr, None};
    ghost use Rattle.heap_model.specs.Geometry.{lists, head_word};
    ghost use Rattle.line_memory.specs.View.{volatile_at};
    ghost use Rattle.block_heap.specs.MediumView.{medium_view};
    ghost use Rattle.block_heap.specs.Medium.{StoresOnly, StopsWithin, LooksOnce};
    ghost use Rattle.block_heap.specs.Links.{IsOpen, IsHead, IsPopped, IsPushed, IsPushWord};

    /// Takes the first descriptor off the list.
    pub(crate) fn pop(&mut self, geometry: Geometry, list: u64) -> Result<Popped, Stopped>
        requires open { IsOpen geometry.capacity (medium_view self.old) }
        requires list { list < lists }
        requires head { IsHead geometry.capacity
            (volatile_at (medium_view self.old) (head_word list)) }
        ensures ok { IfOk result (λ popped. IsPopped list popped
            (medium_view self.old) (medium_view self.new)) }
        ensures one_look { IfOk result (λ popped. popped.first ≡ None
            → LooksOnce (medium_view self.old) (medium_view self.new)) }
        ensures stopped { IfErr result (λ e. StopsWithin e.step 3
            (medium_view self.old) (medium_view self.new)) }
        ensures others { StoresOnly (λ word. word ≡ head_word list)
            (medium_view self.old) (medium_view self.new) }
    {
        let word = self.load(HEAD_WORD + list)?;
        let head = ListHead::unpack(word);
        let Some(d) = head.first else {
            return Ok(Popped {
                head: word,
                first: None,
            });
        };
        let link = self.load(geometry.link(d))?;
        self.store(HEAD_WORD + list, head.popped(link).pack())?;
        Ok(Popped {
            head: word,
            first: Some(d),
        })
    }

    /// Puts the descriptor in front of the list.
    pub(crate) fn push(&mut self, geometry: Geometry, list: u64, d: u64) -> Result<(), Stopped>
        requires open { IsOpen geometry.capacity (medium_view self.old) }
        requires list { list < lists }
        requires descriptor { d < geometry.capacity }
        ensures ok { OnOk result (IsPushed list d (medium_view self.old) (medium_view self.new)) }
        ensures stopped { IfErr result (λ e. StopsWithin e.step 3
            (medium_view self.old) (medium_view self.new)) }
        ensures others { StoresOnly (IsPushWord list d)
            (medium_view self.old) (medium_view self.new) }
    {
        let head = ListHead::unpack(self.load(HEAD_WORD + list)?);
        self.store(geometry.link(d), head.link().pack())?;
        self.store(HEAD_WORD + list, head.pushed(d).pack())
    }
}
