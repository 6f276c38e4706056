//! How a superblock is divided into the blocks of a class.
use crate::medium::Medium;
use anchor_word::{FULL, pack};
use line_memory::{Chance, Stopped};
use size_table::{SizeClass, blocks_of};
use super_block::{Geometry, Info, block_at};

impl<C: Chance> Medium<C> {
    ghost use Rattle.std.specs.Prelude.{◌≡◌, ◌<◌, ◌≤◌, OnOk, IfErr};
    ghost use Rattle.heap_model.specs.Sizes.{blocks_of};
    ghost use Rattle.block_heap.specs.MediumView.{medium_view};
    ghost use Rattle.block_heap.specs.Medium.{StoresOnly, StopsWithin};
    ghost use Rattle.block_heap.specs.Links.{IsOpen};
    ghost use Rattle.block_heap.specs.Divide.{IsDivideWord, AreInOneChain, IsDivided};
    ghost use Rattle.block_heap.specs.Draws.{most_chain_draws, most_cut_draws};
    ghost use Rattle.heap_shape.specs.Effects.{IsInSuperblock};

    /// Divides superblock `d` into blocks of the class, all in one chain in ascending order.
    pub(crate) fn divide(
        &mut self,
        geometry: Geometry,
        d: u64,
        class: SizeClass,
    ) -> Result<(), Stopped>
        requires open { IsOpen geometry.capacity (medium_view self.old) }
        requires superblock { d < geometry.capacity }
        ensures ok { OnOk result (IsDivided geometry.capacity class.number d
            (medium_view self.old) (medium_view self.new)) }
        ensures stopped { IfErr result (λ e. StopsWithin e.step most_cut_draws
            (medium_view self.old) (medium_view self.new)) }
        ensures others { StoresOnly (IsDivideWord geometry.capacity d)
            (medium_view self.old) (medium_view self.new) }
    {
        // Durable before a block is handed out: a crash must not leave a root that leads to a block
        // of the class while the superblock has another info.
        self.persist(geometry.info(d), Info::Class(class).pack())?;
        self.chain(geometry, d, class)?;
        self.store(geometry.anchor(d), pack(&FULL))
    }

    /// Stores in the first word of each block but the last where the next one begins.
    fn chain(&mut self, geometry: Geometry, d: u64, class: SizeClass) -> Result<(), Stopped>
        requires open { IsOpen geometry.capacity (medium_view self.old) }
        requires superblock { d < geometry.capacity }
        ensures ok { OnOk result (AreInOneChain geometry.capacity class.number d
            (blocks_of class.number)
            (medium_view self.old) (medium_view self.new)) }
        ensures stopped { IfErr result (λ e. StopsWithin e.step most_chain_draws
            (medium_view self.old) (medium_view self.new)) }
        ensures others { StoresOnly (IsInSuperblock geometry.capacity d)
            (medium_view self.old) (medium_view self.new) }
    {
        for index in 1..blocks_of(class.number) {
            let before = block_at(&geometry, d, index - 1, class);
            let block = block_at(&geometry, d, index, class);
            self.store(before.first_word, block.first_word)?;
        }
        Ok(())
    }
}
