//! What a mixed trace has reached.
ghost use Rattle.std.specs.Prelude.{◌↔◌, IsTrue};
ghost use Rattle.mixed_trace.specs.Codes.{HasMode};

use crate::mode::Mode;
use filter_trace::Marks;
use heap_model::Block;

/// What a trace has reached: blocks, each with the modes that it was reached with.
#[derive(Drop)]
pub struct MixedMarks {
    /// The filter's kinds lie below this, which stands for the mode of no filter among the marks.
    pub limit: u32,
    /// The marks, one bit more for each word than the filter has kinds.
    pub marks: Marks,
}

impl MixedMarks {
    /// Whether the block has been reached as one of the mode. Also a block that the image does not
    /// have may be asked for.
    pub fn has(&self, block: Block, mode: Mode) -> bool
        ensures { IsTrue result ↔ HasMode self.now.limit self.now.marks.pairs block mode }
    {
        match mode {
            Mode::Kind(kind) => kind < self.limit && self.marks.has(block, kind),
            Mode::All => self.marks.has(block, self.limit),
        }
    }
}
