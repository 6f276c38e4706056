//! What ties the anchors with names to the definitions, as a function with nothing to run.
ghost use Rattle.std.specs.Prelude.{◌≡◌};
ghost use Rattle.heap_model.specs.Words.{full_anchor};
ghost use Rattle.anchor_word.specs.Anchor.{word_of};

use crate::anchor::{EMPTY, FULL};

/// The words of `FULL` and `EMPTY`: the second is that of a superblock that was never taken, or
/// that recovery found free.
pub fn constants_agree()
    ensures full { word_of FULL ≡ full_anchor }
    ensures empty { word_of EMPTY ≡ 0 }
{}
