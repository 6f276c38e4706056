//! Gets the image that a command names. Its header is read once, here.
ghost use Rattle.std.specs.Prelude.{◌≡◌, ◌%◌, ◌<◌, ◌≤◌, All, Some, length, IfOk, IfErr, IfSome, IsErrOf};
ghost use Rattle.heap_model.specs.Geometry.{roots};
ghost use Rattle.heap_model.specs.Header.{first_kinds};
ghost use Rattle.region_header.specs.Words.{AreWordsOf};
ghost use Rattle.dict_model.specs.Links.{kind_count};
ghost use Rattle.tool_ports.specs.Calls.{with_get};
ghost use Rattle.tool_ports.specs.Causes.{RoseByOne};
ghost use Rattle.tool_run.specs.Calls.{get_limit};
ghost use Rattle.tool_command.specs.Command.{Command, image_name};
ghost use Rattle.tool_run.specs.Inside.{Refuses};
ghost use Rattle.tool_run.specs.CommandUses.{GetsImage, kinds_checked};
ghost use Rattle.tool_run.specs.Recovering.{IsCurrentImage};

use crate::fault::Fault;
use dictionary::{DictFilter, root_kinds};
use filter_trace::Filter;
use region_header::{bytes_to_words, check_bytes, current};
use std::alloc::{AllocError, Global};
use super_block::{LONGEST_IMAGE, constants_agree};
use tool_ports::ImageStore;

/// An image of this version with a good header.
#[derive(Drop)]
pub struct CurrentImage {
    pub words: Vec<u64>,
    /// Whether it was closed.
    pub closed: bool,
}

/// The image of this name, whose header is good, with roots of the dictionary's kinds. One of the
/// old version gets those that `format` gives.
pub fn dictionary_image<I: ImageStore>(
    alloc: Global,
    name: &str,
    images: &mut I,
) -> Result<CurrentImage, Fault>
    ensures ok { IfOk result
        (IsCurrentImage (Some kind_count) first_kinds (I.contents images.old) name.now) }
    ensures err { IfErr result (λ fault. (command : Command) → GetsImage command
        → kinds_checked command ≡ Some kind_count → image_name command ≡ name.now
        → Refuses command (I.contents images.old)
        (RoseByOne (I.faults images.old) (I.faults images.new)) fault) }
    ensures unchanged { I.contents images.new ≡ I.contents images.old }
    ensures later { I.faults images.old ≤ I.faults images.new }
    ensures store_steady { ¬ (IsErrOf result Fault.ReadFault)
        → I.faults images.new ≡ I.faults images.old }
    ensures calls { I.calls images.new ≡ with_get get_limit (I.calls images.old) }
{
    current_image(alloc, name, Some(DictFilter::KINDS), &root_kinds(), images)
}

/// The image of this name, whose header is good, with the kinds of its roots below the limit, where
/// there is one. One of the old version gets these kinds.
pub fn current_image<I: ImageStore>(
    alloc: Global,
    name: &str,
    limit: Option<u32>,
    kinds: &[u32],
    images: &mut I,
) -> Result<CurrentImage, Fault>
    requires roots { length kinds.now ≡ roots }
    requires kinds { IfSome limit (λ most. All (λ kind. kind < most) kinds.now) }
    ensures ok { IfOk result (IsCurrentImage limit kinds.now (I.contents images.old) name.now) }
    ensures err { IfErr result (λ fault. (command : Command) → GetsImage command
        → kinds_checked command ≡ limit → image_name command ≡ name.now
        → Refuses command (I.contents images.old)
        (RoseByOne (I.faults images.old) (I.faults images.new)) fault) }
    ensures unchanged { I.contents images.new ≡ I.contents images.old }
    ensures later { I.faults images.old ≤ I.faults images.new }
    ensures store_steady { ¬ (IsErrOf result Fault.ReadFault)
        → I.faults images.new ≡ I.faults images.old }
    ensures calls { I.calls images.new ≡ with_get get_limit (I.calls images.old) }
{
    let bytes = images.get(alloc, name, most_bytes())?;
    // A bad header is told before there is memory for the words.
    let header = check_bytes(&bytes, limit)?;
    let words = current(words_in(alloc, bytes)?, kinds)?;
    Ok(CurrentImage {
        words,
        closed: header.clean,
    })
}

// How many bytes of an image are asked for: one more than the longest has, so that a longer one
// shows.
fn most_bytes() -> usize
    ensures { result ≡ get_limit }
{
    constants_agree();
    LONGEST_IMAGE as usize + 1
}

// The words in the bytes, which are let go before the words are recovered.
fn words_in(alloc: Global, bytes: Vec<u8>) -> Result<Vec<u64>, AllocError>
    requires { length bytes.items % 8 ≡ 0 }
    ensures ok { IfOk result (λ words. AreWordsOf words.items bytes.items) }
{
    bytes_to_words(alloc, &bytes)
}
