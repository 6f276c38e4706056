//! The way along the links of a bucket, each of which is written back as it is followed.
ghost use Rattle.std.specs.Prelude.{◌≡◌, ℕ, ◌*◌, ◌⊎◌, List, [], IfOk, IfErr, IfSome, IfNone, Contains};
ghost use Rattle.heap_model.specs.declared.block.Block.{Block};
ghost use Rattle.heap_model.specs.Pointers.{IsPointerTo};
ghost use Rattle.heap_seat.specs.View.{View, word_of};
ghost use Rattle.heap_seat.specs.Words.{IsOwnSpot};
ghost use Rattle.heap_seat.specs.Tickets.{Stops};
ghost use Rattle.dict_model.specs.Shards.{Map, LeadsTo};
ghost use Rattle.dict_requests.specs.Reached.{IsNullOrHeld};
ghost use Rattle.dict_requests.specs.Quiet.{IsQuiet, FollowsLink};
ghost use Rattle.dict_requests.specs.Walks.{IsWalk, StepsAlong, Walks, IsQuietWalk};
ghost use Rattle.dict_model.specs.Nodes.{shard_of, bucket_of};
ghost use Rattle.dict_requests.specs.Trails.{IsSettling, HasCome};
ghost use Rattle.dict_requests.specs.Maps.{GivesMap};

use dict_model::{BUCKETS, KEY_INDEX, NEXT_INDEX, SHARDS};
use heap_model::Block;
use heap_seat::{HeapSeat, Spot};
use line_memory::Stopped;
use offset_ptr::{Ptr, decode};

/// The word of a link, which the next fence makes durable.
pub(crate) fn follow<H: HeapSeat>(seat: &mut H, link: Spot) -> Result<u64, Stopped>
    requires { IsOwnSpot (H.view seat.old) link }
    ensures ok { IfOk result (λ word. FollowsLink (word_of link) word
        (H.view seat.old) (H.view seat.new)) }
    ensures cause { IfErr result (λ e. Stops e.step (H.view seat.old) (H.view seat.new)) }
    ensures quiet { IsQuiet 2 (H.view seat.old) (H.view seat.new) }
    ensures kept { H.keeps seat.old seat.new }
{
    let word = seat.load(link)?;
    seat.write_back(link)?;
    Ok(word)
}

/// The held block that a word leads to, which is null or a pointer to one.
pub(crate) fn block_of<H: HeapSeat>(seat: &H, word: u64) -> Option<Block>
    requires { IsNullOrHeld (H.view seat.now) word }
    ensures some { IfSome result (LeadsTo (Contains (H.view seat.now).held) word) }
    ensures none { IfNone result (word ≡ 0) }
{
    match decode(word) {
        Ptr::At(offset) => Some(seat.block(offset)),
        _ => None,
    }
}

/// What a link of a bucket leads to.
pub(crate) enum Next {
    /// Nothing: the bucket ends there.
    End,
    /// A node of the key.
    Key(Block),
    /// A node of another key.
    Other(Block),
}

/// Where the node of a key hangs.
#[derive(Clone, Copy)]
pub(crate) struct Place {
    /// The link that leads to it.
    pub link: Spot,
    /// The node.
    pub node: Block,
}

/// Follows a link of the key's bucket.
fn step<H: HeapSeat>(seat: &mut H, link: Spot, key: u64) -> Result<Next, Stopped>
    requires own { IsOwnSpot (H.view seat.old) link }
    requires walk { (table : Block) × IsWalk (H.view seat.old) key table (word_of link) }
    ensures ok { IfOk result (λ next. StepsAlong key (word_of link) next
        (H.view seat.old) (H.view seat.new)) }
    ensures cause { IfErr result (λ e. Stops e.step (H.view seat.old) (H.view seat.new)) }
    ensures quiet { IsQuiet 3 (H.view seat.old) (H.view seat.new) }
    ensures kept { H.keeps seat.old seat.new }
{
    let word = follow(seat, link)?;
    let Some(node) = block_of(seat, word) else {
        return Ok(Next::End);
    };
    if seat.load(Spot::InBlock(node, KEY_INDEX))? == key {
        Ok(Next::Key(node))
    } else {
        Ok(Next::Other(node))
    }
}

/// Walks along the key's bucket to the key's node.
pub(crate) fn walk<H: HeapSeat>(
    seat: &mut H,
    table: Block,
    key: u64,
) -> Result<Option<Place>, Stopped>
    requires start { HasCome IsSettling (H.view seat.old) (shard_of key) key table [] }
    requires map { (map : Map) × GivesMap (H.view seat.old) (shard_of key) map }
    ensures ok { IfOk result (λ found. Walks key found (H.view seat.old) (H.view seat.new)) }
    ensures cause { IfErr result (λ e. Stops e.step (H.view seat.old) (H.view seat.new)) }
    ensures quiet { IsQuietWalk 3 (shard_of key) (H.view seat.old) (H.view seat.new) }
    ensures kept { H.keeps seat.old seat.new }
{
    let mut link = Spot::InBlock(table, bucket_of(key));
    loop {
        match step(seat, link, key)? {
            Next::End => return Ok(None),
            Next::Key(node) => return Ok(Some(Place { link, node })),
            Next::Other(node) => link = Spot::InBlock(node, NEXT_INDEX),
        }
    }
}

/// The shard of a key, which is also the number of its root.
pub(crate) fn shard_of(key: u64) -> u64
    ensures { result ≡ shard_of key }
{
    key % SHARDS
}

/// The bucket of a key: the word of its shard's table that leads to its nodes.
pub(crate) fn bucket_of(key: u64) -> u64
    ensures { result ≡ bucket_of key }
{
    key / SHARDS % BUCKETS
}
