//! What tells in constant time which words are a seat's own.

ghost use Rattle.std.specs.Prelude.{◌≡◌, ◌<◌, ◌≤◌, ◌+◌, ℕ, [], ◌∷◌, length, slice_set};
ghost use Rattle.std.specs.Vec.{vec_len, vec_capacity};
ghost use Rattle.heap_model.specs.Counting.{times, one_if};
ghost use Rattle.seat_index.specs.Owned.{IsMarking, HaveOwnership, unclassed_in, classed_in, class_in, large_in, count_in, listed};
ghost use Rattle.core_model.specs.Effects.{rest_of};
ghost use Rattle.seat_index.specs.Stacks.{HasStack};
ghost use Rattle.seat_index.specs.Changed.{CanChange, IsChanged, IsRecached};
ghost use Rattle.seat_index.specs.Holdings.{CanGain, CanGainSmall, CanLose, HasGained, HasLost};
ghost use Rattle.seat_index.specs.declared.owned.Holding.TheVariants as holding;
ghost use Rattle.seat_index.specs.declared.owned.Change.TheVariants as change;

use crate::stacks::Stack;
use bit_marks::BitMarks;
use size_table::SizeClass;
use super_block::{Block, FREE_LIST, Geometry, SUPERBLOCK_WORDS, block_words};

/// The most blocks of a superblock: each has two words at least.
pub(crate) const MOST_BLOCKS: usize = SUPERBLOCK_WORDS as usize / 2;

/// What a seat owns of a superblock.
#[derive(Clone, Copy)]
pub enum Ownership {
    /// It has nothing of it, but maybe small blocks.
    Nothing,
    /// It claims it, without a class.
    Unclassed,
    /// It claims it, with a class.
    Classed { class: u64 },
    /// A large block of its takes it: the first part has how many there are, the others 0.
    Large { count: u64 },
}

/// What tells which words are a seat's own.
#[derive(Drop)]
pub struct Owned {
    /// By word: whether a small block of the seat's begins there, held, cached or in its batch.
    pub blocks: BitMarks,
    /// By superblock: the class of the seat's small blocks there.
    pub classes: Vec<u64>,
    /// By superblock: what the seat owns of it.
    pub ownerships: Vec<Ownership>,
    /// By root: whether it is the seat's.
    pub roots: Vec<bool>,
    /// The blocks of its batch, in room for as many as a superblock has.
    pub batch: Vec<u32>,
    /// By class: the topmost blocks of its cache.
    pub stacks: Vec<Stack>,
}

impl Ownership {
    /// Whether it is a claim without a class.
    pub(crate) fn is_unclassed(self) -> bool
        ensures { one_if result ≡ unclassed_in self }
    {
        match self {
            Ownership::Unclassed => true,
            Ownership::Nothing | Ownership::Classed { .. } | Ownership::Large { .. } => false,
        }
    }

    /// Whether it is a claim.
    pub(crate) fn is_claimed(self) -> bool
        ensures { one_if result ≡ unclassed_in self + classed_in self }
    {
        match self {
            Ownership::Unclassed | Ownership::Classed { .. } => true,
            Ownership::Nothing | Ownership::Large { .. } => false,
        }
    }

    /// Whether all words of the superblock are the seat's.
    pub(crate) fn has_words(self) -> bool
        ensures { one_if result ≡ unclassed_in self + large_in self }
    {
        match self {
            Ownership::Unclassed | Ownership::Large { .. } => true,
            Ownership::Nothing | Ownership::Classed { .. } => false,
        }
    }

    /// The class that it is claimed with; 0 where it is not.
    pub fn class(self) -> u64
        ensures { result ≡ class_in self }
    {
        match self {
            Ownership::Classed { class } => class,
            Ownership::Nothing | Ownership::Unclassed | Ownership::Large { .. } => 0,
        }
    }

    /// How many superblocks the large block that begins there takes; 0 where none does.
    pub fn count(self) -> u64
        ensures { result ≡ count_in self }
    {
        match self {
            Ownership::Large { count } => count,
            Ownership::Nothing | Ownership::Unclassed | Ownership::Classed { .. } => 0,
        }
    }

    /// What is owned of a superblock that comes from a list.
    pub fn listed(list: u64) -> Ownership
        ensures { result ≡ listed list }
    {
        if list == FREE_LIST {
            Ownership::Unclassed
        } else {
            Ownership::Classed { class: list }
        }
    }
}

/// A change of what is the seat's, which goes with a shift.
#[derive(Clone, Copy)]
pub enum Change {
    /// The first block of a cache is held, and block `first` comes first there.
    Allocated { class: u64, first: u64 },
    /// A held block came in front of the cache of its class.
    Freed { class: u64, block: u64 },
    /// The first block of a cache came behind the batch, and block `first` comes first there.
    Lifted { class: u64, block: u64, first: u64 },
    /// All blocks of a claimed superblock, which was cut for a class, are the seat's.
    Cut { d: u64, class: SizeClass },
    /// A large block takes `n` claimed superblocks.
    Large { d: u64, n: u64 },
    /// The `n` superblocks of a large block are claimed.
    Split { d: u64, n: u64 },
}

/// How a block is held.
#[derive(Clone, Copy)]
pub enum Holding {
    /// A small one, of the class.
    Small { class: u64 },
    /// A large one, of `n` superblocks from `d` on.
    Large { d: u64, n: u64 },
}

impl Owned {
    /// Does the change.
    pub fn change(&mut self, geometry: Geometry, change: Change)
        requires { CanChange change geometry.capacity self.old }
        ensures { IsChanged change geometry.capacity self.old self.new }
    {
        match change {
            Change::Allocated { class, .. } => self.uncache(class),
            Change::Freed { class, block } => self.cache(class, block),
            Change::Lifted { class, block, .. } => {
                self.uncache(class);
                self.batch.push_reserved(block as u32);
            }
            Change::Cut { d, class } => self.cut(geometry, d, class),
            Change::Large { d, n } => self.hold_large(d, n),
            Change::Split { d, n } => own_range(&mut self.ownerships, d, n, Ownership::Unclassed),
        }
    }

    /// Takes the first block off a cache.
    fn uncache(&mut self, class: u64)
        requires { class < length self.old.stacks.items }
        ensures { IsRecached self.old self.new class rest_of }
    {
        self.stacks[class as usize].pop();
    }

    /// Puts a block in front of a cache.
    fn cache(&mut self, class: u64, block: u64)
        requires stack { HasStack self.old.stacks.items class }
        requires fits { block < 4294967296 }
        ensures { IsRecached self.old self.new class (λ cache. block ∷ cache) }
    {
        self.stacks[class as usize].push(block);
    }

    /// All blocks of a claimed superblock are the seat's, and in the cache.
    fn cut(&mut self, geometry: Geometry, d: u64, class: SizeClass)
        requires { CanChange (change.Cut d class) geometry.capacity self.old }
        ensures { IsChanged (change.Cut d class) geometry.capacity self.old self.new }
    {
        let index = class.number as usize;
        self.stacks[index].fill(geometry.start(d), block_words(class));
        mark_all(&mut self.blocks, self.stacks[index].cached(), true);
        self.classes[d as usize] = class.number as u64;
        self.ownerships[d as usize] = Ownership::Nothing;
    }

    /// A large block takes `n` claimed superblocks.
    fn hold_large(&mut self, d: u64, n: u64)
        requires { CanChange (change.Large d n) 0 self.old }
        ensures { IsChanged (change.Large d n) 0 self.old self.new }
    {
        own_range(&mut self.ownerships, d, n, Ownership::Large { count: 0 });
        self.ownerships[d as usize] = Ownership::Large { count: n };
    }

    /// A block that was held is not the seat's.
    pub fn lose(&mut self, block: Block, holding: Holding)
        requires { CanLose block holding self.old }
        ensures { HasLost block holding self.old self.new }
    {
        match holding {
            Holding::Small { .. } => self.blocks.clear(block.first_word),
            Holding::Large { d, n } => own_range(&mut self.ownerships, d, n, Ownership::Nothing),
        }
    }

    /// A block is held.
    pub fn gain(&mut self, geometry: Geometry, block: Block, holding: Holding)
        requires { CanGain block holding geometry.capacity self.old }
        ensures { HasGained block holding geometry.capacity self.old self.new }
    {
        match holding {
            Holding::Small { class } => self.hold_small(geometry, block, class),
            Holding::Large { d, n } => self.hold_large(d, n),
        }
    }

    /// A small block of the class is held.
    fn hold_small(&mut self, geometry: Geometry, block: Block, class: u64)
        requires { CanGainSmall block geometry.capacity self.old }
        ensures { HasGained block (holding.Small class) geometry.capacity self.old self.new }
    {
        let d = geometry.superblock_of(block.first_word);
        self.blocks.set(block.first_word);
        self.classes[d as usize] = class;
    }
}

/// Gives or takes back the marks of some blocks.
pub fn mark_all(blocks: &mut BitMarks, list: &[u32], mark: bool)
    requires { (b : ℕ) → 0 < times b list.now → b < length blocks.old }
    ensures { IsMarking blocks.old blocks.new list.now mark }
{
    for block in list {
        mark_one(blocks, *block as u64, mark);
    }
}

/// Gives or takes back the mark of a block.
fn mark_one(blocks: &mut BitMarks, block: u64, mark: bool)
    requires { block < length blocks.old }
    ensures { blocks.new ≡ slice_set blocks.old block mark }
{
    if mark {
        blocks.set(block);
    } else {
        blocks.clear(block);
    }
}

/// The seat owns the same of `n` superblocks from one on.
pub fn own_range(ownerships: &mut Vec<Ownership>, from: u64, n: u64, ownership: Ownership)
    requires { from + n ≤ length ownerships.old.items }
    ensures { HaveOwnership ownerships.old.items ownerships.new.items from n ownership }
{
    for d in from..from + n {
        ownerships[d as usize] = ownership;
    }
}
