//! What recovery makes of a superblock.

use size_table::SizeClass;

/// What recovery makes of a superblock that has been taken.
#[derive(Clone, Copy)]
pub enum Role {
    /// It holds no part of a kept block.
    Free,
    /// It is divided into blocks of the class, of which some are kept and some are not.
    Partial(SizeClass),
    /// It is divided into blocks of the class, all of which are kept.
    Full(SizeClass),
    /// A kept large block takes it.
    Large,
}
