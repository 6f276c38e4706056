//! Why an image has no good header.

/// The ways in which a header can be malformed, in the order in which they are looked for.
#[derive(Clone, Copy, PartialEq, Eq, Debug)]
pub enum BadHeader {
    /// The image has fewer bytes than header and roots.
    Short,
    /// It does not begin with the magic number.
    Magic,
    /// It has a version that is not known.
    Version,
    /// Its capacity is out of range.
    Capacity,
    /// Its length is not that of its capacity.
    Length,
    /// Its state is neither clean nor dirty.
    State,
    /// More superblocks have been taken than there are.
    Used,
    /// The stored kind of some root is at or above the limit that was given.
    Kind,
}
