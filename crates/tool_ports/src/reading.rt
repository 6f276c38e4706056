//! Reads a source to its end.
ghost use Rattle.std.specs.Prelude.{◌≡◌, ◌<◌, ◌≤◌, ◌+◌, ◌-◌, [], true, false, Ok, length, IfOk, OnOk, OnErr, IsErrOf};
ghost use Rattle.tool_ports.specs.Causes.{HasCause};
ghost use Rattle.tool_ports.specs.Left.{left_before, IsAtEnd, Gives, GivesAtMost, ReadsOn};
ghost use Rattle.tool_ports.specs.declared.reading.ReadAllFault.TheVariants.{Memory as ReadMemory, Failed as ReadFailed};

use crate::sink::Failed;
use crate::source::Source;
use std::alloc::{AllocError, Global};

/// How many bytes are read at once.
const PIECE: usize = 1 << 16;

/// Why a source wasn't read to its end.
#[derive(Clone, Copy, Debug, PartialEq, Eq)]
pub enum ReadAllFault {
    /// It gave more bytes than were asked for.
    TooLong,
    /// The outside failed, and the source counted it.
    Failed,
    /// Memory ran out.
    Memory,
}

impl From<AllocError> for ReadAllFault {
    ghost from_gives = { λ _ e. e ≡ ReadMemory };

    fn from(_: AllocError) -> Self {
        ReadAllFault::Memory
    }
}

impl From<Failed> for ReadAllFault {
    ghost from_gives = { λ _ e. e ≡ ReadFailed };

    fn from(_: Failed) -> Self {
        ReadAllFault::Failed
    }
}

/// All the bytes that a source has left, which are to be at most `most`, up to its end. Where it has
/// more, it is read one byte further, and then left alone.
pub fn read_all<S: Source>(
    alloc: Global,
    source: &mut S,
    most: usize,
) -> Result<Vec<u8>, ReadAllFault>
    ensures ok { IfOk result (λ v.
        S.left source.old ≡ left_before v.items (S.left source.new)) }
    ensures end { OnOk result (IsAtEnd (S.left source.new)) }
    ensures ended { OnOk result (S.has_ended source.new) }
    ensures short { IfOk result (λ v. length v.items ≤ most) }
    ensures too_long { IsErrOf result ReadAllFault.TooLong →
        Gives (most + 1) (S.left source.old) (S.left source.new) }
    ensures at_most { GivesAtMost (most + 1) (S.left source.old) (S.left source.new) }
    ensures cause { HasCause (S.faults source.old) (S.faults source.new)
        (IsErrOf result ReadAllFault.Failed) }
{
    let mut piece = new_piece(alloc)?;
    read_pieces(source, &mut piece, Vec::new(alloc), most)
}

// Room for what is read at once.
fn new_piece(alloc: Global) -> Result<Vec<u8>, AllocError>
    ensures { IfOk result (λ piece. 0 < length piece.items) }
{
    vec![in alloc; 0; PIECE]
}

// Reads piece by piece to the end, behind bytes that are empty yet.
fn read_pieces<S: Source>(
    source: &mut S,
    piece: &mut [u8],
    mut bytes: Vec<u8>,
    most: usize,
) -> Result<Vec<u8>, ReadAllFault>
    requires piece { 0 < length piece.old }
    requires empty { bytes.items ≡ [] }
    ensures ok { IfOk result (λ v.
        S.left source.old ≡ left_before v.items (S.left source.new)) }
    ensures end { OnOk result (IsAtEnd (S.left source.new)) }
    ensures ended { OnOk result (S.has_ended source.new) }
    ensures short { IfOk result (λ v. length v.items ≤ most) }
    ensures too_long { IsErrOf result ReadAllFault.TooLong →
        Gives (most + 1) (S.left source.old) (S.left source.new) }
    ensures at_most { GivesAtMost (most + 1) (S.left source.old) (S.left source.new) }
    ensures cause { HasCause (S.faults source.old) (S.faults source.new)
        (IsErrOf result ReadAllFault.Failed) }
{
    while read_piece(source, piece, &mut bytes, most)? {}
    Ok(bytes)
}

// One read more, of at most one byte more than there is room for. It answers false at the end.
fn read_piece<S: Source>(
    source: &mut S,
    piece: &mut [u8],
    bytes: &mut Vec<u8>,
    most: usize,
) -> Result<bool, ReadAllFault>
    requires piece { 0 < length piece.old }
    requires short { length bytes.old.items ≤ most }
    ensures ok { OnOk result (ReadsOn (S.left source.old) (S.left source.new)
        bytes.old.items bytes.new.items) }
    ensures short { OnOk result (length bytes.new.items ≤ most) }
    ensures more { result ≡ Ok true → length bytes.old.items < length bytes.new.items }
    ensures end { result ≡ Ok false → IsAtEnd (S.left source.new) }
    ensures ended { result ≡ Ok false → S.has_ended source.new }
    ensures too_long { IsErrOf result ReadAllFault.TooLong →
        Gives (most + 1 - length bytes.old.items) (S.left source.old) (S.left source.new) }
    ensures at_most { OnErr result (GivesAtMost (most + 1 - length bytes.old.items)
        (S.left source.old) (S.left source.new)) }
    ensures cause { HasCause (S.faults source.old) (S.faults source.new)
        (IsErrOf result ReadAllFault.Failed) }
{
    let room = most - bytes.len();
    let asked = room.min(piece.len() - 1) + 1;
    let part = &mut piece[..asked];
    let count = source.read(part)?;
    if count > room {
        return Err(ReadAllFault::TooLong);
    }
    bytes.extend_from_slice(&part[..count])?;
    Ok(count > 0)
}
