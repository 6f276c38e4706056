//! Why an image is not opened, as C is told.
ghost use Rattle.std.specs.Prelude.{◌≡◌};
ghost use Rattle.c_dictionary.specs.Faults.{place_of, status_of, told};

use crate::status::{HEADER, MEMORY, OUTSIDE, SHARD};
use dictionary_heap::OpenFault;
use region_header::BadHeader;

/// Why an image was not opened.
#[repr(C)]
#[derive(Drop)]
pub struct Fault {
    /// Of a bad header: the place of the cause in the order in which causes are looked for, from 1.
    pub cause: u64,
    /// Of a bad shard: its number.
    pub shard: u64,
    /// The index of the word.
    pub at: u64,
    /// What stands there.
    pub value: u64,
}

/// The number of a cause.
fn cause_number(bad: BadHeader) -> u64
    ensures { result ≡ place_of bad }
{
    match bad {
        BadHeader::Short => 1,
        BadHeader::Magic => 2,
        BadHeader::Version => 3,
        BadHeader::Capacity => 4,
        BadHeader::Length => 5,
        BadHeader::State => 6,
        BadHeader::Used => 7,
        BadHeader::Kind => 8,
    }
}

/// Tells the fault: the answer is its status.
pub fn tell(fault: OpenFault, out: &mut Fault) -> u32
    ensures status { result ≡ status_of fault }
    ensures told { out.new ≡ told fault out.old }
{
    match fault {
        OpenFault::Header(bad) => {
            out.cause = cause_number(bad);
            HEADER
        }
        OpenFault::Outside { at, value } => {
            out.at = at;
            out.value = value;
            OUTSIDE
        }
        OpenFault::BadShard { shard, at } => {
            out.shard = shard as u64;
            out.at = at;
            SHARD
        }
        OpenFault::Memory => MEMORY,
    }
}
