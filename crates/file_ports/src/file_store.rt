//! A store of images in files: a name is a path.
ghost use Rattle.std.specs.Prelude.{◌≡◌, ◌↔◌, ◌<◌, ◌≤◌, ◌+◌, [], Ok, None, false, length, IfOk, IsOkAnd, IfSome, OnOk, IsErrAnd, take};
ghost use Rattle.std.specs.IoError.{error_kind};
ghost use Rattle.std.specs.Io.KnownBytes.{IsAtEnd};
ghost use Rattle.file_ports.specs.Reading.{ReadsPiece};
ghost use Rattle.tool_ports.specs.Calls.{no_calls};
ghost use Rattle.tool_ports.specs.Causes.{one_more};

use crate::file_fault::FileFault;
use crate::replacing::put_file;
use std::alloc::{AllocError, Global};
use std::fs::OpenFile;
use std::io::{ErrorKind, Read};
use std::rt::Files;
use std::{fs, io};
use tool_ports::{FaultCount, GetFault, ImageStore, PutImageFault, StoreCalls};

/// How many bytes are read at once.
const PIECE: usize = 1 << 16;

/// Images in files. It tells nothing of their content.
#[derive(Drop)]
pub struct FileStore<'a, R: Files> {
    rt: &'a R,
    faults: FaultCount,
    calls: StoreCalls,
    failure: Option<String>,
}

impl<'a, R: Files> FileStore<'a, R> {
    ghost use Rattle.file_ports.specs.FileStore.{fault_count, calls_of};

    /// The files that the runtime reaches, with no call and no failure yet.
    pub fn new(rt: &'a R) -> Self
        ensures faults { fault_count result ≡ 0 }
        ensures calls { calls_of result ≡ no_calls }
    {
        FileStore {
            rt,
            faults: FaultCount::new(),
            calls: StoreCalls::new(),
            failure: None,
        }
    }

    /// Of the last call that failed, if one has: which file, and what the system said. It is left
    /// out where there was no memory for it.
    pub fn failure(&self) -> Option<&str> {
        self.failure.as_deref()
    }

    // Counts a failure, and keeps what the system said of it.
    fn fail(&mut self, alloc: Global, name: &str, error: io::Error)
        ensures count { fault_count self.new ≡ one_more (fault_count self.old) }
        ensures calls { calls_of self.new ≡ calls_of self.old }
    {
        self.faults.rise();
        self.failure = format!(in alloc; "{name}: {error}").ok();
    }
}

impl<'a, R: Files> ImageStore for FileStore<'a, R> {
    ghost use Rattle.file_ports.specs.FileStore.{fault_count, calls_of};

    ghost contents = { λ _. None };

    ghost faults = { fault_count };

    ghost calls = { calls_of };

    ghost faults_fit = { λ s. s.faults.fits };

    fn get(&mut self, alloc: Global, name: &str, most: usize) -> Result<Vec<u8>, GetFault> {
        self.calls.count_get(most);
        match read_opened(alloc, fs::open(self.rt, name), most) {
            Ok(Some(image)) => Ok(image),
            Ok(None) => Err(GetFault::Absent),
            Err(FileFault::Memory) => Err(GetFault::Memory),
            Err(FileFault::Failed(error)) => {
                self.fail(alloc, name, error);
                Err(GetFault::Failed)
            }
        }
    }

    fn put(&mut self, alloc: Global, name: &str, bytes: &[u8]) -> Result<(), PutImageFault> {
        match put_file(self.rt, alloc, name, bytes) {
            Ok(()) => {
                self.calls.count_put();
                Ok(())
            }
            Err(FileFault::Memory) => Err(PutImageFault::Memory),
            Err(FileFault::Failed(error)) => {
                self.calls.count_put();
                self.fail(alloc, name, error);
                Err(PutImageFault::Failed)
            }
        }
    }
}

// The first `most` bytes of a file that was to be opened, or all; none where there is no such file.
fn read_opened<F: Read + OpenFile + Drop>(
    alloc: Global,
    opened: io::Result<F>,
    most: usize,
) -> Result<Option<Vec<u8>>, FileFault>
    ensures ok { IfOk result (λ found. IfSome found (λ v. IsOkAnd opened (λ file.
        IfSome (F.remaining file) (λ left. v.items ≡ take most left)))) }
    ensures short { IfOk result (λ found. IfSome found (λ v. length v.items ≤ most)) }
    ensures absent { result ≡ Ok None ↔
        IsErrAnd opened (λ e. error_kind e ≡ ErrorKind.NotFound) }
{
    match opened {
        Ok(mut file) => {
            let size = file.metadata().map_or(0, |metadata| metadata.len());
            Ok(Some(read_first(alloc, &mut file, most, size)?))
        }
        Err(e) if e.kind() == ErrorKind::NotFound => Ok(None),
        Err(e) => Err(FileFault::Failed(e)),
    }
}

// The first `most` bytes that a reader has left, or all. The length that a file says it has tells
// only how much room to take at once: it may change.
fn read_first<F: Read>(
    alloc: Global,
    file: &mut F,
    most: usize,
    size: u64,
) -> Result<Vec<u8>, FileFault>
    ensures ok { IfOk result (λ v.
        IfSome (F.remaining file.old) (λ left. v.items ≡ take most left)) }
    ensures short { IfOk result (λ v. length v.items ≤ most) }
{
    let mut piece = new_piece(alloc)?;
    let image = Vec::with_capacity(alloc, size.min(most as u64) as usize)?;
    read_pieces(file, &mut piece, image, most)
}

// Room for what is read at once.
fn new_piece(alloc: Global) -> Result<Vec<u8>, AllocError>
    ensures { IfOk result (λ piece. 0 < length piece.items) }
{
    vec![in alloc; 0; PIECE]
}

// Reads piece by piece into an image that is empty yet.
fn read_pieces<F: Read>(
    file: &mut F,
    piece: &mut [u8],
    mut image: Vec<u8>,
    most: usize,
) -> Result<Vec<u8>, FileFault>
    requires piece { 0 < length piece.old }
    requires empty { image.items ≡ [] }
    ensures ok { IfOk result (λ v.
        IfSome (F.remaining file.old) (λ left. v.items ≡ take most left)) }
    ensures short { IfOk result (λ v. length v.items ≤ most) }
{
    for _ in 0..u64::MAX {
        let room = most - image.len();
        if room == 0 || !read_piece(file, piece, &mut image, room)? {
            return Ok(image);
        }
    }
    Err(FileFault::Failed(io::Error::from(ErrorKind::Interrupted)))
}

// One read more, of at most `room` bytes. It answers false at the end.
fn read_piece<F: Read>(
    file: &mut F,
    piece: &mut [u8],
    image: &mut Vec<u8>,
    room: usize,
) -> Result<bool, FileFault>
    requires room { 0 < room }
    requires piece { 0 < length piece.old }
    ensures ok { OnOk result (ReadsPiece room (F.remaining file.old) (F.remaining file.new)
        image.old.items image.new.items) }
    ensures short { OnOk result (length image.new.items ≤ length image.old.items + room) }
    ensures end { result ≡ Ok false → IsAtEnd (F.remaining file.new) }
{
    let most = room.min(piece.len());
    let part = &mut piece[..most];
    let count = match file.read(part) {
        Ok(count) => count,
        Err(e) if e.kind() == ErrorKind::Interrupted => return Ok(true),
        Err(e) => return Err(FileFault::Failed(e)),
    };
    image.extend_from_slice(&part[..count])?;
    Ok(count > 0)
}
