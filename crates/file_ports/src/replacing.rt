//! Puts a file in the place of another, which stays whole until the new one is.
ghost use Rattle.std.specs.Prelude.{◌≡◌, ◌↔◌, Ok, None, bit_and, IsOk, IsOkAnd, IfOk, IfSome, OnOk, IsErrAnd};
ghost use Rattle.std.specs.Fs.{metadata_mode};
ghost use Rattle.std.specs.Io.KnownBytes.{Appends};
ghost use Rattle.std.specs.IoError.{error_kind};
ghost use Rattle.file_ports.specs.Folders.{IsFolderOf};

use crate::file_fault::FileFault;
use std::alloc::Global;
use std::fs::{Metadata, OpenFile, OpenOptions, Permissions};
use std::io::{ErrorKind, Write};
use std::os::unix::fs::{OpenOptionsExt, PermissionsExt};
use std::rt::Files;
use std::{fs, io};

/// A file of this ending and a number is written beside the named one before it takes its place.
const TEMPORARY: &str = ".new";

/// How many numbers are tried for a name that is free.
const TRIES: u32 = 1000;

/// The bits of a mode that say who may do what, without the file's type.
const MODE_BITS: u32 = 0o7777;

/// Puts these bytes in a file of this name. One that is there keeps its mode, and a link to it
/// still leads to it.
pub fn put_file<R: Files>(
    rt: &R,
    alloc: Global,
    name: &str,
    bytes: &[u8],
) -> Result<(), FileFault> {
    match rt.canonicalize(alloc, name) {
        Ok(target) => put_beside(rt, alloc, target.as_str(), bytes),
        Err(e) if e.kind() == ErrorKind::OutOfMemory => Err(FileFault::Memory),
        Err(_) => put_beside(rt, alloc, name, bytes),
    }
}

// Writes a file of its own first, under a name that is free: no other file is touched.
fn put_beside<R: Files>(rt: &R, alloc: Global, name: &str, bytes: &[u8]) -> Result<(), FileFault> {
    let mode = mode_of(fs::metadata(rt, name))?;
    for number in 0..TRIES {
        let temporary = format!(in alloc; "{name}{TEMPORARY}{number}")?;
        match create_new(rt, temporary.as_str(), mode) {
            Ok(mut file) => {
                let written = write_file(&mut file, mode, bytes);
                move_file(rt, written, temporary.as_str(), name)?;
                return Ok(());
            }
            Err(e) if e.kind() == ErrorKind::AlreadyExists => {}
            Err(e) => return Err(FileFault::Failed(e)),
        }
    }
    Err(FileFault::Failed(io::Error::from(ErrorKind::AlreadyExists)))
}

// The mode of the file that is to be replaced, if there is one. A file whose mode can't be told is
// not replaced: somebody might read the new one who may not read it.
fn mode_of(found: io::Result<Metadata>) -> io::Result<Option<u32>>
    ensures mode { IfOk result (λ mode. IfSome mode (λ bits. IsOkAnd found (λ metadata.
        bits ≡ bit_and (metadata_mode metadata) MODE_BITS))) }
    ensures none { result ≡ Ok None ↔ IsErrAnd found (λ e. error_kind e ≡ ErrorKind.NotFound) }
{
    match found {
        Ok(metadata) => Ok(Some(metadata.permissions().mode() & MODE_BITS)),
        Err(e) if e.kind() == ErrorKind::NotFound => Ok(None),
        Err(e) => Err(e),
    }
}

// A new file, which from the start nobody may read who may not read the one that it is to replace.
fn create_new<R: Files>(rt: &R, name: &str, mode: Option<u32>) -> io::Result<R::File> {
    let mut options = OpenOptions::new();
    options.write(true).create_new(true);
    if let Some(mode) = mode {
        options.mode(mode);
    }
    options.open(rt, name)
}

// Writes the bytes, and waits until they are on the disk. The mode is given in full first: creation
// leaves out what the process masks.
fn write_file<F: OpenFile + Write>(file: &mut F, mode: Option<u32>, bytes: &[u8]) -> io::Result<()>
    ensures { OnOk result (Appends (F.contents file.old) (F.contents file.new) bytes.now) }
{
    if let Some(mode) = mode {
        file.set_permissions(Permissions::from_mode(mode))?;
    }
    file.write_all(bytes)?;
    file.sync_all()
}

// Gives a file that was written the name that it is for, and removes one that was not.
fn move_file<R: Files>(
    rt: &R,
    written: io::Result<()>,
    temporary: &str,
    name: &str,
) -> io::Result<()>
    ensures { OnOk result (IsOk written) }
{
    let error = match written {
        Ok(()) => match fs::rename(rt, temporary, name) {
            Ok(()) => return sync_folder(rt, name),
            Err(error) => error,
        },
        Err(error) => error,
    };
    let _ = fs::remove_file(rt, temporary);
    Err(error)
}

// Waits until the name of a file is on the disk. A folder that can't be opened, for any cause,
// isn't synced.
fn sync_folder<R: Files>(rt: &R, name: &str) -> io::Result<()> {
    match fs::open(rt, folder_of(name)) {
        Ok(folder) => folder.sync_all(),
        Err(_) => Ok(()),
    }
}

// The folder of a file.
fn folder_of(name: &str) -> &str
    ensures { IsFolderOf name.now result.now }
{
    match name.rsplit_once('/') {
        Some(("", _)) => "/",
        Some((folder, _)) => folder,
        None => ".",
    }
}
