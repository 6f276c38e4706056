//! Real files that are watched, and fail as they are told.
use std::alloc::Allocator;
use std::cell::Cell;
use std::fs::{Metadata, OpenFile, OpenOptions, Permissions};
use std::io::{ErrorKind, PipeReader, PipeWriter, Read, Seek, SeekFrom, Write};
use std::os::fd::BorrowedFd;
use std::os::unix::fs::PermissionsExt;
use std::os::unix::net::SocketAddr;
use std::path::PathBuf;
use std::rt::Files;
use std::{fs, io};

/// The mode of a file, without its type.
pub fn mode_at<R: Files>(rt: &R, name: &str) -> io::Result<u32> {
    Ok(fs::metadata(rt, name)?.permissions().mode() & 0o7777)
}

/// What watched files do, and what was done with them.
#[derive(Drop)]
pub struct WatchPlan<'a> {
    /// A new file is to be made with no more than this mode, and to be renamed with exactly it.
    pub mode: Option<u32>,
    /// A file gives three bytes by each read, and this error at the second.
    pub error: Option<ErrorKind>,
    /// How many bytes may still be written.
    pub room: Cell<usize>,
    /// The path of a folder that is watched.
    pub folder: &'a str,
    /// Whether this folder's sync fails.
    pub folder_sync_fails: bool,
    /// Whether the sync of another file fails.
    pub file_sync_fails: bool,
    /// Why it isn't told where a name leads.
    pub path_error: ErrorKind,
    /// How often another file was synced between the last write and the rename.
    pub file_syncs: Cell<u32>,
    /// How often this folder was synced behind the rename.
    pub folder_syncs: Cell<u32>,
    is_renamed: Cell<bool>,
}

impl<'a> WatchPlan<'a> {
    /// Nothing fails before nine bytes are written.
    pub fn new() -> Self {
        WatchPlan {
            mode: None,
            error: None,
            room: Cell::new(9),
            folder: "",
            folder_sync_fails: false,
            file_sync_fails: false,
            path_error: ErrorKind::Unsupported,
            file_syncs: Cell::new(0),
            folder_syncs: Cell::new(0),
            is_renamed: Cell::new(false),
        }
    }

    // Whether the sync of the folder, or of another file, fails.
    fn sync_fails(&self, is_folder: bool) -> bool {
        if is_folder {
            self.folder_sync_fails
        } else {
            self.file_sync_fails
        }
    }

    // A file's sync comes too late behind the rename, and the folder's too early before it.
    fn count_sync(&self, is_folder: bool) {
        if is_folder != self.is_renamed.get() {
            return;
        }
        let syncs = if is_folder {
            &self.folder_syncs
        } else {
            &self.file_syncs
        };
        syncs.set(syncs.get().saturating_add(1));
    }
}

/// A file that is watched.
#[derive(Drop)]
pub struct WatchedFile<'a, F: Read + Write + Seek + OpenFile + Drop> {
    file: F,
    plan: &'a WatchPlan<'a>,
    is_folder: bool,
    reads: u8,
}

impl<'a, F: Read + Write + Seek + OpenFile + Drop> Read for WatchedFile<'a, F> {
    fn read(&mut self, buf: &mut [u8]) -> io::Result<usize> {
        let Some(error) = self.plan.error else {
            return self.file.read(buf);
        };
        self.reads = self.reads.saturating_add(1);
        if self.reads == 2 {
            return Err(error.into());
        }
        let most = buf.len().min(3);
        self.file.read(&mut buf[..most])
    }
}

impl<'a, F: Read + Write + Seek + OpenFile + Drop> Write for WatchedFile<'a, F> {
    fn write(&mut self, buf: &[u8]) -> io::Result<usize> {
        let room = self.plan.room.get();
        let count = self.file.write(&buf[..buf.len().min(room)])?;
        self.plan.room.set(room - count);
        self.plan.file_syncs.set(0);
        Ok(count)
    }

    fn flush(&mut self) -> io::Result<()> {
        self.file.flush()
    }
}

impl<'a, F: Read + Write + Seek + OpenFile + Drop> Seek for WatchedFile<'a, F> {
    fn seek(&mut self, _: SeekFrom) -> io::Result<u64> {
        Err(ErrorKind::Unsupported.into())
    }
}

impl<'a, F: Read + Write + Seek + OpenFile + Drop> OpenFile for WatchedFile<'a, F> {
    fn metadata(&self) -> io::Result<Metadata> {
        self.file.metadata()
    }

    fn set_len(&self, size: u64) -> io::Result<()> {
        self.file.set_len(size)
    }

    fn sync_all(&self) -> io::Result<()> {
        if self.plan.sync_fails(self.is_folder) {
            return Err(ErrorKind::Other.into());
        }
        self.file.sync_all()?;
        self.plan.count_sync(self.is_folder);
        Ok(())
    }

    fn sync_data(&self) -> io::Result<()> {
        self.sync_all()
    }

    fn set_permissions(&self, perm: Permissions) -> io::Result<()> {
        self.file.set_permissions(perm)
    }
}

/// Files that are watched. Their root is the folder that the tests run in.
#[derive(Drop)]
pub struct Watched<'a, R: Files> {
    pub files: &'a R,
    pub plan: &'a WatchPlan<'a>,
}

// Where a path leads.
fn place_of(path: &str) -> &str {
    let below = path.strip_prefix('/').unwrap_or(path);
    if below.is_empty() { "." } else { below }
}

// Has a mode that is to be watched, and not this one.
fn is_wrong(mode: u32, plan: &WatchPlan<'_>) -> bool {
    plan.mode.unwrap_or(mode) != mode
}

impl<'a, R: Files> Files for Watched<'a, R> {
    type File = WatchedFile<'a, R::File>;

    type Dir = R::Dir;

    fn open_file(&self, how: &OpenOptions, path: &str) -> io::Result<WatchedFile<'a, R::File>> {
        let file = self.files.open_file(how, place_of(path))?;
        let allowed = self.plan.mode.unwrap_or(u32::MAX);
        if how.asks_create_new() && mode_at(self.files, place_of(path))? & !allowed != 0 {
            return Err(ErrorKind::Other.into());
        }
        Ok(WatchedFile {
            file,
            plan: self.plan,
            is_folder: path == self.plan.folder,
            reads: 0,
        })
    }

    fn rename(&self, from: &str, to: &str) -> io::Result<()> {
        if is_wrong(mode_at(self.files, place_of(from))?, self.plan) {
            return Err(ErrorKind::Other.into());
        }
        self.files.rename(place_of(from), place_of(to))?;
        self.plan.is_renamed.set(true);
        Ok(())
    }

    fn metadata(&self, path: &str) -> io::Result<Metadata> {
        self.files.metadata(place_of(path))
    }

    fn remove_file(&self, path: &str) -> io::Result<()> {
        self.files.remove_file(place_of(path))
    }

    // No get and no put calls the rest.
    fn open_dir(&self, path: &str) -> io::Result<R::Dir> {
        self.files.open_dir(path)
    }

    fn symlink_metadata(&self, path: &str) -> io::Result<Metadata> {
        self.files.symlink_metadata(path)
    }

    fn copy(&self, from: &str, to: &str) -> io::Result<u64> {
        self.files.copy(from, to)
    }

    fn create_dir(&self, path: &str) -> io::Result<()> {
        self.files.create_dir(path)
    }

    fn remove_dir(&self, path: &str) -> io::Result<()> {
        self.files.remove_dir(path)
    }

    fn remove_dir_all<B: Allocator>(&self, alloc: B, path: &str) -> io::Result<()> {
        self.files.remove_dir_all(alloc, path)
    }

    // A name stays as it is, unless memory is wanted.
    fn canonicalize<B: Allocator>(&self, _: B, _: &str) -> io::Result<PathBuf<B>> {
        Err(self.plan.path_error.into())
    }

    // What the trait answers by itself takes longer to prove here.
    fn read_link<B: Allocator>(&self, alloc: B, path: &str) -> io::Result<PathBuf<B>> {
        self.files.read_link(alloc, path)
    }

    fn hard_link(&self, original: &str, link: &str) -> io::Result<()> {
        self.files.hard_link(original, link)
    }

    fn set_permissions(&self, path: &str, perm: Permissions) -> io::Result<()> {
        self.files.set_permissions(path, perm)
    }

    fn symlink(&self, original: &str, link: &str) -> io::Result<()> {
        self.files.symlink(original, link)
    }

    fn pipe(&self) -> io::Result<(PipeReader, PipeWriter)> {
        self.files.pipe()
    }

    fn chown(&self, path: &str, user: Option<u32>, group: Option<u32>) -> io::Result<()> {
        self.files.chown(path, user, group)
    }

    fn lchown(&self, path: &str, user: Option<u32>, group: Option<u32>) -> io::Result<()> {
        self.files.lchown(path, user, group)
    }

    fn create_dir_with_mode(&self, path: &str, mode: u32) -> io::Result<()> {
        self.files.create_dir_with_mode(path, mode)
    }

    fn bind_unix(&self, socket: BorrowedFd<'_>, address: &SocketAddr) -> io::Result<()> {
        self.files.bind_unix(socket, address)
    }
}
