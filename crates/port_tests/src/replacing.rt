//! A file that takes the place of another: writing it may fail, and what is left beside it.
use crate::asserts::must_hold;
use crate::real_files::{
    link, make_folder, must_be_link, must_have, must_have_mode, must_lack, put_file, set_mode,
};
use crate::watched_files::{WatchPlan, Watched};
use file_ports::FileStore;
use std::alloc::Global;
use std::io::ErrorKind;
use std::process::Abort;
use std::rt::Files;
use std::test::Fail;
use tool_ports::{ImageStore, PutImageFault};

// Puts a file over any files: over watched ones that is dear to prove.
fn put_over<F: Files>(
    files: &F,
    alloc: Global,
    name: &str,
    bytes: &[u8],
) -> Result<(), PutImageFault> {
    FileStore::new(files).put(alloc, name, bytes)
}

// Puts a file over files that are watched.
fn put_watched<R: Files + AllocGlobal>(
    rt: &R,
    plan: &WatchPlan<'_>,
    name: &str,
    bytes: &[u8],
) -> Result<(), PutImageFault> {
    put_over(&Watched { files: rt, plan }, rt.alloc(), name, bytes)
}

const FAILED: Option<PutImageFault> = Some(PutImageFault::Failed);

// Which syncs fail: a file's, and its folder's.
const NO_SYNC: (bool, bool) = (false, false);

const OF_FILE: (bool, bool) = (true, false);

const OF_FOLDER: (bool, bool) = (false, true);

// Writes three bytes where there is so much room: with this fault or none, and so much is left
// then.
fn must_write<R: Files + Abort + AllocGlobal>(
    rt: &R,
    (name, room): (&str, usize),
    (of_file, of_folder): (bool, bool),
    fault: Option<PutImageFault>,
    left: usize,
) {
    let mut plan = WatchPlan::new();
    plan.room.set(room);
    plan.folder = ".";
    plan.file_sync_fails = of_file;
    plan.folder_sync_fails = of_folder;
    let answer = put_watched(rt, &plan, name, b"abc");
    must_hold(rt, answer.err() == fault, name);
    must_hold(rt, plan.room.get() == left, name);
}

#[test]
fn a_write_or_sync_that_fails_is_told(rt: HostRuntime) -> Result<(), Fail> {
    must_write(&rt, ("ample", 9), NO_SYNC, None, 6);
    must_write(&rt, ("exact", 3), NO_SYNC, None, 0);
    must_write(&rt, ("short", 2), NO_SYNC, FAILED, 0);
    must_write(&rt, ("none", 0), NO_SYNC, FAILED, 0);
    must_write(&rt, ("unsynced", 9), OF_FILE, FAILED, 6);
    must_lack(&rt, "unsynced");

    // The file has its place by then.
    must_write(&rt, ("placed", 9), OF_FOLDER, FAILED, 6);
    must_have(&rt, "placed", b"abc");
    Ok(())
}

// Puts a file where there is no memory for the path that its name leads to.
fn must_want_memory<R: Files + Abort + AllocGlobal>(rt: &R, name: &str) {
    let mut plan = WatchPlan::new();
    plan.path_error = ErrorKind::OutOfMemory;
    let answer = put_watched(rt, &plan, name, b"abc");
    must_hold(rt, answer == Err(PutImageFault::Memory), name);
}

#[test]
fn a_file_that_was_not_written_takes_no_place(rt: HostRuntime) -> Result<(), Fail> {
    put_file(&rt, "kept", b"old");
    must_write(&rt, ("kept", 2), NO_SYNC, FAILED, 0);
    must_want_memory(&rt, "kept");
    must_have(&rt, "kept", b"old");
    must_lack(&rt, "kept.new0");
    Ok(())
}

#[test]
fn a_file_keeps_its_mode_and_its_links(rt: HostRuntime) -> Result<(), Fail> {
    put_file(&rt, "owned", b"old");
    set_mode(&rt, "owned", 0o640);
    link(&rt, "owned", "link");
    put_file(&rt, "link", b"new");
    must_have(&rt, "owned", b"new");
    must_be_link(&rt, "link");
    must_have_mode(&rt, "owned", 0o640);
    Ok(())
}

// Replaces a file of this mode, which is watched.
fn must_keep_mode<R: Files + Abort + AllocGlobal>(rt: &R, name: &str, mode: u32) {
    put_file(rt, name, b"old");
    set_mode(rt, name, mode);
    let mut plan = WatchPlan::new();
    plan.mode = Some(mode);
    let answer = put_watched(rt, &plan, name, b"new");
    must_hold(rt, answer == Ok(()), name);
    must_have(rt, name, b"new");
}

#[test]
fn a_new_file_has_the_old_mode_before_it_takes_the_place(rt: HostRuntime) -> Result<(), Fail> {
    must_keep_mode(&rt, "own", 0o600);
    must_keep_mode(&rt, "group", 0o640);

    // Every usual mask leaves out a bit of this one.
    must_keep_mode(&rt, "all", 0o666);
    Ok(())
}

// Puts a file under the name: it is synced before it takes the place, and this folder afterwards.
fn must_sync<R: Files + Abort + AllocGlobal>(rt: &R, name: &str, folder: &str) {
    let mut plan = WatchPlan::new();
    plan.folder = folder;
    let answer = put_watched(rt, &plan, name, b"abc");
    must_hold(rt, answer == Ok(()), name);
    must_hold(rt, plan.file_syncs.get() == 1, name);
    must_hold(rt, plan.folder_syncs.get() == 1, folder);
}

#[test]
fn a_file_and_then_its_folder_are_synced(rt: HostRuntime) -> Result<(), Fail> {
    must_sync(&rt, "synced", ".");
    put_file(&rt, "synced", b"old");
    must_sync(&rt, "synced", ".");
    must_have(&rt, "synced", b"abc");
    Ok(())
}

#[test]
fn the_folder_of_a_name_is_what_stands_before_it(rt: HostRuntime) -> Result<(), Fail> {
    make_folder(&rt, "a");
    make_folder(&rt, "a/b");
    must_sync(&rt, "heap", ".");
    must_sync(&rt, "a/b/heap", "a/b");
    must_sync(&rt, "/heap", "/");
    must_sync(&rt, "./heap", ".");
    Ok(())
}
