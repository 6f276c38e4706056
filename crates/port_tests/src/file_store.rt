//! The store over real files, and over files whose reads fail in the middle. What is counted of its
//! calls is told by clauses, since the counts are seen by no call.
ghost use Rattle.std.specs.Prelude.{◌≡◌, ◌≤◌};
ghost use Rattle.file_ports.specs.FileStore.{calls_of, fault_count};
ghost use Rattle.tool_ports.specs.declared.store_calls.StoreCalls.{StoreCalls};

use crate::asserts::{must_be, must_hold};
use crate::real_files::{link, make_folder, must_be_link, must_lack, put_file};
use crate::stores::{must_fail, must_get, must_miss, must_put, must_refuse};
use crate::watched_files::{WatchPlan, Watched};
use file_ports::FileStore;
use std::alloc::Global;
use std::fs;
use std::io::ErrorKind;
use std::process::Abort;
use std::rt::Files;
use std::test::Fail;
use tool_ports::{GetFault, ImageStore};

// Puts the image, and gets it back.
fn must_keep<I: ImageStore>(rt: &(impl Abort + AllocGlobal), store: &mut I, bytes: &[u8])
    ensures { I.faults store.new ≡ I.faults store.old }
{
    must_put(rt, store, "image", bytes);
    must_get(rt, store, "image", 10_000, bytes);
}

// A store that has kept images.
fn store_that_kept<'a, R: Files + Abort + AllocGlobal>(rt: &'a R, long: &[u8]) -> FileStore<'a, R>
    ensures { fault_count result ≡ 0 }
{
    let mut store = FileStore::new(rt);
    must_keep(rt, &mut store, long);
    must_keep(rt, &mut store, b"second");
    must_keep(rt, &mut store, b"");
    store
}

#[test]
fn an_image_is_put_in_a_file_and_got_back(rt: HostRuntime) -> Result<(), Fail> {
    let long = vec![in rt.alloc(); 7; 9_999]?;
    let _ = store_that_kept(&rt, &long);
    must_lack(&rt, "image.new0");
    Ok(())
}

// A store that has put a long image, and got its first bytes.
fn store_that_gave_first<'a, R: Files + Abort + AllocGlobal>(
    rt: &'a R,
    long: &[u8],
    first: &[u8],
) -> FileStore<'a, R>
    ensures gets { (calls_of result).gets ≡ 1 }
    ensures puts { (calls_of result).puts ≡ 1 }
    ensures most { (calls_of result).most ≡ 10000 }
{
    let mut store = FileStore::new(rt);
    must_put(rt, &mut store, "long", long);
    must_get(rt, &mut store, "long", 10_000, first);
    store
}

#[test]
fn a_long_file_gives_its_first_bytes(rt: HostRuntime) -> Result<(), Fail> {
    let first = vec![in rt.alloc(); 7; 10_000]?;
    let mut long = vec![in rt.alloc(); 7; 10_000]?;
    long.push(8)?;
    let _ = store_that_gave_first(&rt, &long, &first);
    let length = fs::metadata(&rt, "long")?.len();
    must_hold(&rt, length == 10_001, "its length");
    Ok(())
}

// A store that has refused to put a file in the place of a link to itself.
fn store_that_refused<'a, R: Files + Abort + AllocGlobal>(rt: &'a R) -> FileStore<'a, R>
    ensures { 1 ≤ fault_count result }
{
    let mut store = FileStore::new(rt);
    link(rt, "loop", "loop");
    must_refuse(rt, &mut store, "loop", b"a");
    store
}

#[test]
fn a_file_whose_mode_cannot_be_told_is_not_replaced(rt: HostRuntime) -> Result<(), Fail> {
    let _ = store_that_refused(&rt);
    must_be_link(&rt, "loop");
    must_lack(&rt, "loop.new0");
    Ok(())
}

// Puts a file beside one that has the name of its new bytes.
fn must_touch_no_other<R: Files + Abort + AllocGlobal>(rt: &R) {
    let mut store = FileStore::new(rt);
    must_put(rt, &mut store, "mine.new0", b"other");
    must_put(rt, &mut store, "mine", b"first");
    must_get(rt, &mut store, "mine.new0", 10_000, b"other");
}

#[test]
fn a_put_touches_no_other_file(rt: HostRuntime) -> Result<(), Fail> {
    must_touch_no_other(&rt);
    Ok(())
}

// A store that has found no such image.
fn store_that_missed<'a, R: Files + Abort + AllocGlobal>(rt: &'a R) -> FileStore<'a, R>
    ensures { fault_count result ≡ 0 }
{
    let mut store = FileStore::new(rt);
    must_miss(rt, &mut store, "missing", 10_000);
    store
}

// All else has failed.
fn fail_thrice<R: Files + Abort + AllocGlobal>(rt: &R, store: &mut FileStore<'_, R>)
    ensures { fault_count store.old ≡ 0 → 3 ≤ fault_count store.new }
{
    must_fail(rt, store, "folder", 10_000);
    must_refuse(rt, store, "missing/image", b"a");
    must_refuse(rt, store, "folder", b"a");
}

#[test]
fn what_is_not_there_is_absent_and_all_else_has_failed(rt: HostRuntime) -> Result<(), Fail> {
    make_folder(&rt, "folder");
    let mut store = store_that_missed(&rt);
    fail_thrice(&rt, &mut store);
    must_lack(&rt, "folder.new0");
    Ok(())
}

// Gets the first `most` bytes of a file over any files: over watched ones that is dear to prove.
fn get_over<F: Files>(
    files: &F,
    alloc: Global,
    name: &str,
    most: usize,
) -> Result<Vec<u8>, GetFault> {
    FileStore::new(files).get(alloc, name, most)
}

// Reads the first eight bytes of a file whose second read fails so.
fn read_over<R: Files + AllocGlobal>(rt: &R, error: ErrorKind) -> Result<Vec<u8>, GetFault> {
    let mut plan = WatchPlan::new();
    plan.error = Some(error);
    let files = Watched {
        files: rt,
        plan: &plan,
    };
    get_over(&files, rt.alloc(), "faulty", 8)
}

#[test]
fn a_read_that_fails_in_the_middle_has_failed(rt: HostRuntime) -> Result<(), Fail> {
    put_file(&rt, "faulty", b"xxxxxxxxx");
    let failed = Some(GetFault::Failed);
    let not_found = read_over(&rt, ErrorKind::NotFound).err();
    must_hold(&rt, not_found == failed, "not found");
    let other = read_over(&rt, ErrorKind::Other).err();
    must_hold(&rt, other == failed, "another error");
    let image = read_over(&rt, ErrorKind::Interrupted).ok();
    must_be(&rt, image, b"xxxxxxxx", "interrupted");
    Ok(())
}
