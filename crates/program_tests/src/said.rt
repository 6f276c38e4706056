//! What the store of files keeps of a call that failed: of which file, and what the system said.
use crate::harness::must_hold;
use file_ports::FileStore;
use std::test::Fail;
use tool_ports::ImageStore;

#[test]
fn a_failed_call_keeps_its_file_and_the_cause(rt: HostRuntime) -> Result<(), Fail> {
    let mut images = FileStore::new(&rt);
    must_hold(&rt, images.failure().is_none(), "before the first call");
    let _ = images.get(rt.alloc(), "missing", 8);
    must_hold(&rt, images.failure().is_none(), "no such file");
    let _ = images.get(rt.alloc(), ".", 8);
    let said = images.failure().unwrap_or("nothing");
    must_hold(&rt, said.starts_with(".: "), "a folder that is read");
    let _ = images.put(rt.alloc(), "missing/image", b"a");
    let said = images.failure().unwrap_or("nothing");
    must_hold(&rt, said.starts_with("missing/image: "), "no such folder");
    Ok(())
}
