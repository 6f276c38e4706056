//! What is done to real files, and asked of them. All tests run in one folder, so each has names
//! of its own.
use crate::asserts::{must_be, must_hold};
use crate::stores::must_put;
use crate::watched_files::mode_at;
use file_ports::FileStore;
use std::fs;
use std::fs::Permissions;
use std::os::unix::fs::{PermissionsExt, symlink};
use std::process::Abort;
use std::rt::Files;

/// Puts a file.
pub fn put_file<R: Files + Abort + AllocGlobal>(rt: &R, name: &str, bytes: &[u8]) {
    must_put(rt, &mut FileStore::new(rt), name, bytes);
}

/// Gives a file this mode.
pub fn set_mode<R: Files + Abort>(rt: &R, name: &str, mode: u32) {
    let answer = fs::set_permissions(rt, name, Permissions::from_mode(mode));
    must_hold(rt, answer.is_ok(), name);
}

/// Makes a folder.
pub fn make_folder<R: Files + Abort>(rt: &R, name: &str) {
    must_hold(rt, fs::create_dir(rt, name).is_ok(), name);
}

/// Makes a link of this name.
pub fn link<R: Files + Abort>(rt: &R, target: &str, name: &str) {
    must_hold(rt, symlink(rt, target, name).is_ok(), name);
}

/// The name leads to a file with these bytes.
pub fn must_have<R: Files + Abort + AllocGlobal>(rt: &R, name: &str, bytes: &[u8]) {
    must_be(rt, fs::read(rt, name).ok(), bytes, name);
}

/// The name leads to a file of this mode.
pub fn must_have_mode<R: Files + Abort>(rt: &R, name: &str, mode: u32) {
    must_hold(rt, mode_at(rt, name).ok() == Some(mode), name);
}

/// There is a link of this name.
pub fn must_be_link<R: Files + Abort>(rt: &R, name: &str) {
    let is_link = match fs::symlink_metadata(rt, name) {
        Ok(metadata) => metadata.is_symlink(),
        Err(_) => false,
    };
    must_hold(rt, is_link, name);
}

/// There is no file of this name.
pub fn must_lack<R: Files + Abort>(rt: &R, name: &str) {
    must_hold(rt, fs::exists(rt, name).ok() == Some(false), name);
}
