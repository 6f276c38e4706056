//! Sessions: calls of the tool, told as texts.
//!
//! ```text
//! @ 2: state 2           begins a session over this image, h, which is left as it is
//! @+ 2: state 2          begins one over an image that isn't left as it is
//! @                      begins one over an empty store, as the text before the first does
//! ! 1                    before its first call: which call of the store fails; call 0 put h there
//! !+ 2                   the same of a failing put that leaves the new image
//! $ run h --workers 1    a call: its words, of which '' is an empty one; lines behind say more
//! < put 1 aa             a line of its input; the last one has no line feed
//! <0 1 65513             such a line that puts so many zero bytes, under key 1
//! ? 0                    which of its reads fail; each gives at most seven bytes
//! ! 0 2                  which of its writes fail; each takes at most eight bytes
//! % 1                    the number that each chance gives, where they aren't seeded
//! > bad trace line 3     a line that it prints
//! >| bad tr              the same without a line feed
//! >+ 8640 16 512         lines that it prints: so many numbers, from 8640 on, 16 apart
//! >* run stopped         a text in what it prints, where the rest isn't told
//! = 10                   its status, where that isn't 0
//! ~ 82304                how many bytes the image h has then, or `none`
//! & root:7 2 @1080       words of the image h then: the first, how many, and their value
//! ```
//!
//! `images` reads an image. Other lines say nothing.
use crate::harness::{Ended, has_words, make_turn, must_hold};
use crate::images::image_bytes;
use crate::turn::{behind, first_behind, first_line, nth_number, numbers, replaced};
use std::alloc::{AllocError, Global};
use std::process::Abort;
use std::sync::Wait;
use std::test::Fail;
use std::thread::Threads;
use tool_ports::{FailedPut, ImageStore, MapStore};

/// What is printed behind so many numbers, if it begins with them.
fn behind_numbers<'a>(printed: &'a str, told: &str) -> Option<&'a str> {
    let mut number = nth_number(told, 0);
    let mut left = printed;
    for _ in 0..nth_number(told, 2) {
        let (line, behind) = left.split_once('\n')?;
        if nth_number(line, 0) != number {
            return None;
        }
        number = number.wrapping_add(nth_number(told, 1));
        left = behind;
    }
    Some(left)
}

/// What is printed behind what the line tells, if it begins with that.
fn behind_line<'a>(printed: &'a str, line: &str) -> Option<&'a str> {
    if let Some(text) = behind(line, ">") {
        return printed.strip_prefix(text)?.strip_prefix('\n');
    }
    if let Some(text) = behind(line, ">|") {
        return printed.strip_prefix(text);
    }
    match behind(line, ">+") {
        Some(told) => behind_numbers(printed, told),
        None => Some(printed),
    }
}

/// What is printed behind what the turn tells, if it begins with that.
fn behind_turn<'a>(printed: &'a str, turn: &str) -> Option<&'a str> {
    let mut left = printed;
    for line in turn.split('\n') {
        left = behind_line(left, line)?;
    }
    Some(left)
}

/// Whether this is what the turn prints.
fn prints(turn: &str, printed: &str) -> bool {
    if let Some(text) = first_behind(turn, ">*") {
        return printed.contains(text);
    }
    match behind_turn(printed, turn) {
        Some(left) => left.is_empty(),
        None => false,
    }
}

/// Whether a call ended as the turn tells.
pub fn ends_as_told(turn: &str, ended: Result<Ended, AllocError>) -> bool {
    match ended {
        Ok(ended) => {
            let status = first_behind(turn, "=").unwrap_or("0").parse::<u8>().ok();
            status == Some(ended.status) && prints(turn, ended.text())
        }
        Err(_) => false,
    }
}

/// The image h, or no bytes where there is none.
pub fn image_in(images: &MapStore) -> &[u8] {
    images.image("h").unwrap_or(&[])
}

/// Whether the image h is as long as the turn tells, if it does.
fn has_length(images: &MapStore, turn: &str) -> bool {
    match first_behind(turn, "~") {
        None => true,
        Some("none") => images.image("h").is_none(),
        Some(length) => length.parse::<usize>().ok() == Some(image_in(images).len()),
    }
}

/// Whether the image h has the words that the turn tells.
pub fn has_told_words(images: &MapStore, turn: &str) -> Result<bool, Fail> {
    for line in turn.split('\n') {
        if let Some(told) = behind(line, "&")
            && !has_words(image_in(images), told)?
        {
            return Ok(false);
        }
    }
    Ok(true)
}

/// Makes a call of a session, which ends and leaves an image as it tells.
fn take_turn(
    rt: &(impl Abort + AllocGlobal + Threads + Wait + Sync),
    images: &mut MapStore,
    turn: &str,
) -> Result<(), Fail> {
    let ended = make_turn(rt, images, turn);
    must_hold(rt, ends_as_told(turn, ended), turn);
    must_hold(rt, has_length(images, turn), turn);
    must_hold(rt, has_told_words(images, turn)?, turn);
    Ok(())
}

/// Makes the calls of a session over the store.
pub fn play(
    rt: &(impl Abort + AllocGlobal + Threads + Wait + Sync),
    images: &mut MapStore,
    session: &str,
) -> Result<(), Fail> {
    let mut turns = session.split("\n$ ");
    turns.next();
    for turn in turns {
        take_turn(rt, images, turn)?;
    }
    Ok(())
}

/// The image that a session tells at its head, or nothing where its store is empty.
fn image_told(head: &str) -> &str {
    let line = first_line(head);
    line.strip_prefix('+').unwrap_or(line).trim()
}

/// An empty store, of which the calls fail that the head of a session tells.
fn empty_store(alloc: Global, head: &str) -> Result<MapStore, AllocError> {
    let (mark, failed_put) = match first_behind(head, "!+") {
        Some(_) => ("!+", FailedPut::LeavesNew),
        None => ("!", FailedPut::LeavesOld),
    };
    Ok(MapStore::new(alloc, numbers(alloc, head, mark)?, failed_put))
}

fn put_image(images: &mut MapStore, alloc: Global, text: &str) -> Result<(), Fail> {
    let image = image_bytes(alloc, text)?;
    images.put(alloc, "h", &image)?;
    Ok(())
}

/// The store that the head of a session tells.
pub fn store_of(alloc: Global, head: &str) -> Result<MapStore, Fail> {
    let mut images = empty_store(alloc, head)?;
    let text = image_told(head);
    if !text.is_empty() {
        put_image(&mut images, alloc, text)?;
    }
    Ok(images)
}

/// Whether the image h is as the session found it, or is not, as its head tells.
fn is_left_as_told(alloc: Global, images: &MapStore, head: &str) -> Result<bool, Fail> {
    let text = image_told(head);
    if text.is_empty() {
        return Ok(true);
    }
    let image = image_bytes(alloc, text)?;
    Ok((image_in(images) == image.as_slice()) != head.starts_with('+'))
}

/// Plays a session, and answers the store that it leaves.
pub fn played(
    rt: &(impl Abort + AllocGlobal + Threads + Wait + Sync),
    session: &str,
) -> Result<MapStore, Fail> {
    let head = session.split("\n$ ").next().unwrap_or("");
    let mut images = store_of(rt.alloc(), head)?;
    play(rt, &mut images, session)?;
    must_hold(rt, is_left_as_told(rt.alloc(), &images, head)?, session);
    Ok(images)
}

/// The call that shows what the last run of a session left, as that run tells it. A run itself takes
/// the keys that it tells from its replies, and not from the image.
pub fn show_of(alloc: Global, session: &str) -> Result<String, Fail> {
    let (_, report) = session.rsplit_once("> run closed\n").ok_or("no report")?;
    Ok(format!(in alloc; "\n$ show h\n{report}")?)
}

/// Plays the sessions of a text.
fn play_each(
    rt: &(impl Abort + AllocGlobal + Threads + Wait + Sync),
    text: &str,
) -> Result<(), Fail> {
    for session in text.split("\n@") {
        played(rt, session)?;
    }
    Ok(())
}

/// A text of sessions, and the words in it that are replaced: the first of each pair by the second.
pub type Table = (&'static str, &'static [(&'static str, &'static str)]);

/// Plays the sessions of each table.
pub fn plays(
    rt: &(impl Abort + AllocGlobal + Threads + Wait + Sync),
    tables: &[Table],
) -> Result<(), Fail> {
    for (text, pairs) in tables {
        play_each(rt, &replaced(rt.alloc(), text, pairs)?)?;
    }
    Ok(())
}
