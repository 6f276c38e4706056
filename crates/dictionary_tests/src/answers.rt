//! Replies and answers as they are printed.
use crate::checks::{must_hold, reads_so};
use core_model::StepAnswer;
use region_header::Bytes;
use std::alloc::{AllocError, Global};
use std::process::Abort;
use std::test::Fail;
use trace_text::{Reply, answers_text, reply_text, tickets_line};

fn value(alloc: Global, bytes: &[u8]) -> Result<Reply, AllocError> {
    Ok(Reply::Value(Bytes::from_vec(Vec::from_slice(alloc, bytes)?)))
}

/// The reply of this name.
fn reply(alloc: Global, name: &str) -> Result<Reply, AllocError> {
    match name {
        "ok" => Ok(Reply::Ok),
        "full" => Ok(Reply::Full),
        "none" => Ok(Reply::None),
        "value" => value(alloc, b"a\xff"),
        "empty" => value(alloc, b""),
        _ => Ok(Reply::Unanswered),
    }
}

fn replies(alloc: Global, names: &str) -> Result<Vec<Reply>, AllocError> {
    let mut replies = Vec::new(alloc);
    for name in names.split(' ') {
        replies.push(reply(alloc, name)?)?;
    }
    Ok(replies)
}

fn prints(
    rt: &(impl Abort + AllocGlobal),
    replies: &[Reply],
    (stopped, sum): (bool, bool),
    told: &str,
) {
    let found = reply_text(rt.alloc(), replies, stopped, sum);
    must_hold(rt, reads_so(found, told), told);
}

/// One reply of each kind, and a value of no bytes.
const SIX: &str = "ok full none value empty unanswered";

const CLOSED: &str = "ok
full
none
61ff
-
unanswered
run closed
";

const STOPPED: &str = "ok
full
none
61ff
-
unanswered
run stopped
";

const CLOSED_SUM: &str = "requests 6 ok 1 none 1 value 2 full 1 unanswered 1
run closed
";

const STOPPED_SUM: &str = "requests 6 ok 1 none 1 value 2 full 1 unanswered 1
run stopped
";

const NO_REQUEST: &str = "requests 0 ok 0 none 0 value 0 full 0 unanswered 0
run closed
";

fn prints_six(rt: &(impl Abort + AllocGlobal), six: &[Reply]) {
    prints(rt, six, (false, false), CLOSED);
    prints(rt, six, (true, false), STOPPED);
    prints(rt, six, (false, true), CLOSED_SUM);
    prints(rt, six, (true, true), STOPPED_SUM);
}

#[test]
fn replies_are_printed_or_counted(rt: HostRuntime) -> Result<(), Fail> {
    prints(&rt, &[], (false, false), "run closed\n");
    prints(&rt, &[], (false, true), NO_REQUEST);
    prints_six(&rt, &replies(rt.alloc(), SIX)?);
    Ok(())
}

fn answers(rt: &(impl Abort + AllocGlobal), answers: &[StepAnswer], told: &str) {
    let found = answers_text(rt.alloc(), answers);
    must_hold(rt, reads_so(found, told), told);
}

const FOUR: [StepAnswer; 4] = [
    StepAnswer::Done,
    StepAnswer::NotNow,
    StepAnswer::Stopped { step: 4 },
    StepAnswer::Done,
];

#[test]
fn answers_are_printed(rt: HostRuntime) {
    answers(&rt, &[], "");
    answers(&rt, &FOUR, "done\nnot now\nnot now\ndone\n");
    let tickets = tickets_line(rt.alloc(), 120);
    must_hold(&rt, reads_so(tickets, "tickets 120\n"), "tickets");
}
