//! Replies to a trace, as the tool prints them.
ghost use Rattle.std.specs.Prelude.{◌≡◌, ◌++◌, count_by, IfOk, OnOk};
ghost use Rattle.std.specs.List.{flat_map};
ghost use Rattle.std.specs.String.{string_bytes};
ghost use Rattle.trace_text.specs.Replies.{is_ok, is_none, is_value, is_full, is_unanswered, counted, end_line, reply_line, reply_lines, summary_line, replies_text};

use crate::value::write_value;
use region_header::Bytes;
use std::alloc::{AllocError, Global};

/// The reply to a request.
#[derive(Drop)]
pub enum Reply {
    /// A put that was done, or a del that took a key out.
    Ok,
    /// A put that found no room.
    Full,
    /// A get or del of a key that isn't there.
    None,
    /// The value that a get found.
    Value(Bytes),
    /// No reply came before the run was stopped.
    Unanswered,
}

impl Reply {
    fn is_ok(&self) -> bool
        ensures { result ≡ is_ok self.now }
    {
        matches!(self, Reply::Ok)
    }

    fn is_none(&self) -> bool
        ensures { result ≡ is_none self.now }
    {
        matches!(self, Reply::None)
    }

    fn is_value(&self) -> bool
        ensures { result ≡ is_value self.now }
    {
        matches!(self, Reply::Value(_))
    }

    fn is_full(&self) -> bool
        ensures { result ≡ is_full self.now }
    {
        matches!(self, Reply::Full)
    }

    fn is_unanswered(&self) -> bool
        ensures { result ≡ is_unanswered self.now }
    {
        matches!(self, Reply::Unanswered)
    }
}

/// The replies to a trace, one a line, and whether its run was stopped or closed. With `sum` one
/// line tells how many replies of each kind there are; a value of no bytes counts as a value.
pub fn reply_text(
    alloc: Global,
    replies: &[Reply],
    stopped: bool,
    sum: bool,
) -> Result<Bytes, AllocError>
    ensures ok { IfOk result (λ text. text ≡ replies_text replies.now stopped sum) }
{
    let mut text = String::new(alloc);
    write_reply_lines(&mut text, replies, sum)?;
    write_end(&mut text, stopped)?;
    Ok(Bytes::from_vec(text.into_bytes()))
}

fn write_end(text: &mut String, stopped: bool) -> Result<(), AllocError>
    ensures ok { OnOk result
        (string_bytes text.new ≡ string_bytes text.old ++ end_line stopped) }
{
    let end = if stopped { "stopped" } else { "closed" };
    writeln!(text, "run {end}")
}

fn write_reply_lines(text: &mut String, replies: &[Reply], sum: bool) -> Result<(), AllocError>
    ensures ok { OnOk result
        (string_bytes text.new ≡ string_bytes text.old ++ reply_lines sum replies.now) }
{
    if sum {
        return write_summary(text, replies);
    }
    write_replies(text, replies)
}

fn write_replies(text: &mut String, replies: &[Reply]) -> Result<(), AllocError>
    ensures ok { OnOk result
        (string_bytes text.new ≡ string_bytes text.old ++ flat_map reply_line replies.now) }
{
    for reply in replies {
        write_reply(text, reply)?;
    }
    Ok(())
}

fn write_reply(text: &mut String, reply: &Reply) -> Result<(), AllocError>
    ensures ok { OnOk result
        (string_bytes text.new ≡ string_bytes text.old ++ reply_line reply.now) }
{
    match reply {
        Reply::Ok => text.push_str("ok\n"),
        Reply::Full => text.push_str("full\n"),
        Reply::None => text.push_str("none\n"),
        Reply::Value(value) => {
            write_value(text, value.as_slice())?;
            text.push_str("\n")
        }
        Reply::Unanswered => text.push_str("unanswered\n"),
    }
}

fn write_summary(text: &mut String, replies: &[Reply]) -> Result<(), AllocError>
    ensures ok { OnOk result
        (string_bytes text.new ≡ string_bytes text.old ++ summary_line replies.now) }
{
    let counts = Counts::of(replies);
    write_count(text, "requests ", replies.len())?;
    write_count(text, " ok ", counts.ok)?;
    write_count(text, " none ", counts.none)?;
    write_count(text, " value ", counts.value)?;
    write_count(text, " full ", counts.full)?;
    write_count(text, " unanswered ", counts.unanswered)?;
    text.push_str("\n")
}

fn write_count(text: &mut String, what: &str, count: usize) -> Result<(), AllocError>
    ensures ok { OnOk result
        (string_bytes text.new ≡ string_bytes text.old ++ counted what.now count) }
{
    write!(text, "{what}{count}")
}

/// How many replies there are of each kind.
#[derive(Drop)]
struct Counts {
    ok: usize,
    none: usize,
    value: usize,
    full: usize,
    unanswered: usize,
}

impl Counts {
    fn of(replies: &[Reply]) -> Self
        ensures ok { result.ok ≡ count_by is_ok replies.now }
        ensures none { result.none ≡ count_by is_none replies.now }
        ensures value { result.value ≡ count_by is_value replies.now }
        ensures full { result.full ≡ count_by is_full replies.now }
        ensures unanswered { result.unanswered ≡ count_by is_unanswered replies.now }
    {
        Counts {
            ok: count_ok(replies),
            none: count_none(replies),
            value: count_values(replies),
            full: count_full(replies),
            unanswered: count_unanswered(replies),
        }
    }
}

// One function a kind: a chain of calls is proved quickly alone, and slowly beside four others.
fn count_ok(replies: &[Reply]) -> usize
    ensures { result ≡ count_by is_ok replies.now }
{
    replies.iter().filter(|reply| reply.is_ok()).count()
}

fn count_none(replies: &[Reply]) -> usize
    ensures { result ≡ count_by is_none replies.now }
{
    replies.iter().filter(|reply| reply.is_none()).count()
}

fn count_values(replies: &[Reply]) -> usize
    ensures { result ≡ count_by is_value replies.now }
{
    replies.iter().filter(|reply| reply.is_value()).count()
}

fn count_full(replies: &[Reply]) -> usize
    ensures { result ≡ count_by is_full replies.now }
{
    replies.iter().filter(|reply| reply.is_full()).count()
}

fn count_unanswered(replies: &[Reply]) -> usize
    ensures { result ≡ count_by is_unanswered replies.now }
{
    replies.iter().filter(|reply| reply.is_unanswered()).count()
}
