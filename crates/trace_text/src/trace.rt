//! Reads a trace of requests.
ghost use Rattle.std.specs.Prelude.{IfOk, IfErr};
ghost use Rattle.trace_text.specs.Lines.{lines_of};
ghost use Rattle.trace_text.specs.Trace.{AreLines, IsWhyNot};

use crate::line::parse_line;
use crate::pieces::{count_lines, next_line};
use crate::request::{Request, TraceError};
use std::alloc::Global;

/// The requests of a trace, one for each line.
///
/// A line is `put K V`, `get K`, `del K` or `move K K`, with one space between words. `K` is a
/// decimal number of 64 bits without leading zeros. `V` is `-` for the empty value, or two
/// hexadecimal digits of either case for each byte, of which there are at most 131,072. The last
/// line may lack its line feed, and an empty trace has no line.
///
/// Memory is asked for once for all requests, and once for each value.
pub fn parse_trace(alloc: Global, text: &[u8]) -> Result<Vec<Request>, TraceError>
    ensures ok { IfOk result (λ requests. AreLines (lines_of text.now) requests.items) }
    ensures err { IfErr result (IsWhyNot text.now) }
{
    let mut requests = Vec::with_capacity(alloc, count_lines(text))?;
    let mut rest = text;
    while let Some((line, after)) = next_line(rest) {
        let Some(request) = parse_line(alloc, line)? else {
            return Err(TraceError::BadLine {
                line: requests.len() as u64 + 1,
            });
        };
        requests.push_reserved(request);
        rest = after;
    }
    Ok(requests)
}
