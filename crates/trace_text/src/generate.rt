//! Makes traces of a number of requests and a seed.
ghost use Rattle.std.specs.Prelude.{◌≡◌, ◌≤◌, ◌<◌, ◌^◌, ◌++◌, IfOk, OnOk};
ghost use Rattle.std.specs.String.{string_bytes};
ghost use Rattle.trace_text.specs.Generated.{value_of, request_of, made_request, request_line, made_trace};

use crate::request::Request;
use crate::value::write_value;
use region_header::Bytes;
use std::alloc::{AllocError, Global};

/// A trace of the first `n` requests of a seed, for at most 100,000 requests and a seed of at most
/// 1,000,000. Of four requests two are puts, then come a get and a del.
pub fn gen_text(alloc: Global, n: u64, seed: u64) -> Result<Bytes, AllocError>
    requires requests { n ≤ 100000 }
    requires seed { seed ≤ 1000000 }
    ensures ok { IfOk result (λ text. text ≡ made_trace n seed) }
{
    let mut text = String::new(alloc);
    for i in 0..n {
        write_made(alloc, &mut text, seed, i)?;
    }
    Ok(Bytes::from_vec(text.into_bytes()))
}

/// Writes the `i`th request of a seed in a line.
fn write_made(alloc: Global, text: &mut String, seed: u64, i: u64) -> Result<(), AllocError>
    requires request { i < 100000 }
    requires seed { seed ≤ 1000000 }
    ensures ok { OnOk result
        (string_bytes text.new ≡ string_bytes text.old ++ request_line (made_request seed i)) }
{
    let number = (40_503 * i + 977 * seed) % 65_536;
    let request = make_request(alloc, number, i)?;
    write_request(text, &request)
}

/// The request that is made of a number, the `i`th of its trace.
fn make_request(alloc: Global, number: u64, i: u64) -> Result<Request, AllocError>
    requires { number < 2 ^ 16 }
    ensures ok { IfOk result (λ request. request ≡ request_of number i) }
{
    let key = number / 16;
    Ok(match i % 4 {
        0 | 1 => Request::Put(key, Bytes::from_vec(make_value(alloc, number)?)),
        2 => Request::Get(key),
        _ => Request::Del(key),
    })
}

/// Fewer than 131 bytes that count up from the number.
fn make_value(alloc: Global, number: u64) -> Result<Vec<u8>, AllocError>
    requires { number < 2 ^ 16 }
    ensures ok { IfOk result (λ value. value.items ≡ value_of number) }
{
    (0..number % 131)
        .map(|j| ((number + j) % 256) as u8)
        .collect(alloc)
}

/// Writes a request in a line.
pub(crate) fn write_request(text: &mut String, request: &Request) -> Result<(), AllocError>
    ensures ok { OnOk result
        (string_bytes text.new ≡ string_bytes text.old ++ request_line request.now) }
{
    match request {
        Request::Put(key, value) => {
            write!(text, "put {key} ")?;
            write_value(text, value.as_slice())?;
            text.push_str("\n")
        }
        Request::Get(key) => writeln!(text, "get {key}"),
        Request::Del(key) => writeln!(text, "del {key}"),
        Request::Move(key, to) => writeln!(text, "move {key} {to}"),
    }
}
