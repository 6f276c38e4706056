//! Traces that are made of a number of requests and a seed.
ghost use Rattle.std.specs.Prelude.{◌≤◌};

use crate::checks::{must_hold, reads_so};
use crate::readings::trace_told;
use std::alloc::{AllocError, Global};
use std::process::Abort;
use trace_text::gen_text;

fn makes(rt: &(impl Abort + AllocGlobal), n: u64, seed: u64, told: &str)
    requires requests { n ≤ 100000 }
    requires seed { seed ≤ 1000000 }
{
    must_hold(rt, reads_so(gen_text(rt.alloc(), n, seed), told), told);
}

/// Whether fifty requests that are made are printed again as they were, once they are read.
fn are_printed_again(alloc: Global, seed: u64) -> Result<bool, AllocError>
    requires { seed ≤ 1000000 }
{
    let made = gen_text(alloc, 50, seed)?;
    let read = trace_told(alloc, made.as_slice())?;
    Ok(read.as_bytes() == made.as_slice())
}

fn is_read_again(rt: &(impl Abort + AllocGlobal), seed: u64)
    requires { seed ≤ 1000000 }
{
    let is_same = are_printed_again(rt.alloc(), seed) == Ok(true);
    must_hold(rt, is_same, "fifty requests");
}

const FOUR: &str = "put 0 -
put 2531 3738393a3b3c3d3e3f404142434445464748494a4b4c4d4e
get 966
del 3498
";

const EIGHT: &str = "\
put 61 d1d2d3d4d5d6d7d8d9dadbdcdddedfe0e1e2e3e4e5e6e7e8e9eaebecedeeeff0f1f2f3f4f5f6f\
7f8f9fafbfcfdfeff000102030405060708090a0b0c\n\
put 2592 08090a0b0c0d0e0f101112131415161718191a1b1c1d1e1f202122232425262728292a2b2c2\
d2e2f303132333435363738393a3b3c3d3e3f404142434445464748494a4b4c4d4e4f505152535455565\
758595a5b\n\
get 1027\n\
del 3559\n\
put 1994 adaeafb0b1b2b3b4b5b6b7b8b9babbbcbdbebfc0c1c2c3c4c5c6c7c8c9cacbcccdcecfd0d1d\
2d3d4d5d6d7d8d9dadbdcdddedfe0e1e2e3e4e5e6e7e8e9eaebecedeeeff0f1f2f3f4f5f6f7f8f9fafbf\
cfdfeff00\n\
put 430 e4e5e6e7e8e9eaebecedeeeff0f1f2f3f4f5f6f7f8f9fafbfcfdfeff00010203040506070809\
0a0b0c0d0e0f101112131415161718191a1b1c1d1e1f202122232425262728292a2b\n\
get 2961\n\
del 1397\n";

#[test]
fn traces_are_made_of_a_seed(rt: HostRuntime) {
    makes(&rt, 0, 7, "");
    makes(&rt, 4, 0, FOUR);
    makes(&rt, 8, 1, EIGHT);
}

#[test]
fn traces_that_are_made_are_read_again(rt: HostRuntime) {
    is_read_again(&rt, 0);
    is_read_again(&rt, 1);
    is_read_again(&rt, 1_000_000);
}
