//! Traces that are read, and those outside the grammar.
use crate::checks::must_hold;
use crate::readings::{Grammar, reads_each};
use std::alloc::{AllocError, Global};
use std::mem::size_of;
use std::process::Abort;
use trace_text::{Request, parse_trace};

const READ: &str = "
 =>
put 1 aa; => put 1 aa;
put 1 aa => put 1 aa;
get 0;del 0 => get 0;del 0;
put 0 -;get 1; => put 0 -;get 1;
put 5 - => put 5 -;
put 7 AbCdEf; => put 7 abcdef;
put 7 00ff; => put 7 00ff;
get 18446744073709551615; => get 18446744073709551615;
del 18446744073709551615 => del 18446744073709551615;
get 10;get 9;get 10; => get 10;get 9;get 10;
del 3498;put 2531 3738; => del 3498;put 2531 3738;
move 1 2; => move 1 2;
move 0 0 => move 0 0;
move 18446744073709551615 0;move 0 18446744073709551615 => move 18446744073709551615 0;move 0 18446744073709551615;
put 0 aa;move 0 9;get 9; => put 0 aa;move 0 9;get 9;
";

#[test]
fn traces_of_the_grammar_are_read(rt: HostRuntime) {
    reads_each(&rt, Grammar::Trace, READ);
}

const OUTSIDE: &str = "
; => bad line 1
;get 1; => bad line 1
get 1;; => bad line 2
get 1;;get 2 => bad line 2
 get 1 => bad line 1
get  1 => bad line 1
get 1  => bad line 1
get 1\t => bad line 1
get\t1 => bad line 1
get 1\r;get 2; => bad line 1
get => bad line 1
get  => bad line 1
get x => bad line 1
get 01 => bad line 1
get 00 => bad line 1
get -1 => bad line 1
get +1 => bad line 1
get 1x => bad line 1
get 1 2 => bad line 1
get 18446744073709551616 => bad line 1
get 99999999999999999999 => bad line 1
Get 1 => bad line 1
GET 1 => bad line 1
pet 1 => bad line 1
gets 1 => bad line 1
put 1 => bad line 1
put 1  => bad line 1
put  1 aa => bad line 1
put 1  aa => bad line 1
put 1 aa  => bad line 1
put 1 a => bad line 1
put 1 abc => bad line 1
put 1 ag => bad line 1
put 1 0x => bad line 1
put 1 -- => bad line 1
put 1 -a => bad line 1
put 01 aa => bad line 1
put 1 aa\t => bad line 1
put aa => bad line 1
put - - => bad line 1
del => bad line 1
del - => bad line 1
del 1 aa => bad line 1
move => bad line 1
move  => bad line 1
move 1 => bad line 1
move 1  => bad line 1
move 1 2 3 => bad line 1
move 1  2 => bad line 1
move  1 2 => bad line 1
move 1 2  => bad line 1
 move 1 2 => bad line 1
move\t1 2 => bad line 1
move 1\t2 => bad line 1
move 01 2 => bad line 1
move 1 02 => bad line 1
move 1 -2 => bad line 1
move 1 - => bad line 1
move 1 aa => bad line 1
move 18446744073709551616 2 => bad line 1
move 1 18446744073709551616 => bad line 1
Move 1 2 => bad line 1
moves 1 2 => bad line 1
put 1 aa;get 1;put 5 abc; => bad line 3
put 1 aa;get 1;put 5 abc;get => bad line 3
get 1;get 2;get 3;move 1; => bad line 4
move 1 2;move 3 4;move 5;move 6 => bad line 3
";

#[test]
fn the_first_line_outside_the_grammar_is_told(rt: HostRuntime) {
    reads_each(&rt, Grammar::Trace, OUTSIDE);
}

const NO_TEXT: &str = "
get 1;?; => bad line 2
get 1;get ? => bad line 2
get 1;put 1 ?? => bad line 2
get 1;\0 => bad line 2
";

#[test]
fn bytes_that_are_no_text_are_outside_the_grammar(rt: HostRuntime) {
    reads_each(&rt, Grammar::Trace, NO_TEXT);
}

/// The line that puts a value of so many digits.
fn long_put(alloc: Global, digits: usize) -> Result<String, AllocError> {
    let mut line = String::new(alloc);
    line.push_str("put 1 ")?;
    for _ in 0..digits {
        line.push_str("a")?;
    }
    Ok(line)
}

/// Whether a value of so many digits is read.
fn is_read(alloc: Global, digits: usize) -> Result<bool, AllocError> {
    let line = long_put(alloc, digits)?;
    Ok(parse_trace(alloc, line.as_bytes()).is_ok())
}

/// Tries to read a value of so many digits.
fn reads_digits(rt: &(impl Abort + AllocGlobal), digits: usize, wanted: bool) {
    let found = is_read(rt.alloc(), digits);
    must_hold(rt, found == Ok(wanted), "a long value");
}

#[test]
fn the_longest_value_has_131072_bytes(rt: HostRuntime) {
    reads_digits(&rt, 262_142, true);
    reads_digits(&rt, 262_143, false);
    reads_digits(&rt, 262_144, true);
    reads_digits(&rt, 262_146, false);
}

#[test]
fn a_request_takes_at_most_64_bytes(rt: HostRuntime) {
    must_hold(&rt, size_of::<Request>() <= 64, "the room for a line");
}
