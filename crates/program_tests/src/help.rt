//! The usage on standard error, word for word.
use crate::harness::{call, empty_store, must_hold};
use std::test::Fail;

const USAGE: &str = "\
usage: heap_tool COMMAND
  format IMAGE S       put an empty heap of S superblocks of 64 KiB (1 to 4096), in place of
                       what IMAGE holds: a heap with keys is replaced unasked
  show IMAGE [--map] [--par]
                       recover the heap and print a report; with --map its superblocks too;
                       with --par by threads, and the same report
  conservative IMAGE [--map]
                       recover the heap with no filter: every word that names a block keeps
                       it; print the report without keys; the image stays as it is
  count IMAGE [--map]  open the heap by its own anchors where it was closed and they tell what
                       it holds, else recover it; print quick or traced, and the report
                       without keys; the image stays as it is
  run IMAGE --workers N [--stop K] [--seed X] [--sum] [--map]
                       work off the requests on standard input, put the heap that is left,
                       and print the replies and a report; N is 1 to 8
    --stop K           stop at step K, as by a crash (0 to 1099511627775; the default)
    --seed X           the seed of what is written back early (any of 64 bits; 0)
    --sum              count replies and keys, in place of a line for each
    --map              print the superblocks of the heap that is left too
  rebuild IMAGE [--stop K] [--seed X]
                       recover the heap in place, put the heap that is left, and print
                       whether it was stopped and a report; --stop and --seed as of run
  replay IMAGE [--seed X]
                       recover the heap, take the steps of the schedule on standard input,
                       and print which were done and a report on what a crash then leaves;
                       the image stays as it is; --seed as of run
  drain IMAGE CLASS    recover the heap, allocate in the class (1 to 20) until it is full,
                       and print the offsets; the image stays as it is
  gen N SEED           print a trace of N requests (0 to 100000) from SEED (0 to 1000000)
IMAGE is the path of a file. A pipe is none: a read waits, and a put makes it a file.
Fault lines go to standard output, and what the system said to standard error.
A request is a line: put KEY HEX, get KEY, del KEY or move KEY KEY; - is a value of no bytes.
A schedule is a line seats N (1 to 8), and then a seat and its step in each line.
status: 0 done, 2 usage, 3 out of memory, 4 read fault, 5 write fault, 6 no image,
  7 bad header, 8 pointer outside, 9 bad shard, 10 bad trace or schedule
docs/GUIDE.md has a first session, and what each status says.
example: heap_tool format heap.img 4 && heap_tool gen 9 1 | heap_tool run heap.img --workers 1
";

#[test]
fn help_is_the_usage_word_for_word(rt: HostRuntime) -> Result<(), Fail> {
    let ended = call(&rt, &mut empty_store(rt.alloc()), "--help", "")?;
    must_hold(&rt, ended.errors() == USAGE, "the usage");
    Ok(())
}

#[test]
fn nothing_is_said_of_words_that_ask_for_a_command(rt: HostRuntime) -> Result<(), Fail> {
    let mut images = empty_store(rt.alloc());
    let formatted = call(&rt, &mut images, "format h 1", "")?;
    must_hold(&rt, formatted.errors().is_empty(), "format");
    let absent = call(&rt, &mut images, "show other", "")?;
    must_hold(&rt, absent.text() == "no image other\n", "its line");
    must_hold(&rt, absent.errors().is_empty(), "an absent image");
    Ok(())
}
