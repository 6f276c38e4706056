//! The first line on standard error, where the words ask for nothing: it names the word at fault.
use crate::harness::{call, empty_store, must_hold};
use std::process::{Abort, ExitCode};
use std::sync::Wait;
use std::test::Fail;
use std::thread::Threads;
use tool_program::USAGE;

/// Words, and behind the arrow what is said of them.
const FAULTS: &str = "
run h --workers 9 => --workers is 1 to 8, and not \"9\"
run h --workers two => --workers is 1 to 8, and not \"two\"
run h --workers= => --workers is 1 to 8, and not \"\"
run h --workers 1 --stop 1099511627776 => --stop is 0 to 1099511627775, and not \"1099511627776\"
run h --workers 1 --seed=-1 => --seed is 0 to 18446744073709551615, and not \"-1\"
run h --workers => --workers has no value
run h => --workers is missing
run --workers 1 => IMAGE is missing
run h --workers 1 --stopp 4 => \"--stopp\" is no option of run
run h --workers 1 --workers 2 => --workers stands twice
format h 5000 => S is 1 to 4096, and not \"5000\"
format h 1x => S is 1 to 4096, and not \"1x\"
format h => S is missing
format h 1 1 => \"1\" is a word too many
format -h1 1 => \"-h1\" is no option of format
show h h => \"h\" is a word too many
show h --map=1 => \"--map=1\" has a value, and --map takes none
show h --map --map => --map stands twice
show -- h --map => \"--map\" is a word too many
drain h 21 => CLASS is 1 to 20, and not \"21\"
gen 100001 0 => N is 0 to 100000, and not \"100001\"
gen 1 1000001 => SEED is 0 to 1000000, and not \"1000001\"
rebuild h --par => \"--par\" is no option of rebuild
replay h --seed x => --seed is 0 to 18446744073709551615, and not \"x\"
conservative h --mapp => \"--mapp\" is no option of conservative
count => IMAGE is missing
Format h 1 => \"Format\" is no command
--map show h => \"--map\" is no command";

/// Words that wish for help: nothing is wrong in them.
const HELP: &str = "
--help
-h
help
help show
run --help
show h -h";

// What stands on standard error is what is said of the words, and the usage behind it.
fn must_say(
    rt: &(impl Abort + AllocGlobal + Threads + Wait + Sync),
    line: &str,
    said: &str,
) -> Result<(), Fail> {
    let ended = call(rt, &mut empty_store(rt.alloc()), line, "")?;
    must_hold(rt, ended.status == ExitCode::from(2), line);
    must_hold(rt, ended.text() == "usage\n", line);
    let behind = ended.errors().strip_prefix(said);
    must_hold(rt, behind == Some(USAGE), line);
    Ok(())
}

#[test]
fn a_usage_error_names_the_word_at_fault(rt: HostRuntime) -> Result<(), Fail> {
    for row in FAULTS.split('\n').skip(1) {
        let (line, said) = row.split_once(" => ").ok_or("no arrow")?;
        let said = format!(in rt.alloc(); "heap_tool: {said}\n")?;
        must_say(&rt, line, &said)?;
    }
    Ok(())
}

#[test]
fn a_wish_for_help_has_the_usage_alone(rt: HostRuntime) -> Result<(), Fail> {
    for line in HELP.split('\n').skip(1) {
        must_say(&rt, line, "")?;
    }
    Ok(())
}
