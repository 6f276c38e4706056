//! What chance decides: the value that a put leaves where it is stopped, by several seeds; the seed
//! that each command gives its chances; and the words that a crash leaves with any value.
use crate::harness::{make, must_hold};
use crate::session::{Table, ends_as_told, has_told_words, played, plays};
use line_memory::ConstantChance;
use std::process::Abort;
use std::sync::Wait;
use std::test::Fail;
use std::thread::Threads;
use tool_ports::{Chances, MapStore, OpenGate};

/// Where a put of 6576 under key 1 is stopped, by which seed, and the value that is left. At 24 and
/// 25 its word is stored and not yet durable: chance may have written it back.
const STOPPED: &str = "
23 --seed 69 => 616e6e.
24 => 616e6e.
24 --seed 14 => 616e6e.
24 --seed 69 => 6576.
25 => 616e6e.
25 --seed 0 => 616e6e.
25 --seed 13 => 616e6e.
25 --seed 14 => 6576.
25 --seed 69 => 6576.
26 => 6576.
26 --seed 13 => 6576.";

/// The session of each row: what the heap went through before, and the put that is stopped.
const SESSION: [(&str, &str); 3] = [
    (
        "\n",
        "
@+ 2
$ run h --workers 1
< put 1 616e6e
< put 2 626561
< get 1
< del 2
< get 2
< put 9 -
>* run closed
$ run h --workers 1 --stop ",
    ),
    (
        " => ",
        "
< put 1 6576
> unanswered
> run stopped
> heap 2 dirty
> key 1 ",
    ),
    (
        ".",
        "
> key 9 -
> held 32 2
> held 1024 2",
    ),
];

/// Chances that count the seeds that they are given, keep the latest, and give the words of a crash
/// the numbers from 1,000 on.
#[derive(Clone, Copy)]
struct Recorder {
    seeds: u64,
    latest: u64,
    words: u64,
}

impl Recorder {
    fn new() -> Self {
        Recorder {
            seeds: 0,
            latest: 0,
            words: 0,
        }
    }
}

impl Chances for Recorder {
    type One = ConstantChance;

    fn seed(&mut self, seed: u64) {
        self.seeds = self.seeds.saturating_add(1);
        self.latest = seed;
    }

    fn chance(&mut self, _: usize) -> ConstantChance {
        ConstantChance(0)
    }

    fn word(&mut self) -> u64 {
        self.words = self.words.saturating_add(1);
        self.words.saturating_add(999)
    }
}

/// A heap with two keys.
const BEFORE: &str = "+ 2
$ run h --workers 1
< put 1 616e6e
< put 2 626561
< get 1
< del 2
< get 2
< put 9 -
>* run closed";

/// Calls on it, and the one seed that each gives its chances.
const SEEDS: [(&str, u64); 8] = [
    ("drain h 20\n>* class 20 size 14336 blocks 0", 0),
    ("run h --workers 1\n>* run closed", 0),
    ("run h --workers 1 --seed 14\n>* run closed", 14),
    (
        "run h --workers 1 --seed 18446744073709551615 --stop 9\n>* heap 2",
        18_446_744_073_709_551_615,
    ),
    ("rebuild h\n>* rebuild done", 0),
    ("rebuild h --seed 14\n>* rebuild done", 14),
    ("replay h\n< seats 1\n>* tickets 0", 0),
    ("replay h --seed 14\n< seats 1\n>* tickets 0", 14),
];

/// Makes a call as it tells, and answers what its chances were given and gave.
fn record(
    rt: &(impl Abort + AllocGlobal + Threads + Wait + Sync),
    images: &mut MapStore,
    turn: &str,
) -> Result<Recorder, Fail> {
    let mut chances = Recorder::new();
    let ended = make(rt, images, turn, &OpenGate, &mut chances);
    must_hold(rt, ends_as_told(turn, ended), turn);
    must_hold(rt, has_told_words(images, turn)?, turn);
    Ok(chances)
}

/// Makes a call on the heap, which gives its chances the seed once.
fn gives_the_seed(
    rt: &(impl Abort + AllocGlobal + Threads + Wait + Sync),
    turn: &str,
    seed: u64,
) -> Result<(), Fail> {
    let mut images = played(rt, BEFORE)?;
    let chances = record(rt, &mut images, turn)?;
    must_hold(rt, chances.seeds == 1 && chances.latest == seed, turn);
    Ok(())
}

/// A run that is stopped. The words of three superblocks that a crash leaves with any value are in
/// their order: the heads of the lists, and each anchor with its link.
const CRASHED: &str = "run h --workers 2 --stop 9
< put 0 aa
< put 1 bb
<
>* run stopped
& 16 1 1000
& 17 1 1001
& 18 1 1002
& 19 1 1003
& 20 1 1004
& 21 1 1005
& 22 1 1006
& 23 1 1007
& 24 1 1008
& 25 1 1009
& 26 1 1010
& 27 1 1011
& 28 1 1012
& 29 1 1013
& 30 1 1014
& 31 1 1015
& 32 1 1016
& 33 1 1017
& 34 1 1018
& 35 1 1019
& 36 1 1020
& anchor:0 1 1021
& link:0 1 1022
& anchor:1 1 1023
& link:1 1 1024
& anchor:2 1 1025
& link:2 1 1026";

/// A run that is closed asks for no such word.
const CLOSED: &str = "run h --workers 2
< put 0 aa
< put 1 bb
<
>* run closed";

/// Gives each call's chances the seed.
fn give_the_seeds(rt: &(impl Abort + AllocGlobal + Threads + Wait + Sync)) -> Result<(), Fail> {
    for (turn, seed) in &SEEDS {
        gives_the_seed(rt, turn, *seed)?;
    }
    Ok(())
}

/// Makes both runs, one behind the other: what crashes asks for a word for each, a close for none.
fn numbers_words(rt: &(impl Abort + AllocGlobal + Threads + Wait + Sync)) -> Result<(), Fail> {
    let mut images = played(rt, "3")?;
    for (turn, words) in [(CRASHED, 27), (CLOSED, 0)] {
        must_hold(rt, record(rt, &mut images, turn)?.words == words, turn);
    }
    Ok(())
}

const TABLES: [Table; 1] = [(STOPPED, &SESSION)];

#[test]
fn chance_decides_by_its_seed(rt: HostRuntime) -> Result<(), Fail> {
    give_the_seeds(&rt)?;
    numbers_words(&rt)?;
    plays(&rt, &TABLES)
}
