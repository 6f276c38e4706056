//! Schedules that are read, and those outside the grammar.
use crate::readings::{Grammar, reads_each};

const EVENTS: &str = "
seats 8;7 tick; => 8 seats, 7 Tick { shift: None }
seats 8;7 cut 3; => 8 seats, 7 Tick { shift: Some(Cut { d: 3 }) }
seats 8;7 alloc 20; => 8 seats, 7 Tick { shift: Some(Alloc { class: 20 }) }
seats 8;7 free 1048; => 8 seats, 7 Tick { shift: Some(Free { block: 1048 }) }
seats 8;7 lift 1; => 8 seats, 7 Tick { shift: Some(Lift { class: 1 }) }
seats 8;7 large 4 2; => 8 seats, 7 Tick { shift: Some(Large { d: 4, n: 2 }) }
seats 8;7 split 9; => 8 seats, 7 Tick { shift: Some(Split { block: 9 }) }
seats 8;7 load 0; => 8 seats, 7 Load { word: 0 }
seats 8;7 store 8 10; => 8 seats, 7 Store { word: 8, value: 10 }
seats 8;7 settle 7; => 8 seats, 7 Settle { word: 7 }
seats 8;7 look-used; => 8 seats, 7 LookUsed
seats 8;7 take 2; => 8 seats, 7 TakeFresh { n: 2 }
seats 8;7 keep; => 8 seats, 7 KeepUsed
seats 8;7 head 0; => 8 seats, 7 LookHead { list: 0 }
seats 8;7 link; => 8 seats, 7 LookLink
seats 8;7 pop; => 8 seats, 7 Pop
seats 8;7 push 5; => 8 seats, 7 Push { d: 5 }
seats 8;7 anchor 6; => 8 seats, 7 LookAnchor { d: 6 }
seats 8;7 take-all 6; => 8 seats, 7 TakeAll { d: 6 }
seats 8;7 give 18446744073709551615; => 8 seats, 7 Give { d: 18446744073709551615 }
";

#[test]
fn each_event_is_read(rt: HostRuntime) {
    reads_each(&rt, Grammar::Schedule, EVENTS);
}

const LINES: &str = "
seats 1 => 1 seats
seats 8; => 8 seats
seats 1;0 pop => 1 seats, 0 Pop
seats 2;1 keep;0 pop; => 2 seats, 1 KeepUsed, 0 Pop
seats 2;0 link;0 link;1 link => 2 seats, 0 LookLink, 0 LookLink, 1 LookLink
";

#[test]
fn lines_are_read_in_their_order(rt: HostRuntime) {
    reads_each(&rt, Grammar::Schedule, LINES);
}

const OUTSIDE: &str = "
 => bad line 1
; => bad line 1
;seats 1; => bad line 1
seats => bad line 1
seats  => bad line 1
seats 0 => bad line 1
seats 9 => bad line 1
seats 08 => bad line 1
seats +1 => bad line 1
seats  1 => bad line 1
seats 1  => bad line 1
seats 1\r; => bad line 1
Seats 1 => bad line 1
seat 1 => bad line 1
0 pop => bad line 1
seats 1;; => bad line 2
seats 1;seats 1 => bad line 2
seats 1;1 pop => bad line 2
seats 1;0 pop;1 pop;2 pop => bad line 3
seats 8;8 pop => bad line 2
seats 8;7 pop; 7 pop => bad line 3
seats 8;7 pop;07 pop => bad line 3
seats 8;7 pop;7 pop;;7 pop => bad line 4
seats 8;7 pop;18446744073709551616 pop => bad line 3
";

#[test]
fn the_first_line_outside_the_grammar_is_told(rt: HostRuntime) {
    reads_each(&rt, Grammar::Schedule, OUTSIDE);
}

const OTHER_WORDS: &str = "
seats 1;0  => bad line 2
seats 1;0   => bad line 2
seats 1;0 pop  => bad line 2
seats 1;0  pop => bad line 2
seats 1;0 pop\t => bad line 2
seats 1;0 pop\r => bad line 2
seats 1;0 Pop => bad line 2
seats 1;0 jump => bad line 2
seats 1;0 po => bad line 2
seats 1;0 pops => bad line 2
seats 1;0 pop 1 => bad line 2
seats 1;0 tick 1 => bad line 2
seats 1;0 load => bad line 2
seats 1;0 load  => bad line 2
seats 1;0 load  1 => bad line 2
seats 1;0 load 1  => bad line 2
seats 1;0 load 01 => bad line 2
seats 1;0 load -1 => bad line 2
seats 1;0 load +1 => bad line 2
seats 1;0 load x => bad line 2
seats 1;0 load 1 2 => bad line 2
seats 1;0 load 18446744073709551616 => bad line 2
seats 1;0 store 1 => bad line 2
seats 1;0 store 1  => bad line 2
seats 1;0 store 1 02 => bad line 2
seats 1;0 store 1 2 3 => bad line 2
seats 1;0 take-all => bad line 2
seats 1;0 ? 1 => bad line 2
";

#[test]
fn other_words_are_outside_the_grammar(rt: HostRuntime) {
    reads_each(&rt, Grammar::Schedule, OTHER_WORDS);
}
