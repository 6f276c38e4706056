//! Two scenes of two seats, and the steps of the core that they are.

use crate::scenes::Scene;

/// Two seats trade the blocks of a superblock that was never taken: a batch and all free blocks are
/// each exchanged once in vain.
pub const TRADE: Scene<'static> = Scene {
    capacity: 1,
    words: "",
    order: "23 6 5 8 4 4 7",
    first: "take 14336 2, quiet, free 1, quiet, free 1, quiet",
    second: "take 14336 1, quiet, take 14336 1",
    drawn: 0,
};

pub const TRADED: &str = "seats 2
0 head 20
0 head 0
0 look-used
0 take 1
0 keep
0 store 1064 20
0 settle 1064
0 store 1072 2864
0 store 2864 4656
0 store 4656 6448
0 store 1065 2
0 cut 0
0 alloc 20
0 alloc 20
0 load 4656
0 lift 20
0 load 6448
0 lift 20
0 anchor 0
0 give 0
0 anchor 0
0 head 20
0 store 1066 0
0 push 0
1 head 20
1 link
1 pop
1 anchor 0
1 take-all 0
1 alloc 20
0 tick
0 free 2864
0 load 2864
0 lift 20
0 anchor 0
1 load 6448
1 lift 20
1 anchor 0
1 give 0
1 anchor 0
1 head 20
1 store 1066 0
1 push 0
0 give 0
0 anchor 0
0 store 2864 6448
0 give 0
1 head 20
1 link
1 pop
1 anchor 0
0 tick
0 free 1072
0 load 1072
0 lift 20
0 anchor 0
0 store 1072 2864
0 give 0
1 take-all 0
1 anchor 0
1 take-all 0
1 alloc 20
";

/// A seat holds a large block and frees it, and publishes a block of one of its superblocks for a
/// while. What it frees the other seat takes.
pub const SPLIT: Scene<'static> = Scene {
    capacity: 2,
    words: "",
    order: "-",
    first: "take 131072 1, free 1, take 14336 1, put 0, clear 0, free 1",
    second: "take 14336 1",
    drawn: 0,
};

pub const WAS_SPLIT: &str = "seats 2
0 look-used
0 take 2
0 keep
0 store 1064 767
0 settle 1064
0 large 0 2
0 split 1080
0 store 1065 0
0 store 1073 0
0 head 0
0 store 1066 0
0 push 0
0 head 0
0 store 1074 1
0 push 1
0 head 20
0 head 0
0 link
0 pop
0 store 1072 20
0 settle 1072
0 store 9272 11064
0 store 11064 12856
0 store 12856 14648
0 store 1073 2
0 cut 1
0 alloc 20
0 store 48 5931240709247017408
0 tick
0 tick
0 settle 48
0 load 48
0 store 48 0
0 tick
0 tick
0 settle 48
0 load 48
0 store 9272 11064
0 free 9272
0 load 9272
0 lift 20
0 load 11064
0 lift 20
0 load 12856
0 lift 20
0 load 14648
0 lift 20
0 anchor 1
0 give 1
0 anchor 1
0 head 0
0 store 1074 1
0 push 1
1 head 20
1 head 0
1 link
1 pop
1 store 1072 20
1 settle 1072
1 store 9272 11064
1 store 11064 12856
1 store 12856 14648
1 store 1073 2
1 cut 1
1 alloc 20
";
