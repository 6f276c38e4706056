//! Schedules at random, each with the answers of a second reading of the core's rules,
//! `tools/reference_core.py`. `tools/recorded_schedules 13` wrote the table.
use crate::rows::play_all;
use std::process::Abort;
use std::test::Fail;

/// Two, three and eight seats, over heaps of three superblocks.
const RECORDED: &str = "
heap 3 | 2 | used 2
1 head 0, 0 head 19, 1 link, 1 pop, 0 link !, 1 store info:0 19, 1 settle info:0
1 store anchor:0 2, 1 store 1088 2624, 0 head 0, 1 store 2624 4160, 0 link, 1 store 4160 5696
1 store 5696 7232, 1 cut 0, 0 pop, 0 look-used, 0 take 1, 0 keep, 0 head 20, 0 look-used
0 pop !, 1 lift 19, 1 lift 19, 1 lift 19, 1 lift 19, 1 head 20, 1 link !, 0 head 0, 1 look-used
0 link !, 0 pop !, 0 look-used, 1 take 1 !, 1 lift 19, 1 lift 19 !, 0 take 2 !, 1 look-used
0 keep, 1 take 1 !, 1 keep, 0 store info:1 767, 0 settle info:1, 1 look-used, 1 take 2 !
0 store info:2 0, 0 settle info:2, 1 look-used, 1 take 1 !, 0 large 1 2, 0 store root:36 @9280
0 settle root:36, 1 anchor 0, 1 give 0, 0 store root:8 @9280, 0 settle root:8, 1 look-used
0 look-used, 0 take 2 !, 1 take 1 !, 1 head 0, 1 store link:0 0, 0 keep, 0 head 20, 1 push 0
1 head 20, 0 link !, 1 link !, 0 look-used, 0 take 2 !, 1 head 19, 1 link !, 0 look-used
1 pop !, 0 take 2 !, 0 store root:32 @9280, 1 head 20, 0 settle root:32, 0 look-used, 0 take 2 !
1 load info:0 !, 0 keep, 0 store root:28 0, 1 look-used, 1 keep, 1 keep, 0 settle root:28
1 look-used, 0 split 9280, 1 take 1 !, 1 head 0, 1 link, 1 pop, 0 store anchor:1 0, 1 look-used
1 take 1 !, 1 head 0, 1 store link:0 0, 1 split 0 !, 1 head 20, 0 store anchor:2 0, 1 link !
1 head 19, 1 link !, 0 store info:1 20, 1 store info:0 19, 1 split 1074 !, 0 settle info:1
0 store anchor:1 2, 1 store info:0 511, 0 store 9280 11072, 0 store 11072 12864, 0 head 5
1 settle info:0, 1 large 0 1, 0 cut 1 !, 1 head 0, 1 link !, 1 look-used, 0 store anchor:2 0
1 take 1 !, 0 head 0, 1 take-all 2 !, 1 split 1088, 1 store anchor:0 0, 0 store link:2 0
0 push 2, 0 look-used, 0 take 1 !, 0 keep, 1 look-used, 0 head 18, 0 link !, 1 take 1 !
1 look-used, 0 pop !, 0 head 18, 0 load 2 !, 1 take 2 !, 1 store anchor:0 0, 1 head 0, 0 pop !
1 store link:0 3, 1 push 0, 1 look-used, 1 take 1 !, 0 look-used, 0 take 1 !, 1 keep, 1 head 20
0 look-used, 0 take 2 !, 1 link !, 1 look-used, 0 head 19, 1 take 1 !, 1 head 20, 1 link !
1 look-used, 0 link !, 0 head 0, 0 link, 0 pop, 1 take 1 !, 0 store info:0 18, 0 push 7446 !
0 store info:0 19, 1 look-used, 1 take 2 !, 0 settle info:0, 1 look-used, 0 store anchor:0 2
0 store 1088 2624, 0 store 2624 4160, 1 take 2 !, 0 store 4160 5696, 1 look-used
0 store 5696 7232, 1 take 1 !, 1 look-used, 1 take 2 !, 1 look-used, 1 take 1 !, 0 cut 0
1 look-used, 0 look-used, 1 take 1 !, 0 take 1 !, 1 look-used, 0 lift 19, 0 anchor 0, 0 give 0
0 head 0, 0 link, 1 take 1 !, 0 pop, 0 lift 19, 0 lift 19, 0 anchor 0, 0 take-all 0 !
tickets 186
held 9280 1792
heap 3 | 3 | used 3, info:0 20, root:8 @1088, info:1 19, root:9 @9280, root:10 @10816, \
    info:2 511, root:11 @17472
0 large 17472 17472 !, 1 head 20, 1 link, 2 free 10816, 1 pop, 2 alloc 19, 1 head 19, 2 head 0
1 link, 1 pop, 1 head 0, 1 store link:0 0, 0 link !, 1 push 0 !, 2 link !, 2 pop !, 0 pop !
1 look-used, 1 take 1 !, 0 free 1088, 0 alloc 20, 1 keep, 2 head 0, 0 head 0, 1 head 20
0 link !, 1 link !, 0 store 1088 0, 2 link !, 1 look-used, 1 take 2 !, 0 store 1089 0
2 store root:14 @10816, 0 store 1090 0, 2 take-all 1 !, 0 store 1091 0, 2 head 20
0 store 1092 0, 2 link !, 1 anchor 0, 1 take-all 0, 0 store 1093 0, 1 look-used, 2 look-used
0 store 1094 0, 0 store 1095 0, 0 store root:3 @1088, 0 settle root:3, 2 take 2 !, 0 split 17472
0 store anchor:2 0, 2 store root:44 0, 1 take 2 !, 2 settle root:44, 0 store anchor:2 0
2 look-used, 0 head 0, 2 take 1 !, 2 free 10816, 2 alloc 19, 0 store link:2 0, 0 push 2
2 store root:53 0, 0 head 20, 0 link !, 2 settle root:53, 0 store root:48 @1088
0 settle root:48, 0 look-used, 1 head 19, 0 take 2 !, 0 store 1088 0, 0 store 1089 0
0 store 1090 0, 1 store link:1 0, 0 store 1091 0, 2 free 10816, 0 store 1092 0, 2 lift 19
1 push 1, 0 store 1093 0, 2 lift 19 !, 2 look-used, 2 take 1 !, 0 store 1094 0, 0 store 1095 0
1 give 1 !, 1 free 9280, 2 keep, 0 store root:6 0, 2 anchor 1, 2 store 10816 12352
0 settle root:6, 0 free 1088, 1 lift 20, 0 alloc 20, 1 lift 20, 1 lift 20, 0 head 0, 1 lift 20 !
2 give 1, 1 look-used, 0 link, 2 head 0, 2 link, 2 pop, 1 take 1 !, 1 lift 19 !, 0 pop !
0 store root:33 @1088, 0 settle root:33, 0 free 1088, 1 lift 19 !, 1 alloc 19, 0 lift 20
1 anchor 0, 2 store info:2 767, 0 look-used, 2 settle info:2, 1 give 0, 1 head 19, 0 take 2 !
2 store 1088 0 !, 0 keep, 1 link, 2 look-used, 1 pop, 2 take 2 !, 2 store info:2 18
2 settle info:2, 0 look-used, 1 link !, 0 take 2 !, 1 store root:22 @9280, 1 settle root:22
0 anchor 0, 0 store 1088 2880, 1 store root:19 @9280, 2 store anchor:2 2, 2 cut 942 !
2 store 18496 19520, 0 give 0, 1 settle root:19, 2 store 19520 20544, 0 look-used
2 store 20544 21568, 0 take 1 !, 1 anchor 0, 1 take-all 0 !, 1 free 9280, 2 store 21568 22592
0 look-used, 2 store 22592 23616, 1 alloc 19, 1 head 20, 0 take 1 !, 0 keep, 0 head 20, 0 link !
0 look-used, 0 take 2 !, 1 store link:0 0, 0 look-used, 0 take 1 !, 2 store 23616 24640
1 push 0, 0 keep, 1 anchor 1, 2 cut 2 !, 2 look-used, 1 take-all 1, 2 take 1 !, 1 head 20
1 link, 0 lift 20 !, 2 look-used, 2 cut 2 !, 2 look-used, 0 head 20, 2 take 1 !, 0 link, 1 pop
0 pop !, 0 head 20, 0 link !, 1 look-used, 1 take 1 !, 0 head 18, 2 keep, 0 link !, 2 look-used
1 anchor 0, 2 take 1 !, 0 cut 0 !, 2 head 20, 1 take-all 0 !, 2 link !, 2 pop !, 2 look-used
2 take 1 !
tickets 180
held 1088 1792, 9280 1536, 10816 1536, 17472 1024
heap 3 | 8 | used 2, info:0 20, info:1 20, root:8 @1088, root:9 @9280
3 look-used, 4 head 20, 6 look-used, 7 head 0, 4 link, 0 head 19, 5 look-used
3 settle root:201 !, 0 link !, 2 look-used, 1 free 9280, 2 take 1, 3 head 19, 2 keep, 5 take 1 !
2 head 0, 6 take 2 !, 7 link !, 0 free 1088, 2 store link:2 0, 7 head 19, 5 head 19, 5 link !
1 head 18, 2 push 2, 1 link !, 6 head 19, 1 pop !, 3 link !, 1 look-used, 7 link !, 6 link !
6 pop !, 3 give 20 !, 5 head 19, 7 head 20, 1 take 1 !, 1 keep, 3 look-used, 6 head 0
3 take 2 !, 6 link, 5 link !, 7 link, 3 head 18, 5 look-used, 4 pop, 2 head 18, 5 take 1 !
1 alloc 20, 1 look-used, 0 look-used, 6 pop, 4 anchor 0, 5 store 0 20 !, 0 take 2 !, 2 link !
4 take-all 0, 0 look-used, 7 pop !, 5 link !, 3 link !, 7 head 18, 2 head 20, 6 head 18
0 take 2 !, 3 look-used, 7 link !, 5 look-used, 3 take 1 !, 4 look-used, 3 look-used, 1 take 2 !
1 free 9280, 0 head 20, 4 take 1 !, 3 take 1 !, 6 link !, 6 pop !, 5 take 1 !, 7 split 21 !
4 head 20, 1 alloc 20, 6 look-used, 5 look-used, 2 link, 0 link, 1 free 9280, 1 head 20
7 look-used, 1 link, 4 link, 0 keep, 5 take 1 !, 3 look-used, 4 pop, 6 take 1 !, 6 look-used
0 look-used, 1 pop !, 7 take 2 !, 5 look-used, 5 take 1 !, 5 look-used, 1 lift 20, 1 head 20
6 take 1 !, 1 link !, 0 take 2 !, 7 head 0, 3 take 1 !, 6 cut 1 !, 0 head 19, 3 look-used
5 take 1 !, 3 take 1 !, 1 look-used, 3 look-used, 6 look-used, 4 head 19, 3 take 1 !, 0 link !
6 take 1 !, 7 link !, 7 head 20, 5 head 19, 7 link !, 0 alloc 20, 6 keep, 4 link !, 4 look-used
0 store root:24 @1088, 4 take 1 !, 3 head 0, 4 alloc 313 !, 6 head 0, 0 settle root:24
4 alloc 20, 4 anchor 1, 6 store link:2 0, 6 push 2, 2 pop !, 0 look-used, 5 link !, 1 take 1 !
1 head 18, 4 take-all 1 !, 2 head 19, 6 look-used, 6 take 2 !, 5 look-used, 6 head 20, 2 link !
0 take 1 !, 4 look-used, 7 head 19, 5 take 1 !, 5 pop !, 4 take 1 !, 0 keep, 6 link !, 1 link !
3 link !, 7 keep, 5 look-used, 7 pop !, 6 pop !, 5 take 2 !, 0 free 1088, 0 alloc 20
4 store 2880 4672, 3 head 0, 4 free 2880, 3 link, 2 head 0, 7 look-used, 1 pop !, 5 look-used
4 head 20, 6 head 0, 4 store link:1 0, 3 pop, 0 free 1088, 1 look-used, 5 take 1 !, 0 look-used
2 link, 0 take 1 !, 2 pop !, 3 look-used, 7 take 1 !, 1 take 1 !, 3 take 2 !, 7 keep, 4 push 1
0 head 18, 0 link !, 0 look-used, 5 look-used, 3 look-used
tickets 195
held 1088 1792, 9280 1792
";

#[test]
fn schedules_are_answered_as_by_a_second_reading(rt: HostRuntime) -> Result<(), Fail> {
    play_all(&rt, RECORDED)
}
