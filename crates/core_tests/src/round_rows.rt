// Scripts without steps, so many rounds that are run of them, and the text that is printed then, worked out from the rules of the
// steps by hand.

// An answer comes after its latency.
const LATENCY: &str = "\
host 0 4 adtbh
lun 0 0:0:0 2048 8
plan 0 0:0:0 latency 1 1 1 2
cmd 1 0 0 0:0:0 30 5 - 000000000000
end stop
";

const LATENCY_TEXT: &str = "\
host 0
0 took 1
0 sent 1 1 0
0 tick
1 tick
2 ready 1 00 00 0 0 -
2 owned 1 answer
2 judged 1 1 success
2 told 1 00 00 0 0 -
result 1 answered 00 00 0 0 - 0
end
";

// A command without sense data fails.
const NO_SENSE: &str = "\
host 0 4 adtbh
lun 0 0:0:0 2048 8
plan 0 0:0:0 nosense 1 1 1 6 29 00
cmd 1 0 0 0:0:0 30 5 - 000000000000
end stop
";

const NO_SENSE_TEXT: &str = "\
host 0
0 took 1
0 sent 1 1 0
0 tick
1 ready 1 00 02 0 0 -
1 owned 1 answer
1 judged 1 1 fail
1 failed 1 1 answered
1 tick
result 1 open 0
end
";

// So does one with sense data in the descriptor format, whose descriptor of 12 bytes is cut after four.
const CUT_SENSE: &str = "\
host 0 4 adtbh
lun 0 0:0:0 2048 8
plan 0 0:0:0 raw 1 1 1 720311000000000c000a8000
cmd 1 0 0 0:0:0 30 5 - 000000000000
end stop
";

const CUT_SENSE_TEXT: &str = "\
host 0
0 took 1
0 sent 1 1 0
0 tick
1 ready 1 00 02 0 0 720311000000000c000a8000
1 owned 1 answer
1 judged 1 1 fail
1 failed 1 1 answered
1 tick
result 1 open 0
end
";

// Of three tags two are left at the first answer; the attempts 2 to 5 are four that are GOOD.
const DEPTH_OF_THREE: &str = "\
host 0 8 adtbh
lun 0 0:0:0 2048 3
plan 0 0:0:0 status 1 1 1 00 28
cmd 1 0 0 0:0:0 30 5 - 000000000000
cmd 2 0 0 0:0:0 30 5 - 000000000000
cmd 3 0 0 0:0:0 30 5 - 000000000000
cmd 4 0 0 0:0:0 30 5 - 000000000000
cmd 5 0 0 0:0:0 30 5 - 000000000000
cmd 6 0 0 0:0:0 30 5 - 000000000000
cmd 7 0 0 0:0:0 30 5 - 000000000000
end stop
";

const DEPTH_OF_THREE_TEXT: &str = "\
host 0
0 took 1
0 took 2
0 took 3
0 took 4
0 took 5
0 took 6
0 took 7
0 sent 1 1 0
0 sent 2 2 1
0 sent 3 3 2
0 tick
1 ready 1 00 28 0 0 -
1 ready 2 00 00 0 0 -
1 ready 3 00 00 0 0 -
1 owned 1 answer
1 owned 2 answer
1 owned 3 answer
1 judged 1 1 requeue
1 again 1 free
1 judged 2 2 success
1 told 2 00 00 0 0 -
1 judged 3 3 success
1 told 3 00 00 0 0 -
1 tick
2 sent 1 4 0
2 sent 4 5 1
2 tick
3 ready 4 00 00 0 0 -
3 ready 5 00 00 0 0 -
3 owned 4 answer
3 owned 5 answer
3 judged 1 4 success
3 told 1 00 00 0 0 -
3 judged 4 5 success
3 told 4 00 00 0 0 -
3 tick
4 sent 5 6 0
4 sent 6 7 1
4 sent 7 8 2
4 tick
5 ready 6 00 00 0 0 -
5 ready 7 00 00 0 0 -
5 ready 8 00 00 0 0 -
5 owned 6 answer
5 owned 7 answer
5 owned 8 answer
5 judged 5 6 success
5 told 5 00 00 0 0 -
5 judged 6 7 success
5 told 6 00 00 0 0 -
5 judged 7 8 success
5 told 7 00 00 0 0 -
result 1 answered 00 00 0 0 - 0
result 2 answered 00 00 0 0 - 0
result 3 answered 00 00 0 0 - 0
result 4 answered 00 00 0 0 - 0
result 5 answered 00 00 0 0 - 0
result 6 answered 00 00 0 0 - 0
result 7 answered 00 00 0 0 - 0
end
";

// The depth of a unit with one tag stays.
const DEPTH_OF_ONE: &str = "\
host 0 8 adtbh
lun 0 0:0:0 2048 1
plan 0 0:0:0 status 1 1 1 00 28
cmd 1 0 0 0:0:0 30 5 - 000000000000
cmd 2 0 0 0:0:0 30 5 - 000000000000
end stop
";

const DEPTH_OF_ONE_TEXT: &str = "\
host 0
0 took 1
0 took 2
0 sent 1 1 0
0 tick
1 ready 1 00 28 0 0 -
1 owned 1 answer
1 judged 1 1 requeue
1 again 1 free
1 tick
2 sent 1 2 0
2 tick
3 ready 2 00 00 0 0 -
3 owned 2 answer
3 judged 1 2 success
3 told 1 00 00 0 0 -
3 tick
4 sent 2 3 0
4 tick
5 ready 3 00 00 0 0 -
5 owned 3 answer
5 judged 2 3 success
5 told 2 00 00 0 0 -
result 1 answered 00 00 0 0 - 0
result 2 answered 00 00 0 0 - 0
end
";

// Thirty commands for four units that take one at a time: command c is in lane c mod 3 and for unit c mod 4. The lanes are
// handed in one after the other, so they are taken in this order.
//
// What is sent at each second tick, with attempt and tag: of each unit the one that was taken earliest and isn't reported,
// in the order in which they were taken. For unit 0 these are 12, 24, 4, 16, 28, 8 and 20; for unit 1 9, 21, 1, 13, 25, 5, 17
// and 29; for unit 2 6, 18, 30, 10, 22, 2, 14 and 26; for unit 3 3, 15, 27, 7, 19, 11 and 23.
const THIRTY: &str = "\
host 0 32 adtbh
lun 0 0:0:0 2048 1
lun 0 0:0:1 2048 1
lun 0 0:1:0 2048 1
lun 0 0:1:1 2048 1
cmd 1 0 1 0:0:1 30 5 - 000000000000
cmd 2 0 2 0:1:0 30 5 - 000000000000
cmd 3 0 0 0:1:1 30 5 - 000000000000
cmd 4 0 1 0:0:0 30 5 - 000000000000
cmd 5 0 2 0:0:1 30 5 - 000000000000
cmd 6 0 0 0:1:0 30 5 - 000000000000
cmd 7 0 1 0:1:1 30 5 - 000000000000
cmd 8 0 2 0:0:0 30 5 - 000000000000
cmd 9 0 0 0:0:1 30 5 - 000000000000
cmd 10 0 1 0:1:0 30 5 - 000000000000
cmd 11 0 2 0:1:1 30 5 - 000000000000
cmd 12 0 0 0:0:0 30 5 - 000000000000
cmd 13 0 1 0:0:1 30 5 - 000000000000
cmd 14 0 2 0:1:0 30 5 - 000000000000
cmd 15 0 0 0:1:1 30 5 - 000000000000
cmd 16 0 1 0:0:0 30 5 - 000000000000
cmd 17 0 2 0:0:1 30 5 - 000000000000
cmd 18 0 0 0:1:0 30 5 - 000000000000
cmd 19 0 1 0:1:1 30 5 - 000000000000
cmd 20 0 2 0:0:0 30 5 - 000000000000
cmd 21 0 0 0:0:1 30 5 - 000000000000
cmd 22 0 1 0:1:0 30 5 - 000000000000
cmd 23 0 2 0:1:1 30 5 - 000000000000
cmd 24 0 0 0:0:0 30 5 - 000000000000
cmd 25 0 1 0:0:1 30 5 - 000000000000
cmd 26 0 2 0:1:0 30 5 - 000000000000
cmd 27 0 0 0:1:1 30 5 - 000000000000
cmd 28 0 1 0:0:0 30 5 - 000000000000
cmd 29 0 2 0:0:1 30 5 - 000000000000
cmd 30 0 0 0:1:0 30 5 - 000000000000
end stop
";

const THIRTY_TEXT: &str = "\
host 0
0 took 3
0 took 6
0 took 9
0 took 12
0 took 15
0 took 18
0 took 21
0 took 24
0 took 27
0 took 30
0 took 1
0 took 4
0 took 7
0 took 10
0 took 13
0 took 16
0 took 19
0 took 22
0 took 25
0 took 28
0 took 2
0 took 5
0 took 8
0 took 11
0 took 14
0 took 17
0 took 20
0 took 23
0 took 26
0 took 29
0 sent 3 1 0
0 sent 6 2 1
0 sent 9 3 2
0 sent 12 4 3
0 tick
1 ready 1 00 00 0 0 -
1 ready 2 00 00 0 0 -
1 ready 3 00 00 0 0 -
1 ready 4 00 00 0 0 -
1 owned 1 answer
1 owned 2 answer
1 owned 3 answer
1 owned 4 answer
1 judged 3 1 success
1 told 3 00 00 0 0 -
1 judged 6 2 success
1 told 6 00 00 0 0 -
1 judged 9 3 success
1 told 9 00 00 0 0 -
1 judged 12 4 success
1 told 12 00 00 0 0 -
1 tick
2 sent 15 5 0
2 sent 18 6 1
2 sent 21 7 2
2 sent 24 8 3
2 tick
3 ready 5 00 00 0 0 -
3 ready 6 00 00 0 0 -
3 ready 7 00 00 0 0 -
3 ready 8 00 00 0 0 -
3 owned 5 answer
3 owned 6 answer
3 owned 7 answer
3 owned 8 answer
3 judged 15 5 success
3 told 15 00 00 0 0 -
3 judged 18 6 success
3 told 18 00 00 0 0 -
3 judged 21 7 success
3 told 21 00 00 0 0 -
3 judged 24 8 success
3 told 24 00 00 0 0 -
3 tick
4 sent 27 9 0
4 sent 30 10 1
4 sent 1 11 2
4 sent 4 12 3
4 tick
5 ready 9 00 00 0 0 -
5 ready 10 00 00 0 0 -
5 ready 11 00 00 0 0 -
5 ready 12 00 00 0 0 -
5 owned 9 answer
5 owned 10 answer
5 owned 11 answer
5 owned 12 answer
5 judged 27 9 success
5 told 27 00 00 0 0 -
5 judged 30 10 success
5 told 30 00 00 0 0 -
5 judged 1 11 success
5 told 1 00 00 0 0 -
5 judged 4 12 success
5 told 4 00 00 0 0 -
5 tick
6 sent 7 13 0
6 sent 10 14 1
6 sent 13 15 2
6 sent 16 16 3
6 tick
7 ready 13 00 00 0 0 -
7 ready 14 00 00 0 0 -
7 ready 15 00 00 0 0 -
7 ready 16 00 00 0 0 -
7 owned 13 answer
7 owned 14 answer
7 owned 15 answer
7 owned 16 answer
7 judged 7 13 success
7 told 7 00 00 0 0 -
7 judged 10 14 success
7 told 10 00 00 0 0 -
7 judged 13 15 success
7 told 13 00 00 0 0 -
7 judged 16 16 success
7 told 16 00 00 0 0 -
7 tick
8 sent 19 17 0
8 sent 22 18 1
8 sent 25 19 2
8 sent 28 20 3
8 tick
9 ready 17 00 00 0 0 -
9 ready 18 00 00 0 0 -
9 ready 19 00 00 0 0 -
9 ready 20 00 00 0 0 -
9 owned 17 answer
9 owned 18 answer
9 owned 19 answer
9 owned 20 answer
9 judged 19 17 success
9 told 19 00 00 0 0 -
9 judged 22 18 success
9 told 22 00 00 0 0 -
9 judged 25 19 success
9 told 25 00 00 0 0 -
9 judged 28 20 success
9 told 28 00 00 0 0 -
9 tick
10 sent 2 21 0
10 sent 5 22 1
10 sent 8 23 2
10 sent 11 24 3
10 tick
11 ready 21 00 00 0 0 -
11 ready 22 00 00 0 0 -
11 ready 23 00 00 0 0 -
11 ready 24 00 00 0 0 -
11 owned 21 answer
11 owned 22 answer
11 owned 23 answer
11 owned 24 answer
11 judged 2 21 success
11 told 2 00 00 0 0 -
11 judged 5 22 success
11 told 5 00 00 0 0 -
11 judged 8 23 success
11 told 8 00 00 0 0 -
11 judged 11 24 success
11 told 11 00 00 0 0 -
11 tick
12 sent 14 25 0
12 sent 17 26 1
12 sent 20 27 2
12 sent 23 28 3
12 tick
13 ready 25 00 00 0 0 -
13 ready 26 00 00 0 0 -
13 ready 27 00 00 0 0 -
13 ready 28 00 00 0 0 -
13 owned 25 answer
13 owned 26 answer
13 owned 27 answer
13 owned 28 answer
13 judged 14 25 success
13 told 14 00 00 0 0 -
13 judged 17 26 success
13 told 17 00 00 0 0 -
13 judged 20 27 success
13 told 20 00 00 0 0 -
13 judged 23 28 success
13 told 23 00 00 0 0 -
13 tick
14 sent 26 29 0
14 sent 29 30 1
14 tick
15 ready 29 00 00 0 0 -
15 ready 30 00 00 0 0 -
15 owned 29 answer
15 owned 30 answer
15 judged 26 29 success
15 told 26 00 00 0 0 -
15 judged 29 30 success
15 told 29 00 00 0 0 -
result 1 answered 00 00 0 0 - 0
result 2 answered 00 00 0 0 - 0
result 3 answered 00 00 0 0 - 0
result 4 answered 00 00 0 0 - 0
result 5 answered 00 00 0 0 - 0
result 6 answered 00 00 0 0 - 0
result 7 answered 00 00 0 0 - 0
result 8 answered 00 00 0 0 - 0
result 9 answered 00 00 0 0 - 0
result 10 answered 00 00 0 0 - 0
result 11 answered 00 00 0 0 - 0
result 12 answered 00 00 0 0 - 0
result 13 answered 00 00 0 0 - 0
result 14 answered 00 00 0 0 - 0
result 15 answered 00 00 0 0 - 0
result 16 answered 00 00 0 0 - 0
result 17 answered 00 00 0 0 - 0
result 18 answered 00 00 0 0 - 0
result 19 answered 00 00 0 0 - 0
result 20 answered 00 00 0 0 - 0
result 21 answered 00 00 0 0 - 0
result 22 answered 00 00 0 0 - 0
result 23 answered 00 00 0 0 - 0
result 24 answered 00 00 0 0 - 0
result 25 answered 00 00 0 0 - 0
result 26 answered 00 00 0 0 - 0
result 27 answered 00 00 0 0 - 0
result 28 answered 00 00 0 0 - 0
result 29 answered 00 00 0 0 - 0
result 30 answered 00 00 0 0 - 0
end
";

/// Scripts, the most rounds, and the texts.
pub(crate) const ROUNDS: [(&str, u32, &str); 6] = [
    (LATENCY, 20, LATENCY_TEXT),
    (NO_SENSE, 2, NO_SENSE_TEXT),
    (CUT_SENSE, 2, CUT_SENSE_TEXT),
    (DEPTH_OF_THREE, 20, DEPTH_OF_THREE_TEXT),
    (DEPTH_OF_ONE, 20, DEPTH_OF_ONE_TEXT),
    (THIRTY, 40, THIRTY_TEXT),
];
