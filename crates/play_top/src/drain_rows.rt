// Scripts that are run on until they are drained, and the text that is written for each, worked out from the rules of the steps
// by hand.

// Without hosts nothing is run.
const EMPTY: &str = "\
end drain
";

const EMPTY_TEXT: &str = "\
end
";

// An answer takes two ticks.
const LATENCY: &str = "\
host 0 4 adtbh
lun 0 0:0:0 2048 8
plan 0 0:0:0 latency 1 1 1 2
cmd 1 0 0 0:0:0 30 5 - 000000000000
end drain
";

const LATENCY_TEXT: &str = "\
host 0
0 took 1
0 sent 1 1 0
0 tick
1 tick
2 ready 1 00 00 0 0 -
2 owned 1 answer
2 judged 1 1 success
2 told 1 00 00 0 0 -
result 1 answered 00 00 0 0 - 0
end
";

// An unrecovered read error is reported.
const MEDIUM_ERROR: &str = "\
host 0 4 adtbh
lun 0 0:0:0 2048 8
plan 0 0:0:0 check 1 1 1 3 11 00
cmd 1 0 0 0:0:0 30 5 - 28000000000000000100
end drain
";

const MEDIUM_ERROR_TEXT: &str = "\
host 0
0 took 1
0 sent 1 1 0
0 tick
1 ready 1 00 02 0 0 700003000000000a00000000110000000000
1 owned 1 answer
1 judged 1 1 success
1 told 1 00 02 0 0 700003000000000a00000000110000000000
result 1 answered 00 02 0 0 700003000000000a00000000110000000000 0
end
";

// Two aborted commands are retried, and each retry counts.
const COUNTED_RETRIES: &str = "\
host 0 4 adtbh
lun 0 0:0:0 2048 8
plan 0 0:0:0 check 1 1 2 b 00 00
cmd 1 0 0 0:0:0 30 5 - 28000000000000000100
end drain
";

const COUNTED_RETRIES_TEXT: &str = "\
host 0
0 took 1
0 sent 1 1 0
0 tick
1 ready 1 00 02 0 0 70000b000000000a00000000000000000000
1 owned 1 answer
1 judged 1 1 retry
1 again 1 counted
1 tick
2 sent 1 2 0
2 tick
3 ready 2 00 02 0 0 70000b000000000a00000000000000000000
3 owned 2 answer
3 judged 1 2 retry
3 again 1 counted
3 tick
4 sent 1 3 0
4 tick
5 ready 3 00 00 512 0 -
5 owned 3 answer
5 judged 1 3 success
5 told 1 00 00 512 0 -
result 1 answered 00 00 512 0 - 2
end
";

// Without retries the first one is reported.
const NO_RETRIES: &str = "\
host 0 4 adtbh
lun 0 0:0:0 2048 8
plan 0 0:0:0 check 1 1 2 b 00 00
cmd 1 0 0 0:0:0 30 0 - 28000000000000000100
end drain
";

const NO_RETRIES_TEXT: &str = "\
host 0
0 took 1
0 sent 1 1 0
0 tick
1 ready 1 00 02 0 0 70000b000000000a00000000000000000000
1 owned 1 answer
1 judged 1 1 success
1 told 1 00 02 0 0 70000b000000000a00000000000000000000
result 1 answered 00 02 0 0 70000b000000000a00000000000000000000 0
end
";

// BUSY sends a command back, which doesn't count.
const BUSY: &str = "\
host 0 4 adtbh
lun 0 0:0:0 2048 8
plan 0 0:0:0 status 1 1 3 00 08
cmd 1 0 0 0:0:0 30 0 - 000000000000
end drain
";

const BUSY_TEXT: &str = "\
host 0
0 took 1
0 sent 1 1 0
0 tick
1 ready 1 00 08 0 0 -
1 owned 1 answer
1 judged 1 1 requeue
1 again 1 free
1 tick
2 sent 1 2 0
2 tick
3 ready 2 00 08 0 0 -
3 owned 2 answer
3 judged 1 2 requeue
3 again 1 free
3 tick
4 sent 1 3 0
4 tick
5 ready 3 00 08 0 0 -
5 owned 3 answer
5 judged 1 3 requeue
5 again 1 free
5 tick
6 sent 1 4 0
6 tick
7 ready 4 00 00 0 0 -
7 owned 4 answer
7 judged 1 4 success
7 told 1 00 00 0 0 -
result 1 answered 00 00 0 0 - 0
end
";

// The answer owns its attempt before its timer does; the rest goes by itself.
const ANSWER_WINS: &str = "\
host 0 1 adtbh
lun 0 0:0:0 2048 8
plan 0 0:0:0 latency 1 1 1 2
cmd 1 0 0 0:0:0 2 5 - 000000000000
step 0 submit 0
step 0 send
step 0 tick
step 0 tick
step 0 work
step 0 due
step 0 own 1 answer
step 0 own 1 expiry
end drain
";

const ANSWER_WINS_TEXT: &str = "\
host 0
0 took 1
0 sent 1 1 0
0 tick
1 tick
2 ready 1 00 00 0 0 -
2 due 1
2 owned 1 answer
2 judged 1 1 success
2 told 1 00 00 0 0 -
result 1 answered 00 00 0 0 - 0
skipped 12 notopen
end
";

// The timer owns it first: the answer is ignored, and the command goes again after its abort.
const EXPIRY_WINS: &str = "\
host 0 1 adtbh
lun 0 0:0:0 2048 8
plan 0 0:0:0 latency 1 1 1 2
cmd 1 0 0 0:0:0 2 5 - 000000000000
step 0 submit 0
step 0 send
step 0 tick
step 0 tick
step 0 work
step 0 due
step 0 own 1 expiry
step 0 own 1 answer
end drain
";

const EXPIRY_WINS_TEXT: &str = "\
host 0
0 took 1
0 sent 1 1 0
0 tick
1 tick
2 ready 1 00 00 0 0 -
2 due 1
2 owned 1 expiry
2 abortset 1 1
2 late 1
2 aborted 1 1 ok
2 again 1 counted
2 tick
3 sent 1 2 0
3 tick
4 ready 2 00 00 0 0 -
4 owned 2 answer
4 judged 1 2 success
4 told 1 00 00 0 0 -
result 1 answered 00 00 0 0 - 1
skipped 12 notopen
end
";

// Two commands fail one after the other, and one reset recovers both.
const TWO_RECOVERED: &str = "\
host 0 4 d
lun 0 0:0:0 2048 8
plan 0 0:0:0 never 1 1 2
cmd 1 0 0 0:0:0 2 5 - 000000000000
cmd 2 0 0 0:0:0 4 5 - 000000000000
step 0 submit 0
step 0 submit 0
step 0 send
step 0 send
step 0 tick
step 0 tick
step 0 due
step 0 own 1 expiry
step 0 settle 1
step 0 abort
step 0 eh begin
end drain
";

const TWO_RECOVERED_TEXT: &str = "\
host 0
0 took 1
0 took 2
0 sent 1 1 0
0 sent 2 2 1
0 tick
1 tick
2 due 1
2 owned 1 expiry
2 abortset 1 1
2 aborted 1 1 failed
2 failed 1 1 cancelled
2 tick
3 tick
4 due 2
4 owned 2 expiry
4 abortset 2 2
4 aborted 2 2 failed
4 failed 2 2 cancelled
4 ehbegin
4 act 4 0:0:0 ok
4 probe 0:0:0 00 00 02 0 0 700006000000000a00000000290000000000
4 probe 0:0:0 00 00 00 0 0 -
4 cleared 1 4
4 cleared 2 4
4 again 1 counted
4 again 2 counted
4 ehend
4 tick
5 sent 1 3 0
5 sent 2 4 1
5 tick
6 ready 3 00 00 0 0 -
6 ready 4 00 00 0 0 -
6 owned 3 answer
6 owned 4 answer
6 judged 1 3 success
6 told 1 00 00 0 0 -
6 judged 2 4 success
6 told 2 00 00 0 0 -
result 1 answered 00 00 0 0 - 1
result 2 answered 00 00 0 0 - 1
skipped 16 notquiet
end
";

// The second expiry of a command isn't aborted: it goes to recovery.
const SECOND_EXPIRY: &str = "\
host 0 4 adtbh
lun 0 0:0:0 2048 8
plan 0 0:0:0 never 1 1 2
cmd 1 0 0 0:0:0 2 5 - 000000000000
end drain
";

const SECOND_EXPIRY_TEXT: &str = "\
host 0
0 took 1
0 sent 1 1 0
0 tick
1 tick
2 due 1
2 owned 1 expiry
2 abortset 1 1
2 aborted 1 1 ok
2 again 1 counted
2 tick
3 sent 1 2 0
3 tick
4 tick
5 due 2
5 owned 2 expiry
5 failed 1 2 cancelled
5 ehbegin
5 act 4 0:0:0 ok
5 probe 0:0:0 00 00 02 0 0 700006000000000a00000000290000000000
5 probe 0:0:0 00 00 00 0 0 -
5 cleared 1 4
5 again 1 counted
5 ehend
5 tick
6 sent 1 3 0
6 tick
7 ready 3 00 00 0 0 -
7 owned 3 answer
7 judged 1 3 success
7 told 1 00 00 0 0 -
result 1 answered 00 00 0 0 - 2
end
";

// Without callbacks the unit goes offline, and what waits for it is refused.
const NO_CALLBACKS: &str = "\
host 0 4 -
lun 0 0:0:0 2048 1
plan 0 0:0:0 never 1 1 1
cmd 1 0 0 0:0:0 2 5 - 000000000000
cmd 2 0 0 0:0:0 2 5 - 000000000000
end drain
";

const NO_CALLBACKS_TEXT: &str = "\
host 0
0 took 1
0 took 2
0 sent 1 1 0
0 tick
1 tick
2 due 1
2 owned 1 expiry
2 abortset 1 1
2 aborted 1 1 failed
2 failed 1 1 cancelled
2 ehbegin
2 act 4 0:0:0 failed
2 act 5 0:0 failed
2 act 6 0 failed
2 act 7 - failed
2 act 8 0:0:0 ok
2 offline 0:0:0
2 cleared 1 8
2 told 1 03 00 0 0 -
2 ehend
2 tick
3 told 2 01 00 0 0 -
result 1 timeout 03 00 0 0 - 0
result 2 noconnect 01 00 0 0 - 0
end
";

// A late answer comes while its tag is another attempt's.
const LATE_ANSWER: &str = "\
host 0 1 -
lun 0 0:0:0 2048 8
lun 0 0:0:1 2048 8
plan 0 0:0:0 latency 1 1 1 5
plan 0 0:0:1 latency 1 1 1 4
cmd 1 0 0 0:0:0 2 5 - 000000000000
cmd 2 0 0 0:0:1 30 5 - 000000000000
end drain
";

const LATE_ANSWER_TEXT: &str = "\
host 0
0 took 1
0 took 2
0 sent 1 1 0
0 tick
1 tick
2 due 1
2 owned 1 expiry
2 abortset 1 1
2 aborted 1 1 failed
2 failed 1 1 cancelled
2 ehbegin
2 act 4 0:0:0 failed
2 act 5 0:0 failed
2 act 6 0 failed
2 act 7 - failed
2 act 8 0:0:0 ok
2 offline 0:0:0
2 cleared 1 8
2 told 1 03 00 0 0 -
2 ehend
2 tick
3 sent 2 2 0
3 tick
4 tick
5 ready 1 00 00 0 0 -
5 late 1
5 tick
6 tick
7 ready 2 00 00 0 0 -
7 owned 2 answer
7 judged 2 2 success
7 told 2 00 00 0 0 -
result 1 timeout 03 00 0 0 - 0
result 2 answered 00 00 0 0 - 0
end
";

// Sense that the answer lacked is fetched, and judged.
const FETCHED_SENSE: &str = "\
host 0 4 adtbh
lun 0 0:0:0 2048 8
plan 0 0:0:0 nosense 1 1 1 6 29 00
cmd 1 0 0 0:0:0 30 5 - 000000000000
end drain
";

const FETCHED_SENSE_TEXT: &str = "\
host 0
0 took 1
0 sent 1 1 0
0 tick
1 ready 1 00 02 0 0 -
1 owned 1 answer
1 judged 1 1 fail
1 failed 1 1 answered
1 ehbegin
1 act 1 1 ok
1 probe 0:0:0 03 00 00 18 169 -
1 sensed 1 1 700006000000000a00000000290000000000
1 judged 1 1 retry
1 cleared 1 1
1 again 1 counted
1 ehend
1 tick
2 sent 1 2 0
2 tick
3 ready 2 00 00 0 0 -
3 owned 2 answer
3 judged 1 2 success
3 told 1 00 00 0 0 -
result 1 answered 00 00 0 0 - 1
end
";

// A stopped unit is started.
const START_UNIT: &str = "\
host 0 4 adtbh
lun 0 0:0:0 2048 8 stopped
cmd 1 0 0 0:0:0 30 5 - 28000000000000000100
end drain
";

const START_UNIT_TEXT: &str = "\
host 0
0 took 1
0 sent 1 1 0
0 tick
1 ready 1 00 02 0 0 700002000000000a00000000040200000000
1 owned 1 answer
1 judged 1 1 fail
1 failed 1 1 answered
1 ehbegin
1 act 3 0:0:0 ok
1 probe 0:0:0 1b 00 00 0 0 -
1 probe 0:0:0 00 00 00 0 0 -
1 cleared 1 3
1 again 1 counted
1 ehend
1 tick
2 sent 1 2 0
2 tick
3 ready 2 00 00 512 0 -
3 owned 2 answer
3 judged 1 2 success
3 told 1 00 00 512 0 -
result 1 answered 00 00 512 0 - 1
end
";

// A unit with a cancelled command isn't started; a reset does it.
const NO_START: &str = "\
host 0 4 d
lun 0 0:0:0 2048 8 stopped
plan 0 0:0:0 never 2 1 1
cmd 1 0 0 0:0:0 30 5 - 28000000000000000100
cmd 2 0 0 0:0:0 2 5 - 28000000000000000100
end drain
";

const NO_START_TEXT: &str = "\
host 0
0 took 1
0 took 2
0 sent 1 1 0
0 sent 2 2 1
0 tick
1 ready 1 00 02 0 0 700002000000000a00000000040200000000
1 owned 1 answer
1 judged 1 1 fail
1 failed 1 1 answered
1 tick
2 due 2
2 owned 2 expiry
2 abortset 2 2
2 aborted 2 2 failed
2 failed 2 2 cancelled
2 ehbegin
2 act 4 0:0:0 ok
2 probe 0:0:0 00 00 02 0 0 700006000000000a00000000290000000000
2 probe 0:0:0 00 00 00 0 0 -
2 cleared 1 4
2 cleared 2 4
2 again 1 counted
2 again 2 counted
2 ehend
2 tick
3 sent 1 3 0
3 sent 2 4 1
3 tick
4 ready 3 00 00 512 0 -
4 ready 4 00 00 512 0 -
4 owned 3 answer
4 owned 4 answer
4 judged 1 3 success
4 told 1 00 00 512 0 -
4 judged 2 4 success
4 told 2 00 00 512 0 -
result 1 answered 00 00 512 0 - 1
result 2 answered 00 00 512 0 - 1
end
";

// A failfast command isn't retried.
const FAILFAST: &str = "\
host 0 4 adtbh
lun 0 0:0:0 2048 8
plan 0 0:0:0 status 1 1 1 02 00
cmd 1 0 0 0:0:0 30 5 failfast 000000000000
end drain
";

const FAILFAST_TEXT: &str = "\
host 0
0 took 1
0 sent 1 1 0
0 tick
1 ready 1 02 00 0 0 -
1 owned 1 answer
1 judged 1 1 success
1 told 1 02 00 0 0 -
result 1 answered 02 00 0 0 - 0
end
";

// Sense whose descriptor is cut is no valid sense: it is fetched.
const CUT_DESCRIPTOR: &str = "\
host 0 4 adtbh
lun 0 0:0:0 2048 8
plan 0 0:0:0 raw 1 1 1 720311000000000c000a8000
cmd 1 0 0 0:0:0 30 5 - 000000000000
end drain
";

const CUT_DESCRIPTOR_TEXT: &str = "\
host 0
0 took 1
0 sent 1 1 0
0 tick
1 ready 1 00 02 0 0 720311000000000c000a8000
1 owned 1 answer
1 judged 1 1 fail
1 failed 1 1 answered
1 ehbegin
1 act 1 1 ok
1 probe 0:0:0 03 00 00 18 122 -
1 sensed 1 1 700000000000000a00000000000000000000
1 judged 1 1 success
1 cleared 1 1
1 told 1 00 02 0 0 700000000000000a00000000000000000000
1 ehend
result 1 answered 00 02 0 0 700000000000000a00000000000000000000 0
end
";

// A block is written and read; one behind the last is out of range.
const WRITE_READ: &str = "\
host 0 4 adtbh
lun 0 0:0:0 2048 1
cmd 1 0 0 0:0:0 30 5 - 2a000000000700000100 01
cmd 2 0 0 0:0:0 30 5 - 28000000000700000100
cmd 3 0 0 0:0:0 30 5 - 28000000080000000100
end drain
";

const WRITE_READ_TEXT: &str = "\
host 0
0 took 1
0 took 2
0 took 3
0 sent 1 1 0
0 tick
1 ready 1 00 00 512 0 -
1 owned 1 answer
1 judged 1 1 success
1 told 1 00 00 512 0 -
1 tick
2 sent 2 2 0
2 tick
3 ready 2 00 00 512 512 -
3 owned 2 answer
3 judged 2 2 success
3 told 2 00 00 512 512 -
3 tick
4 sent 3 3 0
4 tick
5 ready 3 00 02 0 0 700005000000000a00000000210000000000
5 owned 3 answer
5 judged 3 3 success
5 told 3 00 02 0 0 700005000000000a00000000210000000000
result 1 answered 00 00 512 0 - 0
result 2 answered 00 00 512 512 - 0
result 3 answered 00 02 0 0 700005000000000a00000000210000000000 0
end
";

// Five ticks pass, since no budget is said.
const LONG_LATENCY: &str = "\
host 0 4 adtbh
lun 0 0:0:0 2048 8
plan 0 0:0:0 latency 1 1 1 5
cmd 1 0 0 0:0:0 30 5 - 000000000000
end drain
";

const LONG_LATENCY_TEXT: &str = "\
host 0
0 took 1
0 sent 1 1 0
0 tick
1 tick
2 tick
3 tick
4 tick
5 ready 1 00 00 0 0 -
5 owned 1 answer
5 judged 1 1 success
5 told 1 00 00 0 0 -
result 1 answered 00 00 0 0 - 0
end
";

// Devices that were stopped run on, in the order of addresses.
const WOKEN: &str = "\
host 0 4 adtbh
lun 0 0:1:0 2048 8
lun 0 0:0:1 2048 8
cmd 1 0 0 0:1:0 30 5 - 000000000000
step 0 state 0:1:0 block
step 0 state 0:0:1 quiesce
end drain
";

const WOKEN_TEXT: &str = "\
host 0
0 state 0:1:0 block
0 state 0:0:1 quiesce
0 state 0:0:1 running
0 state 0:1:0 running
0 took 1
0 sent 1 1 0
0 tick
1 ready 1 00 00 0 0 -
1 owned 1 answer
1 judged 1 1 success
1 told 1 00 00 0 0 -
result 1 answered 00 00 0 0 - 0
end
";

// Each host is drained by itself.
const TWO_DRAINED: &str = "\
host 3 4 -
lun 3 0:0:0 2048 8
host 0 4 -
lun 0 0:0:0 2048 8
plan 0 0:0:0 latency 1 1 1 2
cmd 7 3 0 0:0:0 30 5 - 000000000000
cmd 2 0 5 0:0:0 30 5 - 000000000000
end drain
";

const TWO_DRAINED_TEXT: &str = "\
host 0
0 took 2
0 sent 2 1 0
0 tick
1 tick
2 ready 1 00 00 0 0 -
2 owned 1 answer
2 judged 2 1 success
2 told 2 00 00 0 0 -
result 2 answered 00 00 0 0 - 0
host 3
0 took 7
0 sent 7 1 0
0 tick
1 ready 1 00 00 0 0 -
1 owned 1 answer
1 judged 7 1 success
1 told 7 00 00 0 0 -
result 7 answered 00 00 0 0 - 0
end
";

// One round is all that the script allows.
const BUDGET_ONE: &str = "\
host 0 4 adtbh
lun 0 0:0:0 2048 8
plan 0 0:0:0 latency 1 1 1 5
cmd 1 0 0 0:0:0 30 5 - 000000000000
budget 1
end drain
";

const BUDGET_ONE_TEXT: &str = "\
host 0
0 took 1
0 sent 1 1 0
0 tick
result 1 open 0
end
";

/// Scripts that are drained.
pub const DRAINED: [(&str, &str); 21] = [
    (EMPTY, EMPTY_TEXT),
    (LATENCY, LATENCY_TEXT),
    (MEDIUM_ERROR, MEDIUM_ERROR_TEXT),
    (COUNTED_RETRIES, COUNTED_RETRIES_TEXT),
    (NO_RETRIES, NO_RETRIES_TEXT),
    (BUSY, BUSY_TEXT),
    (ANSWER_WINS, ANSWER_WINS_TEXT),
    (EXPIRY_WINS, EXPIRY_WINS_TEXT),
    (TWO_RECOVERED, TWO_RECOVERED_TEXT),
    (SECOND_EXPIRY, SECOND_EXPIRY_TEXT),
    (NO_CALLBACKS, NO_CALLBACKS_TEXT),
    (LATE_ANSWER, LATE_ANSWER_TEXT),
    (FETCHED_SENSE, FETCHED_SENSE_TEXT),
    (START_UNIT, START_UNIT_TEXT),
    (NO_START, NO_START_TEXT),
    (FAILFAST, FAILFAST_TEXT),
    (CUT_DESCRIPTOR, CUT_DESCRIPTOR_TEXT),
    (WRITE_READ, WRITE_READ_TEXT),
    (LONG_LATENCY, LONG_LATENCY_TEXT),
    (WOKEN, WOKEN_TEXT),
    (TWO_DRAINED, TWO_DRAINED_TEXT),
];

/// Scripts whose rounds are used up.
pub const SHORT: [(&str, &str); 1] = [(BUDGET_ONE, BUDGET_ONE_TEXT)];
