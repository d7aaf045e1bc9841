// Scripts with timeouts, late answers and aborts, and the text that is written for each, worked out from the rules of the steps by
// hand.

// The answer and the timer meet at the deadline's own tick, and the answer is first.
const ANSWER_WINS: &str = "\
host 0 1 adtbh
lun 0 0:0:0 2048 8
plan 0 0:0:0 latency 1 1 1 2
cmd 1 0 0 0:0:0 2 5 - 000000000000
step 0 submit 0
step 0 send
step 0 tick
step 0 tick
step 0 work
step 0 due
step 0 own 1 answer
step 0 own 1 expiry
step 0 settle 1
end stop
";

const ANSWER_WINS_TEXT: &str = "\
host 0
0 took 1
0 sent 1 1 0
0 tick
1 tick
2 ready 1 00 00 0 0 -
2 due 1
2 owned 1 answer
2 judged 1 1 success
2 told 1 00 00 0 0 -
result 1 answered 00 00 0 0 - 0
skipped 12 notopen
end
";

// They meet there, and the timer is first: the answer is ignored, and the command goes again after its abort.
const EXPIRY_WINS: &str = "\
host 0 1 adtbh
lun 0 0:0:0 2048 8
plan 0 0:0:0 latency 1 1 1 2
cmd 1 0 0 0:0:0 2 5 - 000000000000
step 0 submit 0
step 0 send
step 0 tick
step 0 tick
step 0 work
step 0 due
step 0 own 1 expiry
step 0 own 1 answer
step 0 settle 1
step 0 drop 1
step 0 abort
step 0 tick
step 0 send
step 0 tick
step 0 work
step 0 own 2 answer
step 0 settle 2
end stop
";

const EXPIRY_WINS_TEXT: &str = "\
host 0
0 took 1
0 sent 1 1 0
0 tick
1 tick
2 ready 1 00 00 0 0 -
2 due 1
2 owned 1 expiry
2 abortset 1 1
2 late 1
2 aborted 1 1 ok
2 again 1 counted
2 tick
3 sent 1 2 0
3 tick
4 ready 2 00 00 0 0 -
4 owned 2 answer
4 judged 1 2 success
4 told 1 00 00 0 0 -
result 1 answered 00 00 0 0 - 1
skipped 12 notopen
end
";

// The lower layer says that the command is done, and its answer comes.
const TIMER_DONE: &str = "\
host 0 4 adtbh
lun 0 0:0:0 2048 8
plan 0 0:0:0 latency 1 1 1 5
plan 0 0:0:0 timerdone 1 1 1
cmd 1 0 0 0:0:0 2 5 - 000000000000
step 0 submit 0
step 0 send
step 0 tick
step 0 tick
step 0 due
step 0 due
step 0 own 1 expiry
step 0 work
step 0 own 1 answer
step 0 settle 1
end stop
";

const TIMER_DONE_TEXT: &str = "\
host 0
0 took 1
0 sent 1 1 0
0 tick
1 tick
2 timerdone 1
2 ready 1 00 00 0 0 -
2 owned 1 answer
2 judged 1 1 success
2 told 1 00 00 0 0 -
result 1 answered 00 00 0 0 - 0
skipped 11 nodue
skipped 12 notdue
end
";

// The lower layer has the timer reset, once; at the second deadline it leaves it at that.
const TIMER_LONGER: &str = "\
host 0 4 adtbh
lun 0 0:0:0 2048 8
plan 0 0:0:0 latency 1 1 1 5
plan 0 0:0:0 longer 1 1 1
cmd 1 0 0 0:0:0 2 5 - 000000000000
step 0 submit 0
step 0 send
step 0 tick
step 0 tick
step 0 tick
step 0 due
step 0 tick
step 0 due
step 0 tick
step 0 due
step 0 own 1 expiry
step 0 settle 1
step 0 abort
step 0 tick
step 0 send
step 0 tick
step 0 work
step 0 own 2 answer
step 0 settle 2
end stop
";

const TIMER_LONGER_TEXT: &str = "\
host 0
0 took 1
0 sent 1 1 0
0 tick
1 tick
2 longer 1
2 tick
3 tick
4 due 1
4 owned 1 expiry
4 abortset 1 1
4 aborted 1 1 ok
4 again 1 counted
4 tick
5 sent 1 2 0
5 tick
6 ready 2 00 00 0 0 -
6 owned 2 answer
6 judged 1 2 success
6 told 1 00 00 0 0 -
result 1 answered 00 00 0 0 - 1
skipped 10 expirywaiting
skipped 13 nodue
end
";

// The timer of an attempt that was sent at tick 3 is reset twice, each time by one timeout.
const LONGER_TWICE: &str = "\
host 0 4 adtbh
lun 0 0:0:0 2048 8
plan 0 0:0:0 never 1 1 1
plan 0 0:0:0 longer 1 1 2
cmd 1 0 0 0:0:0 2 5 - 000000000000
step 0 tick
step 0 tick
step 0 tick
step 0 submit 0
step 0 send
step 0 tick
step 0 tick
step 0 due
step 0 tick
step 0 tick
step 0 due
step 0 tick
step 0 due
step 0 tick
step 0 due
step 0 tick
end stop
";

const LONGER_TWICE_TEXT: &str = "\
host 0
0 tick
1 tick
2 tick
3 took 1
3 sent 1 1 0
3 tick
4 tick
5 longer 1
5 tick
6 tick
7 longer 1
7 tick
8 tick
9 due 1
result 1 open 0
skipped 18 nodue
skipped 21 expirywaiting
end
";

// A host that makes no aborts outside recovery gives its command up at once.
const NO_ASYNC: &str = "\
host 0 1 adtbh noasync
lun 0 0:0:0 2048 8
plan 0 0:0:0 never 1 1 1
cmd 1 0 0 0:0:0 2 5 - 000000000000
step 0 submit 0
step 0 send
step 0 tick
step 0 tick
step 0 due
step 0 own 1 expiry
step 0 settle 1
step 0 abort
end stop
";

const NO_ASYNC_TEXT: &str = "\
host 0
0 took 1
0 sent 1 1 0
0 tick
1 tick
2 due 1
2 owned 1 expiry
2 failed 1 1 cancelled
result 1 open 0
skipped 12 noabort
end
";

// A command is aborted once; when its time is up again it has failed.
const SECOND_EXPIRY: &str = "\
host 0 4 adtbh
lun 0 0:0:0 2048 8
plan 0 0:0:0 never 1 1 2
cmd 1 0 0 0:0:0 2 5 - 000000000000
step 0 submit 0
step 0 send
step 0 tick
step 0 tick
step 0 due
step 0 own 1 expiry
step 0 settle 1
step 0 abort
step 0 tick
step 0 send
step 0 tick
step 0 tick
step 0 due
step 0 own 2 expiry
step 0 settle 2
step 0 abort
end stop
";

const SECOND_EXPIRY_TEXT: &str = "\
host 0
0 took 1
0 sent 1 1 0
0 tick
1 tick
2 due 1
2 owned 1 expiry
2 abortset 1 1
2 aborted 1 1 ok
2 again 1 counted
2 tick
3 sent 1 2 0
3 tick
4 tick
5 due 2
5 owned 2 expiry
5 failed 1 2 cancelled
result 1 open 1
skipped 20 noabort
end
";

// Two commands are aborted in the order of their scheduling; the abort of the second one fails.
const TWO_ABORTS: &str = "\
host 0 4 adtbh
lun 0 0:0:0 2048 8
lun 0 0:0:1 2048 8
plan 0 0:0:0 never 1 1 1
plan 0 0:0:1 never 1 1 1
plan 0 0:0:0 abortfail 1 1 1
cmd 1 0 0 0:0:0 2 5 - 000000000000
cmd 2 0 0 0:0:1 2 5 - 000000000000
step 0 submit 0
step 0 submit 0
step 0 send
step 0 send
step 0 tick
step 0 tick
step 0 due
step 0 due
step 0 own 1 expiry
step 0 own 2 expiry
step 0 settle 2
step 0 settle 1
step 0 abort
step 0 abort
end stop
";

const TWO_ABORTS_TEXT: &str = "\
host 0
0 took 1
0 took 2
0 sent 1 1 0
0 sent 2 2 1
0 tick
1 tick
2 due 1
2 due 2
2 owned 1 expiry
2 owned 2 expiry
2 abortset 2 2
2 abortset 1 1
2 aborted 2 2 ok
2 again 2 counted
2 aborted 1 1 failed
2 failed 1 1 cancelled
result 1 open 0
result 2 open 1
end
";

// After its abort a command without retries is told that its time ran out.
const NO_RETRY_LEFT: &str = "\
host 0 4 adtbh
lun 0 0:0:0 2048 8
plan 0 0:0:0 never 1 1 1
cmd 1 0 0 0:0:0 2 5 failfast 000000000000
step 0 submit 0
step 0 send
step 0 tick
step 0 tick
step 0 due
step 0 own 1 expiry
step 0 settle 1
step 0 abort
end stop
";

const NO_RETRY_LEFT_TEXT: &str = "\
host 0
0 took 1
0 sent 1 1 0
0 tick
1 tick
2 due 1
2 owned 1 expiry
2 abortset 1 1
2 aborted 1 1 ok
2 told 1 03 00 0 0 -
result 1 timeout 03 00 0 0 - 0
end
";

// Two answers come at the deadline's own tick, and the timers of both attempts are first: each answer is ignored once, and both
// commands go again after their aborts.
const TWO_EXPIRIES: &str = "\
host 0 4 adtbh
lun 0 0:0:0 2048 8
cmd 1 0 0 0:0:0 1 5 - 000000000000
cmd 2 0 0 0:0:0 1 5 - 000000000000
step 0 submit 0
step 0 submit 0
step 0 send
step 0 send
step 0 tick
step 0 work
step 0 work
step 0 due
step 0 due
step 0 own 1 expiry
step 0 own 2 expiry
step 0 settle 1
step 0 settle 2
step 0 drop 2
step 0 drop 1
step 0 drop 1
step 0 abort
step 0 abort
end stop
";

const TWO_EXPIRIES_TEXT: &str = "\
host 0
0 took 1
0 took 2
0 sent 1 1 0
0 sent 2 2 1
0 tick
1 ready 1 00 00 0 0 -
1 ready 2 00 00 0 0 -
1 due 1
1 due 2
1 owned 1 expiry
1 owned 2 expiry
1 abortset 1 1
1 abortset 2 2
1 late 2
1 late 1
1 aborted 1 1 ok
1 again 1 counted
1 aborted 2 2 ok
1 again 2 counted
result 1 open 1
result 2 open 1
skipped 20 notlate
end
";

/// Scripts with timeouts, and their texts.
pub const TIMEOUTS: [(&str, &str); 10] = [
    (ANSWER_WINS, ANSWER_WINS_TEXT),
    (EXPIRY_WINS, EXPIRY_WINS_TEXT),
    (TIMER_DONE, TIMER_DONE_TEXT),
    (TIMER_LONGER, TIMER_LONGER_TEXT),
    (LONGER_TWICE, LONGER_TWICE_TEXT),
    (NO_ASYNC, NO_ASYNC_TEXT),
    (SECOND_EXPIRY, SECOND_EXPIRY_TEXT),
    (TWO_ABORTS, TWO_ABORTS_TEXT),
    (NO_RETRY_LEFT, NO_RETRY_LEFT_TEXT),
    (TWO_EXPIRIES, TWO_EXPIRIES_TEXT),
];
