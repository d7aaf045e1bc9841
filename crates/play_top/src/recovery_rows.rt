// Scripts with recovery, and the text that is written for each, worked out from the rules of the steps and of the ladder by hand.

// Two commands of a device time out two ticks apart, and the device's reset recovers both. Recovery waits for the second one.
const TWO_RECOVERED: &str = "\
host 0 4 d
lun 0 0:0:0 2048 8
plan 0 0:0:0 never 1 1 2
cmd 1 0 0 0:0:0 2 5 - 000000000000
cmd 2 0 0 0:0:0 4 5 - 000000000000
step 0 submit 0
step 0 submit 0
step 0 send
step 0 send
step 0 tick
step 0 tick
step 0 due
step 0 own 1 expiry
step 0 settle 1
step 0 abort
step 0 eh begin
step 0 tick
step 0 tick
step 0 due
step 0 own 2 expiry
step 0 settle 2
step 0 abort
step 0 eh begin
step 0 eh act
step 0 eh flush
step 0 eh flush
step 0 eh end
step 0 tick
step 0 send
step 0 send
step 0 tick
step 0 work
step 0 work
step 0 own 3 answer
step 0 own 4 answer
step 0 settle 3
step 0 settle 4
end stop
";

const TWO_RECOVERED_TEXT: &str = "\
host 0
0 took 1
0 took 2
0 sent 1 1 0
0 sent 2 2 1
0 tick
1 tick
2 due 1
2 owned 1 expiry
2 abortset 1 1
2 aborted 1 1 failed
2 failed 1 1 cancelled
2 tick
3 tick
4 due 2
4 owned 2 expiry
4 abortset 2 2
4 aborted 2 2 failed
4 failed 2 2 cancelled
4 ehbegin
4 act 4 0:0:0 ok
4 probe 0:0:0 00 00 02 0 0 700006000000000a00000000290000000000
4 probe 0:0:0 00 00 00 0 0 -
4 cleared 1 4
4 cleared 2 4
4 again 1 counted
4 again 2 counted
4 ehend
4 tick
5 sent 1 3 0
5 sent 2 4 1
5 tick
6 ready 3 00 00 0 0 -
6 ready 4 00 00 0 0 -
6 owned 3 answer
6 owned 4 answer
6 judged 1 3 success
6 told 1 00 00 0 0 -
6 judged 2 4 success
6 told 2 00 00 0 0 -
result 1 answered 00 00 0 0 - 1
result 2 answered 00 00 0 0 - 1
skipped 16 notquiet
end
";

// A command is aborted once; when its time is up again it is recovered.
const SECOND_EXPIRY: &str = "\
host 0 4 adtbh
lun 0 0:0:0 2048 8
plan 0 0:0:0 never 1 1 2
cmd 1 0 0 0:0:0 2 5 - 000000000000
step 0 submit 0
step 0 send
step 0 tick
step 0 tick
step 0 due
step 0 own 1 expiry
step 0 settle 1
step 0 abort
step 0 tick
step 0 send
step 0 tick
step 0 tick
step 0 due
step 0 own 2 expiry
step 0 settle 2
step 0 eh begin
step 0 eh act
step 0 eh flush
step 0 eh end
step 0 tick
step 0 send
step 0 tick
step 0 work
step 0 own 3 answer
step 0 settle 3
end stop
";

const SECOND_EXPIRY_TEXT: &str = "\
host 0
0 took 1
0 sent 1 1 0
0 tick
1 tick
2 due 1
2 owned 1 expiry
2 abortset 1 1
2 aborted 1 1 ok
2 again 1 counted
2 tick
3 sent 1 2 0
3 tick
4 tick
5 due 2
5 owned 2 expiry
5 failed 1 2 cancelled
5 ehbegin
5 act 4 0:0:0 ok
5 probe 0:0:0 00 00 02 0 0 700006000000000a00000000290000000000
5 probe 0:0:0 00 00 00 0 0 -
5 cleared 1 4
5 again 1 counted
5 ehend
5 tick
6 sent 1 3 0
6 tick
7 ready 3 00 00 0 0 -
7 owned 3 answer
7 judged 1 3 success
7 told 1 00 00 0 0 -
result 1 answered 00 00 0 0 - 2
end
";

// A host without callbacks: each act fails, and the device goes offline, so the command that waited is reported as well.
const NO_CALLBACKS: &str = "\
host 0 4 -
lun 0 0:0:0 2048 1
plan 0 0:0:0 never 1 1 1
cmd 1 0 0 0:0:0 2 5 - 000000000000
cmd 2 0 0 0:0:0 2 5 - 000000000000
step 0 submit 0
step 0 submit 0
step 0 send
step 0 tick
step 0 tick
step 0 due
step 0 own 1 expiry
step 0 settle 1
step 0 abort
step 0 eh begin
step 0 eh act
step 0 eh act
step 0 eh act
step 0 eh act
step 0 eh act
step 0 eh flush
step 0 eh end
step 0 tick
step 0 send
end stop
";

const NO_CALLBACKS_TEXT: &str = "\
host 0
0 took 1
0 took 2
0 sent 1 1 0
0 tick
1 tick
2 due 1
2 owned 1 expiry
2 abortset 1 1
2 aborted 1 1 failed
2 failed 1 1 cancelled
2 ehbegin
2 act 4 0:0:0 failed
2 act 5 0:0 failed
2 act 6 0 failed
2 act 7 - failed
2 act 8 0:0:0 ok
2 offline 0:0:0
2 cleared 1 8
2 told 1 03 00 0 0 -
2 ehend
2 tick
3 told 2 01 00 0 0 -
result 1 timeout 03 00 0 0 - 0
result 2 noconnect 01 00 0 0 - 0
end
";

// An answer that comes after recovery, when another attempt has its tag, is ignored.
const LATE_AFTER_RECOVERY: &str = "\
host 0 1 -
lun 0 0:0:0 2048 8
lun 0 0:0:1 2048 8
plan 0 0:0:0 latency 1 1 1 5
plan 0 0:0:1 latency 1 1 1 4
cmd 1 0 0 0:0:0 2 5 - 000000000000
cmd 2 0 0 0:0:1 30 5 - 000000000000
step 0 submit 0
step 0 submit 0
step 0 send
step 0 tick
step 0 tick
step 0 due
step 0 own 1 expiry
step 0 settle 1
step 0 abort
step 0 eh begin
step 0 eh act
step 0 eh act
step 0 eh act
step 0 eh act
step 0 eh act
step 0 eh flush
step 0 eh end
step 0 tick
step 0 send
step 0 tick
step 0 tick
step 0 work
step 0 drop 1
step 0 tick
step 0 tick
step 0 work
step 0 own 2 answer
step 0 settle 2
end stop
";

const LATE_AFTER_RECOVERY_TEXT: &str = "\
host 0
0 took 1
0 took 2
0 sent 1 1 0
0 tick
1 tick
2 due 1
2 owned 1 expiry
2 abortset 1 1
2 aborted 1 1 failed
2 failed 1 1 cancelled
2 ehbegin
2 act 4 0:0:0 failed
2 act 5 0:0 failed
2 act 6 0 failed
2 act 7 - failed
2 act 8 0:0:0 ok
2 offline 0:0:0
2 cleared 1 8
2 told 1 03 00 0 0 -
2 ehend
2 tick
3 sent 2 2 0
3 tick
4 tick
5 ready 1 00 00 0 0 -
5 late 1
5 tick
6 tick
7 ready 2 00 00 0 0 -
7 owned 2 answer
7 judged 2 2 success
7 told 2 00 00 0 0 -
result 1 timeout 03 00 0 0 - 0
result 2 answered 00 00 0 0 - 0
end
";

// A command that failed without sense is judged by the sense that is fetched: a retry.
const FETCHED_SENSE: &str = "\
host 0 4 adtbh
lun 0 0:0:0 2048 8
plan 0 0:0:0 nosense 1 1 1 6 29 00
cmd 1 0 0 0:0:0 30 5 - 000000000000
step 0 submit 0
step 0 send
step 0 tick
step 0 work
step 0 own 1 answer
step 0 settle 1
step 0 eh begin
step 0 eh act
step 0 eh flush
step 0 eh end
step 0 tick
step 0 send
step 0 tick
step 0 work
step 0 own 2 answer
step 0 settle 2
end stop
";

const FETCHED_SENSE_TEXT: &str = "\
host 0
0 took 1
0 sent 1 1 0
0 tick
1 ready 1 00 02 0 0 -
1 owned 1 answer
1 judged 1 1 fail
1 failed 1 1 answered
1 ehbegin
1 act 1 1 ok
1 probe 0:0:0 03 00 00 18 169 -
1 sensed 1 1 700006000000000a00000000290000000000
1 judged 1 1 retry
1 cleared 1 1
1 again 1 counted
1 ehend
1 tick
2 sent 1 2 0
2 tick
3 ready 2 00 00 0 0 -
3 owned 2 answer
3 judged 1 2 success
3 told 1 00 00 0 0 -
result 1 answered 00 00 0 0 - 1
end
";

// A unit that isn't started is started by recovery.
const START_UNIT: &str = "\
host 0 4 adtbh
lun 0 0:0:0 2048 8 stopped
cmd 1 0 0 0:0:0 30 5 - 28000000000000000100
step 0 submit 0
step 0 send
step 0 tick
step 0 work
step 0 own 1 answer
step 0 settle 1
step 0 eh begin
step 0 eh act
step 0 eh flush
step 0 eh end
step 0 tick
step 0 send
step 0 tick
step 0 work
step 0 own 2 answer
step 0 settle 2
end stop
";

const START_UNIT_TEXT: &str = "\
host 0
0 took 1
0 sent 1 1 0
0 tick
1 ready 1 00 02 0 0 700002000000000a00000000040200000000
1 owned 1 answer
1 judged 1 1 fail
1 failed 1 1 answered
1 ehbegin
1 act 3 0:0:0 ok
1 probe 0:0:0 1b 00 00 0 0 -
1 probe 0:0:0 00 00 00 0 0 -
1 cleared 1 3
1 again 1 counted
1 ehend
1 tick
2 sent 1 2 0
2 tick
3 ready 2 00 00 512 0 -
3 owned 2 answer
3 judged 1 2 success
3 told 1 00 00 512 0 -
result 1 answered 00 00 512 0 - 1
end
";

// A unit with a cancelled command isn't started, but reset, which starts it as well.
const RESET_STARTS: &str = "\
host 0 4 d
lun 0 0:0:0 2048 8 stopped
plan 0 0:0:0 never 2 1 1
cmd 1 0 0 0:0:0 30 5 - 28000000000000000100
cmd 2 0 0 0:0:0 2 5 - 28000000000000000100
step 0 submit 0
step 0 submit 0
step 0 send
step 0 send
step 0 tick
step 0 work
step 0 own 1 answer
step 0 settle 1
step 0 tick
step 0 due
step 0 own 2 expiry
step 0 settle 2
step 0 abort
step 0 eh begin
step 0 eh act
step 0 eh flush
step 0 eh flush
step 0 eh end
step 0 tick
step 0 send
step 0 send
step 0 tick
step 0 work
step 0 work
step 0 own 3 answer
step 0 own 4 answer
step 0 settle 3
step 0 settle 4
end stop
";

const RESET_STARTS_TEXT: &str = "\
host 0
0 took 1
0 took 2
0 sent 1 1 0
0 sent 2 2 1
0 tick
1 ready 1 00 02 0 0 700002000000000a00000000040200000000
1 owned 1 answer
1 judged 1 1 fail
1 failed 1 1 answered
1 tick
2 due 2
2 owned 2 expiry
2 abortset 2 2
2 aborted 2 2 failed
2 failed 2 2 cancelled
2 ehbegin
2 act 4 0:0:0 ok
2 probe 0:0:0 00 00 02 0 0 700006000000000a00000000290000000000
2 probe 0:0:0 00 00 00 0 0 -
2 cleared 1 4
2 cleared 2 4
2 again 1 counted
2 again 2 counted
2 ehend
2 tick
3 sent 1 3 0
3 sent 2 4 1
3 tick
4 ready 3 00 00 512 0 -
4 ready 4 00 00 512 0 -
4 owned 3 answer
4 owned 4 answer
4 judged 1 3 success
4 told 1 00 00 512 0 -
4 judged 2 4 success
4 told 2 00 00 512 0 -
result 1 answered 00 00 512 0 - 1
result 2 answered 00 00 512 0 - 1
end
";

// Sense whose descriptor is cut is no valid sense: other sense is fetched, and the command is told that.
const CUT_DESCRIPTOR: &str = "\
host 0 4 adtbh
lun 0 0:0:0 2048 8
plan 0 0:0:0 raw 1 1 1 720311000000000c000a8000
cmd 1 0 0 0:0:0 30 5 - 000000000000
step 0 submit 0
step 0 send
step 0 tick
step 0 work
step 0 own 1 answer
step 0 settle 1
step 0 eh begin
step 0 eh act
step 0 eh flush
step 0 eh end
end stop
";

const CUT_DESCRIPTOR_TEXT: &str = "\
host 0
0 took 1
0 sent 1 1 0
0 tick
1 ready 1 00 02 0 0 720311000000000c000a8000
1 owned 1 answer
1 judged 1 1 fail
1 failed 1 1 answered
1 ehbegin
1 act 1 1 ok
1 probe 0:0:0 03 00 00 18 122 -
1 sensed 1 1 700000000000000a00000000000000000000
1 judged 1 1 success
1 cleared 1 1
1 told 1 00 02 0 0 700000000000000a00000000000000000000
1 ehend
result 1 answered 00 02 0 0 700000000000000a00000000000000000000 0
end
";

// Beyond the last act there is none.
const LADDER_DONE: &str = "\
host 0 4 -
lun 0 0:0:0 2048 1
plan 0 0:0:0 never 1 1 1
cmd 1 0 0 0:0:0 2 5 - 000000000000
cmd 2 0 0 0:0:0 2 5 - 000000000000
step 0 submit 0
step 0 submit 0
step 0 send
step 0 tick
step 0 tick
step 0 due
step 0 own 1 expiry
step 0 settle 1
step 0 abort
step 0 eh begin
step 0 eh act
step 0 eh act
step 0 eh act
step 0 eh act
step 0 eh act
step 0 eh act
end stop
";

const LADDER_DONE_TEXT: &str = "\
host 0
0 took 1
0 took 2
0 sent 1 1 0
0 tick
1 tick
2 due 1
2 owned 1 expiry
2 abortset 1 1
2 aborted 1 1 failed
2 failed 1 1 cancelled
2 ehbegin
2 act 4 0:0:0 failed
2 act 5 0:0 failed
2 act 6 0 failed
2 act 7 - failed
2 act 8 0:0:0 ok
2 offline 0:0:0
2 cleared 1 8
result 1 open 0
result 2 open 0
skipped 21 ladderdone
end
";

// A device went offline before recovery begins: its command is cleared at once, and reported with its answer.
const OFFLINE_BEFORE: &str = "\
host 0 4 adtbh
lun 0 0:0:0 2048 8
lun 0 0:0:1 2048 8
plan 0 0:0:0 nosense 1 1 1 6 29 00
plan 0 0:0:1 nosense 1 1 1 6 29 00
cmd 1 0 0 0:0:0 30 5 - 000000000000
cmd 2 0 0 0:0:1 30 5 - 000000000000
step 0 submit 0
step 0 submit 0
step 0 send
step 0 send
step 0 tick
step 0 work
step 0 work
step 0 own 1 answer
step 0 own 2 answer
step 0 settle 1
step 0 settle 2
step 0 state 0:0:0 offline
step 0 eh begin
step 0 eh act
step 0 eh flush
step 0 eh flush
step 0 eh end
end stop
";

const OFFLINE_BEFORE_TEXT: &str = "\
host 0
0 took 1
0 took 2
0 sent 1 1 0
0 sent 2 2 1
0 tick
1 ready 1 00 02 0 0 -
1 ready 2 00 02 0 0 -
1 owned 1 answer
1 owned 2 answer
1 judged 1 1 fail
1 failed 1 1 answered
1 judged 2 2 fail
1 failed 2 2 answered
1 state 0:0:0 offline
1 ehbegin
1 cleared 1 0
1 act 1 2 ok
1 probe 0:0:1 03 00 00 18 169 -
1 sensed 2 2 700006000000000a00000000290000000000
1 judged 2 2 retry
1 cleared 2 1
1 told 1 00 02 0 0 -
1 again 2 counted
1 ehend
result 1 answered 00 02 0 0 - 0
result 2 open 1
end
";

// A command fails again by the sense that is fetched, and its unit is started for it.
const FAILS_AGAIN: &str = "\
host 0 4 adtbh
lun 0 0:0:0 2048 8
plan 0 0:0:0 nosense 1 1 1 2 04 02
cmd 1 0 0 0:0:0 30 5 - 000000000000
step 0 submit 0
step 0 send
step 0 tick
step 0 work
step 0 own 1 answer
step 0 settle 1
step 0 eh begin
step 0 eh act
step 0 eh act
step 0 eh flush
step 0 eh end
end stop
";

const FAILS_AGAIN_TEXT: &str = "\
host 0
0 took 1
0 sent 1 1 0
0 tick
1 ready 1 00 02 0 0 -
1 owned 1 answer
1 judged 1 1 fail
1 failed 1 1 answered
1 ehbegin
1 act 1 1 ok
1 probe 0:0:0 03 00 00 18 130 -
1 sensed 1 1 700002000000000a00000000040200000000
1 judged 1 1 fail
1 act 3 0:0:0 ok
1 probe 0:0:0 1b 00 00 0 0 -
1 probe 0:0:0 00 00 00 0 0 -
1 cleared 1 3
1 again 1 counted
1 ehend
result 1 open 1
end
";

// The same on a host without callbacks, whose unit doesn't answer when it is to be started: in the end the command is told the
// sense that was fetched.
const SENSE_KEPT: &str = "\
host 0 4 -
lun 0 0:0:0 2048 8
plan 0 0:0:0 nosense 1 1 1 2 04 02
plan 0 0:0:0 silent 2 1 1
cmd 1 0 0 0:0:0 30 5 - 000000000000
step 0 submit 0
step 0 send
step 0 tick
step 0 work
step 0 own 1 answer
step 0 settle 1
step 0 eh begin
step 0 eh act
step 0 eh act
step 0 eh act
step 0 eh act
step 0 eh act
step 0 eh act
step 0 eh act
step 0 eh flush
step 0 eh end
end stop
";

const SENSE_KEPT_TEXT: &str = "\
host 0
0 took 1
0 sent 1 1 0
0 tick
1 ready 1 00 02 0 0 -
1 owned 1 answer
1 judged 1 1 fail
1 failed 1 1 answered
1 ehbegin
1 act 1 1 ok
1 probe 0:0:0 03 00 00 18 130 -
1 sensed 1 1 700002000000000a00000000040200000000
1 judged 1 1 fail
1 act 3 0:0:0 failed
1 probe 0:0:0 1b silent
1 act 4 0:0:0 failed
1 act 5 0:0 failed
1 act 6 0 failed
1 act 7 - failed
1 act 8 0:0:0 ok
1 offline 0:0:0
1 cleared 1 8
1 told 1 00 02 0 0 700002000000000a00000000040200000000
1 ehend
result 1 answered 00 02 0 0 700002000000000a00000000040200000000 0
end
";

// Two devices, one of them with a cancelled command: that one is reset, the other started. The flush goes by the order in which
// they failed.
const TWO_DEVICES: &str = "\
host 0 4 d
lun 0 0:0:0 2048 8
lun 0 0:0:1 2048 8 stopped
plan 0 0:0:0 never 1 1 1
cmd 1 0 0 0:0:0 2 5 - 000000000000
cmd 2 0 0 0:0:1 30 5 - 000000000000
step 0 submit 0
step 0 submit 0
step 0 send
step 0 send
step 0 tick
step 0 work
step 0 own 2 answer
step 0 settle 2
step 0 eh begin
step 0 tick
step 0 due
step 0 own 1 expiry
step 0 settle 1
step 0 abort
step 0 eh begin
step 0 eh act
step 0 eh act
step 0 eh flush
step 0 eh flush
step 0 eh end
end stop
";

const TWO_DEVICES_TEXT: &str = "\
host 0
0 took 1
0 took 2
0 sent 1 1 0
0 sent 2 2 1
0 tick
1 ready 2 00 02 0 0 700002000000000a00000000040200000000
1 owned 2 answer
1 judged 2 2 fail
1 failed 2 2 answered
1 tick
2 due 1
2 owned 1 expiry
2 abortset 1 1
2 aborted 1 1 failed
2 failed 1 1 cancelled
2 ehbegin
2 act 3 0:0:1 ok
2 probe 0:0:1 1b 00 00 0 0 -
2 probe 0:0:1 00 00 00 0 0 -
2 cleared 2 3
2 act 4 0:0:0 ok
2 probe 0:0:0 00 00 02 0 0 700006000000000a00000000290000000000
2 probe 0:0:0 00 00 00 0 0 -
2 cleared 1 4
2 again 2 counted
2 again 1 counted
2 ehend
result 1 open 1
result 2 open 1
skipped 15 notquiet
end
";

// A host recovers twice; the second time the command's retries are used up, and it is told the sense that was fetched.
const TWICE: &str = "\
host 0 4 adtbh
lun 0 0:0:0 2048 8
plan 0 0:0:0 nosense 1 1 2 6 29 00
cmd 1 0 0 0:0:0 30 1 - 000000000000
step 0 submit 0
step 0 send
step 0 tick
step 0 work
step 0 own 1 answer
step 0 settle 1
step 0 eh begin
step 0 eh act
step 0 eh flush
step 0 eh end
step 0 tick
step 0 send
step 0 tick
step 0 work
step 0 own 2 answer
step 0 settle 2
step 0 eh begin
step 0 eh act
step 0 eh flush
step 0 eh end
end stop
";

const TWICE_TEXT: &str = "\
host 0
0 took 1
0 sent 1 1 0
0 tick
1 ready 1 00 02 0 0 -
1 owned 1 answer
1 judged 1 1 fail
1 failed 1 1 answered
1 ehbegin
1 act 1 1 ok
1 probe 0:0:0 03 00 00 18 169 -
1 sensed 1 1 700006000000000a00000000290000000000
1 judged 1 1 retry
1 cleared 1 1
1 again 1 counted
1 ehend
1 tick
2 sent 1 2 0
2 tick
3 ready 2 00 02 0 0 -
3 owned 2 answer
3 judged 1 2 fail
3 failed 1 2 answered
3 ehbegin
3 act 1 1 ok
3 probe 0:0:0 03 00 00 18 169 -
3 sensed 1 2 700006000000000a00000000290000000000
3 judged 1 2 success
3 cleared 1 1
3 told 1 00 02 0 0 700006000000000a00000000290000000000
3 ehend
result 1 answered 00 02 0 0 700006000000000a00000000290000000000 1
end
";

// A host that makes no aborts outside recovery aborts within it, in the order in which its commands failed. One of them is failfast:
// it isn't sent again.
const ABORT_LEVEL: &str = "\
host 0 4 a noasync
lun 0 0:0:0 2048 8
plan 0 0:0:0 never 1 1 2
cmd 1 0 0 0:0:0 2 5 - 000000000000
cmd 2 0 0 0:0:0 2 5 failfast 000000000000
step 0 submit 0
step 0 submit 0
step 0 send
step 0 send
step 0 tick
step 0 tick
step 0 due
step 0 due
step 0 own 1 expiry
step 0 own 2 expiry
step 0 settle 2
step 0 settle 1
step 0 eh begin
step 0 eh act
step 0 eh act
step 0 eh flush
step 0 eh flush
step 0 eh end
end stop
";

const ABORT_LEVEL_TEXT: &str = "\
host 0
0 took 1
0 took 2
0 sent 1 1 0
0 sent 2 2 1
0 tick
1 tick
2 due 1
2 due 2
2 owned 1 expiry
2 owned 2 expiry
2 failed 2 2 cancelled
2 failed 1 1 cancelled
2 ehbegin
2 act 2 2 ok
2 probe 0:0:0 00 00 00 0 0 -
2 cleared 2 2
2 act 2 1 ok
2 probe 0:0:0 00 00 00 0 0 -
2 cleared 1 2
2 told 2 03 00 0 0 -
2 again 1 counted
2 ehend
result 1 open 1
result 2 timeout 03 00 0 0 - 0
end
";

// Tests that go unanswered leave their devices to the next level; callbacks that the host doesn't have fail. Of two devices of a
// target one is ready after the target's reset, the other goes offline.
const HALF_READY: &str = "\
host 0 4 dt noasync
lun 0 0:0:0 2048 8
lun 0 0:0:1 2048 8
plan 0 0:0:0 never 1 1 1
plan 0 0:0:1 never 1 1 1
plan 0 0:0:0 silent 1 1 1
plan 0 0:0:1 silent 1 1 2
cmd 1 0 0 0:0:0 2 5 - 000000000000
cmd 2 0 0 0:0:1 2 5 - 000000000000
step 0 submit 0
step 0 submit 0
step 0 send
step 0 send
step 0 tick
step 0 tick
step 0 due
step 0 due
step 0 own 1 expiry
step 0 own 2 expiry
step 0 settle 1
step 0 settle 2
step 0 eh begin
step 0 eh act
step 0 eh act
step 0 eh act
step 0 eh act
step 0 eh act
step 0 eh act
step 0 eh act
step 0 eh act
step 0 eh flush
step 0 eh flush
step 0 eh end
end stop
";

const HALF_READY_TEXT: &str = "\
host 0
0 took 1
0 took 2
0 sent 1 1 0
0 sent 2 2 1
0 tick
1 tick
2 due 1
2 due 2
2 owned 1 expiry
2 owned 2 expiry
2 failed 1 1 cancelled
2 failed 2 2 cancelled
2 ehbegin
2 act 2 1 failed
2 act 2 2 failed
2 act 4 0:0:0 ok
2 probe 0:0:0 00 silent
2 act 4 0:0:1 ok
2 probe 0:0:1 00 silent
2 act 5 0:0 ok
2 probe 0:0:0 00 00 02 0 0 700006000000000a00000000290000000000
2 probe 0:0:0 00 00 00 0 0 -
2 probe 0:0:1 00 silent
2 cleared 1 5
2 act 6 0 failed
2 act 7 - failed
2 act 8 0:0:1 ok
2 offline 0:0:1
2 cleared 2 8
2 again 1 counted
2 told 2 03 00 0 0 -
2 ehend
result 1 open 1
result 2 timeout 03 00 0 0 - 0
end
";

// Each cause for which a step of recovery is skipped.
const CAUSES: &str = "\
host 0 4 adtbh
lun 0 0:0:0 2048 8
lun 0 0:0:1 2048 8
plan 0 0:0:0 nosense 1 1 1 6 29 00
cmd 1 0 0 0:0:0 30 5 - 000000000000
cmd 2 0 0 0:0:1 30 5 - 000000000000
step 0 eh begin
step 0 eh act
step 0 eh flush
step 0 eh end
step 0 submit 0
step 0 submit 0
step 0 send
step 0 send
step 0 tick
step 0 work
step 0 own 1 answer
step 0 settle 1
step 0 eh begin
step 0 eh act
step 0 work
step 0 own 2 answer
step 0 settle 2
step 0 eh begin
step 0 eh begin
step 0 state 0:0:0 offline
step 0 eh flush
step 0 eh end
step 0 send
step 0 eh act
step 0 eh act
step 0 eh end
step 0 eh flush
step 0 eh flush
step 0 eh end
step 0 eh end
step 0 eh begin
step 0 state 0:0:0 offline
end stop
";

const CAUSES_TEXT: &str = "\
host 0
0 took 1
0 took 2
0 sent 1 1 0
0 sent 2 2 1
0 tick
1 ready 1 00 02 0 0 -
1 owned 1 answer
1 judged 1 1 fail
1 failed 1 1 answered
1 ready 2 00 00 0 0 -
1 owned 2 answer
1 judged 2 2 success
1 told 2 00 00 0 0 -
1 ehbegin
1 act 1 1 ok
1 probe 0:0:0 03 00 00 18 169 -
1 sensed 1 1 700006000000000a00000000290000000000
1 judged 1 1 retry
1 cleared 1 1
1 again 1 counted
1 ehend
1 state 0:0:0 offline
result 1 open 1
result 2 answered 00 00 0 0 - 0
skipped 7 nofailed
skipped 8 ehidle
skipped 9 ehidle
skipped 10 ehidle
skipped 19 notquiet
skipped 20 ehidle
skipped 25 ehrunning
skipped 26 ehrunning
skipped 27 ladderopen
skipped 28 ladderopen
skipped 29 recovery
skipped 31 ladderdone
skipped 32 flushleft
skipped 34 flushdone
skipped 36 ehidle
skipped 37 nofailed
end
";

/// Scripts with recovery, and their texts.
pub const RECOVERIES: [(&str, &str); 17] = [
    (TWO_RECOVERED, TWO_RECOVERED_TEXT),
    (SECOND_EXPIRY, SECOND_EXPIRY_TEXT),
    (NO_CALLBACKS, NO_CALLBACKS_TEXT),
    (LATE_AFTER_RECOVERY, LATE_AFTER_RECOVERY_TEXT),
    (FETCHED_SENSE, FETCHED_SENSE_TEXT),
    (START_UNIT, START_UNIT_TEXT),
    (RESET_STARTS, RESET_STARTS_TEXT),
    (CUT_DESCRIPTOR, CUT_DESCRIPTOR_TEXT),
    (LADDER_DONE, LADDER_DONE_TEXT),
    (OFFLINE_BEFORE, OFFLINE_BEFORE_TEXT),
    (FAILS_AGAIN, FAILS_AGAIN_TEXT),
    (SENSE_KEPT, SENSE_KEPT_TEXT),
    (TWO_DEVICES, TWO_DEVICES_TEXT),
    (TWICE, TWICE_TEXT),
    (ABORT_LEVEL, ABORT_LEVEL_TEXT),
    (HALF_READY, HALF_READY_TEXT),
    (CAUSES, CAUSES_TEXT),
];
