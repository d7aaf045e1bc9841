// Scripts with the text that is written for each, worked out from the rules of the steps by hand.

pub const FIRST: &str = "\
host 0 4 adtbh
lun 0 0:0:0 2048 8
cmd 1 0 0 0:0:0 30 5 - 000000000000
step 0 submit 0
step 0 send
step 0 send
step 0 tick
step 0 work
step 0 own 1 answer
step 0 settle 1
end stop
";

const FIRST_TEXT: &str = "\
host 0
0 took 1
0 sent 1 1 0
0 tick
1 ready 1 00 00 0 0 -
1 owned 1 answer
1 judged 1 1 success
1 told 1 00 00 0 0 -
result 1 answered 00 00 0 0 - 0
skipped 6 nosend
end
";

// Many step lines that are skipped.
const SKIPS: &str = "\
host 7 1 -
lun 7 1:2:3 1 1
cmd 9 7 0 1:2:3 2 0 - 000000000000
step 7 work
step 7 send
step 7 own 1 answer
step 7 settle 1
step 7 submit 0
step 7 submit 0
step 7 send
step 7 own 1 answer
step 7 own 2 answer
step 7 tick
step 7 tick
step 7 work
step 7 tick
step 7 work
step 7 settle 1
step 7 own 1 answer
step 7 own 1 answer
step 7 settle 1
step 7 settle 1
step 7 tick
end stop
";

const SKIPS_TEXT: &str = "\
host 7
0 took 9
0 sent 9 1 0
0 tick
1 ready 1 00 00 0 0 -
1 owned 1 answer
1 judged 9 1 success
1 told 9 00 00 0 0 -
1 tick
result 9 answered 00 00 0 0 - 0
skipped 4 nowork
skipped 5 nosend
skipped 6 notopen
skipped 7 notowned
skipped 9 lanedone
skipped 11 notready
skipped 12 notopen
skipped 14 workdue
skipped 16 answerwaiting
skipped 17 nowork
skipped 18 notowned
skipped 20 notopen
skipped 22 notowned
end
";

// A command is left open.
const STOPPED: &str = "\
host 0 4 adtbh
lun 0 0:0:0 2048 8
cmd 1 0 0 0:0:0 30 5 - 000000000000
step 0 submit 0
step 0 send
end stop
";

const STOPPED_TEXT: &str = "\
host 0
0 took 1
0 sent 1 1 0
result 1 open 0
end
";

// The host has one tag.
const ONE_TAG: &str = "\
host 0 1 -
lun 0 0:0:0 2048 8
cmd 1 0 0 0:0:0 30 5 - 000000000000
cmd 2 0 0 0:0:0 30 5 - 000000000000
step 0 submit 0
step 0 submit 0
step 0 send
step 0 send
end stop
";

const ONE_TAG_TEXT: &str = "\
host 0
0 took 1
0 took 2
0 sent 1 1 0
result 1 open 0
result 2 open 0
skipped 8 nosend
end
";

// The device is cancelled before its command is handed in.
const CANCELLED: &str = "\
host 0 4 adtbh
lun 0 0:0:0 2048 8
cmd 1 0 0 0:0:0 30 5 - 000000000000
step 0 state 0:0:0 cancel
step 0 submit 0
step 0 state 0:0:0 running
end stop
";

const CANCELLED_TEXT: &str = "\
host 0
0 state 0:0:0 cancel
0 told 1 01 00 0 0 -
result 1 noconnect 01 00 0 0 - 0
skipped 6 illegal
end
";

const MEDIUM_ERROR: &str = "\
host 0 4 adtbh
lun 0 0:0:0 2048 8
plan 0 0:0:0 check 1 1 1 3 11 00
cmd 1 0 0 0:0:0 30 5 - 28000000000000000100
step 0 submit 0
step 0 send
step 0 tick
step 0 work
step 0 own 1 answer
step 0 settle 1
end stop
";

const MEDIUM_ERROR_TEXT: &str = "\
host 0
0 took 1
0 sent 1 1 0
0 tick
1 ready 1 00 02 0 0 700003000000000a00000000110000000000
1 owned 1 answer
1 judged 1 1 success
1 told 1 00 02 0 0 700003000000000a00000000110000000000
result 1 answered 00 02 0 0 700003000000000a00000000110000000000 0
end
";

// Two answers are retried.
const COUNTED_RETRIES: &str = "\
host 0 4 adtbh
lun 0 0:0:0 2048 8
plan 0 0:0:0 check 1 1 2 b 00 00
cmd 1 0 0 0:0:0 30 5 - 28000000000000000100
step 0 submit 0
step 0 send
step 0 tick
step 0 work
step 0 own 1 answer
step 0 settle 1
step 0 tick
step 0 send
step 0 tick
step 0 work
step 0 own 2 answer
step 0 settle 2
step 0 tick
step 0 send
step 0 tick
step 0 work
step 0 own 3 answer
step 0 settle 3
end stop
";

const COUNTED_RETRIES_TEXT: &str = "\
host 0
0 took 1
0 sent 1 1 0
0 tick
1 ready 1 00 02 0 0 70000b000000000a00000000000000000000
1 owned 1 answer
1 judged 1 1 retry
1 again 1 counted
1 tick
2 sent 1 2 0
2 tick
3 ready 2 00 02 0 0 70000b000000000a00000000000000000000
3 owned 2 answer
3 judged 1 2 retry
3 again 1 counted
3 tick
4 sent 1 3 0
4 tick
5 ready 3 00 00 512 0 -
5 owned 3 answer
5 judged 1 3 success
5 told 1 00 00 512 0 -
result 1 answered 00 00 512 0 - 2
end
";

// No retry is allowed.
const NO_RETRIES: &str = "\
host 0 4 adtbh
lun 0 0:0:0 2048 8
plan 0 0:0:0 check 1 1 2 b 00 00
cmd 1 0 0 0:0:0 30 0 - 28000000000000000100
step 0 submit 0
step 0 send
step 0 tick
step 0 work
step 0 own 1 answer
step 0 settle 1
end stop
";

const NO_RETRIES_TEXT: &str = "\
host 0
0 took 1
0 sent 1 1 0
0 tick
1 ready 1 00 02 0 0 70000b000000000a00000000000000000000
1 owned 1 answer
1 judged 1 1 success
1 told 1 00 02 0 0 70000b000000000a00000000000000000000
result 1 answered 00 02 0 0 70000b000000000a00000000000000000000 0
end
";

// A device that is busy three times.
const BUSY: &str = "\
host 0 4 adtbh
lun 0 0:0:0 2048 8
plan 0 0:0:0 status 1 1 3 00 08
cmd 1 0 0 0:0:0 30 0 - 000000000000
step 0 submit 0
step 0 send
step 0 tick
step 0 work
step 0 own 1 answer
step 0 settle 1
step 0 tick
step 0 send
step 0 tick
step 0 work
step 0 own 2 answer
step 0 settle 2
step 0 tick
step 0 send
step 0 tick
step 0 work
step 0 own 3 answer
step 0 settle 3
step 0 tick
step 0 send
step 0 tick
step 0 work
step 0 own 4 answer
step 0 settle 4
end stop
";

const BUSY_TEXT: &str = "\
host 0
0 took 1
0 sent 1 1 0
0 tick
1 ready 1 00 08 0 0 -
1 owned 1 answer
1 judged 1 1 requeue
1 again 1 free
1 tick
2 sent 1 2 0
2 tick
3 ready 2 00 08 0 0 -
3 owned 2 answer
3 judged 1 2 requeue
3 again 1 free
3 tick
4 sent 1 3 0
4 tick
5 ready 3 00 08 0 0 -
5 owned 3 answer
5 judged 1 3 requeue
5 again 1 free
5 tick
6 sent 1 4 0
6 tick
7 ready 4 00 00 0 0 -
7 owned 4 answer
7 judged 1 4 success
7 told 1 00 00 0 0 -
result 1 answered 00 00 0 0 - 0
end
";

const FAILFAST: &str = "\
host 0 4 adtbh
lun 0 0:0:0 2048 8
plan 0 0:0:0 status 1 1 1 02 00
cmd 1 0 0 0:0:0 30 5 failfast 000000000000
step 0 submit 0
step 0 send
step 0 tick
step 0 work
step 0 own 1 answer
step 0 settle 1
end stop
";

const FAILFAST_TEXT: &str = "\
host 0
0 took 1
0 sent 1 1 0
0 tick
1 ready 1 02 00 0 0 -
1 owned 1 answer
1 judged 1 1 success
1 told 1 02 00 0 0 -
result 1 answered 02 00 0 0 - 0
end
";

// A block is written and read back, and a read goes past the end. The device takes one command at once.
const WRITE_AND_READ: &str = "\
host 0 4 adtbh
lun 0 0:0:0 2048 1
cmd 1 0 0 0:0:0 30 5 - 2a000000000700000100 01
cmd 2 0 0 0:0:0 30 5 - 28000000000700000100
cmd 3 0 0 0:0:0 30 5 - 28000000080000000100
step 0 submit 0
step 0 submit 0
step 0 submit 0
step 0 send
step 0 tick
step 0 work
step 0 own 1 answer
step 0 settle 1
step 0 tick
step 0 send
step 0 tick
step 0 work
step 0 own 2 answer
step 0 settle 2
step 0 tick
step 0 send
step 0 tick
step 0 work
step 0 own 3 answer
step 0 settle 3
end stop
";

const WRITE_AND_READ_TEXT: &str = "\
host 0
0 took 1
0 took 2
0 took 3
0 sent 1 1 0
0 tick
1 ready 1 00 00 512 0 -
1 owned 1 answer
1 judged 1 1 success
1 told 1 00 00 512 0 -
1 tick
2 sent 2 2 0
2 tick
3 ready 2 00 00 512 512 -
3 owned 2 answer
3 judged 2 2 success
3 told 2 00 00 512 512 -
3 tick
4 sent 3 3 0
4 tick
5 ready 3 00 02 0 0 700005000000000a00000000210000000000
5 owned 3 answer
5 judged 3 3 success
5 told 3 00 02 0 0 700005000000000a00000000210000000000
result 1 answered 00 00 512 0 - 0
result 2 answered 00 00 512 512 - 0
result 3 answered 00 02 0 0 700005000000000a00000000210000000000 0
end
";

// READ CAPACITY(10) and INQUIRY of page 83h.
const UNIT_COMMANDS: &str = "\
host 0 4 adtbh
lun 0 0:0:0 2048 8
cmd 1 0 0 0:0:0 30 5 - 25000000000000000000
cmd 2 0 0 0:0:0 30 5 - 12018300ff00
step 0 submit 0
step 0 submit 0
step 0 send
step 0 send
step 0 tick
step 0 work
step 0 work
step 0 own 1 answer
step 0 own 2 answer
step 0 settle 1
step 0 settle 2
end stop
";

const UNIT_COMMANDS_TEXT: &str = "\
host 0
0 took 1
0 took 2
0 sent 1 1 0
0 sent 2 2 1
0 tick
1 ready 1 00 00 8 264 -
1 ready 2 00 00 13 407 -
1 owned 1 answer
1 owned 2 answer
1 judged 1 1 success
1 told 1 00 00 8 264 -
1 judged 2 2 success
1 told 2 00 00 13 407 -
result 1 answered 00 00 8 264 - 0
result 2 answered 00 00 13 407 - 0
end
";

// TASK SET FULL lowers the depth of the device from 2 to 1.
const TAG_DEPTHS: &str = "\
host 0 4 -
lun 0 0:0:0 2048 2
plan 0 0:0:0 status 1 1 1 00 28
cmd 1 0 0 0:0:0 30 5 - 000000000000
cmd 2 0 0 0:0:0 30 5 - 000000000000
cmd 3 0 0 0:0:0 30 5 - 000000000000
step 0 submit 0
step 0 submit 0
step 0 submit 0
step 0 send
step 0 send
step 0 send
step 0 tick
step 0 work
step 0 work
step 0 own 1 answer
step 0 settle 1
step 0 tick
step 0 own 2 answer
step 0 tick
step 0 send
step 0 settle 2
step 0 send
step 0 send
end stop
";

const TAG_DEPTHS_TEXT: &str = "\
host 0
0 took 1
0 took 2
0 took 3
0 sent 1 1 0
0 sent 2 2 1
0 tick
1 ready 1 00 28 0 0 -
1 ready 2 00 00 0 0 -
1 owned 1 answer
1 judged 1 1 requeue
1 again 1 free
1 owned 2 answer
1 tick
2 judged 2 2 success
2 told 2 00 00 0 0 -
2 sent 1 3 0
result 1 open 0
result 2 answered 00 00 0 0 - 0
result 3 open 0
skipped 12 nosend
skipped 18 answerwaiting
skipped 21 nosend
skipped 24 nosend
end
";

// A host that is busy pauses until the next tick.
const BOUNCED: &str = "\
host 0 4 -
lun 0 0:0:0 2048 8
plan 0 0:0:0 hostbusy 1 1 1
cmd 1 0 0 0:0:0 30 5 - 000000000000
step 0 submit 0
step 0 send
step 0 send
step 0 tick
step 0 send
end stop
";

const BOUNCED_TEXT: &str = "\
host 0
0 took 1
0 sent 1 1 0
0 bounced 1 1 host
0 tick
1 sent 1 2 0
result 1 open 0
skipped 7 nosend
end
";

// Two hosts in descending numbers, each with its own plan, whose steps are made in turn.
const TWO_HOSTS: &str = "\
host 5 2 -
host 2 2 -
lun 5 0:0:0 2048 8
lun 2 0:0:0 2048 8
plan 5 0:0:0 status 1 1 1 02 00
plan 2 0:0:0 latency 1 1 1 2
cmd 9 5 0 0:0:0 30 0 - 000000000000
cmd 4 2 1 0:0:0 30 0 - 000000000000
step 2 submit 1
step 5 submit 0
step 5 send
step 2 send
step 5 tick
step 2 tick
step 2 work
step 5 work
step 2 own 1 answer
step 5 own 1 answer
step 2 tick
step 2 work
step 5 settle 1
step 2 own 1 answer
step 2 settle 1
end stop
";

const TWO_HOSTS_TEXT: &str = "\
host 2
0 took 4
0 sent 4 1 0
0 tick
1 tick
2 ready 1 00 00 0 0 -
2 owned 1 answer
2 judged 4 1 success
2 told 4 00 00 0 0 -
result 4 answered 00 00 0 0 - 0
host 5
0 took 9
0 sent 9 1 0
0 tick
1 ready 1 02 00 0 0 -
1 owned 1 answer
1 judged 9 1 success
1 told 9 02 00 0 0 -
result 9 answered 02 00 0 0 - 0
skipped 15 nowork
skipped 17 notready
end
";

// An attempt that reaches its deadline stops the ticks.
const EXPIRED: &str = "\
host 0 4 adtbh
lun 0 0:0:0 2048 8
plan 0 0:0:0 never 1 1 1
cmd 1 0 0 0:0:0 1 5 - 000000000000
step 0 submit 0
step 0 send
step 0 tick
step 0 tick
end stop
";

const EXPIRED_TEXT: &str = "\
host 0
0 took 1
0 sent 1 1 0
0 tick
result 1 open 0
skipped 8 expirywaiting
end
";

// A command that failed without sense stops the sending.
const RECOVERY: &str = "\
host 0 4 adtbh
lun 0 0:0:0 2048 8
plan 0 0:0:0 nosense 1 1 1 6 29 00
cmd 1 0 0 0:0:0 30 5 - 000000000000
cmd 2 0 0 0:0:0 30 5 - 000000000000
step 0 submit 0
step 0 submit 0
step 0 send
step 0 tick
step 0 work
step 0 own 1 answer
step 0 settle 1
step 0 send
end stop
";

const RECOVERY_TEXT: &str = "\
host 0
0 took 1
0 took 2
0 sent 1 1 0
0 tick
1 ready 1 00 02 0 0 -
1 owned 1 answer
1 judged 1 1 fail
1 failed 1 1 answered
result 1 open 0
result 2 open 0
skipped 13 recovery
end
";

/// Scripts that are played, and their texts.
pub const PLAYED: [(&str, &str); 17] = [
    (FIRST, FIRST_TEXT),
    (SKIPS, SKIPS_TEXT),
    (STOPPED, STOPPED_TEXT),
    (ONE_TAG, ONE_TAG_TEXT),
    (CANCELLED, CANCELLED_TEXT),
    (MEDIUM_ERROR, MEDIUM_ERROR_TEXT),
    (COUNTED_RETRIES, COUNTED_RETRIES_TEXT),
    (NO_RETRIES, NO_RETRIES_TEXT),
    (BUSY, BUSY_TEXT),
    (FAILFAST, FAILFAST_TEXT),
    (WRITE_AND_READ, WRITE_AND_READ_TEXT),
    (UNIT_COMMANDS, UNIT_COMMANDS_TEXT),
    (TAG_DEPTHS, TAG_DEPTHS_TEXT),
    (BOUNCED, BOUNCED_TEXT),
    (TWO_HOSTS, TWO_HOSTS_TEXT),
    (EXPIRED, EXPIRED_TEXT),
    (RECOVERY, RECOVERY_TEXT),
];

/// Scripts and where they end: the read and the write that fail (0 for none), the status and what is written.
pub const ENDS: [(&str, u64, u64, u8, &str); 9] = [
    (FIRST, 0, 2, 5, "host 0\n"),
    (FIRST, 3, 0, 4, ""),
    (
        "\
host 0 4 adtbh
hello
",
        0,
        0,
        3,
        "bad line 2 kind 1\n",
    ),
    (
        "\
host 0 4 adtbh
hello
",
        0,
        1,
        5,
        "",
    ),
    ("", 0, 0, 3, "bad line 1 kind 9\n"),
    ("end stop\n", 0, 0, 0, "end\n"),
    (
        "\
host 0 4 adtbh
lun 0 0:0:0 2048 8
cmd 1 0 0 0:0:0 30 5 - 00000",
        0,
        0,
        3,
        "bad line 3 kind 5\n",
    ),
    ("host 0 4 adtbh\n", 0, 0, 3, "bad line 2 kind 9\n"),
    (
        "\
host 0 4 adtbh
lun 0 0:0:0 2048 8
lun 0 0:0:0 2048 8
end stop
",
        0,
        0,
        3,
        "bad line 3 kind 6\n",
    ),
];
