// Scripts with devices that are found by scanning, and the text that is written for each, worked out from the rules of scanning and
// of the steps by hand.

// Two targets, of which one doesn't answer INQUIRY.
const THREE: &str = "\
host 0 4 adtbh
lun 0 0:0:0 2048 8 scan
lun 0 0:0:256 2048 8 scan
lun 0 0:1:0 2048 8 scan
plan 0 0:1:0 silent 1 1 1
cmd 1 0 0 0:0:256 30 5 - 000000000000
cmd 2 0 0 0:1:0 30 5 - 000000000000
end drain
";

// It doesn't answer REPORT LUNS.
const NO_LIST: &str = "\
host 0 4 adtbh
lun 0 0:0:0 2048 8 scan
lun 0 0:0:256 2048 8 scan
lun 0 0:1:0 2048 8 scan
plan 0 0:1:0 silent 2 1 1
cmd 1 0 0 0:0:256 30 5 - 000000000000
cmd 2 0 0 0:1:0 30 5 - 000000000000
end drain
";

// It has no logical unit 0, and so lists nothing.
const NO_ZERO: &str = "\
host 0 4 adtbh
lun 0 0:0:0 2048 8
lun 0 0:0:256 2048 8 scan
lun 0 0:1:7 2048 8 scan
cmd 1 0 0 0:0:256 30 5 - 000000000000
cmd 2 0 0 0:1:7 30 5 - 000000000000
end drain
";

const ONE_FOUND_TEXT: &str = "\
host 0
0 took 1
0 told 2 01 00 0 0 -
0 sent 1 1 0
0 tick
1 ready 1 00 00 0 0 -
1 owned 1 answer
1 judged 1 1 success
1 told 1 00 00 0 0 -
result 1 answered 00 00 0 0 - 0
result 2 noconnect 01 00 0 0 - 0
end
";

// The probes of recovery are counted on from the two of the scan: the third is that of level 4.
const THIRD_SILENT: &str = "\
host 0 4 adtbh
lun 0 0:0:0 2048 8 scan
plan 0 0:0:0 never 1 1 1
plan 0 0:0:0 abortfail 1 1 1
plan 0 0:0:0 silent 3 1 1
cmd 1 0 0 0:0:0 2 5 - 000000000000
end drain
";

const THIRD_SILENT_TEXT: &str = "\
host 0
0 took 1
0 sent 1 1 0
0 tick
1 tick
2 due 1
2 owned 1 expiry
2 abortset 1 1
2 aborted 1 1 failed
2 failed 1 1 cancelled
2 ehbegin
2 act 4 0:0:0 ok
2 probe 0:0:0 00 silent
2 act 5 0:0 ok
2 probe 0:0:0 00 00 02 0 0 700006000000000a00000000290000000000
2 probe 0:0:0 00 00 00 0 0 -
2 cleared 1 5
2 again 1 counted
2 ehend
2 tick
3 sent 1 2 0
3 tick
4 ready 2 00 00 0 0 -
4 owned 2 answer
4 judged 1 2 success
4 told 1 00 00 0 0 -
result 1 answered 00 00 0 0 - 1
end
";

// From one where INQUIRY wasn't answered, by a unit that isn't itself found by scanning.
const SECOND_SILENT: &str = "\
host 0 4 adtbh
lun 0 0:0:0 2048 8
lun 0 0:0:1 2048 8 scan
plan 0 0:0:0 never 1 1 1
plan 0 0:0:0 abortfail 1 1 1
plan 0 0:0:0 silent 1 1 2
cmd 1 0 0 0:0:0 2 5 - 000000000000
cmd 2 0 0 0:0:1 2 5 - 000000000000
end drain
";

// And from two where REPORT LUNS wasn't.
const LIST_SILENT: &str = "\
host 0 4 adtbh
lun 0 0:0:0 2048 8
lun 0 0:0:1 2048 8 scan
plan 0 0:0:0 never 1 1 1
plan 0 0:0:0 abortfail 1 1 1
plan 0 0:0:0 silent 2 1 2
cmd 1 0 0 0:0:0 2 5 - 000000000000
cmd 2 0 0 0:0:1 2 5 - 000000000000
end drain
";

const ZERO_RECOVERED_TEXT: &str = "\
host 0
0 took 1
0 told 2 01 00 0 0 -
0 sent 1 1 0
0 tick
1 tick
2 due 1
2 owned 1 expiry
2 abortset 1 1
2 aborted 1 1 failed
2 failed 1 1 cancelled
2 ehbegin
2 act 4 0:0:0 ok
2 probe 0:0:0 00 silent
2 act 5 0:0 ok
2 probe 0:0:0 00 00 02 0 0 700006000000000a00000000290000000000
2 probe 0:0:0 00 00 00 0 0 -
2 cleared 1 5
2 again 1 counted
2 ehend
2 tick
3 sent 1 2 0
3 tick
4 ready 2 00 00 0 0 -
4 owned 2 answer
4 judged 1 2 success
4 told 1 00 00 0 0 -
result 1 answered 00 00 0 0 - 1
result 2 noconnect 01 00 0 0 - 0
end
";

// A device that wasn't found can't be set running.
const STAYS_AWAY: &str = "\
host 0 4 -
lun 0 0:1:0 8 1 scan
plan 0 0:1:0 silent 1 1 1
step 0 state 0:1:0 running
end stop
";

const STAYS_AWAY_TEXT: &str = "\
host 0
skipped 4 illegal
end
";

// Each host's targets are its own.
const TWO_HOSTS: &str = "\
host 1 4 -
host 0 4 -
lun 1 0:0:0 8 1 scan
lun 0 0:0:0 8 1 scan
plan 0 0:0:0 silent 1 1 1
cmd 1 1 0 0:0:0 30 5 - 000000000000
cmd 2 0 0 0:0:0 30 5 - 000000000000
step 1 submit 0
step 0 submit 0
end stop
";

const TWO_HOSTS_TEXT: &str = "\
host 0
0 told 2 01 00 0 0 -
result 2 noconnect 01 00 0 0 - 0
host 1
0 took 1
result 1 open 0
end
";

pub const SCANNED: [(&str, &str); 8] = [
    (THREE, ONE_FOUND_TEXT),
    (NO_LIST, ONE_FOUND_TEXT),
    (NO_ZERO, ONE_FOUND_TEXT),
    (THIRD_SILENT, THIRD_SILENT_TEXT),
    (SECOND_SILENT, ZERO_RECOVERED_TEXT),
    (LIST_SILENT, ZERO_RECOVERED_TEXT),
    (STAYS_AWAY, STAYS_AWAY_TEXT),
    (TWO_HOSTS, TWO_HOSTS_TEXT),
];
