// Scripts whose hosts and devices are busy, pause or change their state, so that steps are skipped, and the text that is written
// for each, worked out from the rules of the steps by hand.

// A command that waits again pauses its device: another command of it isn't sent before the tick, one of another is.
const AGAIN_PAUSES: &str = "\
host 0 4 adtbh
lun 0 0:0:0 2048 8
lun 0 0:0:1 2048 8
plan 0 0:0:0 status 1 1 1 00 08
cmd 1 0 0 0:0:0 30 5 - 000000000000
cmd 2 0 0 0:0:0 30 5 - 000000000000
cmd 3 0 0 0:0:1 30 5 - 000000000000
step 0 submit 0
step 0 send
step 0 tick
step 0 work
step 0 own 1 answer
step 0 settle 1
step 0 submit 0
step 0 submit 0
step 0 send
step 0 send
step 0 tick
step 0 send
step 0 send
step 0 send
end stop
";

const AGAIN_PAUSES_TEXT: &str = "\
host 0
0 took 1
0 sent 1 1 0
0 tick
1 ready 1 00 08 0 0 -
1 owned 1 answer
1 judged 1 1 requeue
1 again 1 free
1 took 2
1 took 3
1 sent 3 2 0
1 tick
2 sent 1 3 1
2 sent 2 4 2
result 1 open 0
result 2 open 0
result 3 open 0
skipped 17 nosend
skipped 21 nosend
end
";

// A device that was busy is sent nothing before the tick, another one is.
const BUSY_DEVICE: &str = "\
host 0 4 adtbh
lun 0 0:0:0 2048 8
lun 0 0:0:1 2048 8
plan 0 0:0:0 busy 1 1 1
cmd 1 0 0 0:0:0 30 5 - 000000000000
cmd 2 0 0 0:0:0 30 5 - 000000000000
cmd 3 0 0 0:0:1 30 5 - 000000000000
step 0 submit 0
step 0 submit 0
step 0 submit 0
step 0 send
step 0 send
step 0 send
step 0 tick
step 0 send
step 0 send
step 0 send
end stop
";

const BUSY_DEVICE_TEXT: &str = "\
host 0
0 took 1
0 took 2
0 took 3
0 sent 1 1 0
0 bounced 1 1 device
0 sent 3 2 0
0 tick
1 sent 1 3 1
1 sent 2 4 2
result 1 open 0
result 2 open 0
result 3 open 0
skipped 13 nosend
skipped 17 nosend
end
";

// A device and then the host are busy in one tick.
const BOTH_BUSY: &str = "\
host 0 4 adtbh
lun 0 0:0:0 2048 8
lun 0 0:0:1 2048 8
lun 0 0:1:0 2048 8
plan 0 0:0:0 busy 1 1 1
plan 0 0:0:1 hostbusy 1 1 1
cmd 1 0 0 0:0:0 30 5 - 000000000000
cmd 2 0 0 0:0:1 30 5 - 000000000000
cmd 3 0 0 0:1:0 30 5 - 000000000000
step 0 submit 0
step 0 submit 0
step 0 submit 0
step 0 send
step 0 send
step 0 send
step 0 tick
step 0 send
step 0 send
step 0 send
end stop
";

const BOTH_BUSY_TEXT: &str = "\
host 0
0 took 1
0 took 2
0 took 3
0 sent 1 1 0
0 bounced 1 1 device
0 sent 2 2 0
0 bounced 2 2 host
0 tick
1 sent 1 3 0
1 sent 2 4 1
1 sent 3 5 2
result 1 open 0
result 2 open 0
result 3 open 0
skipped 15 nosend
end
";

// Answers with the statuses BUSY and TASK SET FULL in one tick.
const BOTH_ANSWERS: &str = "\
host 0 4 adtbh
lun 0 0:0:0 2048 8
lun 0 0:0:1 2048 8
plan 0 0:0:0 status 1 1 1 00 08
plan 0 0:0:1 status 1 1 1 00 28
cmd 1 0 0 0:0:0 30 5 - 000000000000
cmd 2 0 0 0:0:1 30 5 - 000000000000
step 0 submit 0
step 0 submit 0
step 0 send
step 0 send
step 0 tick
step 0 work
step 0 work
step 0 own 1 answer
step 0 own 2 answer
step 0 settle 1
step 0 settle 2
step 0 send
step 0 tick
step 0 send
step 0 send
end stop
";

const BOTH_ANSWERS_TEXT: &str = "\
host 0
0 took 1
0 took 2
0 sent 1 1 0
0 sent 2 2 1
0 tick
1 ready 1 00 08 0 0 -
1 ready 2 00 28 0 0 -
1 owned 1 answer
1 owned 2 answer
1 judged 1 1 requeue
1 again 1 free
1 judged 2 2 requeue
1 again 2 free
1 tick
2 sent 1 3 0
2 sent 2 4 1
result 1 open 0
result 2 open 0
skipped 19 nosend
end
";

// A command is reported when it would be sent to a device that went offline.
const OFFLINE_DEVICE: &str = "\
host 0 4 adtbh
lun 0 0:0:0 2048 8
cmd 1 0 0 0:0:0 30 5 - 000000000000
step 0 submit 0
step 0 state 0:0:0 offline
step 0 send
step 0 send
end stop
";

const OFFLINE_DEVICE_TEXT: &str = "\
host 0
0 took 1
0 state 0:0:0 offline
0 told 1 01 00 0 0 -
result 1 noconnect 01 00 0 0 - 0
skipped 7 nosend
end
";

// A device that is quiesced is online, and is sent nothing.
const QUIESCED_DEVICE: &str = "\
host 0 4 adtbh
lun 0 0:0:0 2048 8
cmd 1 0 0 0:0:0 30 5 - 000000000000
step 0 submit 0
step 0 state 0:0:0 quiesce
step 0 send
step 0 state 0:0:0 running
step 0 send
end stop
";

const QUIESCED_DEVICE_TEXT: &str = "\
host 0
0 took 1
0 state 0:0:0 quiesce
0 state 0:0:0 running
0 sent 1 1 0
result 1 open 0
skipped 6 nosend
end
";

// Each cause for which a step is skipped. The second command has two ticks.
const CAUSES: &str = "\
host 0 4 adtbh
lun 0 0:0:0 2048 8
lun 0 0:0:1 2048 8
plan 0 0:0:0 nosense 1 1 1 6 29 00
plan 0 0:0:1 never 1 1 1
cmd 1 0 0 0:0:0 30 5 - 000000000000
cmd 2 0 0 0:0:1 2 5 - 000000000000
step 0 send
step 0 work
step 0 own 1 answer
step 0 settle 1
step 0 state 0:0:0 running
step 0 submit 0
step 0 submit 0
step 0 submit 0
step 0 send
step 0 send
step 0 own 1 answer
step 0 tick
step 0 tick
step 0 work
step 0 tick
step 0 own 1 answer
step 0 settle 1
step 0 send
step 0 tick
step 0 tick
end stop
";

const CAUSES_TEXT: &str = "\
host 0
0 took 1
0 took 2
0 sent 1 1 0
0 sent 2 2 1
0 tick
1 ready 1 00 02 0 0 -
1 owned 1 answer
1 judged 1 1 fail
1 failed 1 1 answered
1 tick
result 1 open 0
result 2 open 0
skipped 8 nosend
skipped 9 nowork
skipped 10 notopen
skipped 11 notowned
skipped 12 illegal
skipped 15 lanedone
skipped 18 notready
skipped 20 workdue
skipped 22 answerwaiting
skipped 25 recovery
skipped 27 expirywaiting
end
";

/// Scripts in which steps are barred, and their texts.
pub const BARRED: [(&str, &str); 7] = [
    (AGAIN_PAUSES, AGAIN_PAUSES_TEXT),
    (BUSY_DEVICE, BUSY_DEVICE_TEXT),
    (BOTH_BUSY, BOTH_BUSY_TEXT),
    (BOTH_ANSWERS, BOTH_ANSWERS_TEXT),
    (OFFLINE_DEVICE, OFFLINE_DEVICE_TEXT),
    (QUIESCED_DEVICE, QUIESCED_DEVICE_TEXT),
    (CAUSES, CAUSES_TEXT),
];
