use crate::commands::{FIRST, OTHER, SECOND};
use crate::simulated::Ending::{self, Answered, Cancelled};
use mid_base::DevAddr;

// Scripts of a host with two units of a target and one on another channel, the commands of it that failed, in order, and the
// text that is printed of their climb, worked out from the rules of the levels (`scsi_eh.rst`, "How SCSI EH works") by hand.
// A reset leaves a unit attention, so a device is ready at the second test after it.

// Both commands of a device are cleared by its reset, in the order in which they failed; it is ready at its second test.
const RESET_DEVICE: &str = "\
host 0 16 d
lun 0 0:0:0 64 8
lun 0 0:0:1 64 8
lun 0 1:0:0 64 8
end stop
";

const RESET_DEVICE_TEXT: &str = "\
host 0
0 act 4 0:0:0 ok
0 probe 0:0:0 00 00 02 0 0 700006000000000a00000000290000000000
0 probe 0:0:0 00 00 00 0 0 -
0 cleared 2 4
0 cleared 1 4
";

// The reset of the device fails.
const RESET_TARGET: &str = "\
host 0 16 adtbh
lun 0 0:0:0 64 8
lun 0 0:0:1 64 8
lun 0 1:0:0 64 8
plan 0 0:0:0 rdev 1 1 1
end stop
";

const RESET_TARGET_TEXT: &str = "\
host 0
0 act 4 0:0:0 failed
0 act 5 0:0 ok
0 probe 0:0:0 00 00 02 0 0 700006000000000a00000000290000000000
0 probe 0:0:0 00 00 00 0 0 -
0 cleared 1 5
";

// That of the target too.
const RESET_BUS: &str = "\
host 0 16 adtbh
lun 0 0:0:0 64 8
lun 0 0:0:1 64 8
lun 0 1:0:0 64 8
plan 0 0:0:0 rdev 1 1 1
plan 0 0:0:0 rtgt 1 1 1
end stop
";

const RESET_BUS_TEXT: &str = "\
host 0
0 act 4 0:0:0 failed
0 act 5 0:0 failed
0 act 6 0 ok
0 probe 0:0:0 00 00 02 0 0 700006000000000a00000000290000000000
0 probe 0:0:0 00 00 00 0 0 -
0 cleared 1 6
";

// That of the bus too.
const RESET_HOST: &str = "\
host 0 16 adtbh
lun 0 0:0:0 64 8
lun 0 0:0:1 64 8
lun 0 1:0:0 64 8
plan 0 0:0:0 rdev 1 1 1
plan 0 0:0:0 rtgt 1 1 1
plan 0 0:0:0 rbus 1 1 1
end stop
";

const RESET_HOST_TEXT: &str = "\
host 0
0 act 4 0:0:0 failed
0 act 5 0:0 failed
0 act 6 0 failed
0 act 7 - ok
0 probe 0:0:0 00 00 02 0 0 700006000000000a00000000290000000000
0 probe 0:0:0 00 00 00 0 0 -
0 cleared 1 7
";

// Each reset fails, so the device goes offline.
const ALL_RESETS_FAIL: &str = "\
host 0 16 adtbh
lun 0 0:0:0 64 8
lun 0 0:0:1 64 8
lun 0 1:0:0 64 8
plan 0 0:0:0 rdev 1 1 1
plan 0 0:0:0 rtgt 1 1 1
plan 0 0:0:0 rbus 1 1 1
plan 0 0:0:0 rhost 1 1 1
end stop
";

const ALL_RESETS_FAIL_TEXT: &str = "\
host 0
0 act 4 0:0:0 failed
0 act 5 0:0 failed
0 act 6 0 failed
0 act 7 - failed
0 act 8 0:0:0 ok
0 offline 0:0:0
0 cleared 1 8
";

// A host without callbacks fails at each level alike.
const NO_CALLBACKS: &str = "\
host 0 16 -
lun 0 0:0:0 64 8
lun 0 0:0:1 64 8
lun 0 1:0:0 64 8
end stop
";

const NO_CALLBACKS_TEXT: &str = "\
host 0
0 act 4 0:0:0 failed
0 act 5 0:0 failed
0 act 6 0 failed
0 act 7 - failed
0 act 8 0:0:0 ok
0 offline 0:0:0
0 cleared 1 8
";

// Each channel has its own resets, in the order of addresses.
const TWO_BUSES: &str = "\
host 0 16 b
lun 0 0:0:0 64 8
lun 0 0:0:1 64 8
lun 0 1:0:0 64 8
end stop
";

const TWO_BUSES_TEXT: &str = "\
host 0
0 act 4 0:0:0 failed
0 act 4 1:0:0 failed
0 act 5 0:0 failed
0 act 5 1:0 failed
0 act 6 0 ok
0 probe 0:0:0 00 00 02 0 0 700006000000000a00000000290000000000
0 probe 0:0:0 00 00 00 0 0 -
0 cleared 2 6
0 act 6 1 ok
0 probe 1:0:0 00 00 02 0 0 700006000000000a00000000290000000000
0 probe 1:0:0 00 00 00 0 0 -
0 cleared 1 6
";

// A target's reset leaves the commands of the other channel, whose own target isn't reset.
const TARGET_AND_BUS: &str = "\
host 0 16 adtbh
lun 0 0:0:0 64 8
lun 0 0:0:1 64 8
lun 0 1:0:0 64 8
plan 0 0:0:0 rdev 1 1 1
plan 0 1:0:0 rdev 1 1 1
plan 0 1:0:0 rtgt 1 1 1
end stop
";

const TARGET_AND_BUS_TEXT: &str = "\
host 0
0 act 4 0:0:0 failed
0 act 4 1:0:0 failed
0 act 5 0:0 ok
0 probe 0:0:0 00 00 02 0 0 700006000000000a00000000290000000000
0 probe 0:0:0 00 00 00 0 0 -
0 cleared 2 5
0 act 5 1:0 failed
0 act 6 1 ok
0 probe 1:0:0 00 00 02 0 0 700006000000000a00000000290000000000
0 probe 1:0:0 00 00 00 0 0 -
0 cleared 1 6
";

// A device that is silent at its test isn't ready, and isn't tested again.
const SILENT_AT_FIRST: &str = "\
host 0 16 adtbh
lun 0 0:0:0 64 8
lun 0 0:0:1 64 8
lun 0 1:0:0 64 8
plan 0 0:0:0 silent 1 1 1
end stop
";

const SILENT_AT_FIRST_TEXT: &str = "\
host 0
0 act 4 0:0:0 ok
0 probe 0:0:0 00 silent
0 act 5 0:0 ok
0 probe 0:0:0 00 00 02 0 0 700006000000000a00000000290000000000
0 probe 0:0:0 00 00 00 0 0 -
0 cleared 1 5
";

// Nor is one that is silent at its second test.
const SILENT_AT_SECOND: &str = "\
host 0 16 adtbh
lun 0 0:0:0 64 8
lun 0 0:0:1 64 8
lun 0 1:0:0 64 8
plan 0 0:0:0 silent 2 1 1
end stop
";

const SILENT_AT_SECOND_TEXT: &str = "\
host 0
0 act 4 0:0:0 ok
0 probe 0:0:0 00 00 02 0 0 700006000000000a00000000290000000000
0 probe 0:0:0 00 silent
0 act 5 0:0 ok
0 probe 0:0:0 00 00 02 0 0 700006000000000a00000000290000000000
0 probe 0:0:0 00 00 00 0 0 -
0 cleared 1 5
";

// A target's reset clears the commands of its ready device alone.
const ONE_OF_TWO_IS_READY: &str = "\
host 0 16 t
lun 0 0:0:0 64 8
lun 0 0:0:1 64 8
lun 0 1:0:0 64 8
plan 0 0:0:1 silent 1 1 1
end stop
";

const ONE_OF_TWO_IS_READY_TEXT: &str = "\
host 0
0 act 4 0:0:0 failed
0 act 4 0:0:1 failed
0 act 5 0:0 ok
0 probe 0:0:0 00 00 02 0 0 700006000000000a00000000290000000000
0 probe 0:0:0 00 00 00 0 0 -
0 probe 0:0:1 00 silent
0 cleared 1 5
0 act 6 0 failed
0 act 7 - failed
0 act 8 0:0:1 ok
0 offline 0:0:1
0 cleared 2 8
";

// Fetched sense of a reset clears its command.
const FETCHED_SENSE: &str = "\
host 0 16 adtbh
lun 0 0:0:0 64 8
lun 0 0:0:1 64 8
lun 0 1:0:0 64 8
plan 0 0:0:0 nosense 1 1 1 6 29 00
end stop
";

const FETCHED_SENSE_TEXT: &str = "\
host 0
0 act 1 1 ok
0 probe 0:0:0 03 00 00 18 169 -
0 sensed 1 1 700006000000000a00000000290000000000
0 judged 1 1 retry
0 cleared 1 1
";

// Sense in the descriptor format, whose descriptor of 12 bytes is cut after four, isn't valid; the device has none to fetch.
const CUT_SENSE: &str = "\
host 0 16 adtbh
lun 0 0:0:0 64 8
lun 0 0:0:1 64 8
lun 0 1:0:0 64 8
plan 0 0:0:0 raw 1 1 1 720311000000000c000a8000
end stop
";

const CUT_SENSE_TEXT: &str = "\
host 0
0 act 1 1 ok
0 probe 0:0:0 03 00 00 18 122 -
0 sensed 1 1 700000000000000a00000000000000000000
0 judged 1 1 success
0 cleared 1 1
";

// A command that fails again by its fetched sense keeps it: its unit is started.
const JUDGED_FAIL_AGAIN: &str = "\
host 0 16 adtbh
lun 0 0:0:0 64 8
lun 0 0:0:1 64 8
lun 0 1:0:0 64 8
plan 0 0:0:0 nosense 1 1 1 2 04 02
end stop
";

const JUDGED_FAIL_AGAIN_TEXT: &str = "\
host 0
0 act 1 1 ok
0 probe 0:0:0 03 00 00 18 130 -
0 sensed 1 1 700002000000000a00000000040200000000
0 judged 1 1 fail
0 act 3 0:0:0 ok
0 probe 0:0:0 1b 00 00 0 0 -
0 probe 0:0:0 00 00 00 0 0 -
0 cleared 1 3
";

// A stopped unit is started.
const STOPPED_UNIT: &str = "\
host 0 16 adtbh
lun 0 0:0:0 64 8 stopped
lun 0 0:0:1 64 8
lun 0 1:0:0 64 8
end stop
";

const STOPPED_UNIT_TEXT: &str = "\
host 0
0 act 3 0:0:0 ok
0 probe 0:0:0 1b 00 00 0 0 -
0 probe 0:0:0 00 00 00 0 0 -
0 cleared 1 3
";

// But not where a command of it was cancelled.
const STOPPED_BESIDE_CANCELLED: &str = "\
host 0 16 d
lun 0 0:0:0 64 8 stopped
lun 0 0:0:1 64 8
lun 0 1:0:0 64 8
end stop
";

const STOPPED_BESIDE_CANCELLED_TEXT: &str = "\
host 0
0 act 4 0:0:0 ok
0 probe 0:0:0 00 00 02 0 0 700006000000000a00000000290000000000
0 probe 0:0:0 00 00 00 0 0 -
0 cleared 1 4
0 cleared 2 4
";

// A host without asynchronous aborts makes them here; one of two fails.
const ABORTED: &str = "\
host 0 16 adtbh noasync
lun 0 0:0:0 64 8
lun 0 0:0:1 64 8
lun 0 1:0:0 64 8
plan 0 0:0:0 abortfail 1 1 1
end stop
";

const ABORTED_TEXT: &str = "\
host 0
0 act 2 1 failed
0 act 2 2 ok
0 probe 0:0:0 00 00 00 0 0 -
0 cleared 2 2
0 act 4 0:0:0 ok
0 probe 0:0:0 00 00 02 0 0 700006000000000a00000000290000000000
0 probe 0:0:0 00 00 00 0 0 -
0 cleared 1 4
";

// The climb that the documentation of `escalation` shows.
const EXAMPLE: &str = "\
host 0 16 d
lun 0 0:0:0 64 8
lun 0 0:0:1 64 8
lun 0 1:0:0 64 8
plan 0 1:0:0 nosense 1 1 1 6 29 00
end stop
";

const EXAMPLE_TEXT: &str = "\
host 0
0 act 1 3 ok
0 probe 1:0:0 03 00 00 18 169 -
0 sensed 3 3 700006000000000a00000000290000000000
0 judged 3 3 retry
0 cleared 3 1
0 act 4 0:0:0 ok
0 probe 0:0:0 00 00 02 0 0 700006000000000a00000000290000000000
0 probe 0:0:0 00 00 00 0 0 -
0 cleared 1 4
0 cleared 2 4
";

/// Scripts, the failed commands by id, attempt, unit and ending, and the texts.
pub(crate) const CLIMBS: [(&str, &[(u32, u64, DevAddr, Ending)], &str); 18] = [
    (
        RESET_DEVICE,
        &[(2, 1, FIRST, Cancelled), (1, 2, FIRST, Cancelled)],
        RESET_DEVICE_TEXT,
    ),
    (RESET_TARGET, &[(1, 1, FIRST, Cancelled)], RESET_TARGET_TEXT),
    (RESET_BUS, &[(1, 1, FIRST, Cancelled)], RESET_BUS_TEXT),
    (RESET_HOST, &[(1, 1, FIRST, Cancelled)], RESET_HOST_TEXT),
    (
        ALL_RESETS_FAIL,
        &[(1, 1, FIRST, Cancelled)],
        ALL_RESETS_FAIL_TEXT,
    ),
    (NO_CALLBACKS, &[(1, 1, FIRST, Cancelled)], NO_CALLBACKS_TEXT),
    (
        TWO_BUSES,
        &[(1, 1, OTHER, Cancelled), (2, 2, FIRST, Cancelled)],
        TWO_BUSES_TEXT,
    ),
    (
        TARGET_AND_BUS,
        &[(1, 1, OTHER, Cancelled), (2, 2, FIRST, Cancelled)],
        TARGET_AND_BUS_TEXT,
    ),
    (
        SILENT_AT_FIRST,
        &[(1, 1, FIRST, Cancelled)],
        SILENT_AT_FIRST_TEXT,
    ),
    (
        SILENT_AT_SECOND,
        &[(1, 1, FIRST, Cancelled)],
        SILENT_AT_SECOND_TEXT,
    ),
    (
        ONE_OF_TWO_IS_READY,
        &[(2, 1, SECOND, Cancelled), (1, 2, FIRST, Cancelled)],
        ONE_OF_TWO_IS_READY_TEXT,
    ),
    (
        FETCHED_SENSE,
        &[(1, 1, FIRST, Answered)],
        FETCHED_SENSE_TEXT,
    ),
    (CUT_SENSE, &[(1, 1, FIRST, Answered)], CUT_SENSE_TEXT),
    (
        JUDGED_FAIL_AGAIN,
        &[(1, 1, FIRST, Answered)],
        JUDGED_FAIL_AGAIN_TEXT,
    ),
    (STOPPED_UNIT, &[(1, 1, FIRST, Answered)], STOPPED_UNIT_TEXT),
    (
        STOPPED_BESIDE_CANCELLED,
        &[(1, 1, FIRST, Answered), (2, 2, FIRST, Cancelled)],
        STOPPED_BESIDE_CANCELLED_TEXT,
    ),
    (
        ABORTED,
        &[(1, 1, FIRST, Cancelled), (2, 2, FIRST, Cancelled)],
        ABORTED_TEXT,
    ),
    (
        EXAMPLE,
        &[
            (1, 1, FIRST, Cancelled),
            (2, 2, FIRST, Cancelled),
            (3, 3, OTHER, Answered),
        ],
        EXAMPLE_TEXT,
    ),
];
