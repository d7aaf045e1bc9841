use mid_base::{CHECK_CONDITION, GOOD};

// Scripts of one command over a lower layer that lies, and the text that is printed, worked out from the rules of the steps by
// hand. The answers come in turn, each with the tick from which on it is due, its attempt and its status, without sense data.
// The probes are answered GOOD in turn, each with its data-in. Aborts succeed.

pub(crate) type Lying = (
    &'static str,
    &'static [(u64, u64, u8)],
    &'static [&'static [u8]],
    &'static str,
);

// A second answer comes once the attempt belongs to the first one, and stops the ticks.
const SECOND_ANSWER: &str = "\
host 0 4 adtbh
lun 0 0:0:0 2048 8
cmd 1 0 0 0:0:0 30 5 - 000000000000
step 0 submit 0
step 0 send
step 0 work
step 0 own 1 answer
step 0 tick
step 0 work
step 0 tick
end stop
";

const SECOND_ANSWER_TEXT: &str = "\
host 0
0 took 1
0 sent 1 1 0
0 ready 1 00 00 0 0 -
0 owned 1 answer
0 ready 1 00 00 0 0 -
result 1 open 0
skipped 8 workdue
skipped 10 answerwaiting
end
";

// The first of three answers is judged, and each of the two others has to be ignored before time goes on.
const THREE_ANSWERS: &str = "\
host 0 4 adtbh
lun 0 0:0:0 2048 8
cmd 1 0 0 0:0:0 30 5 - 000000000000
step 0 submit 0
step 0 send
step 0 work
step 0 work
step 0 work
step 0 own 1 answer
step 0 settle 1
step 0 drop 1
step 0 tick
step 0 drop 1
step 0 drop 1
step 0 tick
end stop
";

const THREE_ANSWERS_TEXT: &str = "\
host 0
0 took 1
0 sent 1 1 0
0 ready 1 00 00 0 0 -
0 ready 1 00 00 0 0 -
0 ready 1 00 00 0 0 -
0 owned 1 answer
0 judged 1 1 success
0 told 1 00 00 0 0 -
0 late 1
0 late 1
0 tick
result 1 answered 00 00 0 0 - 0
skipped 12 answerwaiting
skipped 14 notlate
end
";

// An answer of the attempt that is sent next isn't its answer.
const EARLY_ANSWER: &str = "\
host 0 4 adtbh
lun 0 0:0:0 2048 8
cmd 1 0 0 0:0:0 30 5 - 000000000000
step 0 work
step 0 submit 0
step 0 send
step 0 own 1 answer
step 0 drop 1
step 0 tick
end stop
";

const EARLY_ANSWER_TEXT: &str = "\
host 0
0 ready 1 00 00 0 0 -
0 took 1
0 sent 1 1 0
0 late 1
0 tick
result 1 open 0
skipped 7 notready
end
";

// The attempt that is answered is never sent; its number is the greatest that a script can say.
const ANSWER_OF_NOBODY: &str = "\
host 0 4 adtbh
lun 0 0:0:0 2048 8
cmd 1 0 0 0:0:0 30 5 - 000000000000
step 0 work
step 0 own 1152921504606846975 answer
step 0 drop 1152921504606846975
step 0 drop 1152921504606846975
end stop
";

const ANSWER_OF_NOBODY_TEXT: &str = "\
host 0
0 ready 1152921504606846975 00 00 0 0 -
0 late 1152921504606846975
result 1 open 0
skipped 5 notopen
skipped 7 notlate
end
";

// The host has no callbacks, so the abort fails, and the command with it.
const NO_CALLBACK: &str = "\
host 0 4 -
lun 0 0:0:0 2048 8
cmd 1 0 0 0:0:0 1 5 - 000000000000
step 0 submit 0
step 0 send
step 0 due
step 0 own 1 expiry
step 0 tick
step 0 due
step 0 due
step 0 own 1 answer
step 0 tick
step 0 own 1 expiry
step 0 own 1 expiry
step 0 abort
step 0 settle 1
step 0 abort
step 0 abort
step 0 settle 1
end stop
";

const NO_CALLBACK_TEXT: &str = "\
host 0
0 took 1
0 sent 1 1 0
0 tick
1 due 1
1 owned 1 expiry
1 abortset 1 1
1 aborted 1 1 failed
1 failed 1 1 cancelled
result 1 open 0
skipped 6 nodue
skipped 7 notdue
skipped 10 nodue
skipped 11 notready
skipped 12 expirywaiting
skipped 14 notopen
skipped 15 noabort
skipped 18 noabort
skipped 19 notowned
end
";

// The answer of an attempt comes once it was aborted and its command sent again under the same tag: it is ignored, and isn't the
// answer of the attempt that has the tag now.
const AFTER_ABORT: &str = "\
host 0 1 a
lun 0 0:0:0 2048 8
cmd 1 0 0 0:0:0 2 5 - 000000000000
step 0 submit 0
step 0 send
step 0 tick
step 0 tick
step 0 due
step 0 own 1 expiry
step 0 settle 1
step 0 abort
step 0 tick
step 0 send
step 0 work
step 0 drop 1
step 0 own 2 answer
end stop
";

const AFTER_ABORT_TEXT: &str = "\
host 0
0 took 1
0 sent 1 1 0
0 tick
1 tick
2 due 1
2 owned 1 expiry
2 abortset 1 1
2 aborted 1 1 ok
2 again 1 counted
2 tick
3 sent 1 2 0
3 ready 1 00 00 0 0 -
3 late 1
result 1 open 1
skipped 16 notready
end
";

// The attempt that is answered is never sent, and its answer has to be ignored once.
const UNKNOWN_ATTEMPT: &str = "\
host 0 4 adtbh
lun 0 0:0:0 2048 8
cmd 1 0 0 0:0:0 30 5 - 000000000000
step 0 tick
step 0 work
step 0 tick
step 0 drop 77
step 0 drop 77
end stop
";

const UNKNOWN_ATTEMPT_TEXT: &str = "\
host 0
0 tick
1 ready 77 00 00 0 0 -
1 late 77
result 1 open 0
skipped 6 answerwaiting
skipped 8 notlate
end
";

// CHECK CONDITION without sense data, and REQUEST SENSE brings one byte of it. The host has no callbacks.
const SHORT_SENSE: &str = "\
host 0 4 -
lun 0 0:0:0 2048 8
cmd 1 0 0 0:0:0 30 5 - 000000000000
step 0 submit 0
step 0 send
step 0 tick
step 0 work
step 0 own 1 answer
step 0 settle 1
step 0 eh begin
step 0 eh act
step 0 eh act
step 0 eh act
step 0 eh act
step 0 eh act
step 0 eh act
step 0 eh flush
step 0 eh end
end stop
";

const SHORT_SENSE_TEXT: &str = "\
host 0
0 took 1
0 sent 1 1 0
0 tick
1 ready 1 00 02 0 0 -
1 owned 1 answer
1 judged 1 1 fail
1 failed 1 1 answered
1 ehbegin
1 act 1 1 failed
1 probe 0:0:0 03 00 00 1 113 -
1 act 4 0:0:0 failed
1 act 5 0:0 failed
1 act 6 0 failed
1 act 7 - failed
1 act 8 0:0:0 ok
1 offline 0:0:0
1 cleared 1 8
1 told 1 00 02 0 0 -
1 ehend
result 1 answered 00 02 0 0 - 0
end
";

// Two answers come in the tick of the sending: the first one is reported, the second ignored.
const DOUBLE_ANSWER: &str = "\
host 0 4 adtbh
lun 0 0:0:0 2048 8
cmd 1 0 0 0:0:0 30 5 - 000000000000
step 0 submit 0
step 0 send
step 0 work
step 0 work
step 0 own 1 answer
step 0 settle 1
step 0 drop 1
step 0 own 1 expiry
end stop
";

const DOUBLE_ANSWER_TEXT: &str = "\
host 0
0 took 1
0 sent 1 1 0
0 ready 1 00 00 0 0 -
0 ready 1 00 00 0 0 -
0 owned 1 answer
0 judged 1 1 success
0 told 1 00 00 0 0 -
0 late 1
result 1 answered 00 00 0 0 - 0
skipped 11 notopen
end
";

/// Scripts, the answers, the data-in of probes, and the texts.
pub(crate) const LIES: [Lying; 9] = [
    (
        SECOND_ANSWER,
        &[(0, 1, GOOD), (0, 1, GOOD)],
        &[],
        SECOND_ANSWER_TEXT,
    ),
    (
        THREE_ANSWERS,
        &[(0, 1, GOOD), (0, 1, GOOD), (0, 1, GOOD)],
        &[],
        THREE_ANSWERS_TEXT,
    ),
    (EARLY_ANSWER, &[(0, 1, GOOD)], &[], EARLY_ANSWER_TEXT),
    (
        ANSWER_OF_NOBODY,
        &[(0, 1_152_921_504_606_846_975, GOOD)],
        &[],
        ANSWER_OF_NOBODY_TEXT,
    ),
    (NO_CALLBACK, &[], &[], NO_CALLBACK_TEXT),
    (AFTER_ABORT, &[(3, 1, GOOD)], &[], AFTER_ABORT_TEXT),
    (UNKNOWN_ATTEMPT, &[(1, 77, GOOD)], &[], UNKNOWN_ATTEMPT_TEXT),
    (
        SHORT_SENSE,
        &[(1, 1, CHECK_CONDITION)],
        &[&[0x71]],
        SHORT_SENSE_TEXT,
    ),
    (
        DOUBLE_ANSWER,
        &[(0, 1, GOOD), (0, 1, GOOD)],
        &[],
        DOUBLE_ANSWER_TEXT,
    ),
];
