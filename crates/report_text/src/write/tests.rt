ghost use Rattle.std.specs.Prelude.{Some};

use super::*;
use mid_base::{
    Answer, Attempt, BusyOf, By, CdbBytes, CmdId, DevAddr, DeviceState, Disp, HostByte, LaneNo,
    ProbeSay, Scope, SenseBytes, Tag,
};
use mid_io::{Failed, MemSink};
use std::test::Fail;

const DEV: DevAddr = DevAddr {
    channel: 15,
    target: 255,
    lun: 16383,
};

const C: CmdId = CmdId(12);

const N: Attempt = Attempt(345);

// The entries without an answer, and how each is printed.
const TEXTS: [(Entry, &str); 41] = [
    (Entry::Took(C), "took 12"),
    (Entry::Sent(C, N, Tag(7)), "sent 12 345 7"),
    (Entry::Bounced(C, N, BusyOf::Host), "bounced 12 345 host"),
    (
        Entry::Bounced(C, N, BusyOf::Device),
        "bounced 12 345 device",
    ),
    (Entry::Due(N), "due 345"),
    (Entry::Longer(N), "longer 345"),
    (Entry::DoneSaid(N), "timerdone 345"),
    (Entry::Owned(N, By::Answer), "owned 345 answer"),
    (Entry::Owned(N, By::Expiry), "owned 345 expiry"),
    (Entry::Late(N), "late 345"),
    (Entry::Judged(C, N, Disp::Success), "judged 12 345 success"),
    (Entry::Judged(C, N, Disp::Retry), "judged 12 345 retry"),
    (Entry::Judged(C, N, Disp::Requeue), "judged 12 345 requeue"),
    (Entry::Judged(C, N, Disp::Fail), "judged 12 345 fail"),
    (Entry::AbortSet(C, N), "abortset 12 345"),
    (Entry::Aborted(C, N, true), "aborted 12 345 ok"),
    (Entry::Aborted(C, N, false), "aborted 12 345 failed"),
    (Entry::Failed(C, N, true), "failed 12 345 cancelled"),
    (Entry::Failed(C, N, false), "failed 12 345 answered"),
    (Entry::Cleared(C, 8), "cleared 12 8"),
    (Entry::Again(C, true), "again 12 counted"),
    (Entry::Again(C, false), "again 12 free"),
    (Entry::EhBegin, "ehbegin"),
    (Entry::EhEnd, "ehend"),
    (Entry::Act(2, Scope::Cmd(C), true), "act 2 12 ok"),
    (
        Entry::Act(4, Scope::Dev(DEV), false),
        "act 4 15:255:16383 failed",
    ),
    (
        Entry::Act(5, Scope::Target(15, 255), true),
        "act 5 15:255 ok",
    ),
    (Entry::Act(6, Scope::Bus(15), true), "act 6 15 ok"),
    (Entry::Act(7, Scope::Host, true), "act 7 - ok"),
    (
        Entry::Probe(DEV, 0, ProbeSay::Silent),
        "probe 15:255:16383 00 silent",
    ),
    (Entry::Offline(DEV), "offline 15:255:16383"),
    (
        Entry::State(DEV, DeviceState::Created),
        "state 15:255:16383 created",
    ),
    (
        Entry::State(DEV, DeviceState::Running),
        "state 15:255:16383 running",
    ),
    (
        Entry::State(DEV, DeviceState::Quiesce),
        "state 15:255:16383 quiesce",
    ),
    (
        Entry::State(DEV, DeviceState::Block),
        "state 15:255:16383 block",
    ),
    (
        Entry::State(DEV, DeviceState::Offline),
        "state 15:255:16383 offline",
    ),
    (
        Entry::State(DEV, DeviceState::Cancel),
        "state 15:255:16383 cancel",
    ),
    (
        Entry::State(DEV, DeviceState::Del),
        "state 15:255:16383 del",
    ),
    (Entry::Tick, "tick"),
    // The greatest numbers.
    (Entry::Took(CmdId(4_294_967_295)), "took 4294967295"),
    (
        Entry::Due(Attempt(18_446_744_073_709_551_615)),
        "due 18446744073709551615",
    ),
];

// Four entries before a command's report, the host byte that is told, and how its result line goes on. The second row has
// nothing of the command. In the last row the owner of an earlier attempt doesn't count.
const TOLD: [([Entry; 4], u8, &str); 8] = [
    (
        [Entry::Took(C), Entry::Tick, Entry::Tick, Entry::Tick],
        1,
        "noconnect 01 00 0 0 - 0",
    ),
    ([Entry::Tick; 4], 1, "noconnect 01 00 0 0 - 0"),
    (
        [
            Entry::Took(C),
            Entry::Sent(C, N, Tag(0)),
            Entry::Bounced(C, N, BusyOf::Host),
            Entry::Judged(CmdId(1), N, Disp::Success),
        ],
        1,
        "noconnect 01 00 0 0 - 0",
    ),
    (
        [
            Entry::Again(C, true),
            Entry::Again(C, false),
            Entry::Again(CmdId(1), true),
            Entry::Judged(C, N, Disp::Success),
        ],
        0,
        "answered 00 00 0 0 - 1",
    ),
    (
        [
            Entry::Sent(C, N, Tag(0)),
            Entry::Owned(N, By::Answer),
            Entry::Failed(C, N, false),
            Entry::Cleared(C, 1),
        ],
        0,
        "answered 00 00 0 0 - 0",
    ),
    (
        [
            Entry::Sent(C, N, Tag(0)),
            Entry::Owned(N, By::Expiry),
            Entry::AbortSet(C, N),
            Entry::Aborted(C, N, true),
        ],
        3,
        "timeout 03 00 0 0 - 0",
    ),
    (
        [
            Entry::Sent(C, N, Tag(0)),
            Entry::Owned(N, By::Expiry),
            Entry::Failed(C, N, true),
            Entry::Cleared(C, 8),
        ],
        3,
        "timeout 03 00 0 0 - 0",
    ),
    (
        [
            Entry::Sent(C, N, Tag(0)),
            Entry::Owned(N, By::Answer),
            Entry::Sent(C, Attempt(346), Tag(0)),
            Entry::Cleared(C, 4),
        ],
        3,
        "timeout 03 00 0 0 - 0",
    ),
];

const CAUSES: [(Why, &str); 24] = [
    (Why::LaneDone, "lanedone"),
    (Why::Recovery, "recovery"),
    (Why::NoSend, "nosend"),
    (Why::Spent, "spent"),
    (Why::NoWork, "nowork"),
    (Why::NoDue, "nodue"),
    (Why::NotOpen, "notopen"),
    (Why::NotReady, "notready"),
    (Why::NotDue, "notdue"),
    (Why::NotOwned, "notowned"),
    (Why::NotLate, "notlate"),
    (Why::NoAbort, "noabort"),
    (Why::EhRunning, "ehrunning"),
    (Why::NoFailed, "nofailed"),
    (Why::NotQuiet, "notquiet"),
    (Why::EhIdle, "ehidle"),
    (Why::LadderDone, "ladderdone"),
    (Why::LadderOpen, "ladderopen"),
    (Why::FlushDone, "flushdone"),
    (Why::FlushLeft, "flushleft"),
    (Why::WorkDue, "workdue"),
    (Why::AnswerWaiting, "answerwaiting"),
    (Why::ExpiryWaiting, "expirywaiting"),
    (Why::Illegal, "illegal"),
];

// The results of commands 10, 9, 4294967295 and 2, where 10 and then 2 were told and 9 was sent again.
const ASCENDING: &str = "\
    0 told 3 01 00 0 0 -\n\
    result 2 noconnect 01 00 0 0 - 0\n\
    result 9 open 1\n\
    result 10 noconnect 01 00 0 0 - 0\n\
    result 4294967295 open 0\n";

// The lines of a command that is answered GOOD after one tick, and of a skipped step.
const FIRST: [&str; 11] = [
    "host 0\n",
    "0 took 12\n",
    "0 sent 12 345 0\n",
    "0 tick\n",
    "1 ready 345 00 00 0 0 -\n",
    "1 owned 345 answer\n",
    "1 judged 12 345 success\n",
    "1 told 12 00 00 0 0 -\n",
    "result 12 answered 00 00 0 0 - 0\n",
    "skipped 6 nosend\n",
    "end\n",
];

// Takes one byte of a piece, and fails at one call.
#[derive(Drop)]
struct OneByte {
    bytes: Vec<u8>,
    fails: usize,
    calls: usize,
    faults: u64,
}

impl OneByte {
    fn new(alloc: Global, fails: usize) -> OneByte {
        OneByte {
            bytes: Vec::new(alloc),
            fails,
            calls: 0,
            faults: 0,
        }
    }
}

impl Sink for OneByte {
    ghost written = { λ s. Some s.bytes.items };

    ghost faults = { λ s. s.faults };

    fn write(&mut self, bytes: &[u8]) -> Result<usize, Failed> {
        self.calls = self.calls.saturating_add(1);
        let count = bytes.len().min(1);
        if self.calls == self.fails || self.bytes.extend_from_slice(&bytes[..count]).is_err() {
            self.faults = self.faults.saturating_add(1);
            return Err(Failed);
        }
        Ok(count)
    }
}

fn answer(host: u8, status: u8) -> Answer {
    Answer {
        host: HostByte(host),
        status,
        sense: SenseBytes::empty(),
        moved: 0,
        sum: 0,
    }
}

fn command(id: CmdId) -> CmdSpec {
    CmdSpec {
        id,
        lane: LaneNo(0),
        dev: DEV,
        cdb: CdbBytes::from_slice(&[0; 6]),
        fill: 0,
        timeout: 30,
        allowed: 5,
        failfast: false,
    }
}

// A journal of this entry alone is written with this text.
fn is_written_as(alloc: Global, entry: Entry, text: &str) -> Result<bool, Fail> {
    let mut sink = MemSink::new(alloc, 4096, Vec::new(alloc))?;
    write_host(alloc, HostNo(63), &[], &[entry], &mut sink)?;
    let want = format!(in alloc; "host 63\n0 {text}\n")?;
    Ok(sink.bytes() == want.as_bytes())
}

#[test]
fn each_entry_has_its_text(rt: HostRuntime) -> Result<(), Fail> {
    for (entry, text) in TEXTS {
        assert!(rt; is_written_as(rt.alloc(), entry, text)?, "{text}");
    }
    Ok(())
}

#[test]
fn an_answer_is_told_in_five_parts(rt: HostRuntime) -> Result<(), Fail> {
    let sense = SenseBytes::from_slice(&[0x72, 0x0b, 0x00, 0xff]);
    let checked = Answer {
        host: HostByte(0),
        status: 2,
        sense,
        moved: 512,
        sum: 130_560,
    };
    let busy = answer(0x0d, 0x28);
    let table = [
        (Entry::Ready(N, busy), "ready 345 0d 28 0 0 -"),
        (
            Entry::Ready(N, checked),
            "ready 345 00 02 512 130560 720b00ff",
        ),
        (Entry::Told(C, busy), "told 12 0d 28 0 0 -"),
        (Entry::Told(C, checked), "told 12 00 02 512 130560 720b00ff"),
        (Entry::Sensed(C, N, sense), "sensed 12 345 720b00ff"),
        (
            Entry::Probe(DEV, 0x1b, ProbeSay::Answered(busy)),
            "probe 15:255:16383 1b 0d 28 0 0 -",
        ),
    ];
    for (entry, text) in table {
        assert!(rt; is_written_as(rt.alloc(), entry, text)?, "{text}");
    }
    Ok(())
}

fn write_first<K: Sink>(alloc: Global, sink: &mut K) -> Result<(), WriteEnd> {
    let good = answer(0, 0);
    let entries = [
        Entry::Took(C),
        Entry::Sent(C, N, Tag(0)),
        Entry::Tick,
        Entry::Ready(N, good),
        Entry::Owned(N, By::Answer),
        Entry::Judged(C, N, Disp::Success),
        Entry::Told(C, good),
    ];
    write_host(alloc, HostNo(0), &[command(C)], &entries, sink)?;
    write_skips(alloc, &[(6, Why::NoSend)], sink)
}

// What is out where the call of this number fails is `before`.
fn ends_before(alloc: Global, call: u64, before: &[u8]) -> Result<bool, Fail> {
    let mut sink = MemSink::new(alloc, 4096, [call].to_vec(alloc)?)?;
    let end = write_first(alloc, &mut sink);
    Ok(end == Err(WriteEnd::Fault) && sink.bytes() == before)
}

#[test]
fn each_line_is_one_piece_and_a_fault_ends_the_text(rt: HostRuntime) -> Result<(), Fail> {
    let alloc = rt.alloc();
    let mut before = String::new(alloc);
    let mut call = 0u64;
    for line in FIRST {
        call = call.saturating_add(1);
        assert!(rt; ends_before(alloc, call, before.as_bytes())?, "call {call}");
        before.push_str(line)?;
    }
    let mut sink = MemSink::new(alloc, 4096, Vec::new(alloc))?;
    write_first(alloc, &mut sink)?;
    assert_eq!(rt; sink.bytes(), before.as_bytes());
    Ok(())
}

// Byte by byte the whole text is out, or where the call of this number fails the bytes before it.
fn goes_byte_by_byte(alloc: Global, fails: usize, text: &[u8]) -> bool {
    let mut sink = OneByte::new(alloc, fails);
    let end = write_first(alloc, &mut sink);
    if fails == 0 || fails > text.len() {
        return end == Ok(()) && sink.bytes.as_slice() == text;
    }
    end == Err(WriteEnd::Fault) && sink.bytes.as_slice() == &text[..fails - 1]
}

#[test]
fn what_is_left_of_a_line_is_offered_on(rt: HostRuntime) -> Result<(), Fail> {
    let alloc = rt.alloc();
    let mut text = String::new(alloc);
    for line in FIRST {
        text.push_str(line)?;
    }
    for fails in 0..200 {
        assert!(rt;
            goes_byte_by_byte(alloc, fails, text.as_bytes()),
            "call {fails}"
        );
    }
    Ok(())
}

// The end of a host's text where command 12 is told this host byte after these entries.
fn ends_with_result(alloc: Global, before: &[Entry], host: u8, text: &str) -> Result<bool, Fail> {
    let mut entries = before.to_vec(alloc)?;
    entries.push(Entry::Told(C, answer(host, 0)))?;
    // A second report doesn't count.
    entries.push(Entry::Told(C, answer(7, 0)))?;
    let mut sink = MemSink::new(alloc, 4096, Vec::new(alloc))?;
    write_host(alloc, HostNo(0), &[command(C)], &entries, &mut sink)?;
    let want = format!(in alloc; "\nresult 12 {text}\n")?;
    Ok(sink.bytes().ends_with(want.as_bytes()))
}

#[test]
fn a_result_tells_how_its_command_ended(rt: HostRuntime) -> Result<(), Fail> {
    for (before, host, text) in TOLD {
        assert!(rt;
            ends_with_result(rt.alloc(), &before, host, text)?,
            "{text}"
        );
    }
    Ok(())
}

#[test]
fn results_ascend_and_each_command_has_one(rt: HostRuntime) -> Result<(), Fail> {
    let alloc = rt.alloc();
    let ids = [10, 9, 4_294_967_295, 2];
    let cmds = ids.map(|id| command(CmdId(id)));
    let entries = [
        Entry::Again(CmdId(9), true),
        Entry::Told(CmdId(10), answer(1, 0)),
        Entry::Told(CmdId(2), answer(1, 0)),
        Entry::Told(CmdId(3), answer(1, 0)),
    ];
    let mut sink = MemSink::new(alloc, 4096, Vec::new(alloc))?;
    write_host(alloc, HostNo(5), &cmds, &entries, &mut sink)?;
    assert!(rt; sink.bytes().ends_with(ASCENDING.as_bytes()));
    Ok(())
}

fn skips_as(alloc: Global, why: Why, word: &str) -> Result<bool, Fail> {
    let mut sink = MemSink::new(alloc, 4096, Vec::new(alloc))?;
    write_skips(alloc, &[(16, why), (7, why)], &mut sink)?;
    let want = format!(in alloc; "skipped 16 {word}\nskipped 7 {word}\nend\n")?;
    Ok(sink.bytes() == want.as_bytes())
}

#[test]
fn a_skipped_step_is_told_with_its_cause(rt: HostRuntime) -> Result<(), Fail> {
    for (why, word) in CAUSES {
        assert!(rt; skips_as(rt.alloc(), why, word)?, "{word}");
    }
    Ok(())
}
