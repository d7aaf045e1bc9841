ghost use Rattle.std.specs.Prelude.{◌≡◌};

use crate::DebugAdapter;
use host_template::{EhSay, HostTemplate, Queued, TimerSay};
use mid_base::{Answer, Attempt, CdbBytes, DevAddr, NoMemory, ProbeSay, Scope, Tick};

// A call of the adapter. Ticks are the last number.
#[derive(Clone, Copy, PartialEq, Eq, Debug)]
pub(crate) enum Call {
    Queue(u64, DevAddr, [u8; 6], u8, u32),
    Due(u32),
    Work(u32),
    TimedOut(u64, DevAddr, u32),
    Abort(u64, DevAddr),
    Reset(Scope),
    // REQUEST SENSE
    Probe(DevAddr),
}

// An answer: host byte, status, key and codes of its sense, how much was moved, and the sum of the data that came in.
pub(crate) type Outcome = (u8, u8, [u8; 3], u32, u32);

#[derive(Clone, Copy, PartialEq, Eq, Debug)]
pub(crate) enum Said {
    Queued(Queued),
    Due(bool),
    Nothing,
    Answered(u64, Outcome),
    Timer(TimerSay),
    Eh(EhSay),
    Silent,
    // and the first byte that came in
    Fetched(Outcome, u8),
}

// The sense key, the additional sense code and its qualifier of fixed format sense data (SPC-4, 4.5.3).
fn code_of(a: &Answer) -> [u8; 3] {
    let bytes = a.sense.as_slice();
    match (bytes.get(2), bytes.get(12), bytes.get(13)) {
        (Some(key), Some(asc), Some(ascq)) => [*key % 16, *asc, *ascq],
        _ => [0, 0, 0],
    }
}

fn outcome(a: &Answer) -> Outcome {
    (a.host.0, a.status, code_of(a), a.moved, a.sum)
}

fn tick(now: u32) -> Tick
    ensures { result.0 ≡ now }
{
    Tick(u64::from(now))
}

fn fetch(adapter: &mut DebugAdapter, dev: DevAddr) -> Said {
    let mut into = [0u8; 2056];
    let request_sense = CdbBytes::from_slice(&[0x03, 0, 0, 0, 252, 0]);
    match adapter.probe(dev, &request_sense, &mut into) {
        ProbeSay::Answered(a) => Said::Fetched(outcome(&a), into[0]),
        ProbeSay::Silent => Said::Silent,
    }
}

fn reset(adapter: &mut DebugAdapter, scope: Scope) -> EhSay {
    match scope {
        Scope::Cmd(_) => EhSay::Failed,
        Scope::Dev(dev) => adapter.reset_device(dev),
        Scope::Target(channel, target) => adapter.reset_target(channel, target),
        Scope::Bus(channel) => adapter.reset_bus(channel),
        Scope::Host => adapter.reset_host(),
    }
}

pub(crate) fn make(adapter: &mut DebugAdapter, call: Call) -> Result<Said, NoMemory> {
    let said = match call {
        Call::Queue(n, dev, cdb, fill, now) => {
            let cdb = CdbBytes::from_slice(&cdb);
            Said::Queued(adapter.queue(Attempt(n), dev, &cdb, fill, tick(now))?)
        }
        Call::Due(now) => Said::Due(adapter.due(tick(now))),
        Call::Work(now) => match adapter.work(tick(now))? {
            Some((n, a)) => Said::Answered(n.0, outcome(&a)),
            None => Said::Nothing,
        },
        Call::TimedOut(n, dev, now) => {
            Said::Timer(adapter.timed_out(Attempt(n), dev, tick(now)))
        }
        Call::Abort(n, dev) => Said::Eh(adapter.abort(Attempt(n), dev)),
        Call::Reset(scope) => Said::Eh(reset(adapter, scope)),
        Call::Probe(dev) => fetch(adapter, dev),
    };
    Ok(said)
}
