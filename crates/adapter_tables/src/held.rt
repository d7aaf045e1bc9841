ghost use Rattle.std.specs.Prelude.{◌≡◌, ◌<◌, ◌^◌};
ghost use Rattle.mid_base.specs.Address.{in_scope};
ghost use Rattle.adapter_tables.specs.Held.{due_tick, due_from, is_attempt, is_due as is_due_by, precedes};

use crate::addresses::covers;
use mid_base::{Attempt, CdbBytes, DevAddr, Fault, Scope};

/// An attempt that waits for its answer: when it is due, if ever, and the fault that makes its answer, if one does.
#[derive(Clone, Copy, PartialEq, Eq, Debug)]
pub struct Held {
    pub n: Attempt,
    pub dev: DevAddr,
    pub cdb: CdbBytes,
    pub fill: u8,
    pub due: Option<u64>,
    pub fault: Option<Fault>,
}

// The tick at which an attempt that is sent now is to be answered.
pub(crate) fn due_after(now: u64, fault: Option<Fault>) -> Option<u64>
    requires { now < 2 ^ 60 }
    ensures { result ≡ due_tick now fault }
{
    match fault {
        Some(Fault::Latency(ticks)) => Some(now + ticks as u64),
        Some(Fault::Never) => None,
        _ => Some(now + 1),
    }
}

pub(crate) fn is_number(h: &Held, n: Attempt) -> bool
    ensures { result ≡ is_attempt n.0 h.now }
{
    h.n.0 == n.0
}

pub(crate) fn is_on(h: &Held, scope: Scope) -> bool
    ensures { result ≡ in_scope scope h.now.dev }
{
    covers(scope, h.dev)
}

pub(crate) fn is_due(h: &Held, at: u64) -> bool
    ensures { result ≡ is_due_by at h.now.due }
{
    match h.due {
        Some(due) => due <= at,
        None => false,
    }
}

// The attempt, due at this tick.
pub(crate) fn due_now(h: Held, at: u64) -> Held
    ensures { result ≡ due_from h.n.0 at h }
{
    Held { due: Some(at), ..h }
}

// Whether (at, n) isn't after (due, m). What is never due comes last.
pub(crate) fn goes_before(at: u64, n: u64, due: Option<u64>, m: u64) -> bool
    ensures { result ≡ precedes at n due m }
{
    match due {
        None => true,
        Some(other) if at == other => n <= m,
        Some(other) => at <= other,
    }
}
