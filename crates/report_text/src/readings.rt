ghost use Rattle.std.specs.Prelude.{◌≡◌};
ghost use Rattle.mid_base.specs.Bytes.{sense_list};
ghost use Rattle.report_text.specs.Readings.{AddressFits, AnswerFits, AreBytes, EntryFits, Fits, IsAimed, IsByte, SaidFits, ScopeFits};
ghost use Rattle.report_text.specs.Text.{entry_line};

use mid_base::{Answer, DevAddr, Entry, ProbeSay, Scope, SenseBytes};

// Numbers are those that their types hold. The calls do nothing: their clauses hand that on to the law below.

fn fits(n: u64)
    ensures { Fits n }
{}

fn is_byte(b: u8)
    ensures { IsByte b }
{}

fn are_bytes(b: &[u8])
    ensures { AreBytes b.now }
{}

fn sense_fits(s: &SenseBytes)
    ensures { AreBytes (sense_list s.now) }
{
    are_bytes(s.as_slice())
}

fn answer_fits(a: &Answer)
    ensures { AnswerFits a.now }
{
    is_byte(a.host.0);
    is_byte(a.status);
    fits(a.moved as u64);
    fits(a.sum as u64);
    sense_fits(&a.sense)
}

fn address_fits(d: DevAddr)
    ensures { AddressFits d }
{
    fits(d.channel as u64);
    fits(d.target as u64);
    fits(d.lun as u64)
}

fn scope_fits(scope: Scope)
    ensures { ScopeFits scope }
{
    match scope {
        Scope::Cmd(c) => fits(c.0 as u64),
        Scope::Dev(d) => address_fits(d),
        Scope::Target(c, t) => {
            fits(c as u64);
            fits(t as u64)
        }
        Scope::Bus(c) => fits(c as u64),
        Scope::Host => {}
    }
}

fn said_fits(said: ProbeSay)
    ensures { SaidFits said }
{
    match said {
        ProbeSay::Answered(a) => answer_fits(&a),
        ProbeSay::Silent => {}
    }
}

fn both_fit(m: u64, n: u64)
    ensures { Fits m × Fits n }
{
    fits(m);
    fits(n)
}

fn report_fits(n: u64, a: &Answer)
    ensures { Fits n × AnswerFits a.now }
{
    fits(n);
    answer_fits(a)
}

fn entry_fits(e: &Entry)
    ensures { EntryFits e.now }
{
    match *e {
        Entry::Took(c) | Entry::Again(c, _) => fits(c.0 as u64),
        Entry::Sent(c, n, t) => {
            both_fit(c.0 as u64, n.0);
            fits(t.0 as u64)
        }
        Entry::Bounced(c, n, _)
        | Entry::Judged(c, n, _)
        | Entry::AbortSet(c, n)
        | Entry::Aborted(c, n, _)
        | Entry::Failed(c, n, _) => both_fit(c.0 as u64, n.0),
        Entry::Due(n)
        | Entry::Longer(n)
        | Entry::DoneSaid(n)
        | Entry::Owned(n, _)
        | Entry::Late(n) => fits(n.0),
        Entry::Ready(n, a) => report_fits(n.0, &a),
        Entry::Told(c, a) => report_fits(c.0 as u64, &a),
        Entry::Cleared(c, level) => both_fit(c.0 as u64, level as u64),
        Entry::Sensed(c, n, s) => {
            both_fit(c.0 as u64, n.0);
            sense_fits(&s)
        }
        Entry::Act(level, scope, _) => {
            fits(level as u64);
            scope_fits(scope)
        }
        Entry::Probe(d, code, said) => {
            address_fits(d);
            is_byte(code);
            said_fits(said)
        }
        Entry::Offline(d) | Entry::State(d, _) => address_fits(d),
        Entry::EhBegin | Entry::EhEnd | Entry::Tick => {}
    }
}

/// Each line of a journal has one reading: its text tells the tick and the entry, where an act of recovery is aimed at what
/// its level says (a command by levels 1 and 2, a device by 3, 4 and 8, a target by 5, a bus by 6, the host by 7).
pub fn a_line_has_one_reading(tick: u64, e: &Entry, other_tick: u64, other: &Entry)
    requires aimed { IsAimed e.now }
    requires other_aimed { IsAimed other.now }
    ensures { entry_line tick e.now ≡ entry_line other_tick other.now → (tick ≡ other_tick) × (e.now ≡ other.now) }
{
    entry_fits(e);
    entry_fits(other)
}
