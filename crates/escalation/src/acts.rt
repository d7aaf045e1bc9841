ghost use Rattle.std.specs.Prelude.{◌≡◌, ◌≤◌, ◌∷◌, ◌++◌, ◌+◌, [], ◌&&◌, length, true, option_map, vec_len, vec_capacity};
ghost use Rattle.mid_base.specs.declared.entries.Entry.TheVariants.{Act};
ghost use Rattle.mid_base.specs.declared.answers.Scope.TheVariants.{Cmd as OnCmd};
ghost use Rattle.mid_base.specs.Answers.{said_good as said_good_seen, is_good as is_good_seen, with_sense as with_sense_seen};
ghost use Rattle.mid_base.specs.Bytes.{sense_list};
ghost use Rattle.mid_base.specs.Levels.{fetch_sense as level_fetch, start_unit as level_start, calls};
ghost use Rattle.host_template.specs.Calls.{succeeded as succeeded_seen};
ghost use Rattle.sense_data.specs.Grammar.{is_valid_sense};
ghost use Rattle.host_template.specs.Meaning.{SameNature, IfHonest, NothingAdded};
ghost use Rattle.trace_model.specs.Climb.{disp_again};
ghost use Rattle.escalation.specs.Rungs.{level_at, scope_at};
ghost use Rattle.escalation.specs.Climbing.{HonestAct};
ghost use Rattle.escalation.specs.Acts.{IsAct, IsReady, IsTried, IsTold, BeginsIn, told_fetch, told_again, told_offline, is_call};
ghost use Rattle.mid_base.specs.Callbacks.{has_callback};

use crate::rungs::{ABORT, FETCH_SENSE, GIVE_UP, Rung, START_UNIT};
use crate::testing::{Chosen, Told, clear, test_and_clear};
use crate::wanting::is_valid;
use bitflags::Flags;
use disposition::{Todo, decide};
use eh_probe::{get_sense, start_unit as start};
use host_template::{EhSay, HostTemplate};
use mid_base::{Answer, CmdId, DID_OK, Disp, Entry, GOOD, Handlers, ProbeSay, Scope, SenseBytes};

const REQUEST_SENSE: u8 = 3;

const START_STOP_UNIT: u8 = 27;

/// Performs an act for the commands of its scope: what its level calls and tests, and what tells it. Whether it succeeded.
pub(crate) fn perform<A: HostTemplate>(
    lower: &mut A,
    into: &mut [u8],
    handlers: Handlers,
    rung: Rung,
    chosen: &Chosen,
    told: &mut Told,
) -> bool
    requires buffer { 2056 ≤ length into.old }
    requires begins { BeginsIn (scope_at rung) chosen.now.todo.items }
    requires ready { IsReady chosen.now.todo.items told.old }
    ensures act { IsAct handlers (level_at rung) (scope_at rung) chosen.now.todo.items result (A.stands lower.old) (A.stands lower.new) told.new.entries.items }
    ensures honest { IfHonest (HonestAct (level_at rung) (scope_at rung) result chosen.now.todo.items) (A.means lower.old) (A.means lower.new) }
    ensures nature { SameNature (A.means lower.old) (A.means lower.new) }
    ensures len { length into.new ≡ length into.old }
{
    match rung {
        Rung::FetchSense(c) => fetch_sense(lower, into, c, chosen, told),
        Rung::StartUnit(dev) => start_unit(lower, into, Scope::Dev(dev), chosen, told),
        Rung::GiveUp(dev) => give_up(Scope::Dev(dev), chosen, told),
        _ => {
            let ok = try_call(lower, handlers, &rung, chosen);
            tell_and_test(lower, into, &rung, ok, chosen, told);
            ok
        }
    }
}

// Sense data is fetched for a command's answer, which then is judged again.
fn fetch_sense<A: HostTemplate>(
    lower: &mut A,
    into: &mut [u8],
    c: CmdId,
    chosen: &Chosen,
    told: &mut Told,
) -> bool
    requires buffer { 2056 ≤ length into.old }
    requires begins { BeginsIn (OnCmd c) chosen.now.todo.items }
    requires ready { IsReady chosen.now.todo.items told.old }
    ensures act { (h : _) → IsAct h level_fetch (OnCmd c) chosen.now.todo.items result (A.stands lower.old) (A.stands lower.new) told.new.entries.items }
    ensures honest { IfHonest NothingAdded (A.means lower.old) (A.means lower.new) }
    ensures nature { SameNature (A.means lower.old) (A.means lower.new) }
    ensures len { length into.new ≡ length into.old }
{
    let x = chosen.todo[0];
    let (say, count) = get_sense(lower, x.dev, into);
    let sense = SenseBytes::from_slice(&into[..count]);
    tell_fetch(&mut told.entries, c, &x, say, sense)
}

// Tells an act of level 1, and whether it succeeded.
fn tell_fetch(
    entries: &mut Vec<Entry>,
    c: CmdId,
    x: &Todo,
    say: ProbeSay,
    sense: SenseBytes,
) -> bool
    requires empty { entries.old.items ≡ [] }
    requires room { 5 ≤ vec_capacity entries.old }
    ensures ok { result ≡ (said_good_seen say && is_valid_sense (sense_list sense)) }
    ensures told { entries.new.items ≡ told_fetch c x.now say sense result }
{
    let ok = said_good(&say) && is_valid(&sense);
    entries.push_reserved(Entry::Act(FETCH_SENSE, Scope::Cmd(c), ok));
    entries.push_reserved(Entry::Probe(x.dev, REQUEST_SENSE, say));
    if !ok {
        return false;
    }
    entries.push_reserved(Entry::Sensed(x.cmd, x.n, sense));
    tell_again(entries, x, judged_again(x, sense));
    true
}

// Tells that a command was judged again, and that it is cleared where it isn't failed once more.
fn tell_again(entries: &mut Vec<Entry>, x: &Todo, disp: Disp)
    requires { vec_len entries.old + 2 ≤ vec_capacity entries.old }
    ensures { entries.new.items ≡ entries.old.items ++ told_again x.now disp }
{
    entries.push_reserved(Entry::Judged(x.cmd, x.n, disp));
    if matches!(disp, Disp::Success | Disp::Retry) {
        entries.push_reserved(Entry::Cleared(x.cmd, FETCH_SENSE));
    }
}

// What a command's answer comes to with the sense data that was fetched for it.
fn judged_again(x: &Todo, sense: SenseBytes) -> Disp
    ensures { result ≡ disp_again x.now.cx (option_map (with_sense_seen sense) x.now.answer) }
{
    match x.answer {
        Some(answer) => decide(&Answer { sense, ..answer }, &x.cx),
        None => Disp::Fail,
    }
}

fn said_good(say: &ProbeSay) -> bool
    ensures { result ≡ said_good_seen say.now }
{
    match say {
        ProbeSay::Answered(answer) => is_good(answer),
        ProbeSay::Silent => false,
    }
}

fn is_good(answer: &Answer) -> bool
    ensures { result ≡ is_good_seen answer.now }
{
    answer.host == DID_OK && answer.status == GOOD
}

// A unit is started whose device says that it wants to be.
fn start_unit<A: HostTemplate>(
    lower: &mut A,
    into: &mut [u8],
    scope: Scope,
    chosen: &Chosen,
    told: &mut Told,
) -> bool
    requires buffer { 2056 ≤ length into.old }
    requires begins { 1 ≤ length chosen.now.todo.items }
    requires ready { IsReady chosen.now.todo.items told.old }
    ensures act { (h : _) → IsAct h level_start scope chosen.now.todo.items result (A.stands lower.old) (A.stands lower.new) told.new.entries.items }
    ensures honest { IfHonest NothingAdded (A.means lower.old) (A.means lower.new) }
    ensures nature { SameNature (A.means lower.old) (A.means lower.new) }
    ensures len { length into.new ≡ length into.old }
{
    let dev = chosen.todo[0].dev;
    let say = start(lower, dev, into);
    let ok = said_good(&say);
    told.entries
        .push_reserved(Entry::Act(START_UNIT, scope, ok));
    told.entries
        .push_reserved(Entry::Probe(dev, START_STOP_UNIT, say));
    if !ok {
        return false;
    }
    test_and_clear(lower, into, START_UNIT, chosen, told);
    true
}

fn has(handlers: Handlers, callback: Handlers) -> bool
    ensures { result ≡ has_callback handlers callback.0 }
{
    callback.intersects(handlers)
}

// Whether the host has the callback that a rung calls.
fn can_call(handlers: Handlers, rung: &Rung) -> bool
    ensures { result ≡ calls handlers (level_at rung.now) }
{
    match rung {
        Rung::Abort(_) => has(handlers, Handlers::ABORT),
        Rung::ResetDevice(_) => has(handlers, Handlers::DEVICE),
        Rung::ResetTarget(_, _) => has(handlers, Handlers::TARGET),
        Rung::ResetBus(_) => has(handlers, Handlers::BUS),
        Rung::ResetHost => has(handlers, Handlers::HOST),
        _ => false,
    }
}

fn succeeded(said: EhSay) -> bool
    ensures { result ≡ succeeded_seen said }
{
    matches!(said, EhSay::Success)
}

// The callback of a level is called, where the host has it; an omitted one fails. Whether it succeeded.
fn try_call<A: HostTemplate>(
    lower: &mut A,
    handlers: Handlers,
    rung: &Rung,
    chosen: &Chosen,
) -> bool
    requires calls { is_call (level_at rung.now) ≡ true }
    requires begins { BeginsIn (scope_at rung.now) chosen.now.todo.items }
    ensures tried { IsTried handlers (level_at rung.now) (scope_at rung.now) chosen.now.todo.items result (A.stands lower.old) (A.stands lower.new) }
    ensures honest { IfHonest (HonestAct (level_at rung.now) (scope_at rung.now) result chosen.now.todo.items) (A.means lower.old) (A.means lower.new) }
    ensures nature { SameNature (A.means lower.old) (A.means lower.new) }
{
    if !can_call(handlers, rung) {
        return false;
    }
    match rung {
        Rung::Abort(_) => {
            let x = chosen.todo[0];
            succeeded(lower.abort(x.n, x.dev))
        }
        Rung::ResetDevice(dev) => succeeded(lower.reset_device(*dev)),
        Rung::ResetTarget(channel, target) => succeeded(lower.reset_target(*channel, *target)),
        Rung::ResetBus(channel) => succeeded(lower.reset_bus(*channel)),
        Rung::ResetHost => succeeded(lower.reset_host()),
        _ => false,
    }
}

// Tells an act whose callback was tried, and tests devices where that succeeded.
fn tell_and_test<A: HostTemplate>(
    lower: &mut A,
    into: &mut [u8],
    rung: &Rung,
    ok: bool,
    chosen: &Chosen,
    told: &mut Told,
)
    requires buffer { 2056 ≤ length into.old }
    requires calls { is_call (level_at rung.now) ≡ true }
    requires ready { IsReady chosen.now.todo.items told.old }
    ensures told { IsTold (level_at rung.now) (scope_at rung.now) ok chosen.now.todo.items (A.stands lower.old) (A.stands lower.new) told.new.entries.items }
    ensures nature { SameNature (A.means lower.old) (A.means lower.new) }
    ensures honest { IfHonest NothingAdded (A.means lower.old) (A.means lower.new) }
    ensures len { length into.new ≡ length into.old }
{
    told.entries
        .push_reserved(Entry::Act(rung.level(), rung.scope(), ok));
    if !ok {
        return;
    }
    test_and_clear(lower, into, rung.level(), chosen, told);
}

// The device is put offline, and each of its commands is cleared.
fn give_up(scope: Scope, chosen: &Chosen, told: &mut Told) -> bool
    requires begins { 1 ≤ length chosen.now.todo.items }
    requires ready { IsReady chosen.now.todo.items told.old }
    ensures ok { result ≡ true }
    ensures told { told.new.entries.items ≡ Act 8 scope true ∷ told_offline chosen.now.todo.items }
{
    let dev = chosen.todo[0].dev;
    told.entries.push_reserved(Entry::Act(GIVE_UP, scope, true));
    told.entries.push_reserved(Entry::Offline(dev));
    clear(&mut told.entries, GIVE_UP, &chosen.todo);
    true
}
