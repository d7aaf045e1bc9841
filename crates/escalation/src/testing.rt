ghost use Rattle.std.specs.Prelude.{◌≡◌, ◌≤◌, ◌+◌, ◌*◌, ◌<◌, ◌++◌, ◌∷◌, [], if◌then◌else◌, length, filter, vec_len, vec_capacity};
ghost use Rattle.disposition.specs.Ladder.{devs};
ghost use Rattle.host_template.specs.Meaning.{SameNature, IfHonest, NothingAdded};
ghost use Rattle.trace_model.specs.Climb.{on_one_of, test_and_clear as test_and_clear_course};
ghost use Rattle.eh_probe.specs.Tests.{said, test_entries};
ghost use Rattle.escalation.specs.Acts.{Tests, GoesOn, cleared};

use disposition::Todo;
use eh_probe::{Probe, Tested, ready};
use host_template::HostTemplate;
use mid_base::{DevAddr, Entry, ProbeSay, same_dev};

/// The commands that an act is on, in their order, and their devices in address order.
#[derive(Drop)]
pub(crate) struct Chosen {
    pub todo: Vec<Todo>,
    pub devices: Vec<DevAddr>,
    pub ghost theirs: { devices.items ≡ devs todo.items },
}

/// What an act has told so far, and which of the tested devices are ready.
#[derive(Drop)]
pub(crate) struct Told {
    pub entries: Vec<Entry>,
    pub ready: Vec<DevAddr>,
}

fn say_of(probe: &Probe) -> ProbeSay
    ensures { result ≡ said probe.now }
{
    match probe {
        Probe::Good(answer) => ProbeSay::Answered(*answer),
        Probe::Bad(answer) => ProbeSay::Answered(*answer),
        Probe::Silent => ProbeSay::Silent,
    }
}

const TEST_UNIT_READY: u8 = 0;

// Tells a test of a device, in one entry or two.
fn tell_test(entries: &mut Vec<Entry>, dev: DevAddr, tested: &Tested)
    requires { vec_len entries.old + 2 ≤ vec_capacity entries.old }
    ensures items { entries.new.items ≡ entries.old.items ++ test_entries dev tested.now }
    ensures capacity { vec_capacity entries.new ≡ vec_capacity entries.old }
{
    entries.push_reserved(Entry::Probe(dev, TEST_UNIT_READY, say_of(&tested.first)));
    if let Some(second) = &tested.second {
        entries.push_reserved(Entry::Probe(dev, TEST_UNIT_READY, say_of(second)));
    }
}

// Tests devices, and keeps those that are ready.
fn test_all<A: HostTemplate>(lower: &mut A, into: &mut [u8], devices: &[DevAddr], told: &mut Told)
    requires buffer { 2056 ≤ length into.old }
    requires entries { vec_len told.old.entries + 2 * length devices.now ≤ vec_capacity told.old.entries }
    requires ready { told.old.ready.items ≡ [] }
    requires room { length devices.now ≤ vec_capacity told.old.ready }
    ensures tests { Tests (A.stands lower.old) (A.stands lower.new) devices.now told.new.ready.items told.old.entries.items told.new.entries.items }
    ensures nature { SameNature (A.means lower.old) (A.means lower.new) }
    ensures honest { IfHonest NothingAdded (A.means lower.old) (A.means lower.new) }
    ensures len { length into.new ≡ length into.old }
    ensures capacity { vec_capacity told.new.entries ≡ vec_capacity told.old.entries }
{
    for dev in devices {
        let tested = ready(lower, *dev, into);
        tell_test(&mut told.entries, *dev, &tested);
        keep_if(tested.ready, &mut told.ready, *dev);
    }
}

fn keep_if(is_ready: bool, ready: &mut Vec<DevAddr>, dev: DevAddr)
    requires { vec_len ready.old < vec_capacity ready.old }
    ensures items { ready.new.items ≡ ready.old.items ++ (if is_ready then dev ∷ [] else []) }
    ensures len { vec_len ready.new ≤ vec_len ready.old + 1 }
    ensures capacity { vec_capacity ready.new ≡ vec_capacity ready.old }
{
    if is_ready {
        ready.push_reserved(dev);
    }
}

fn is_on_one_of(devices: &[DevAddr], x: &Todo) -> bool
    ensures { result ≡ on_one_of devices.now x.now }
{
    devices.iter().any(|dev| same_dev(x.dev, *dev))
}

/// Tells that these commands are cleared.
pub(crate) fn clear(entries: &mut Vec<Entry>, level: u8, todo: &[Todo])
    requires { vec_len entries.old + length todo.now ≤ vec_capacity entries.old }
    ensures { entries.new.items ≡ entries.old.items ++ cleared level todo.now }
{
    for x in todo {
        entries.push_reserved(Entry::Cleared(x.cmd, level));
    }
}

// Tells that those of these commands are cleared whose devices are ready.
fn clear_ready(entries: &mut Vec<Entry>, level: u8, todo: &[Todo], ready: &[DevAddr])
    requires { vec_len entries.old + length todo.now ≤ vec_capacity entries.old }
    ensures { entries.new.items ≡ entries.old.items ++ cleared level (filter (on_one_of ready.now) todo.now) }
{
    for x in todo {
        clear_if_ready(entries, level, x, ready);
    }
}

fn clear_if_ready(entries: &mut Vec<Entry>, level: u8, x: &Todo, ready: &[DevAddr])
    requires { vec_len entries.old < vec_capacity entries.old }
    ensures items { entries.new.items ≡ entries.old.items ++ cleared level (filter (on_one_of ready.now) (x.now ∷ [])) }
    ensures len { vec_len entries.new ≤ vec_len entries.old + 1 }
    ensures capacity { vec_capacity entries.new ≡ vec_capacity entries.old }
{
    if is_on_one_of(ready, x) {
        entries.push_reserved(Entry::Cleared(x.cmd, level));
    }
}

/// Tests the devices of an act, and tells that its commands on ready ones are cleared.
pub(crate) fn test_and_clear<A: HostTemplate>(
    lower: &mut A,
    into: &mut [u8],
    level: u8,
    chosen: &Chosen,
    told: &mut Told,
)
    requires buffer { 2056 ≤ length into.old }
    requires entries { vec_len told.old.entries + 3 * length chosen.now.todo.items ≤ vec_capacity told.old.entries }
    requires ready { told.old.ready.items ≡ [] }
    requires room { length chosen.now.todo.items ≤ vec_capacity told.old.ready }
    ensures goes { GoesOn (A.stands lower.old) (A.stands lower.new) (test_and_clear_course level chosen.now.todo.items) (3 * length chosen.now.todo.items) told.old.entries.items told.new.entries.items }
    ensures nature { SameNature (A.means lower.old) (A.means lower.new) }
    ensures honest { IfHonest NothingAdded (A.means lower.old) (A.means lower.new) }
    ensures len { length into.new ≡ length into.old }
{
    test_all(lower, into, &chosen.devices, told);
    clear_ready(&mut told.entries, level, &chosen.todo, &told.ready);
}
