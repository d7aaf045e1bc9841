ghost use Rattle.std.specs.Prelude.{◌≡◌, ◌≤◌, ◌<◌, ◌+◌, ◌^◌, length};

use crate::TimerList;
use mid_base::{Attempt, NoMemory, Tick};
use std::alloc::Global;

#[test]
fn the_least_deadline_is_due_first(rt: HostRuntime) {
    let Ok(mut timers) = TimerList::new(rt.alloc(), 3) else {
        assert!(rt; false, "room for three timers");
        return;
    };
    assert_eq!(rt; timers.due(Tick(9)), None);
    timers.set(Attempt(1), Tick(7));
    timers.set(Attempt(2), Tick(4));
    timers.set(Attempt(3), Tick(4));
    assert_eq!(rt; timers.due(Tick(3)), None);
    assert_eq!(rt; timers.due(Tick(4)), Some(Attempt(2)));
    timers.extend(Attempt(2), Tick(8));
    assert_eq!(rt; timers.due(Tick(9)), Some(Attempt(3)));
    timers.drop_timer(Attempt(3));
    assert_eq!(rt; timers.due(Tick(9)), Some(Attempt(1)));
    timers.drop_timer(Attempt(3));
    timers.drop_timer(Attempt(1));
    assert_eq!(rt; timers.due(Tick(7)), None);
    assert_eq!(rt; timers.due(Tick(8)), Some(Attempt(2)));
}

// Attempts 1 to 1,000, where attempt n has the deadline 7 * n modulo 100.
fn thousand_timers(alloc: Global) -> Result<TimerList, NoMemory> {
    let mut timers = TimerList::new(alloc, 1_000)?;
    for before in 0..1_000 {
        let number = before + 1;
        timers.set(Attempt(number), Tick(number * 7 % 100));
    }
    Ok(timers)
}

// Whether this attempt is due, and none of those before it in the order; its timer is stopped then.
fn is_next(timers: &mut TimerList, now: u64, number: u64) -> bool {
    let due = timers.due(Tick(now));
    timers.drop_timer(Attempt(number));
    due == Some(Attempt(number))
}

// Ten attempts have each deadline. Since 7 * 43 is 1 modulo 100, those of the deadline t are 43 * t modulo 100 and each
// hundred after it, up to 1,000.
#[test]
fn a_thousand_timers_come_in_the_order_of_deadline_and_number(rt: HostRuntime) {
    let Ok(mut timers) = thousand_timers(rt.alloc()) else {
        assert!(rt; false, "room for a thousand timers");
        return;
    };
    for now in 0..100 {
        let least = 43 * now % 100;
        for hundred in 0..10 {
            let number = if least == 0 { 100 } else { least } + hundred * 100;
            assert!(rt; is_next(&mut timers, now, number), "{number} at {now}");
        }
        assert_eq!(rt; timers.due(Tick(now)), None);
    }
}

#[test]
fn an_extended_timer_comes_behind_the_others(rt: HostRuntime) {
    let Ok(mut timers) = TimerList::new(rt.alloc(), 2) else {
        assert!(rt; false, "room for two timers");
        return;
    };
    timers.set(Attempt(1), Tick(3));
    timers.set(Attempt(2), Tick(5));
    timers.extend(Attempt(1), Tick(6));
    timers.drop_timer(Attempt(2));
    assert_eq!(rt; timers.due(Tick(5)), None);
}

// How many calls the list and the plain vector are compared over, and how many attempts these speak of.
const CALLS: u16 = 10_000;

const ATTEMPTS: usize = 1_024;

// The next of a row of numbers below 2 ^ 31 - 1 without an order that shows (Park and Miller's, 1988, with the factor 48,271).
fn next(seed: u64) -> u64
    requires { seed < 2 ^ 31 }
    ensures { result < 2 ^ 31 }
{
    seed * 48_271 % 2_147_483_647
}

// The first attempt that is due by a walk along the deadlines of all attempts, where 0 stands for no timer.
fn first_in(deadlines: &[u64], now: u64) -> Option<Attempt> {
    let mut least = None;
    let mut first = now;
    for n in 0..deadlines.len() {
        let deadline = deadlines[n];
        if deadline != 0 && deadline <= first && (least.is_none() || deadline < first) {
            first = deadline;
            least = Some(Attempt(n as u64));
        }
    }
    least
}

// An attempt's timer starts anew.
fn start(timers: &mut TimerList, n: u64, at: u64)
    requires { length timers.old.timers < timers.old.most }
    ensures count { length timers.new.timers ≤ length timers.old.timers + 1 }
    ensures most { timers.new.most ≡ timers.old.most }
{
    timers.drop_timer(Attempt(n));
    timers.set(Attempt(n), Tick(at));
}

// The attempt that is due, if one is, waits until `at` from then on.
fn extend_due(timers: &mut TimerList, deadlines: &mut [u64], now: u64, at: u64)
    ensures count { length timers.new.timers ≡ length timers.old.timers }
    ensures most { timers.new.most ≡ timers.old.most }
{
    let Some(n) = timers.due(Tick(now)) else {
        return;
    };
    timers.extend(n, Tick(at));
    if let Some(deadline) = deadlines.get_mut(n.0 as usize) {
        *deadline = at;
    }
}

// Deadlines from 1 to 10,000 of 1,024 attempts, set, extended and dropped by chance: how many calls of `due` told what the
// walk tells.
fn alike(timers: &mut TimerList, deadlines: &mut [u64]) -> u16
    requires none { length timers.old.timers ≡ 0 }
    requires most { timers.old.most ≡ 10000 }
    requires attempts { length deadlines.old ≡ 1024 }
{
    let mut seed = 1;
    let mut count = 0;
    for _ in 0..CALLS {
        seed = next(seed);
        let n = seed % 1_024;
        let at = 1 + seed / 1_024 % 10_000;
        start(timers, n, at);
        deadlines[n as usize] = at;
        seed = next(seed);
        extend_due(timers, deadlines, seed % 10_000, 1 + seed / 1_024 % 10_000);
        seed = next(seed);
        timers.drop_timer(Attempt(seed % 1_024));
        deadlines[(seed % 1_024) as usize] = 0;
        if timers.due(Tick(at)) == first_in(deadlines, at) {
            count += 1;
        }
    }
    count
}

#[test]
fn due_tells_what_a_walk_along_the_deadlines_tells(rt: HostRuntime) {
    let Ok(mut timers) = TimerList::new(rt.alloc(), CALLS) else {
        assert!(rt; false, "room for the timers");
        return;
    };
    let Ok(mut deadlines) = vec![in rt.alloc(); 0; ATTEMPTS] else {
        assert!(rt; false, "room for the deadlines");
        return;
    };
    assert_eq!(rt; alike(&mut timers, &mut deadlines), CALLS);
}
