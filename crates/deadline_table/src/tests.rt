ghost use Rattle.std.specs.Prelude.{◌≡◌, ◌≤◌, [], Some, IfOk};
ghost use Rattle.timer_list.specs.Timers.{deadline_of};

use crate::Deadlines;
use mid_base::{Attempt, NoMemory, Tick};
use std::alloc::Global;
use std::test::Fail;

// Attempt 2 is sent at tick 1 with 6 ticks of time, and attempt 1 at tick 3 with 4: both have until tick 7.
fn send_two(deadlines: &mut Deadlines)
    requires none { deadlines.old.timers.timers ≡ [] }
    requires room { 2 ≤ deadlines.old.timers.most }
{
    deadlines.send(Attempt(2), Tick(1), 6);
    deadlines.send(Attempt(1), Tick(3), 4);
}

// The table of attempt 1 alone, which is sent at tick 3 with 4 ticks of time.
fn one_sent(alloc: Global) -> Result<Deadlines, NoMemory>
    ensures { IfOk result (λ t. deadline_of 1 t.timers.timers ≡ Some 7) }
{
    let mut deadlines = Deadlines::new(alloc, 1)?;
    deadlines.send(Attempt(1), Tick(3), 4);
    Ok(deadlines)
}

#[test]
fn nobody_is_asked_before_a_deadline(rt: HostRuntime) -> Result<(), Fail> {
    let deadlines = one_sent(rt.alloc())?;
    assert_eq!(rt;
        (deadlines.due(Tick(6)), deadlines.has_due(Tick(6))),
        (None, false)
    );
    Ok(())
}

#[test]
fn who_reaches_a_deadline_is_asked(rt: HostRuntime) -> Result<(), Fail> {
    let deadlines = one_sent(rt.alloc())?;
    assert_eq!(rt;
        (deadlines.due(Tick(7)), deadlines.has_due(Tick(7))),
        (Some(Attempt(1)), true)
    );
    Ok(())
}

#[test]
fn the_least_number_is_asked_first_of_equal_deadlines(rt: HostRuntime) -> Result<(), Fail> {
    let mut deadlines = Deadlines::new(rt.alloc(), 2)?;
    send_two(&mut deadlines);
    assert_eq!(rt; deadlines.due(Tick(7)), Some(Attempt(1)));
    Ok(())
}

#[test]
fn who_was_asked_is_asked_no_more(rt: HostRuntime) -> Result<(), Fail> {
    let mut deadlines = one_sent(rt.alloc())?;
    deadlines.expire(Attempt(1));
    assert_eq!(rt; deadlines.due(Tick(99)), None);
    Ok(())
}

#[test]
fn who_is_said_done_is_asked_no_more(rt: HostRuntime) -> Result<(), Fail> {
    let mut deadlines = one_sent(rt.alloc())?;
    deadlines.say_done(Attempt(1));
    assert_eq!(rt; deadlines.due(Tick(99)), None);
    Ok(())
}

#[test]
fn who_is_bounced_waits_no_longer(rt: HostRuntime) -> Result<(), Fail> {
    let mut deadlines = one_sent(rt.alloc())?;
    deadlines.bounce(Attempt(1));
    assert_eq!(rt; deadlines.due(Tick(99)), None);
    Ok(())
}

#[test]
fn who_is_owned_waits_no_longer(rt: HostRuntime) -> Result<(), Fail> {
    let mut deadlines = one_sent(rt.alloc())?;
    deadlines.own(Attempt(1));
    deadlines.own(Attempt(1));
    assert_eq!(rt; deadlines.due(Tick(99)), None);
    Ok(())
}

#[test]
fn a_timer_that_is_reset_runs_for_one_more_timeout(rt: HostRuntime) -> Result<(), Fail> {
    let mut deadlines = one_sent(rt.alloc())?;
    deadlines.lengthen(Attempt(1), Tick(8), 6);
    assert_eq!(rt;
        (deadlines.due(Tick(13)), deadlines.due(Tick(14))),
        (None, Some(Attempt(1)))
    );
    Ok(())
}
