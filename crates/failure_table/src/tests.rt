use crate::{FailedCommand, Failures};
use mid_base::{Attempt, CmdId};

#[test]
fn recovery_may_begin_when_all_busy_commands_have_failed(rt: HostRuntime) {
    let Ok(mut failures) = Failures::new(rt.alloc(), 2) else {
        assert!(rt; false, "room for two commands");
        return;
    };
    failures.send();
    failures.send();
    failures.fail(CmdId(7), Attempt(1), false);
    let one_is_out = failures.may_begin();
    failures.fail(CmdId(3), Attempt(2), true);
    assert_eq!(rt; (one_is_out, failures.may_begin()), (false, true));
}

#[test]
fn failures_are_told_in_their_order(rt: HostRuntime) {
    let Ok(mut failures) = Failures::new(rt.alloc(), 2) else {
        assert!(rt; false, "room for two commands");
        return;
    };
    failures.send();
    failures.send();
    failures.fail(CmdId(7), Attempt(2), true);
    failures.fail(CmdId(3), Attempt(1), false);
    let first = FailedCommand {
        command: CmdId(7),
        attempt: Attempt(2),
        cancelled: true,
    };
    assert_eq!(rt; (failures.count(), failures.failed_at(0)), (2, first));
}

#[test]
fn aborts_are_tried_in_the_order_of_scheduling(rt: HostRuntime) {
    let Ok(mut failures) = Failures::new(rt.alloc(), 2) else {
        assert!(rt; false, "room for two commands");
        return;
    };
    failures.send();
    failures.send();
    failures.schedule(CmdId(7), Attempt(2));
    failures.schedule(CmdId(3), Attempt(1));
    let tried = failures.take_abort();
    assert_eq!(rt;
        (tried, failures.first_abort()),
        (Some((CmdId(7), Attempt(2))), Some((CmdId(3), Attempt(1))))
    );
}

#[test]
fn a_failed_command_that_ends_leaves_the_list(rt: HostRuntime) {
    let Ok(mut failures) = Failures::new(rt.alloc(), 2) else {
        assert!(rt; false, "room for two commands");
        return;
    };
    failures.send();
    failures.send();
    failures.fail(CmdId(7), Attempt(1), false);
    failures.fail(CmdId(3), Attempt(2), true);
    failures.again(CmdId(7));
    assert_eq!(rt;
        (failures.is_failed(CmdId(7)), failures.is_failed(CmdId(3))),
        (false, true)
    );
}

#[test]
fn who_is_bounced_or_told_is_busy_no_longer(rt: HostRuntime) {
    let Ok(mut failures) = Failures::new(rt.alloc(), 2) else {
        assert!(rt; false, "room for two commands");
        return;
    };
    failures.send();
    failures.send();
    failures.bounce(CmdId(7));
    let one_is_out = failures.is_quiet();
    failures.tell(CmdId(3));
    assert_eq!(rt;
        (one_is_out, failures.is_quiet(), failures.has_failed()),
        (false, true, false)
    );
}

#[test]
fn recovery_begins_and_ends(rt: HostRuntime) {
    let Ok(mut failures) = Failures::new(rt.alloc(), 1) else {
        assert!(rt; false, "room for one command");
        return;
    };
    failures.send();
    failures.fail(CmdId(7), Attempt(1), false);
    failures.begin();
    let during = (failures.in_recovery(), failures.has_begun());
    failures.tell(CmdId(7));
    failures.end();
    let after = (failures.in_recovery(), failures.has_begun());
    assert_eq!(rt; (during, after), ((true, true), (false, false)));
}
