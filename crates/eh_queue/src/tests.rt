use crate::EhQueue;
use mid_base::{Attempt, CmdId};

#[test]
fn recovery_may_start_when_all_busy_commands_have_failed(rt: HostRuntime) {
    let Ok(mut queue) = EhQueue::new(rt.alloc(), 3) else {
        assert!(rt; false, "room for three commands");
        return;
    };
    assert!(rt; !queue.may_start(), "nothing has failed");
    queue.sent();
    queue.sent();
    assert!(rt; !queue.may_start(), "two are busy, none has failed");
    queue.add(CmdId(7), Attempt(2), true);
    assert_eq!(rt; (queue.busy(), queue.failed()), (2, 1));
    assert!(rt; !queue.may_start(), "one is still out");
    queue.add(CmdId(3), Attempt(1), false);
    assert!(rt; queue.may_start());
    assert_eq!(rt; queue.at(0), (CmdId(7), Attempt(2), true));
    assert_eq!(rt; queue.at(1), (CmdId(3), Attempt(1), false));
}

#[test]
fn a_command_that_ends_leaves_the_list(rt: HostRuntime) {
    let Ok(mut queue) = EhQueue::new(rt.alloc(), 3) else {
        assert!(rt; false, "room for three commands");
        return;
    };
    queue.sent();
    queue.sent();
    queue.sent();
    queue.add(CmdId(7), Attempt(2), true);
    queue.add(CmdId(3), Attempt(1), false);
    queue.ended(CmdId(5));
    assert_eq!(rt; (queue.busy(), queue.failed()), (2, 2));
    assert!(rt; queue.may_start());
    queue.ended(CmdId(7));
    assert_eq!(rt; (queue.busy(), queue.failed()), (1, 1));
    assert_eq!(rt; queue.at(0), (CmdId(3), Attempt(1), false));
    queue.ended(CmdId(3));
    assert_eq!(rt; (queue.busy(), queue.failed()), (0, 0));
    assert!(rt; !queue.may_start(), "nothing has failed");
}

#[test]
fn a_failed_command_is_found_on_the_list(rt: HostRuntime) {
    let Ok(mut queue) = EhQueue::new(rt.alloc(), 2) else {
        assert!(rt; false, "room for two commands");
        return;
    };
    queue.sent();
    queue.sent();
    queue.add(CmdId(7), Attempt(2), true);
    assert_eq!(rt; (queue.has(CmdId(7)), queue.has(CmdId(2))), (true, false));
}
