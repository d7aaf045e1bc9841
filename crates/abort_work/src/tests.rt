use crate::AbortWork;
use mid_base::{Attempt, CmdId};

#[test]
fn aborts_are_served_in_the_order_of_scheduling(rt: HostRuntime) {
    let Ok(mut work) = AbortWork::new(rt.alloc(), 2) else {
        assert!(rt; false, "room for two aborts");
        return;
    };
    assert_eq!(rt; work.next(), None);
    work.put(CmdId(7), Attempt(1));
    work.put(CmdId(3), Attempt(2));
    assert_eq!(rt; work.next(), Some((CmdId(7), Attempt(1))));
    work.put(CmdId(7), Attempt(4));
    assert_eq!(rt; work.next(), Some((CmdId(3), Attempt(2))));
    assert_eq!(rt; work.next(), Some((CmdId(7), Attempt(4))));
    assert_eq!(rt; work.next(), None);
}

#[test]
fn the_first_abort_stays_until_it_is_taken(rt: HostRuntime) {
    let Ok(mut work) = AbortWork::new(rt.alloc(), 2) else {
        assert!(rt; false, "room for two aborts");
        return;
    };
    let before = work.first();
    work.put(CmdId(7), Attempt(1));
    work.put(CmdId(3), Attempt(2));
    let first = Some((CmdId(7), Attempt(1)));
    assert_eq!(rt; (before, work.first(), work.first()), (None, first, first));
}
