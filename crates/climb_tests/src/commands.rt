use crate::recovered;
use bitflags::Flags;
use escalation::{Cx, Todo};
use host_template::HostTemplate;
use mid_base::{Attempt, CmdId, DevAddr, Entry, Handlers};
use std::alloc::Global;
use std::test::Fail;

// The addresses of three units: two of a target, and one on another channel.
pub(crate) const FIRST: DevAddr = DevAddr {
    channel: 0,
    target: 0,
    lun: 0,
};

pub(crate) const SECOND: DevAddr = DevAddr {
    channel: 0,
    target: 0,
    lun: 1,
};

pub(crate) const OTHER: DevAddr = DevAddr {
    channel: 1,
    target: 0,
    lun: 0,
};

// A command that was cancelled.
pub(crate) fn cancelled(id: u32, dev: DevAddr) -> Todo {
    Todo {
        cmd: CmdId(id),
        n: Attempt(1),
        dev,
        cancelled: true,
        answer: None,
        cx: Cx {
            retries: 0,
            allowed: 5,
            failfast: false,
            online: true,
        },
    }
}

pub(crate) fn all_callbacks() -> Handlers {
    Handlers::from_bits_retain(31)
}

// What is told of a climb of these commands.
pub(crate) fn told<A: HostTemplate>(
    alloc: Global,
    lower: &mut A,
    todo: &[Todo],
    handlers: Handlers,
    aborts: bool,
) -> Result<Vec<Entry>, Fail> {
    let mut into = [0u8; 2056];
    Ok(recovered(todo.to_vec(alloc)?, handlers, aborts, lower, &mut into)?)
}
