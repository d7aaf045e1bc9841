ghost use Rattle.std.specs.Prelude.{◌≡◌};
ghost use Rattle.mid_base.specs.Bytes.{sense_list};
ghost use Rattle.disposition.specs.Disp.{disp, by_host_byte, by_status, check_sense as check_sense_of, sense_row_of, sense_rows};

use crate::Cx;
use mid_base::{
    ACA_ACTIVE, Answer, BUSY, CHECK_CONDITION, CONDITION_MET, DID_ABORT, DID_BAD_TARGET,
    DID_BUS_BUSY, DID_ERROR, DID_IMM_RETRY, DID_NO_CONNECT, DID_OK, DID_PARITY, DID_REQUEUE,
    DID_RESET, DID_SOFT_ERROR, Disp, GOOD, RESERVATION_CONFLICT, TASK_ABORTED, TASK_SET_FULL,
};
use sense_data::{
    ABORTED_COMMAND, ADDRESS_MARK_NOT_FOUND, BECOMING_READY, INITIALIZING_COMMAND_REQUIRED,
    MEDIUM_ERROR, NO_SENSE, NOT_READY, RECORDED_ENTITY_NOT_FOUND, RECOVERED_ERROR, RESET_OCCURRED,
    SenseView, UNIT_ATTENTION, UNRECOVERED_READ_ERROR,
};

/// The disposition of an answer (the kernel's `scsi_decide_disposition`), whole over every host byte, status and sense.
///
/// A device that isn't online ends the command. Else the host byte decides, where it is DID_OK the status, and for CHECK
/// CONDITION the sense data, which fails the command where it isn't valid. A retry is made only where retries are fewer
/// than `allowed` and the command isn't failfast; otherwise the command ends with its answer.
pub fn decide(a: &Answer, cx: &Cx) -> Disp
    ensures { result ≡ disp a.now cx.now.retries cx.now.allowed cx.now.failfast cx.now.online }
{
    if !cx.online {
        return Disp::Success;
    }
    match by_host_byte(a) {
        Disp::Retry if cx.retries >= cx.allowed || cx.failfast => Disp::Success,
        disp => disp,
    }
}

fn by_host_byte(a: &Answer) -> Disp
    ensures { result ≡ by_host_byte a.now }
{
    match a.host {
        DID_OK => by_status(a),
        // Nothing stands there, or somebody ended the command on purpose: also after a reset that wasn't asked for here, only
        // who sent the command knows whether it may be sent again.
        DID_NO_CONNECT | DID_BAD_TARGET | DID_ABORT | DID_RESET => Disp::Success,
        DID_BUS_BUSY | DID_PARITY | DID_ERROR | DID_SOFT_ERROR => Disp::Retry,
        DID_IMM_RETRY | DID_REQUEUE => Disp::Requeue,
        // DID_TIME_OUT, and the host bytes that have no name here.
        _ => Disp::Fail,
    }
}

fn by_status(a: &Answer) -> Disp
    ensures { result ≡ by_status a.now.status (sense_list a.now.sense) }
{
    match a.status {
        GOOD | CONDITION_MET | RESERVATION_CONFLICT | ACA_ACTIVE => Disp::Success,
        // The unit had no room and began nothing, which costs the command no retry.
        BUSY | TASK_SET_FULL => Disp::Requeue,
        TASK_ABORTED => Disp::Retry,
        CHECK_CONDITION => match SenseView::read(a.sense.as_slice()) {
            Ok(sense) => check_sense(&sense),
            Err(_) => Disp::Fail,
        },
        _ => Disp::Fail,
    }
}

/// The disposition of valid sense data (the kernel's `scsi_check_sense`). Deferred sense is of an earlier command, so the
/// command that brought it is retried (SPC-4, 4.5.5).
pub fn check_sense(v: &SenseView<'_>) -> Disp
    ensures { result ≡ check_sense_of v.now.now }
{
    if v.deferred() {
        return Disp::Retry;
    }
    by_code(v.key(), v.asc(), v.ascq())
}

fn by_code(key: u8, asc: u8, ascq: u8) -> Disp
    ensures { result ≡ sense_row_of key asc ascq sense_rows }
{
    match key {
        NO_SENSE | RECOVERED_ERROR => Disp::Success,
        ABORTED_COMMAND => Disp::Retry,
        NOT_READY | UNIT_ATTENTION => match (asc, ascq) {
            BECOMING_READY => Disp::Retry,
            INITIALIZING_COMMAND_REQUIRED => Disp::Fail,
            _ if asc == RESET_OCCURRED.0 => Disp::Retry,
            _ => Disp::Success,
        },
        MEDIUM_ERROR => match asc {
            // The unit has read often enough by itself: the block is lost, and one more reading won't find it.
            UNRECOVERED_READ_ERROR | ADDRESS_MARK_NOT_FOUND | RECORDED_ENTITY_NOT_FOUND => {
                Disp::Success
            }
            _ => Disp::Retry,
        },
        _ => Disp::Success,
    }
}
