ghost use Rattle.std.specs.Prelude.{◌≡◌, IfOk, length};

use crate::{FailedRow, Verdicts};
use mid_base::{Answer, Attempt, CHECK_CONDITION, CmdId, DID_OK, Disp, NoMemory, SenseBytes};
use std::alloc::Global;
use std::test::Fail;

// CHECK CONDITION (SAM-5, 5.3.1) without sense data.
fn checked() -> Answer {
    Answer {
        host: DID_OK,
        status: CHECK_CONDITION,
        sense: SenseBytes::empty(),
        moved: 0,
        sum: 0,
    }
}

// Command 7 was answered with its attempt 2.
fn answered() -> FailedRow {
    FailedRow {
        command: CmdId(7),
        attempt: Attempt(2),
        cancelled: false,
        answer: Some(checked()),
        success: false,
    }
}

// Attempt 1 of command 3 was cancelled.
fn cancelled() -> FailedRow {
    FailedRow {
        command: CmdId(3),
        attempt: Attempt(1),
        cancelled: true,
        answer: None,
        success: false,
    }
}

// Command 7 has failed, and command 3 after it.
fn two_failed(alloc: Global) -> Result<Verdicts, NoMemory>
    ensures { IfOk result (λ t. length t.rows.items ≡ 2) }
{
    let mut verdicts = Verdicts::new(alloc, 2)?;
    verdicts.fail(CmdId(7), Attempt(2), false, Some(checked()));
    verdicts.fail(CmdId(3), Attempt(1), true, None);
    Ok(verdicts)
}

#[test]
fn none_has_failed_at_first(rt: HostRuntime) -> Result<(), Fail> {
    let verdicts = Verdicts::new(rt.alloc(), 2)?;
    assert_eq!(rt; verdicts.count(), 0);
    Ok(())
}

#[test]
fn rows_stand_in_the_order_of_failing(rt: HostRuntime) -> Result<(), Fail> {
    let verdicts = two_failed(rt.alloc())?;
    assert_eq!(rt; verdicts.rows(), [answered(), cancelled()].as_slice());
    Ok(())
}

#[test]
fn a_row_is_found_by_its_place(rt: HostRuntime) -> Result<(), Fail> {
    let verdicts = two_failed(rt.alloc())?;
    assert_eq!(rt; verdicts.row(1), cancelled());
    Ok(())
}

#[test]
fn a_command_that_goes_again_has_no_row(rt: HostRuntime) -> Result<(), Fail> {
    let mut verdicts = two_failed(rt.alloc())?;
    verdicts.leave(CmdId(7));
    assert_eq!(rt; verdicts.rows(), [cancelled()].as_slice());
    Ok(())
}

#[test]
fn fetched_sense_data_is_the_answers(rt: HostRuntime) -> Result<(), Fail> {
    let mut verdicts = two_failed(rt.alloc())?;
    let sense = SenseBytes::from_slice(&[0x70, 0, 3]);
    verdicts.sense(Attempt(2), sense);
    let answer = Some(Answer { sense, ..checked() });
    let row = FailedRow {
        answer,
        ..answered()
    };
    assert_eq!(rt; verdicts.rows(), [row, cancelled()].as_slice());
    Ok(())
}

#[test]
fn who_is_judged_a_success_has_succeeded(rt: HostRuntime) -> Result<(), Fail> {
    let mut verdicts = two_failed(rt.alloc())?;
    verdicts.judge(Attempt(2), Disp::Success);
    let row = FailedRow {
        success: true,
        ..answered()
    };
    assert_eq!(rt; verdicts.rows(), [row, cancelled()].as_slice());
    Ok(())
}
