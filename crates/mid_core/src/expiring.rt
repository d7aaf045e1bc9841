ghost use Rattle.std.specs.Prelude.{◌≡◌, ◌&&◌, not, nat_lt, List, ◌∷◌, Some};
ghost use Rattle.mid_base.specs.declared.answers.By.TheVariants.{Expiry as ByExpiry};
ghost use Rattle.mid_base.specs.declared.entries.Entry.{Entry as EntrySeen};
ghost use Rattle.trace_model.specs.Judging.{has_abort_left};
ghost use Rattle.attempt_table.specs.Rows.{row_of};
ghost use Rattle.host_state.specs.HostAgrees.{HostAgrees, IsExpiredRow, IsFreed};
ghost use Rattle.mid_core.specs.Choices.{IsRunning, after_expiry};

use attempt_table::Row;
use command_table::CommandRow;
use host_state::Running;
use mid_base::{Attempt, CmdSpec, Entry, HostSpec};

/// Settles an attempt that its expired timer owns: its abort is scheduled, or its command has failed. Gives the entry that
/// says so (`scsi_eh.rst`, "Completing a scmd w/ timeout").
pub(crate) fn settle_expired(spec: &HostSpec, running: &mut Running, n: Attempt, row: Row) -> Entry
    requires runs { IsRunning spec.now running.old }
    requires expired { IsExpiredRow running.old n row }
    ensures entry { (P : List EntrySeen) → HostAgrees spec.now P running.old → result ≡ after_expiry spec.now P row.command n }
    ensures runs { (P : List EntrySeen) → HostAgrees spec.now P running.old → HostAgrees spec.now (result ∷ P) running.new }
    ensures shown { IsFreed running.old.attempts.tags.items running.new.attempts.tags.items n ByExpiry row.tag }
{
    if has_abort_left(spec, running, n, row) {
        running.schedule_abort(n, row);
        return Entry::AbortSet(row.command, n);
    }
    running.cancel(n, row);
    Entry::Failed(row.command, n, true)
}

// Whether an abort of the attempt's command may be scheduled: it would be the command's first, retries remain, and the host
// aborts outside recovery.
fn has_abort_left(spec: &HostSpec, running: &Running, n: Attempt, row: Row) -> bool
    requires runs { IsRunning spec.now running.now }
    requires row { row_of n.0 running.now.attempts.rows.items ≡ Some row }
    ensures { (P : List EntrySeen) → HostAgrees spec.now P running.now → result ≡ has_abort_left spec.now P row.command.0 }
{
    let command = spec.cmds.as_slice()[row.place];
    let kept = running.command(row.place);
    is_left(spec, kept, command)
}

fn is_left(spec: &HostSpec, kept: CommandRow, command: CmdSpec) -> bool
    ensures { result ≡ (not spec.now.no_async_abort && not kept.aborted && nat_lt kept.retries command.allowed) }
{
    !spec.no_async_abort && !kept.aborted && kept.retries < command.allowed
}
