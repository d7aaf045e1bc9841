ghost use Rattle.std.specs.Prelude.{◌≡◌, List, ◌∷◌, Some};
ghost use Rattle.mid_base.specs.declared.answers.By.TheVariants.{Answer as ByAnswer};
ghost use Rattle.mid_base.specs.declared.answers.Disp.TheVariants as disps;
ghost use Rattle.mid_base.specs.declared.entries.Entry.{Entry as EntrySeen};
ghost use Rattle.mid_base.specs.declared.entries.Entry.TheVariants as entries;
ghost use Rattle.mid_base.specs.declared.host_spec.HostSpec.{HostSpec as SpecSeen};
ghost use Rattle.trace_model.specs.Judging.{disp_of};
ghost use Rattle.attempt_table.specs.Rows.{row_of};
ghost use Rattle.host_state.specs.HostAgrees.{HostAgrees, IsOwnedRow, HasRetries, IsFreed};
ghost use Rattle.mid_core.specs.Choices.{IsRunning, follow_of};

use attempt_table::Row;
use device_states::online;
use disposition::{Cx, decide};
use host_state::Running;
use mid_base::{Answer, Attempt, Disp, Entry, HostSpec};

/// The disposition of the answer that owns an attempt, for the attempt's command as it stands now.
pub(crate) fn judge(spec: &HostSpec, running: &Running, n: Attempt, row: Row, a: &Answer) -> Disp
    requires runs { IsRunning spec.now running.now }
    requires row { row_of n.0 running.now.attempts.rows.items ≡ Some row }
    ensures disp { (P : List EntrySeen) → HostAgrees spec.now P running.now → result ≡ disp_of spec.now P row.command.0 a.now }
    ensures few { result ≡ disps.Retry → HasRetries running.now row.place }
{
    let command = spec.cmds.as_slice()[row.place];
    let kept = running.command(row.place);
    let context = Cx {
        retries: kept.retries,
        allowed: command.allowed,
        failfast: command.failfast,
        online: online(running.device_state(kept.device)),
    };
    decide(a, &context)
}

/// Settles an attempt by the disposition of its answer, and gives the entry that follows the judgement.
pub(crate) fn settle_by(
    running: &mut Running,
    n: Attempt,
    row: Row,
    a: Answer,
    disposition: Disp,
) -> Entry
    requires owned { IsOwnedRow running.old n row a }
    requires few { disposition ≡ disps.Retry → HasRetries running.old row.place }
    ensures entry { result ≡ follow_of row.command n a disposition }
    ensures runs { (s : SpecSeen) (P : List EntrySeen) → HostAgrees s P running.old → HostAgrees s (follow_of row.command n a disposition ∷ entries.Judged row.command n disposition ∷ P) running.new }
    ensures shown { IsFreed running.old.attempts.tags.items running.new.attempts.tags.items n ByAnswer row.tag }
{
    match disposition {
        Disp::Success => {
            running.report(n, row, a);
            Entry::Told(row.command, a)
        }
        Disp::Retry => {
            running.again(n, row, a, true);
            Entry::Again(row.command, true)
        }
        Disp::Requeue => {
            running.again(n, row, a, false);
            Entry::Again(row.command, false)
        }
        Disp::Fail => {
            running.fail(n, row, a);
            Entry::Failed(row.command, n, false)
        }
    }
}
