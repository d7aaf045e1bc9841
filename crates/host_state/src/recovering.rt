ghost use Rattle.std.specs.Prelude.{◌≡◌, not, true, List, ◌∷◌, map};
ghost use Rattle.mid_base.specs.declared.answers.Answer.{Answer as AnswerSeen};
ghost use Rattle.mid_base.specs.declared.entries.Entry.{Entry as EntrySeen};
ghost use Rattle.mid_base.specs.declared.entries.Entry.TheVariants as entries;
ghost use Rattle.mid_base.specs.declared.host_spec.HostSpec.{HostSpec as SpecSeen};
ghost use Rattle.trace_model.specs.Devices.{has_begun};
ghost use Rattle.trace_model.specs.Flush.{is_empty};
ghost use Rattle.trace_model.specs.Recovery.{failed, is_quiet};
ghost use Rattle.verdict_table.specs.Taken.{Takes};
ghost use Rattle.verdict_table.specs.VerdictsAgree.{row_of as verdict_of};

use crate::Running;
use attempt_table::Row;
use mid_base::{Attempt, Entry};
use verdict_table::FailedRow;

impl Running {
    ghost use Rattle.host_state.specs.HostAgrees.{HostAgrees, HasRetries};
    ghost use Rattle.host_state.specs.Recovers.{IsFailedRow, IsFailedWith};

    /// Whether recovery has begun.
    pub fn has_begun(&self) -> bool
        ensures { (s : SpecSeen) (P : List EntrySeen) → HostAgrees s P self.now → has_begun P ≡ result }
    {
        self.failures.has_begun()
    }

    /// Whether a command has failed.
    pub fn has_failed(&self) -> bool
        ensures { (s : SpecSeen) (P : List EntrySeen) → HostAgrees s P self.now → is_empty (failed P) ≡ not result }
    {
        self.failures.has_failed()
    }

    /// Whether each busy command has failed.
    pub fn is_quiet(&self) -> bool
        ensures { (s : SpecSeen) (P : List EntrySeen) → HostAgrees s P self.now → is_quiet s P ≡ result }
    {
        self.failures.is_quiet()
    }

    /// What is kept of each failed command, in the order in which they failed.
    pub fn failed(&self) -> &[FailedRow]
        ensures rows { result.now ≡ self.now.verdicts.rows.items }
        ensures tells { (s : SpecSeen) (P : List EntrySeen) → HostAgrees s P self.now → result.now ≡ map (verdict_of P) (failed P) }
    {
        self.verdicts.rows()
    }

    /// Recovery begins.
    pub fn begin_recovery(&mut self)
        ensures runs { (s : SpecSeen) (P : List EntrySeen) → HostAgrees s P self.old → HostAgrees s (entries.EhBegin ∷ P) self.new }
        ensures shown { self.new.attempts.tags.items ≡ self.old.attempts.tags.items }
    {
        self.failures.begin();
    }

    /// Recovery ends.
    pub fn end_recovery(&mut self)
        ensures runs { (s : SpecSeen) (P : List EntrySeen) → HostAgrees s P self.old → HostAgrees s (entries.EhEnd ∷ P) self.new }
        ensures shown { self.new.attempts.tags.items ≡ self.old.attempts.tags.items }
    {
        self.failures.end();
    }

    /// Recovery did what an entry of an act says: sense data was fetched for a failed command, its answer was judged again, or
    /// a device was put offline. The other entries of an act change nothing here.
    pub fn enter(&mut self, entry: &Entry)
        requires { (s : SpecSeen) × (P : List EntrySeen) × HostAgrees s P self.old }
        ensures runs { (s : SpecSeen) (P : List EntrySeen) → Takes s P entry.now → HostAgrees s P self.old → HostAgrees s (entry.now ∷ P) self.new }
        ensures shown { self.new.attempts.tags.items ≡ self.old.attempts.tags.items }
    {
        match *entry {
            Entry::Sensed(_, n, sense) => self.verdicts.sense(n, sense),
            Entry::Judged(_, n, d) => self.verdicts.judge(n, d),
            Entry::Offline(dev) => {
                if let Some(place) = self.devices.place_of(dev) {
                    self.devices.go_offline(place);
                }
            }
            _ => {}
        }
    }

    /// Recovery is done with a failed command, which waits again, as a counted retry.
    pub fn retry_failed(&mut self, n: Attempt, row: Row)
        requires failed { IsFailedRow self.old n row }
        requires few { HasRetries self.old row.place }
        ensures runs { (s : SpecSeen) (P : List EntrySeen) → IsFailedWith P n row → HostAgrees s P self.old → HostAgrees s (entries.Again row.command true ∷ P) self.new }
        ensures shown { self.new.attempts.tags.items ≡ self.old.attempts.tags.items }
    {
        let device = self.commands.row(row.place).device;
        self.commands.again(row.place, true);
        self.devices.again(device, row.tag, true);
        self.failures.again(row.command);
        self.verdicts.leave(row.command);
    }

    /// Recovery is done with a failed command, which is reported.
    pub fn report_failed(&mut self, n: Attempt, row: Row)
        requires { IsFailedRow self.old n row }
        ensures runs { (s : SpecSeen) (P : List EntrySeen) (x : AnswerSeen) → IsFailedWith P n row → HostAgrees s P self.old → HostAgrees s (entries.Told row.command x ∷ P) self.new }
        ensures shown { self.new.attempts.tags.items ≡ self.old.attempts.tags.items }
    {
        self.commands.tell(row.place);
        self.devices.tell(row.tag);
        self.failures.tell(row.command);
        self.verdicts.leave(row.command);
    }
}
