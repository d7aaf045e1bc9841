ghost use Rattle.std.specs.Prelude.{◌≡◌, true, false, List, ◌∷◌, MatchOption};
ghost use Rattle.std.specs.List.{list_any};
ghost use Rattle.mid_base.specs.declared.entries.Entry.{Entry as EntrySeen};
ghost use Rattle.mid_base.specs.declared.entries.Entry.TheVariants as entries;
ghost use Rattle.mid_base.specs.declared.host_spec.HostSpec.{HostSpec as SpecSeen};
ghost use Rattle.trace_model.specs.Attempts.{attempts};
ghost use Rattle.trace_model.specs.Time.{is_expired, may_ask};
ghost use Rattle.attempt_table.specs.AttemptsAgree.{HasRoom};
ghost use Rattle.deadline_table.specs.DeadlinesAgree.{timeout_of};

use crate::Running;
use mid_base::{Attempt, Tick};

impl Running {
    ghost use Rattle.host_state.specs.HostAgrees.{HostAgrees, IsAsked};

    /// The attempt that the lower layer is to be asked about: its time is up. None exactly where no attempt's time is up.
    pub fn overdue(&self) -> Option<Attempt>
        ensures { (s : SpecSeen) (P : List EntrySeen) → HostAgrees s P self.now → MatchOption result (list_any (is_expired s P) (attempts P) ≡ false) (λ n. (list_any (is_expired s P) (attempts P) ≡ true) × (may_ask s P n.0 ≡ true) × IsAsked self.now n) }
    {
        self.deadlines.due(Tick(self.ticks))
    }

    /// The lower layer left it at that: the attempt waits to be taken from its answer.
    pub fn expire(&mut self, n: Attempt)
        requires asked { IsAsked self.old n }
        requires room { HasRoom self.old.attempts }
        ensures runs { (s : SpecSeen) (P : List EntrySeen) → HostAgrees s P self.old → HostAgrees s (entries.Due n ∷ P) self.new }
        ensures shown { self.new.attempts.tags.items ≡ self.old.attempts.tags.items }
    {
        self.attempts.expire(n);
        self.deadlines.expire(n);
    }

    /// The lower layer had the timer of the attempt reset: it waits for one more timeout of its command, in ticks.
    pub fn lengthen(&mut self, n: Attempt, timeout: u32)
        requires { IsAsked self.old n }
        ensures runs { (s : SpecSeen) (P : List EntrySeen) → timeout_of s P n.0 ≡ timeout → HostAgrees s P self.old → HostAgrees s (entries.Longer n ∷ P) self.new }
        ensures shown { self.new.attempts.tags.items ≡ self.old.attempts.tags.items }
    {
        self.deadlines.lengthen(n, Tick(self.ticks), timeout);
    }

    /// The lower layer said that the command of the attempt is done: its answer has still to come.
    pub fn say_done(&mut self, n: Attempt)
        requires { IsAsked self.old n }
        ensures runs { (s : SpecSeen) (P : List EntrySeen) → HostAgrees s P self.old → HostAgrees s (entries.DoneSaid n ∷ P) self.new }
        ensures shown { self.new.attempts.tags.items ≡ self.old.attempts.tags.items }
    {
        self.deadlines.say_done(n);
    }
}
