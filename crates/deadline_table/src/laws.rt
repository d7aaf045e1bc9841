ghost use Rattle.std.specs.Prelude.{◌≡◌, ℕ, false, List, ◌∷◌, None};
ghost use Rattle.std.specs.List.{list_any};
ghost use Rattle.mid_base.specs.declared.entries.Entry.{Entry};
ghost use Rattle.mid_base.specs.declared.entries.Entry.TheVariants.{Tick};
ghost use Rattle.mid_base.specs.declared.host_spec.HostSpec.{HostSpec};
ghost use Rattle.mid_base.specs.Past.{was_sent};
ghost use Rattle.trace_model.specs.Attempts.{attempts};
ghost use Rattle.trace_model.specs.Time.{is_expired};
ghost use Rattle.timer_list.specs.Timers.{deadline_of};
ghost use Rattle.deadline_table.specs.declared.deadlines.Deadlines.{Deadlines};
ghost use Rattle.deadline_table.specs.DeadlinesAgree.{DeadlinesAgree, IsApart};

/// An entry that moves no deadline and stops no timer leaves the table as it has to be.
pub fn other_entries_change_no_deadline()
    ensures { (s : HostSpec) (P : List Entry) (t : Deadlines) (e : Entry) → IsApart e → DeadlinesAgree s P t → DeadlinesAgree s (e ∷ P) t }
{}

/// So does a tick, where no attempt's time is up.
pub fn time_goes_on_where_no_attempt_is_expired()
    ensures { (s : HostSpec) (P : List Entry) (t : Deadlines) → list_any (is_expired s P) (attempts P) ≡ false → DeadlinesAgree s P t → DeadlinesAgree s (Tick ∷ P) t }
{}

/// An attempt that wasn't sent yet doesn't wait.
pub fn a_new_attempt_has_no_deadline()
    ensures { (s : HostSpec) (P : List Entry) (t : Deadlines) (n : ℕ) → was_sent n P ≡ false → DeadlinesAgree s P t → deadline_of n t.timers.timers ≡ None }
{}
