ghost use Rattle.std.specs.Prelude.{ℕ, ◌≡◌, ◌+◌, Bool, true, false, List, [], ◌∷◌, Some, None};
ghost use Rattle.std.specs.List.{list_all};
ghost use Rattle.mid_base.specs.Codes.{test_unit_ready};
ghost use Rattle.mid_base.specs.Levels.{calls, callback, give_up, level_of, not_online, number};
ghost use Rattle.mid_base.specs.declared.answers.Answer.{Answer as AnswerSeen};
ghost use Rattle.mid_base.specs.declared.answers.By.TheVariants.{Expiry as ByExpiry};
ghost use Rattle.mid_base.specs.declared.answers.Disp.TheVariants.{Requeue};
ghost use Rattle.mid_base.specs.declared.answers.ProbeSay.TheVariants.{Silent};
ghost use Rattle.mid_base.specs.declared.answers.Scope.{Scope as ScopeSeen};
ghost use Rattle.mid_base.specs.declared.entries.Entry.{Entry};
ghost use Rattle.mid_base.specs.declared.entries.Entry.TheVariants.{Ready, Owned, AbortSet, Again, State, Act, EhBegin, Probe};
ghost use Rattle.mid_base.specs.declared.host_spec.HostSpec.{HostSpec};
ghost use Rattle.mid_base.specs.declared.names.Attempt.{Attempt as AttemptSeen};
ghost use Rattle.mid_base.specs.declared.names.CmdId.{CmdId as CmdSeen};
ghost use Rattle.mid_base.specs.declared.names.DevAddr.{DevAddr as DevSeen};
ghost use Rattle.mid_base.specs.declared.states.DeviceState.{DeviceState as StateSeen};
ghost use Rattle.disposition.specs.declared.todo.Todo.{Todo as TodoSeen};
ghost use Rattle.trace_model.specs.Attempts.{answer, late};
ghost use Rattle.trace_model.specs.Climb.{clear, is_doubtful, test_and_clear};
ghost use Rattle.trace_model.specs.Course.{after, next, over};
ghost use Rattle.trace_model.specs.Devices.{has_begun, in_recovery};
ghost use Rattle.trace_model.specs.Judging.{has_abort_left};
ghost use Rattle.trace_model.specs.Recovery.{listed, may_act};
ghost use Rattle.trace_model.specs.Rules.{Allowed, course, is_lost, judged};
ghost use Rattle.trace_model.specs.Sending.{may_send};
ghost use Rattle.trace_model.specs.Time.{may_tick};

// Single rules, each said once more in the words of who reads a journal, so that a definition that says otherwise is told.

/// Time doesn't go on right after an answer: it is to be claimed, or to be ignored.
pub fn time_waits_for_answers()
    ensures { (s : HostSpec) (P : List Entry) (n : AttemptSeen) (a : AnswerSeen) → may_tick s (Ready n a ∷ P) ≡ false }
{}

/// An attempt that its expired timer owns, and that was answered, has one late answer more.
pub fn an_answer_that_lost_is_late()
    ensures { (P : List Entry) (n : AttemptSeen) (a : AnswerSeen) → answer n.0 P ≡ Some a → late n.0 (Owned n ByExpiry ∷ P) ≡ late n.0 P + 1 }
{}

/// A command is aborted once (`scsi_eh.rst`, "How SCSI EH works", asynchronous aborts).
pub fn no_command_is_aborted_twice()
    ensures { (s : HostSpec) (P : List Entry) (c : CmdSeen) (n : AttemptSeen) → has_abort_left s (AbortSet c n ∷ P) c.0 ≡ false }
{}

/// Nothing is sent while a host is in recovery.
pub fn nothing_is_sent_in_recovery()
    ensures { (s : HostSpec) (P : List Entry) (c n t : ℕ) → in_recovery P ≡ true → may_send s P c n t ≡ false }
{}

/// No device is set to a state from outside while recovery runs.
pub fn no_state_is_set_in_recovery()
    ensures { (s : HostSpec) (P : List Entry) (d : DevSeen) (x : StateSeen) → has_begun P ≡ true → Allowed s P (State d x) → ⊥ }
{}

/// A command that is queued again without counting waits for the same device; the flush sends only by counting.
pub fn requeues_are_free_and_flushes_count()
    ensures requeued { (c : CmdSeen) (n : AttemptSeen) (a : AnswerSeen) → judged c n Requeue (Some a) ≡ next (Again c false) over }
    ensures flushed { (s : HostSpec) (P : List Entry) (c : CmdSeen) → Allowed s P (Again c false) → ⊥ }
{}

/// As recovery begins, the failed commands of devices that aren't online are cleared at once.
pub fn recovery_begins_with_what_is_not_online()
    ensures { (s : HostSpec) (P : List Entry) → list_all (is_lost s P) (listed s P) ≡ true → course s P EhBegin ≡ clear (number not_online) (listed s P) }
{}

/// An act whose callback the host hasn't doesn't succeed, and to give a device up never fails.
pub fn acts_succeed_by_their_callbacks()
    ensures omitted { (s : HostSpec) (P : List Entry) (level bit : ℕ) → callback (level_of level) ≡ Some bit → calls s.handlers (level_of level) ≡ false → may_act s P (level_of level) true ≡ false }
    ensures last { (s : HostSpec) (P : List Entry) → may_act s P give_up false ≡ false }
{}

/// A device whose test nobody answered isn't tested again, and its command isn't cleared.
pub fn silent_devices_are_not_ready()
    ensures once { is_doubtful Silent ≡ false }
    ensures kept { (level : ℕ) (x : TodoSeen) → after (test_and_clear level (x ∷ [])) (Probe x.dev test_unit_ready Silent) ≡ over }
{}
