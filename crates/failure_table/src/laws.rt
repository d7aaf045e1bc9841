ghost use Rattle.std.specs.Prelude.{◌≡◌, ◌+◌, ◌<◌, ◌≤◌, List, ◌∷◌, Bool, true, false, Some, length, slice_get};
ghost use Rattle.mid_base.specs.declared.answers.Answer.{Answer};
ghost use Rattle.mid_base.specs.declared.entries.Entry.{Entry};
ghost use Rattle.mid_base.specs.declared.entries.Entry.TheVariants.{Took, Sent, Aborted, Told};
ghost use Rattle.mid_base.specs.declared.host_spec.HostSpec.{HostSpec};
ghost use Rattle.mid_base.specs.declared.names.Attempt.{Attempt};
ghost use Rattle.mid_base.specs.declared.names.CmdId.{CmdId};
ghost use Rattle.mid_base.specs.declared.names.Tag.{Tag};
ghost use Rattle.trace_model.specs.Commands.{standing, is_busy, is_failed, aborts};
ghost use Rattle.trace_model.specs.Counts.{busy_count};
ghost use Rattle.trace_model.specs.Recovery.{failed};
ghost use Rattle.failure_table.specs.declared.failures.Failures.{Failures};
ghost use Rattle.failure_table.specs.FailuresAgree.{FailuresAgree, IsApart, CanSend, CanSchedule, CanFail, CanEnd, is_aborting, is_out, out_count, knows};

/// An entry that says nothing of failures leaves the table as it has to be.
pub fn other_entries_change_no_failure()
    ensures { (s : HostSpec) (P : List Entry) (t : Failures) (e : Entry) → IsApart e → FailuresAgree s P t → FailuresAgree s (e ∷ P) t }
{}

/// So does a command that isn't busy and is taken or reported.
pub fn a_command_that_is_not_busy_changes_no_failure()
    ensures taken { (s : HostSpec) (P : List Entry) (t : Failures) (c : CmdId) → is_busy (standing c.0 P) ≡ false → FailuresAgree s P t → FailuresAgree s (Took c ∷ P) t }
    ensures told { (s : HostSpec) (P : List Entry) (t : Failures) (c : CmdId) (a : Answer) → is_busy (standing c.0 P) ≡ false → FailuresAgree s P t → FailuresAgree s (Told c a ∷ P) t }
{}

/// There is room for one busy command more while fewer are busy than the host has tags.
pub fn there_is_room_while_a_tag_is_free()
    ensures { (s : HostSpec) (P : List Entry) (t : Failures) → busy_count s P < s.can_queue → FailuresAgree s P t → CanSend t }
{}

/// A command that is sent is out.
pub fn a_command_that_is_sent_is_out()
    ensures { (s : HostSpec) (P : List Entry) (t : Failures) (c : CmdId) (n : Attempt) (u : Tag) → is_busy (standing c.0 P) ≡ false → FailuresAgree s P t → is_out c.0 (Sent c n u ∷ P) ≡ true }
{}

/// A command that is out, neither to be aborted nor failed, has room to become so.
pub fn a_command_that_is_out_has_room()
    ensures { (s : HostSpec) (P : List Entry) (t : Failures) (c : CmdId) → knows s c.0 ≡ true → is_out c.0 P ≡ true → FailuresAgree s P t → CanSchedule t × CanFail c t }
{}

/// A busy command is counted, so that it can be busy no longer.
pub fn a_busy_command_can_end()
    ensures { (s : HostSpec) (P : List Entry) (t : Failures) (c : CmdId) → knows s c.0 ≡ true → is_busy (standing c.0 P) ≡ true → FailuresAgree s P t → CanEnd c t }
{}

/// A command whose abort was tried is out again, until it goes on or fails.
pub fn a_command_whose_abort_was_tried_is_out()
    ensures { (s : HostSpec) (P : List Entry) (t : Failures) (c : CmdId) (n : Attempt) (ok : Bool) → slice_get t.work.waiting 0 ≡ Some (c, n) → FailuresAgree s P t → (knows s c.0 ≡ true) × (is_out c.0 (Aborted c n ok ∷ P) ≡ true) }
{}

/// A failed command isn't to be aborted.
pub fn no_failed_command_waits_for_an_abort()
    ensures { (s : HostSpec) (P : List Entry) (t : Failures) (c : CmdId) → is_failed c.0 P ≡ true → FailuresAgree s P t → is_aborting c.0 P ≡ false }
{}

/// Each busy command is out, to be aborted or failed, so no more wait for their abort and are failed than are busy, and no
/// more are busy than the host has tags.
pub fn each_busy_command_is_counted_once()
    ensures sum { (s : HostSpec) (P : List Entry) (t : Failures) → FailuresAgree s P t → out_count s P + length (aborts P) + length (failed P) ≡ busy_count s P }
    ensures most { (s : HostSpec) (P : List Entry) (t : Failures) → FailuresAgree s P t → busy_count s P ≤ s.can_queue }
{}
