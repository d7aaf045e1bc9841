ghost use Rattle.std.specs.Prelude.{◌≡◌, ℕ, true, List, None, Some};
ghost use Rattle.mid_base.specs.declared.answers.By.TheVariants.{Expiry};
ghost use Rattle.mid_base.specs.declared.entries.Entry.{Entry};
ghost use Rattle.mid_base.specs.declared.host_spec.HostSpec.{HostSpec};
ghost use Rattle.escalation.specs.Climbing.{IsLast, AreLast};
ghost use Rattle.trace_model.specs.Attempts.{owner};
ghost use Rattle.trace_model.specs.Commands.{judgement};
ghost use Rattle.trace_model.specs.Legal.{EachStands};
ghost use Rattle.trace_model.specs.Recovery.{Failure, failed, todo, todo_of, listed};
ghost use Rattle.recovery_laws.specs.Failed.{AreOwned, IsBusyWith};
ghost use Rattle.verdict_table.specs.Taken.{has_failed};

// Here P is what a journal holds, the newest entry first.

/// A command on the failed list is busy with its attempt there, which is settled; and the spec has it.
pub fn failed_commands_are_busy()
    ensures { (s : HostSpec) (P : List Entry) (c n : ℕ) → EachStands s P → has_failed c n (failed P) ≡ true → IsBusyWith s P c n }
{}

/// So a failed attempt is the last one of its command, which is one of the spec's.
pub fn each_failed_attempt_is_the_last_of_its_command()
    ensures { (s : HostSpec) (P : List Entry) (f : Failure) → EachStands s P → has_failed f.cmd.0 f.attempt.0 (failed P) ≡ true → IsLast s P (todo_of s P f) }
{}

/// And so is each on the list of recovery, and each that is left to do.
pub fn the_todo_list_has_last_attempts()
    ensures all { (s : HostSpec) (P : List Entry) → EachStands s P → AreLast s P (listed s P) }
    ensures left { (s : HostSpec) (P : List Entry) → EachStands s P → AreLast s P (todo s P) }
{}

/// A failed attempt is owned by its expiry where it was cancelled, and by its answer, of which there is one, where it wasn't.
pub fn each_failed_attempt_was_lost_or_answered()
    ensures { (s : HostSpec) (P : List Entry) → EachStands s P → AreOwned P (failed P) }
{}

/// An attempt that its expiry owns is never judged.
pub fn an_expired_attempt_is_not_judged()
    ensures { (s : HostSpec) (P : List Entry) (n : ℕ) → EachStands s P → owner n P ≡ Some Expiry → judgement n P ≡ None }
{}
