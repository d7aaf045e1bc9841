ghost use Rattle.std.specs.Prelude.{◌≡◌, ℕ, true, not, ◌&&◌, if◌then◌else◌, List, ◌∷◌, Some};
ghost use Rattle.mid_base.specs.declared.entries.Entry.{Entry};
ghost use Rattle.mid_base.specs.declared.host_spec.HostSpec.{HostSpec};
ghost use Rattle.done_flush.specs.Verdict.{flush, told};
ghost use Rattle.done_flush.specs.declared.flush.Flush.TheVariants as flushed;
ghost use Rattle.trace_model.specs.Commands.{judgement, retries};
ghost use Rattle.trace_model.specs.Devices.{state};
ghost use Rattle.trace_model.specs.Flush.{is_flushed, is_saved, verdict, was_success};
ghost use Rattle.trace_model.specs.Judging.{may_retry};
ghost use Rattle.trace_model.specs.Legal.{EachStands};
ghost use Rattle.trace_model.specs.Names.{command, dev_of};
ghost use Rattle.trace_model.specs.Recovery.{Failure, failed};
ghost use Rattle.recovery_laws.specs.Failed.{last_answer, succeeded};

// Here P is what a journal holds, the newest entry first, and f is the first on its failed list.

/// The verdict on a command that is flushed is its last answer, or that its time ran out where it was cancelled; it goes again
/// where that wasn't judged a success, as one that was cancelled never is, and the command may be retried. So it is with the
/// flush of these (`done_flush`).
pub fn a_flushed_command_is_told_its_last_answer()
    ensures first { (s : HostSpec) (P : List Entry) (c : ℕ) (f : Failure) (fs : List Failure) → is_flushed s P c ≡ true → failed P ≡ f ∷ fs → f.cmd.0 ≡ c }
    ensures verdict_is { (s : HostSpec) (P : List Entry) (c : ℕ) (f : Failure) (fs : List Failure) → EachStands s P → is_flushed s P c ≡ true → failed P ≡ f ∷ fs
        → verdict c P ≡ Some (told (last_answer P f)) }
    ensures saved { (s : HostSpec) (P : List Entry) (c : ℕ) (f : Failure) (fs : List Failure) → EachStands s P → is_flushed s P c ≡ true → failed P ≡ f ∷ fs
        → is_saved s P c ≡ (not (was_success (judgement f.attempt.0 P)) && may_retry s P c) }
    ensures flushes { (s : HostSpec) (P : List Entry) (c : ℕ) (f : Failure) (fs : List Failure) → EachStands s P → is_flushed s P c ≡ true → failed P ≡ f ∷ fs
        → flush (command s c) (retries c P) (state s (dev_of s c) P) (last_answer P f) (was_success (judgement f.attempt.0 P))
        ≡ (if is_saved s P c then flushed.Again else flushed.Told (told (last_answer P f))) }
    ensures saved_by { (s : HostSpec) (P : List Entry) (c : ℕ) (f : Failure) (fs : List Failure) → EachStands s P → is_flushed s P c ≡ true → failed P ≡ f ∷ fs
        → is_saved s P c ≡ (not (succeeded P f) && may_retry s P c) }
    ensures flushes_by { (s : HostSpec) (P : List Entry) (c : ℕ) (f : Failure) (fs : List Failure) → EachStands s P → is_flushed s P c ≡ true → failed P ≡ f ∷ fs
        → flush (command s c) (retries c P) (state s (dev_of s c) P) (last_answer P f) (succeeded P f)
        ≡ (if is_saved s P c then flushed.Again else flushed.Told (told (last_answer P f))) }
{}
