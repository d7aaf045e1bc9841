ghost use Rattle.std.specs.Prelude.{ℕ, ◌≤◌, List, ◌++◌, reverse};
ghost use Rattle.mid_base.specs.declared.entries.Entry.{Entry};
ghost use Rattle.mid_base.specs.declared.host_spec.HostSpec.{HostSpec};
ghost use Rattle.trace_model.specs.Counts.{owners, QuietActs};
ghost use Rattle.trace_model.specs.Drained.{tellings, NoneAfterTold};
ghost use Rattle.trace_model.specs.Course.{IsOver, Meets};
ghost use Rattle.trace_model.specs.Legal.{Legal, LegalByPlaces, EachStands, owed};
ghost use Rattle.trace_model.specs.Permits.{Permits};

/// A journal of groups, each an entry with those that follow it at once, is legal place by place.
pub fn groups_are_places()
    ensures { (s : HostSpec) (journal : List Entry) → Legal s journal → LegalByPlaces s journal }
{}

/// A journal that is legal place by place is one of groups.
pub fn places_are_groups()
    ensures { (s : HostSpec) (journal : List Entry) → LegalByPlaces s journal → Legal s journal }
{}

/// An entry that is owed is never one that another rule forbids: so it is all the same whether the rules are asked of it.
pub fn owed_entries_are_permitted()
    ensures { (s : HostSpec) (P : List Entry) (e : Entry) → EachStands s P → Meets (owed s P) e → Permits s P e }
{}

/// What a legal journal begins with is legal, where nothing is owed behind it.
pub fn beginnings_are_legal()
    ensures { (s : HostSpec) (front back : List Entry) → LegalByPlaces s (front ++ back) → IsOver (owed s (reverse front)) → LegalByPlaces s front }
{}

/// Completion and timeout never both own an attempt.
pub fn each_attempt_has_one_owner()
    ensures { (s : HostSpec) (journal : List Entry) (n : ℕ) → LegalByPlaces s journal → owners n (reverse journal) ≤ 1 }
{}

/// Recovery acts only while each busy command is failed (`scsi_eh.rst`, "How SCSI EH works").
pub fn acts_are_quiet()
    ensures { (s : HostSpec) (journal : List Entry) → LegalByPlaces s journal → QuietActs s (reverse journal) }
{}

/// No command is reported twice.
pub fn each_command_is_told_once()
    ensures { (s : HostSpec) (journal : List Entry) (c : ℕ) → LegalByPlaces s journal → tellings c (reverse journal) ≤ 1 }
{}

/// Nothing of a command stands after its report.
pub fn nothing_follows_a_report()
    ensures { (s : HostSpec) (journal : List Entry) (c : ℕ) → LegalByPlaces s journal → NoneAfterTold c (reverse journal) }
{}
