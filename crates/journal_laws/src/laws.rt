ghost use Rattle.std.specs.Prelude.{◌≡◌, ℕ, ◌<◌, true, false, List, ◌++◌, reverse, Some};
ghost use Rattle.mid_base.specs.declared.answers.Answer.{Answer};
ghost use Rattle.mid_base.specs.declared.entries.Entry.{Entry};
ghost use Rattle.mid_base.specs.declared.host_spec.HostSpec.{HostSpec};
ghost use Rattle.mid_base.specs.Answers.{is_good};
ghost use Rattle.mid_base.specs.Past.{sent_for};
ghost use Rattle.trace_model.specs.Attempts.{answer, late, owner, is_by_answer, is_by_expiry, is_settled};
ghost use Rattle.trace_model.specs.Commands.{retries};
ghost use Rattle.trace_model.specs.Drained.{was_told, Drained};
ghost use Rattle.trace_model.specs.Legal.{Legal, LegalByPlaces};
ghost use Rattle.trace_model.specs.Time.{deadline};
ghost use Rattle.journal_laws.specs.Goods.{told, ready_at};
ghost use Rattle.journal_laws.specs.Headline.{Headline};
ghost use Rattle.journal_laws.specs.Reports.{ToldVerdicts, retries_told};
ghost use Rattle.journal_laws.specs.Vain.{without_late, without_replies};

/// A host that is drained stays so, whatever its journal goes on with.
pub fn drained_stays()
    ensures { (s : HostSpec) (front back : List Entry) → Drained s front → Drained s (front ++ back) }
{}

/// What a command is told is the verdict on what stands before its report.
pub fn reports_are_verdicts()
    ensures { (s : HostSpec) (journal : List Entry) → LegalByPlaces s journal → ToldVerdicts (reverse journal) }
{}

/// The retries of a command that was reported stay those that it had at its report.
pub fn reported_retries_stay()
    ensures { (s : HostSpec) (journal : List Entry) (c : ℕ) → LegalByPlaces s journal → was_told c (reverse journal) ≡ true
        → retries c (reverse journal) ≡ retries_told c (reverse journal) }
{}

/// Where a GOOD answer owns its attempt and the attempt is settled, the command was told that answer.
pub fn good_answers_are_told()
    ensures { (s : HostSpec) (journal : List Entry) (n : ℕ) (a : Answer) → LegalByPlaces s journal
        → is_by_answer (owner n (reverse journal)) ≡ true → is_settled n (reverse journal) ≡ true
        → answer n (reverse journal) ≡ Some a → is_good a ≡ true
        → told (sent_for n (reverse journal)) (reverse journal) ≡ Some a }
{}

/// An attempt whose answer came at an earlier tick than its deadline isn't owned by its expiry.
pub fn answers_in_time_win()
    ensures { (s : HostSpec) (journal : List Entry) (n t : ℕ) → LegalByPlaces s journal
        → ready_at n (reverse journal) ≡ Some t → t < deadline s (reverse journal) n
        → is_by_expiry (owner n (reverse journal)) ≡ false }
{}

/// Take out of a legal journal each answer that came too late or twice, and each entry that ignores one: what is left is
/// legal, and all its other entries are the same.
pub fn late_answers_change_nothing()
    ensures { (s : HostSpec) (journal : List Entry) → LegalByPlaces s journal
        → LegalByPlaces s (without_late journal) × (without_replies (without_late journal) ≡ without_replies journal) }
{}

/// What is left has no answer that is late, and each answer whose attempt no expiry owns.
pub fn late_answers_alone_go()
    ensures { (s : HostSpec) (journal : List Entry) (n : ℕ) → LegalByPlaces s journal
        → (late n (reverse (without_late journal)) ≡ 0)
        × (is_by_expiry (owner n (reverse journal)) ≡ false → answer n (reverse (without_late journal)) ≡ answer n (reverse journal)) }
{}

/// What a legal journal promises whoever hands commands in, all at once.
pub fn legal_journals_keep_the_headline()
    ensures { (s : HostSpec) (journal : List Entry) → Legal s journal → Headline s journal }
{}
