ghost use Rattle.std.specs.Prelude.{◌≡◌, ◌↔◌, ℕ, ◌+◌, ◌<◌, true, List, ◌∷◌, ◌++◌, reverse, Some};
ghost use Rattle.mid_base.specs.Past.{sent_for, was_sent};
ghost use Rattle.mid_base.specs.declared.answers.By.{By};
ghost use Rattle.mid_base.specs.declared.entries.Entry.{Entry};
ghost use Rattle.mid_base.specs.declared.entries.Entry.TheVariants.{Sent, Owned};
ghost use Rattle.mid_base.specs.declared.host_spec.HostSpec.{HostSpec};
ghost use Rattle.mid_base.specs.declared.names.Attempt.{Attempt};
ghost use Rattle.mid_base.specs.declared.names.CmdId.{CmdId};
ghost use Rattle.mid_base.specs.declared.names.Tag.{Tag};
ghost use Rattle.trace_model.specs.Attempts.{owner, sends};
ghost use Rattle.trace_model.specs.Claims.{tag_for, waiting_claims};
ghost use Rattle.trace_model.specs.Legal.{LegalByPlaces};
ghost use Rattle.host_words.specs.Journals.{In, HasSent, HasCause};
ghost use Rattle.owner_laws.specs.Numbers.{IsNumbered, WasSent};
ghost use Rattle.owner_laws.specs.Shown.{ShownUnder};

/// A journal has its oldest entry first, and who looks back has the newest first. The same entries stand in both, and what
/// stands before an entry in the one stands behind it in the other.
pub fn looking_back_turns_a_journal_round()
    ensures entries { (journal : List Entry) (e : Entry) → In e journal ↔ In e (reverse journal) }
    ensures places { (before after : List Entry) (e : Entry) → reverse (before ++ e ∷ after) ≡ reverse after ++ e ∷ reverse before }
{}

/// What looking back says of an attempt is what the entries say: that it was sent, under which tag and for which command,
/// and who owns it.
pub fn words_of_attempts_are_entries()
    ensures sent { (journal : List Entry) (n : Attempt) → (was_sent n.0 (reverse journal) ≡ true) ↔ WasSent journal n }
    ensures tag { (s : HostSpec) (journal : List Entry) (c : CmdId) (n : Attempt) (t : Tag) → LegalByPlaces s journal → In (Sent c n t) journal → tag_for n.0 (reverse journal) ≡ t }
    ensures command { (s : HostSpec) (journal : List Entry) (c : CmdId) (n : Attempt) (t : Tag) → LegalByPlaces s journal → In (Sent c n t) journal → sent_for n.0 (reverse journal) ≡ c.0 }
    ensures owner { (s : HostSpec) (journal : List Entry) (n : Attempt) (by : By) → LegalByPlaces s journal → (owner n.0 (reverse journal) ≡ Some by) ↔ In (Owned n by) journal }
{}

/// Attempts are numbered from 1 in the order in which they are sent, so each number is sent once.
pub fn attempts_are_numbered_in_turn()
    ensures number { (s : HostSpec) (before after : List Entry) (c : CmdId) (n : Attempt) (t : Tag) → LegalByPlaces s (before ++ Sent c n t ∷ after) → n.0 ≡ sends (reverse before) + 1 }
    ensures given { (s : HostSpec) (journal : List Entry) (n : Attempt) → LegalByPlaces s journal → WasSent journal n ↔ IsNumbered journal n }
    ensures once { (s : HostSpec) (journal : List Entry) (c d : CmdId) (n : Attempt) (t u : Tag) → LegalByPlaces s journal → In (Sent c n t) journal → In (Sent d n u) journal → (c ≡ d) × (t ≡ u) }
{}

/// Each tag that an attempt is sent with is one of the host's: it is below their number.
pub fn sent_tags_are_the_hosts()
    ensures { (s : HostSpec) (journal : List Entry) (c : CmdId) (n : Attempt) (t : Tag) → LegalByPlaces s journal → In (Sent c n t) journal → t.0 < s.can_queue }
{}

/// An attempt that somebody owns was sent before that, and its number is one of those that were given out.
pub fn owned_attempts_were_sent()
    ensures before { (s : HostSpec) (before after : List Entry) (n : Attempt) (by : By) → LegalByPlaces s (before ++ Owned n by ∷ after) → WasSent before n }
    ensures numbered { (s : HostSpec) (journal : List Entry) (n : Attempt) (by : By) → LegalByPlaces s journal → In (Owned n by) journal → IsNumbered journal n }
{}

/// No two tags show one attempt, armed or owned, and the tag that shows it is the one that it was sent with.
pub fn no_two_tags_show_one_attempt()
    ensures one { (s : HostSpec) (journal : List Entry) (n : Attempt) (t u : ℕ) → LegalByPlaces s journal → ShownUnder s journal t n → ShownUnder s journal u n → t ≡ u }
    ensures sent { (s : HostSpec) (journal : List Entry) (n : Attempt) (t : ℕ) → LegalByPlaces s journal → ShownUnder s journal t n → HasSent journal t n }
{}

/// A claim that waits has its cause: its attempt was sent under its tag, and was answered, or its time was up, after that.
pub fn waiting_claims_have_causes()
    ensures { (s : HostSpec) (journal : List Entry) (t : Tag) (n : Attempt) (by : By) → LegalByPlaces s journal → In (t, n, by) (waiting_claims (reverse journal)) → HasCause journal t.0 n by }
{}
