ghost use Rattle.std.specs.Prelude.{◌≡◌, ◌≢◌, ℕ, true, false, List, ◌∷◌, Some, slice_get};
ghost use Rattle.mid_base.specs.declared.answers.TagState.{TagState};
ghost use Rattle.mid_base.specs.declared.answers.TagState.TheVariants.{Free};
ghost use Rattle.mid_base.specs.declared.entries.Entry.{Entry};
ghost use Rattle.mid_base.specs.declared.entries.Entry.TheVariants.{Sensed};
ghost use Rattle.mid_base.specs.declared.host_spec.HostSpec.{HostSpec};
ghost use Rattle.mid_base.specs.declared.names.Attempt.{Attempt};
ghost use Rattle.mid_base.specs.declared.names.CmdId.{CmdId};
ghost use Rattle.attempt_table.specs.declared.attempts.Attempts.{Attempts};
ghost use Rattle.attempt_table.specs.Rows.{row_of, settled_in, live_in, tag_in, shown_in};
ghost use Rattle.attempt_table.specs.AttemptsAgree.{AttemptsAgree, IsApart, Settles};

/// An entry that says nothing of how far an attempt has come leaves the table as it has to be.
pub fn other_entries_change_no_attempt()
    ensures { (s : HostSpec) (P : List Entry) (t : Attempts) (e : Entry) → IsApart e → AttemptsAgree s P t → AttemptsAgree s (e ∷ P) t }
{}

/// So does an entry that settles an attempt again: one that was judged fails, or is judged by sense that was fetched.
pub fn a_settled_attempt_may_be_settled_again()
    ensures { (s : HostSpec) (P : List Entry) (t : Attempts) (n : ℕ) (e : Entry) → Settles n e → settled_in (row_of n t.rows.items) ≡ true → AttemptsAgree s P t → AttemptsAgree s (e ∷ P) t }
{}

/// And so does sense that was fetched for an attempt that is under way no longer.
pub fn sense_is_fetched_behind_an_attempt()
    ensures { (s : HostSpec) (P : List Entry) (t : Attempts) (c : CmdId) (n : Attempt) (x : _) → live_in (row_of n.0 t.rows.items) ≡ false → AttemptsAgree s P t → AttemptsAgree s (Sensed c n x ∷ P) t }
{}

/// A tag that isn't free is the tag of an attempt under way.
pub fn a_held_tag_has_its_attempt()
    ensures { (s : HostSpec) (P : List Entry) (t : Attempts) → AttemptsAgree s P t → (u : ℕ) (x : TagState) → slice_get t.tags.items u ≡ Some x → x ≢ Free → (n : ℕ) × (live_in (row_of n t.rows.items) ≡ true) × ((tag_in (row_of n t.rows.items)).0 ≡ u) }
{}

/// The tag of an attempt under way says which attempt holds it, and whether that one is owned.
pub fn an_attempt_under_way_holds_its_tag()
    ensures { (s : HostSpec) (P : List Entry) (t : Attempts) → AttemptsAgree s P t → (n : ℕ) → live_in (row_of n t.rows.items) ≡ true → slice_get t.tags.items (tag_in (row_of n t.rows.items)).0 ≡ Some (shown_in n (row_of n t.rows.items)) }
{}
