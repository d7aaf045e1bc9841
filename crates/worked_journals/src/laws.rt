ghost use Rattle.std.specs.Prelude.{ℕ, List};
ghost use Rattle.mid_base.specs.declared.entries.Entry.{Entry};
ghost use Rattle.mid_base.specs.declared.host_spec.HostSpec.{HostSpec};
ghost use Rattle.trace_model.specs.Legal.{LegalByPlaces};
ghost use Rattle.worked_journals.specs.Edits.{EndsTooSoon, WrongAt};

/// A journal with an entry that may not stand isn't legal, whatever comes after it.
pub fn a_wrong_place_is_not_legal()
    ensures { (s : HostSpec) (i : ℕ) (journal : List Entry) → WrongAt s i journal → LegalByPlaces s journal → ⊥ }
{}

/// A journal at whose end something is owed isn't legal.
pub fn an_end_too_soon_is_not_legal()
    ensures { (s : HostSpec) (journal : List Entry) → EndsTooSoon s journal → LegalByPlaces s journal → ⊥ }
{}
