ghost use Rattle.std.specs.Prelude.{[], take, reverse};
ghost use Rattle.mid_base.specs.declared.entries.Entry.TheVariants.{EhEnd, Tick};
ghost use Rattle.trace_model.specs.Drained.{Drained};
ghost use Rattle.trace_model.specs.Legal.{EachStands, FirstWrong};
ghost use Rattle.worked_journals.specs.Edits.{EndsTooSoon, with_entry, without};
ghost use Rattle.worked_journals.specs.Say.{due};
ghost use Rattle.worked_journals.specs.AnswerWins.{answer_wins, answer_wins_spec};
ghost use Rattle.worked_journals.specs.FetchedSense.{fetched_sense, fetched_sense_spec};
ghost use Rattle.worked_journals.specs.RetriesSpent.{retries_spent, retries_spent_spec};
ghost use Rattle.worked_journals.specs.SecondExpiry.{second_expiry, second_expiry_spec};
ghost use Rattle.worked_journals.specs.TwoChannels.{two_channels, two_channels_spec};
ghost use Rattle.worked_journals.specs.TwoRecovered.{two_recovered, two_recovered_spec};

// Claims about whole journals.

/// A journal isn't legal where something is owed at its end.
pub fn ends_too_soon()
    ensures a_report { EndsTooSoon answer_wins_spec (without 8 answer_wins) }
    ensures a_clearing { EndsTooSoon two_channels_spec (take 51 two_channels) }
    ensures a_test { EndsTooSoon second_expiry_spec (take 17 second_expiry) }
    ensures its_sense { EndsTooSoon fetched_sense_spec (take 10 fetched_sense) }
{}

/// A host isn't drained before each of its commands was told.
pub fn not_drained()
    ensures taken { Drained answer_wins_spec (take 8 answer_wins) → ⊥ }
    ensures not_handed_in { Drained answer_wins_spec [] → ⊥ }
    ensures one_told { Drained two_recovered_spec (take 37 two_recovered) → ⊥ }
    ensures one_handed_in { Drained retries_spent_spec (take 23 retries_spent) → ⊥ }
{}

/// Each entry of a legal journal stands, and where an entry may not stand this isn't so.
pub fn each_entry_stands()
    ensures the_last_wrong { EachStands answer_wins_spec (reverse (with_entry 9 EhEnd answer_wins)) → ⊥ }
    ensures an_earlier_one_wrong { EachStands answer_wins_spec (reverse (with_entry 5 Tick answer_wins)) → ⊥ }
    ensures the_last_is_not_wrong { FirstWrong answer_wins_spec answer_wins → ⊥ }
    ensures an_earlier_one_is_wrong { FirstWrong answer_wins_spec (take 7 (with_entry 5 (due 2) (with_entry 5 (due 3) answer_wins))) → ⊥ }
    ensures nothing_is_wrong { FirstWrong answer_wins_spec [] → ⊥ }
{}
