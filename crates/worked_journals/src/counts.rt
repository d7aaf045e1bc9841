ghost use Rattle.std.specs.Prelude.{[], ◌∷◌, ◌≡◌, true, false, map, reverse};
ghost use Rattle.mid_base.specs.declared.answers.By.TheVariants.{Expiry};
ghost use Rattle.mid_base.specs.declared.answers.Disp.TheVariants.{Success};
ghost use Rattle.mid_base.specs.declared.answers.Scope.TheVariants.{Dev};
ghost use Rattle.mid_base.specs.declared.entries.Entry.TheVariants.{Act, EhBegin, EhEnd, Offline, Tick};
ghost use Rattle.trace_model.specs.Drained.{tellings, NoneAfterTold};
ghost use Rattle.trace_model.specs.Legal.{LegalByPlaces};
ghost use Rattle.trace_model.specs.Commands.{is_of_attempt, trace};
ghost use Rattle.trace_model.specs.Counts.{owners, busy_count, failed_count, is_acting, QuietActs};
ghost use Rattle.trace_model.specs.Permits.{Permits};
ghost use Rattle.worked_journals.specs.Edits.{before, twice, with_entry};
ghost use Rattle.worked_journals.specs.Hosts.{unit};
ghost use Rattle.worked_journals.specs.Say.{again, cleared, due, failed, fine, judged, owned, probe, sensed, sent, told, took, was_reset};
ghost use Rattle.worked_journals.specs.Tables.{openers};
ghost use Rattle.worked_journals.specs.AnswerWins.{answer_wins, answer_wins_spec};
ghost use Rattle.worked_journals.specs.ExpiryWins.{expiry_wins, expiry_wins_spec};
ghost use Rattle.worked_journals.specs.LateCounts.{late_counts};
ghost use Rattle.worked_journals.specs.ThreeAborts.{three_aborts};
ghost use Rattle.worked_journals.specs.TwoRecovered.{two_recovered, two_recovered_spec};

/// A command that is told twice is counted twice.
pub fn how_often_told()
    ensures once { tellings 1 (reverse answer_wins) ≡ 1 }
    ensures twice { tellings 1 (reverse (twice 8 answer_wins)) ≡ 2 }
    ensures another { tellings 2 (reverse answer_wins) ≡ 0 }
{}

/// So are the owners of an attempt.
pub fn how_often_owned()
    ensures once { owners 1 (reverse expiry_wins) ≡ 1 }
    ensures twice { owners 1 (reverse (twice 6 expiry_wins)) ≡ 2 }
    ensures another { owners 3 (reverse expiry_wins) ≡ 0 }
{}

/// Busy commands, and failed ones.
pub fn how_many_are_out()
    ensures none_busy { busy_count two_recovered_spec [] ≡ 0 }
    ensures both_busy { busy_count two_recovered_spec (before 13 two_recovered) ≡ 2 }
    ensures one_failed { failed_count two_recovered_spec (before 13 two_recovered) ≡ 1 }
    ensures both_failed { failed_count two_recovered_spec (before 18 two_recovered) ≡ 2 }
    ensures one_sent_again { busy_count two_recovered_spec (before 29 two_recovered) ≡ 1 }
    ensures none_failed { failed_count two_recovered_spec (before 29 two_recovered) ≡ 0 }
{}

/// One entry of each kind: those that only a host in recovery makes, at its commands.
pub fn which_entries_act()
    ensures acts { map is_acting openers ≡ false ∷ false ∷ false ∷ false ∷ false ∷ false ∷ false ∷ false ∷ false ∷ false ∷ false ∷ false ∷ false ∷ false ∷ true ∷ false ∷ false ∷ false ∷ false ∷ true ∷ false ∷ false ∷ [] }
{}

/// Lists of entries that are not as the laws say.
pub fn what_the_laws_refuse()
    ensures an_act_beside_a_busy_command { QuietActs two_recovered_spec (Act 4 (Dev unit) true ∷ before 13 two_recovered) → ⊥ }
    ensures an_earlier_one { QuietActs two_recovered_spec (Tick ∷ Act 4 (Dev unit) true ∷ before 13 two_recovered) → ⊥ }
    ensures an_act_of_recovery { QuietActs two_recovered_spec (before 20 two_recovered) }
    ensures told_twice { NoneAfterTold 1 (reverse (twice 8 answer_wins)) → ⊥ }
    ensures told_twice_and_more { NoneAfterTold 1 (Tick ∷ reverse (twice 8 answer_wins)) → ⊥ }
    ensures told_once { NoneAfterTold 1 (reverse answer_wins) }
{}

/// One entry of each kind, of attempt 1: which of them are of an attempt that was sent for a command.
pub fn which_entries_are_of_an_attempt()
    ensures its_own { map (λ e. is_of_attempt 1 e (before 2 answer_wins)) openers ≡ false ∷ false ∷ false ∷ true ∷ true ∷ true ∷ true ∷ true ∷ true ∷ true ∷ false ∷ false ∷ false ∷ false ∷ false ∷ false ∷ false ∷ false ∷ false ∷ false ∷ false ∷ false ∷ [] }
    ensures of_another { map (λ e. is_of_attempt 2 e (before 2 answer_wins)) openers ≡ false ∷ false ∷ false ∷ false ∷ false ∷ false ∷ false ∷ false ∷ false ∷ false ∷ false ∷ false ∷ false ∷ false ∷ false ∷ false ∷ false ∷ false ∷ false ∷ false ∷ false ∷ false ∷ [] }
    ensures of_no_attempt { map (λ e. is_of_attempt 1 e []) openers ≡ false ∷ false ∷ false ∷ false ∷ false ∷ false ∷ false ∷ false ∷ false ∷ false ∷ false ∷ false ∷ false ∷ false ∷ false ∷ false ∷ false ∷ false ∷ false ∷ false ∷ false ∷ false ∷ [] }
{}

/// The entries of a command and of its attempts, the newest first.
pub fn what_a_trace_is()
    ensures of_the_first { trace 1 (before 11 three_aborts) ≡ owned 1 Expiry ∷ due 1 ∷ sent 1 1 0 ∷ took 1 ∷ [] }
    ensures of_the_second { trace 2 (before 11 three_aborts) ≡ due 2 ∷ sent 2 2 1 ∷ took 2 ∷ [] }
    ensures before_it_was_sent { trace 1 (before 3 late_counts) ≡ took 1 ∷ [] }
{}

/// What the other rules ask of an entry that is owed: its owner, or recovery with no other command out.
pub fn what_else_is_asked_of_owed_entries()
    ensures judged_by_its_answer { Permits answer_wins_spec (before 7 answer_wins) (judged 1 1 Success) }
    ensures judged_by_its_expiry { Permits expiry_wins_spec (before 7 expiry_wins) (judged 1 1 Success) → ⊥ }
    ensures cleared { Permits two_recovered_spec (before 19 two_recovered) (cleared 1 4) }
    ensures sensed { Permits two_recovered_spec (before 19 two_recovered) (sensed 1 1 was_reset) }
    ensures probed { Permits two_recovered_spec (before 19 two_recovered) (probe 0 fine) }
    ensures put_offline { Permits two_recovered_spec (before 19 two_recovered) (Offline unit) }
{}

/// Nothing is asked of a failure, a retry and a report; no other entry is owed.
pub fn what_is_not_asked_of_owed_entries()
    ensures failed { Permits two_recovered_spec (before 0 two_recovered) (failed 1 1 true) }
    ensures again { Permits two_recovered_spec (before 0 two_recovered) (again 1 true) }
    ensures told { Permits two_recovered_spec (before 0 two_recovered) (told 1 fine) }
    ensures tick { Permits two_recovered_spec (before 0 two_recovered) Tick → ⊥ }
    ensures act { Permits two_recovered_spec (before 19 two_recovered) (Act 4 (Dev unit) true) → ⊥ }
{}

/// Entries of recovery, before it has begun, and beside a command that is out.
pub fn what_may_not_stand_outside_recovery()
    ensures cleared { Permits two_recovered_spec (before 18 two_recovered) (cleared 1 4) → ⊥ }
    ensures sensed { Permits two_recovered_spec (before 18 two_recovered) (sensed 1 1 was_reset) → ⊥ }
    ensures probed { Permits two_recovered_spec (before 18 two_recovered) (probe 0 fine) → ⊥ }
    ensures put_offline { Permits two_recovered_spec (before 18 two_recovered) (Offline unit) → ⊥ }
    ensures beside_a_busy_command { Permits two_recovered_spec (EhBegin ∷ before 13 two_recovered) (cleared 1 4) → ⊥ }
{}

/// A wrong place, by the definition itself.
pub fn what_is_not_legal()
    ensures wrong_place { LegalByPlaces answer_wins_spec (with_entry 9 EhEnd answer_wins) → ⊥ }
{}
