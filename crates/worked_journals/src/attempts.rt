ghost use Rattle.std.specs.Prelude.{true, false};
ghost use Rattle.mid_base.specs.declared.answers.By.TheVariants.{Answer, Expiry};
ghost use Rattle.mid_base.specs.declared.answers.Disp.TheVariants.{Success, Retry};
ghost use Rattle.mid_base.specs.declared.entries.Entry.TheVariants.{Tick};
ghost use Rattle.worked_journals.specs.Edits.{WrongAt, instead, twice, with_entry, without};
ghost use Rattle.worked_journals.specs.Say.{abort_set, aborted, again, bare, done_said, due, failed, fine, judged, late, longer, owned, told};
ghost use Rattle.worked_journals.specs.AnswerWins.{answer_wins, answer_wins_spec};
ghost use Rattle.worked_journals.specs.Bounces.{bounces, bounces_spec};
ghost use Rattle.worked_journals.specs.ClimbsOn.{climbs_on, climbs_on_spec};
ghost use Rattle.worked_journals.specs.DepthMoves.{depth_moves, depth_moves_spec};
ghost use Rattle.worked_journals.specs.ExpiryWins.{expiry_wins, expiry_wins_spec};
ghost use Rattle.worked_journals.specs.FailsFast.{fails_fast, fails_fast_spec};
ghost use Rattle.worked_journals.specs.FetchedSense.{fetched_sense, fetched_sense_spec};
ghost use Rattle.worked_journals.specs.LateCounts.{late_counts, late_counts_spec};
ghost use Rattle.worked_journals.specs.NoAsyncAborts.{no_async_aborts, no_async_aborts_spec};
ghost use Rattle.worked_journals.specs.RetriesSpent.{retries_spent, retries_spent_spec};
ghost use Rattle.worked_journals.specs.SecondExpiry.{second_expiry, second_expiry_spec};
ghost use Rattle.worked_journals.specs.StatesChange.{states_change, states_change_spec};
ghost use Rattle.worked_journals.specs.ThreeAborts.{three_aborts, three_aborts_spec};
ghost use Rattle.worked_journals.specs.TimersReset.{timers_reset, timers_reset_spec};
ghost use Rattle.worked_journals.specs.TwoRecovered.{two_recovered, two_recovered_spec};

// Time, owners, answers, aborts.

/// Time goes on over nothing that waits.
pub fn around_ticks()
    ensures an_answer_before_the_deadline { WrongAt expiry_wins_spec 15 (with_entry 15 Tick expiry_wins) }
    ensures a_deadline { WrongAt two_recovered_spec 6 (with_entry 6 Tick two_recovered) }
    ensures an_expiry_that_waits { WrongAt timers_reset_spec 19 (with_entry 19 Tick timers_reset) }
    ensures a_late_answer { WrongAt late_counts_spec 15 (without 15 late_counts) }
    ensures a_late_answer_of_an_expired_one { WrongAt expiry_wins_spec 10 (without 8 expiry_wins) }
    ensures a_deadline_after_resets_of_its_timer { WrongAt timers_reset_spec 18 (with_entry 18 Tick timers_reset) }
    ensures one_deadline_of_two { WrongAt climbs_on_spec 6 (with_entry 6 Tick climbs_on) }
{}

/// An attempt is asked about once its deadline is reached, the earliest first, and once.
pub fn around_deadlines()
    ensures a_tick_too_early { WrongAt answer_wins_spec 3 (with_entry 3 (due 1) answer_wins) }
    ensures before_its_timer_ends_again { WrongAt timers_reset_spec 16 (with_entry 16 (due 1) timers_reset) }
    ensures equal_deadlines_due { WrongAt timers_reset_spec 10 (instead 10 (due 2) timers_reset) }
    ensures equal_deadlines_longer { WrongAt timers_reset_spec 10 (instead 10 (longer 2) timers_reset) }
    ensures equal_deadlines_done { WrongAt timers_reset_spec 10 (instead 10 (done_said 2) timers_reset) }
    ensures asked_again { WrongAt timers_reset_spec 19 (twice 18 timers_reset) }
{}

/// Nothing is asked about an attempt that isn't open, that is said to be done, or that isn't sent.
pub fn around_asking()
    ensures said_done { WrongAt timers_reset_spec 12 (twice 11 timers_reset) }
    ensures said_done_before { WrongAt timers_reset_spec 13 (with_entry 13 (due 2) timers_reset) }
    ensures owned { WrongAt late_counts_spec 17 (with_entry 17 (due 1) late_counts) }
    ensures owned_longer { WrongAt late_counts_spec 17 (with_entry 17 (longer 1) late_counts) }
    ensures owned_done { WrongAt late_counts_spec 17 (with_entry 17 (done_said 1) late_counts) }
    ensures not_sent { WrongAt answer_wins_spec 2 (with_entry 2 (due 2) answer_wins) }
    ensures not_sent_longer { WrongAt timers_reset_spec 8 (with_entry 8 (longer 2) timers_reset) }
{}

/// An attempt is owned once, by its answer or by its deadline that was reached.
pub fn around_owners()
    ensures twice { WrongAt answer_wins_spec 7 (with_entry 7 (owned 1 Expiry) answer_wins) }
    ensures twice_by_its_answer { WrongAt answer_wins_spec 7 (twice 6 answer_wins) }
    ensures by_its_expiry_too_early { WrongAt expiry_wins_spec 5 (without 5 expiry_wins) }
    ensures by_no_answer { WrongAt timers_reset_spec 5 (with_entry 5 (owned 1 Answer) timers_reset) }
    ensures by_an_answer_before_it_was_sent { WrongAt late_counts_spec 6 (with_entry 6 (owned 1 Answer) late_counts) }
    ensures by_an_answer_though_turned_away { WrongAt bounces_spec 5 (with_entry 5 (owned 1 Answer) bounces) }
{}

/// Each answer that came too late or again is ignored once.
pub fn around_late_answers()
    ensures a_third_time { WrongAt late_counts_spec 16 (with_entry 16 (late 1) late_counts) }
    ensures of_an_attempt_that_has_none { WrongAt three_aborts_spec 13 (with_entry 13 (late 1) three_aborts) }
    ensures of_an_expired_attempt_that_has_none { WrongAt fails_fast_spec 23 (with_entry 23 (late 3) fails_fast) }
    ensures before_it_is_late { WrongAt expiry_wins_spec 5 (with_entry 5 (late 1) expiry_wins) }
    ensures of_an_expired_attempt_a_third_time { WrongAt late_counts_spec 26 (with_entry 26 (late 3) late_counts) }
    ensures the_answer_that_counts { WrongAt late_counts_spec 35 (with_entry 35 (late 2) late_counts) }
{}

/// The answer that owns an attempt is judged, once, as the tables say.
pub fn around_judgements()
    ensures another_disposition { WrongAt answer_wins_spec 7 (instead 7 (judged 1 1 Retry) answer_wins) }
    ensures the_second_answer { WrongAt late_counts_spec 10 (instead 10 (judged 1 1 Success) late_counts) }
    ensures of_another_command { WrongAt depth_moves_spec 17 (instead 17 (judged 7 4 Success) depth_moves) }
    ensures judged_twice { WrongAt bounces_spec 26 (with_entry 26 (judged 1 3 Success) bounces) }
    ensures owned_by_its_expiry { WrongAt expiry_wins_spec 7 (instead 7 (judged 1 1 Success) expiry_wins) }
    ensures not_owned { WrongAt answer_wins_spec 6 (instead 6 (judged 1 1 Success) answer_wins) }
{}

/// What is told is what was judged.
pub fn around_answers()
    ensures no_answer { WrongAt answer_wins_spec 4 (with_entry 4 (judged 1 1 Success) answer_wins) }
    ensures another_one { WrongAt answer_wins_spec 8 (instead 8 (told 1 (bare 3 0)) answer_wins) }
    ensures again { WrongAt answer_wins_spec 9 (with_entry 9 (told 1 fine) answer_wins) }
    ensures of_another_command { WrongAt bounces_spec 25 (instead 25 (told 3 fine) bounces) }
    ensures sent_again { WrongAt answer_wins_spec 8 (instead 8 (again 1 true) answer_wins) }
    ensures of_a_failed_attempt { WrongAt fetched_sense_spec 6 (instead 6 (failed 1 1 true) fetched_sense) }
{}

/// A retry is counted, a requeue is free, and retries end.
pub fn around_retries()
    ensures a_retry_that_is_free { WrongAt retries_spent_spec 5 (instead 5 (again 1 false) retries_spent) }
    ensures a_requeue_that_is_counted { WrongAt depth_moves_spec 15 (instead 15 (again 1 true) depth_moves) }
    ensures a_retry_too_many { WrongAt retries_spent_spec 32 (instead 32 (judged 2 5 Retry) retries_spent) }
    ensures told_though_retries_remain { WrongAt retries_spent_spec 4 (instead 4 (judged 1 1 Success) retries_spent) }
    ensures a_retry_of_a_command_that_fails_fast { WrongAt fails_fast_spec 16 (instead 16 (judged 4 4 Retry) fails_fast) }
    ensures judged_though_its_device_is_offline { WrongAt states_change_spec 14 (instead 14 (judged 1 2 Retry) states_change) }
{}

/// An expired attempt is aborted where that may be, and has failed else.
pub fn around_expiries()
    ensures aborted_again { WrongAt second_expiry_spec 14 (instead 14 (abort_set 1 2) second_expiry) }
    ensures failed_though_it_can_be_aborted { WrongAt second_expiry_spec 6 (instead 6 (failed 1 1 true) second_expiry) }
    ensures aborted_though_retries_are_spent { WrongAt retries_spent_spec 16 (instead 16 (abort_set 1 3) retries_spent) }
    ensures aborted_by_a_host_that_does_not { WrongAt no_async_aborts_spec 9 (instead 9 (abort_set 2 2) no_async_aborts) }
    ensures failed_as_answered { WrongAt second_expiry_spec 14 (instead 14 (failed 1 2 false) second_expiry) }
    ensures aborted_though_answered { WrongAt answer_wins_spec 7 (instead 7 (abort_set 1 1) answer_wins) }
{}

/// An attempt fails for its own command, once, and only where its expiry owns it.
pub fn around_failures()
    ensures another_command { WrongAt no_async_aborts_spec 9 (instead 9 (failed 1 2 true) no_async_aborts) }
    ensures failed_twice { WrongAt no_async_aborts_spec 10 (with_entry 10 (failed 2 2 true) no_async_aborts) }
    ensures not_owned { WrongAt no_async_aborts_spec 8 (with_entry 8 (failed 2 2 true) no_async_aborts) }
    ensures answered { WrongAt retries_spent_spec 32 (with_entry 32 (failed 2 5 true) retries_spent) }
    ensures the_attempt_before { WrongAt second_expiry_spec 14 (instead 14 (failed 1 1 true) second_expiry) }
    ensures answered_by_a_host_that_does_not_abort { WrongAt no_async_aborts_spec 29 (with_entry 29 (failed 2 3 true) no_async_aborts) }
{}

/// The abort that was scheduled first is tried first, once, by hosts that can.
pub fn around_aborts()
    ensures the_second_first { WrongAt climbs_on_spec 11 (instead 11 (aborted 1 1 false) climbs_on) }
    ensures without_the_callback { WrongAt two_recovered_spec 9 (instead 9 (aborted 1 1 true) two_recovered) }
    ensures of_another_command { WrongAt climbs_on_spec 11 (instead 11 (aborted 1 2 false) climbs_on) }
    ensures not_scheduled { WrongAt climbs_on_spec 9 (with_entry 9 (aborted 2 2 false) climbs_on) }
    ensures tried_again { WrongAt climbs_on_spec 13 (with_entry 13 (aborted 2 2 false) climbs_on) }
    ensures the_third_second { WrongAt three_aborts_spec 18 (instead 18 (aborted 2 2 true) three_aborts) }
    ensures none_left { WrongAt climbs_on_spec 15 (with_entry 15 (aborted 1 1 false) climbs_on) }
{}

/// An abort is scheduled for the command of an attempt that its expiry owns, once.
pub fn around_schedules()
    ensures another_command { WrongAt climbs_on_spec 9 (instead 9 (abort_set 1 2) climbs_on) }
    ensures open_still { WrongAt climbs_on_spec 8 (with_entry 8 (abort_set 2 2) climbs_on) }
    ensures scheduled_twice { WrongAt climbs_on_spec 11 (with_entry 11 (abort_set 1 1) climbs_on) }
    ensures told_already { WrongAt expiry_wins_spec 11 (with_entry 11 (abort_set 1 1) expiry_wins) }
{}

/// After an abort a command is sent again where it may be, and is told else.
pub fn around_ends_of_aborts()
    ensures a_retry_that_is_free { WrongAt expiry_wins_spec 10 (instead 10 (again 1 false) expiry_wins) }
    ensures told { WrongAt expiry_wins_spec 10 (instead 10 (told 1 (bare 3 0)) expiry_wins) }
    ensures sent_again_though_it_fails_fast { WrongAt fails_fast_spec 13 (instead 13 (again 1 true) fails_fast) }
    ensures sent_again_though_its_device_is_offline { WrongAt states_change_spec 22 (instead 22 (again 2 true) states_change) }
    ensures told_with_another_answer { WrongAt fails_fast_spec 13 (instead 13 (told 1 (bare 1 0)) fails_fast) }
    ensures forgotten { WrongAt climbs_on_spec 12 (instead 12 (again 2 true) climbs_on) }
{}
