ghost use Rattle.std.specs.Prelude.{true, false};
ghost use Rattle.mid_base.specs.declared.answers.Disp.TheVariants.{Success, Fail};
ghost use Rattle.mid_base.specs.declared.answers.Scope.TheVariants.{Cmd, Dev, Target, Bus, Host};
ghost use Rattle.mid_base.specs.declared.entries.Entry.TheVariants.{Act, EhBegin, Offline};
ghost use Rattle.worked_journals.specs.Edits.{WrongAt, instead, swapped, twice, with_entry, without};
ghost use Rattle.worked_journals.specs.Hosts.{at, unit, with_callbacks};
ghost use Rattle.worked_journals.specs.Say.{bare, checked, cleared, fine, judged, moved, not_started, probe, probe_of, sensed, silence, was_reset};
ghost use Rattle.worked_journals.specs.AnswerWins.{answer_wins, answer_wins_spec};
ghost use Rattle.worked_journals.specs.BothStarted.{both_started, both_started_spec};
ghost use Rattle.worked_journals.specs.ClimbsOn.{climbs_on, climbs_on_spec};
ghost use Rattle.worked_journals.specs.CutDescriptor.{cut_descriptor, cut_descriptor_spec};
ghost use Rattle.worked_journals.specs.ExpiryWins.{expiry_wins, expiry_wins_spec};
ghost use Rattle.worked_journals.specs.FailsAgain.{fails_again, fails_again_spec};
ghost use Rattle.worked_journals.specs.FetchedSense.{fetched_sense, fetched_sense_spec};
ghost use Rattle.worked_journals.specs.NoAsyncAborts.{no_async_aborts, no_async_aborts_spec};
ghost use Rattle.worked_journals.specs.NoCallbacks.{no_callbacks, no_callbacks_spec};
ghost use Rattle.worked_journals.specs.OfflineBefore.{offline_before, offline_before_spec};
ghost use Rattle.worked_journals.specs.StartUnit.{reset_unit, reset_unit_spec};
ghost use Rattle.worked_journals.specs.SecondExpiry.{second_expiry, second_expiry_spec};
ghost use Rattle.worked_journals.specs.StartUnit.{start_unit, start_unit_spec};
ghost use Rattle.worked_journals.specs.StoppedBeside.{stopped_beside, stopped_beside_spec};
ghost use Rattle.worked_journals.specs.TwoChannels.{two_channels, two_channels_spec};
ghost use Rattle.worked_journals.specs.TwoRecovered.{two_recovered, two_recovered_spec};

// Recovery: its beginning, the ladder, and what follows each act.

/// Recovery begins once, where commands have failed and no other is out.
pub fn around_the_beginning()
    ensures twice { WrongAt second_expiry_spec 16 (twice 15 second_expiry) }
    ensures left_out { WrongAt second_expiry_spec 15 (without 15 second_expiry) }
    ensures none_failed { WrongAt answer_wins_spec 9 (with_entry 9 EhBegin answer_wins) }
    ensures one_still_out { WrongAt two_recovered_spec 11 (with_entry 11 EhBegin two_recovered) }
    ensures one_sent_again_still_out { WrongAt fails_again_spec 36 (with_entry 36 EhBegin fails_again) }
    ensures one_out_beside_the_failed { WrongAt two_recovered_spec 13 (with_entry 13 EhBegin two_recovered) }
    ensures nothing_sent_yet { WrongAt answer_wins_spec 0 (with_entry 0 EhBegin answer_wins) }
{}

/// Commands of devices that are offline are cleared first, in the order in which they failed.
pub fn around_devices_offline()
    ensures left_out { WrongAt offline_before_spec 18 (without 18 offline_before) }
    ensures out_of_order { WrongAt offline_before_spec 18 (swapped 18 offline_before) }
    ensures another_level { WrongAt offline_before_spec 18 (instead 18 (cleared 3 1) offline_before) }
    ensures one_that_is_online { WrongAt two_recovered_spec 19 (with_entry 19 (cleared 1 0) two_recovered) }
    ensures once_more { WrongAt offline_before_spec 20 (with_entry 20 (cleared 1 0) offline_before) }
{}

/// The next act is the least that is wanted above the last one.
pub fn around_the_order_of_levels()
    ensures a_level_too_high { WrongAt two_recovered_spec 19 (instead 19 (Act 5 (Target 0 0) true) two_recovered) }
    ensures a_level_left_out { WrongAt no_callbacks_spec 12 (without 12 no_callbacks) }
    ensures an_act_again { WrongAt no_callbacks_spec 13 (twice 12 no_callbacks) }
    ensures a_level_that_is_not_wanted { WrongAt second_expiry_spec 16 (instead 16 (Act 3 (Dev unit) true) second_expiry) }
    ensures aborts_though_there_are_asynchronous_ones { WrongAt second_expiry_spec 16 (instead 16 (Act 2 (Cmd (record { 0 = 1 })) true) second_expiry) }
    ensures sense_though_it_is_there { WrongAt stopped_beside_spec 13 (instead 13 (Act 1 (Cmd (record { 0 = 1 })) true) stopped_beside) }
    ensures aborts_of_what_was_answered { WrongAt no_async_aborts_spec 34 (instead 34 (Act 2 (Cmd (record { 0 = 2 })) true) no_async_aborts) }
{}

/// Scopes of a level come in the order of failures or of addresses, each once.
pub fn around_scopes()
    ensures a_device_too_early { WrongAt two_channels_spec 27 (instead 27 (Act 4 (Dev (at 0 1 0)) false) two_channels) }
    ensures a_target_that_wants_nothing { WrongAt two_channels_spec 36 (instead 36 (Act 5 (Target 0 1) true) two_channels) }
    ensures a_channel_too_early { WrongAt two_channels_spec 39 (instead 39 (Act 6 (Bus 1) false) two_channels) }
    ensures an_earlier_failure { WrongAt no_async_aborts_spec 12 (instead 12 (Act 2 (Cmd (record { 0 = 1 })) true) no_async_aborts) }
    ensures an_earlier_failure_for_its_sense { WrongAt cut_descriptor_spec 13 (instead 13 (Act 1 (Cmd (record { 0 = 7 })) true) cut_descriptor) }
    ensures a_start_too_early { WrongAt both_started_spec 19 (instead 19 (Act 3 (Dev (at 0 0 1)) true) both_started) }
    ensures the_wrong_kind_of_scope { WrongAt two_recovered_spec 19 (instead 19 (Act 4 Host true) two_recovered) }
{}

/// One device after the other is given up.
pub fn around_the_last_levels()
    ensures the_later_address { WrongAt stopped_beside_spec 23 (instead 23 (Act 8 (Dev (at 0 1 0)) true) stopped_beside) }
    ensures a_target_again { WrongAt two_channels_spec 39 (instead 39 (Act 5 (Target 0 0) true) two_channels) }
    ensures a_device_again { WrongAt two_channels_spec 28 (instead 28 (Act 4 (Dev (at 0 0 1)) true) two_channels) }
    ensures one_that_is_ready { WrongAt two_channels_spec 48 (instead 48 (Act 8 (Dev (at 0 0 1)) true) two_channels) }
{}

/// An act whose callback the host hasn't isn't ok.
pub fn around_callbacks()
    ensures device_reset { WrongAt no_callbacks_spec 11 (instead 11 (Act 4 (Dev unit) true) no_callbacks) }
    ensures target_reset { WrongAt no_callbacks_spec 12 (instead 12 (Act 5 (Target 0 0) true) no_callbacks) }
    ensures bus_reset { WrongAt no_callbacks_spec 13 (instead 13 (Act 6 (Bus 0) true) no_callbacks) }
    ensures host_reset { WrongAt no_callbacks_spec 14 (instead 14 (Act 7 Host true) no_callbacks) }
    ensures what_cannot_fail { WrongAt no_callbacks_spec 15 (instead 15 (Act 8 (Dev unit) false) no_callbacks) }
{}

/// A host lacks one callback alone.
pub fn around_each_callback()
    ensures abort { WrongAt (with_callbacks 30 no_async_aborts_spec) 12 no_async_aborts }
    ensures asynchronous_abort { WrongAt (with_callbacks 30 expiry_wins_spec) 9 expiry_wins }
    ensures device_reset { WrongAt (with_callbacks 29 climbs_on_spec) 16 climbs_on }
    ensures target_reset { WrongAt (with_callbacks 27 climbs_on_spec) 21 climbs_on }
    ensures bus_reset { WrongAt (with_callbacks 23 two_channels_spec) 39 two_channels }
    ensures host_reset { WrongAt (with_callbacks 15 climbs_on_spec) 26 climbs_on }
{}

/// Sense data is fetched by one REQUEST SENSE, is valid, and is judged.
pub fn around_fetched_sense()
    ensures another_operation { WrongAt fetched_sense_spec 9 (instead 9 (probe 0 (moved 18 169)) fetched_sense) }
    ensures not_good { WrongAt fetched_sense_spec 9 (instead 9 (probe 3 (bare 7 0)) fetched_sense) }
    ensures not_valid { WrongAt fetched_sense_spec 10 (instead 10 (sensed 1 1 (bare 0 0).sense) fetched_sense) }
    ensures of_another_command { WrongAt fetched_sense_spec 10 (instead 10 (sensed 2 1 was_reset) fetched_sense) }
    ensures of_another_attempt { WrongAt fetched_sense_spec 10 (instead 10 (sensed 1 2 was_reset) fetched_sense) }
    ensures judged_before { WrongAt fetched_sense_spec 10 (swapped 10 fetched_sense) }
{}

/// An answer is judged again with its sense data, and cleared unless it fails again.
pub fn around_judgements_in_recovery()
    ensures another_disposition { WrongAt fetched_sense_spec 11 (instead 11 (judged 1 1 Success) fetched_sense) }
    ensures cleared_though_it_failed_again { WrongAt fails_again_spec 17 (with_entry 17 (cleared 1 1) fails_again) }
    ensures not_cleared { WrongAt fetched_sense_spec 12 (without 12 fetched_sense) }
    ensures cleared_at_another_level { WrongAt fetched_sense_spec 12 (instead 12 (cleared 1 2) fetched_sense) }
    ensures judged_outside_of_an_act { WrongAt fetched_sense_spec 8 (with_entry 8 (judged 1 1 Fail) fetched_sense) }
    ensures judged_after_a_failed_act { WrongAt fails_again_spec 19 (with_entry 19 (judged 2 2 Fail) fails_again) }
{}

/// Sense data that can't be fetched is asked for once.
pub fn around_failed_fetches()
    ensures not_asked_for { WrongAt fails_again_spec 18 (without 18 fails_again) }
    ensures another_device { WrongAt fails_again_spec 18 (instead 18 (probe 3 (bare 7 0)) fails_again) }
    ensures sensed_all_the_same { WrongAt fails_again_spec 19 (with_entry 19 (sensed 2 2 was_reset) fails_again) }
    ensures asked_for_twice { WrongAt fails_again_spec 19 (twice 18 fails_again) }
{}

/// A start is ok where the unit says GOOD, and isn't made beside a cancelled command.
pub fn around_starts()
    ensures ok_without_good { WrongAt start_unit_spec 9 (instead 9 (probe 27 (checked not_started)) start_unit) }
    ensures failed_with_good { WrongAt stopped_beside_spec 14 (instead 14 (probe_of (at 0 0 0) 27 fine) stopped_beside) }
    ensures another_operation { WrongAt start_unit_spec 9 (instead 9 (probe 0 fine) start_unit) }
    ensures beside_a_cancelled_command { WrongAt reset_unit_spec 16 (instead 16 (Act 3 (Dev unit) true) reset_unit) }
    ensures not_made { WrongAt stopped_beside_spec 13 (instead 13 (Act 4 (Dev (at 0 0 0)) false) stopped_beside) }
    ensures tested_though_it_failed { WrongAt stopped_beside_spec 15 (with_entry 15 (probe_of (at 0 0 0) 0 fine) stopped_beside) }
{}

/// A unit is tested after an act that is ok, again where its answer would be a retry, and no more.
pub fn around_tests()
    ensures left_out { WrongAt second_expiry_spec 17 (without 17 second_expiry) }
    ensures not_repeated { WrongAt two_recovered_spec 21 (without 21 two_recovered) }
    ensures a_silent_one_again { WrongAt climbs_on_spec 18 (twice 17 climbs_on) }
    ensures one_that_said_no_again { WrongAt stopped_beside_spec 21 (twice 20 stopped_beside) }
    ensures another_operation { WrongAt second_expiry_spec 17 (instead 17 (probe 3 fine) second_expiry) }
    ensures another_device { WrongAt two_channels_spec 29 (instead 29 (probe_of (at 0 0 1) 0 fine) two_channels) }
{}

/// The commands of ready devices are cleared, each of them, in the order in which they failed.
pub fn around_clearing()
    ensures of_a_silent_one { WrongAt climbs_on_spec 18 (with_entry 18 (cleared 1 4) climbs_on) }
    ensures of_one_that_is_not_ready { WrongAt climbs_on_spec 24 (instead 24 (cleared 1 5) climbs_on) }
    ensures left_out { WrongAt two_recovered_spec 23 (without 23 two_recovered) }
    ensures left_out_after_a_start { WrongAt both_started_spec 28 (without 28 both_started) }
    ensures out_of_order { WrongAt two_recovered_spec 22 (swapped 22 two_recovered) }
    ensures at_another_level { WrongAt two_recovered_spec 22 (instead 22 (cleared 1 5) two_recovered) }
    ensures one_more { WrongAt climbs_on_spec 25 (with_entry 25 (cleared 1 5) climbs_on) }
{}

/// Devices of a scope are tested in the order of addresses, each that has commands left.
pub fn around_tests_of_several()
    ensures out_of_order { WrongAt two_channels_spec 37 (swapped 37 two_channels) }
    ensures one_left_out { WrongAt two_channels_spec 38 (instead 38 (Act 6 (Bus 0) true) two_channels) }
    ensures one_that_has_none_left { WrongAt two_channels_spec 42 (with_entry 42 (probe_of (at 0 1 0) 0 fine) two_channels) }
    ensures one_of_another_target { WrongAt two_channels_spec 36 (with_entry 36 (silence (at 0 1 0) 0) two_channels) }
{}

/// A device that is given up goes offline before its commands are cleared, all of them.
pub fn around_giving_up()
    ensures not_offline { WrongAt no_callbacks_spec 16 (without 16 no_callbacks) }
    ensures another_device { WrongAt stopped_beside_spec 24 (instead 24 (Offline (at 0 1 0)) stopped_beside) }
    ensures one_not_cleared { WrongAt two_channels_spec 51 (without 51 two_channels) }
    ensures cleared_before { WrongAt no_callbacks_spec 16 (swapped 16 no_callbacks) }
{}
