ghost use Rattle.std.specs.Prelude.{true, false};
ghost use Rattle.mid_base.specs.declared.entries.Entry.TheVariants.{EhEnd};
ghost use Rattle.worked_journals.specs.Edits.{WrongAt, instead, twice, with_entry};
ghost use Rattle.worked_journals.specs.Say.{again, bare, fine, told};
ghost use Rattle.worked_journals.specs.AnswerWins.{answer_wins, answer_wins_spec};
ghost use Rattle.worked_journals.specs.Bounces.{bounces, bounces_spec};
ghost use Rattle.worked_journals.specs.ClimbsOn.{climbs_on, climbs_on_spec};
ghost use Rattle.worked_journals.specs.CutDescriptor.{cut_descriptor, cut_descriptor_spec};
ghost use Rattle.worked_journals.specs.FailsFast.{fails_fast, fails_fast_spec};
ghost use Rattle.worked_journals.specs.NoAsyncAborts.{no_async_aborts, no_async_aborts_spec};
ghost use Rattle.worked_journals.specs.RetriesSpent.{retries_spent, retries_spent_spec};
ghost use Rattle.worked_journals.specs.SecondExpiry.{second_expiry, second_expiry_spec};
ghost use Rattle.worked_journals.specs.StoppedBeside.{stopped_beside, stopped_beside_spec};
ghost use Rattle.worked_journals.specs.TwoChannels.{two_channels, two_channels_spec};

// The end of recovery: what is told, and what goes again.

/// Cleared commands go again or are told in the order in which they failed, once all are cleared.
pub fn around_the_flush()
    ensures out_of_order { WrongAt climbs_on_spec 29 (instead 29 (again 1 true) climbs_on) }
    ensures with_a_command_left { WrongAt climbs_on_spec 25 (with_entry 25 (again 2 true) climbs_on) }
    ensures before_the_ladder { WrongAt second_expiry_spec 16 (with_entry 16 (again 1 true) second_expiry) }
    ensures before_recovery { WrongAt no_async_aborts_spec 31 (with_entry 31 (again 2 true) no_async_aborts) }
    ensures a_retry_that_is_free { WrongAt second_expiry_spec 19 (instead 19 (again 1 false) second_expiry) }
    ensures told_though_it_goes_again { WrongAt second_expiry_spec 19 (instead 19 (told 1 (bare 3 0)) second_expiry) }
    ensures told_out_of_order { WrongAt two_channels_spec 52 (instead 52 (told 2 (bare 3 0)) two_channels) }
{}

/// Recovery ends once, when each command was flushed.
pub fn around_the_end()
    ensures one_not_flushed { WrongAt climbs_on_spec 30 (with_entry 30 EhEnd climbs_on) }
    ensures no_recovery { WrongAt answer_wins_spec 9 (with_entry 9 EhEnd answer_wins) }
    ensures ended_twice { WrongAt second_expiry_spec 21 (twice 20 second_expiry) }
    ensures told_with_a_command_left { WrongAt no_async_aborts_spec 20 (with_entry 20 (told 1 (bare 3 0)) no_async_aborts) }
{}

/// What is told is the verdict on the last attempt.
pub fn around_verdicts()
    ensures a_success_sent_again { WrongAt cut_descriptor_spec 24 (instead 24 (again 7 true) cut_descriptor) }
    ensures time_out_though_answered { WrongAt cut_descriptor_spec 24 (instead 24 (told 7 (bare 3 0)) cut_descriptor) }
    ensures another_time_out_though_answered { WrongAt stopped_beside_spec 29 (instead 29 (told 1 (bare 3 0)) stopped_beside) }
    ensures an_answer_though_expired { WrongAt stopped_beside_spec 30 (instead 30 (told 2 fine) stopped_beside) }
    ensures no_connection_though_expired { WrongAt no_async_aborts_spec 24 (instead 24 (told 1 (bare 1 0)) no_async_aborts) }
{}

/// What may not go again is told.
pub fn around_commands_told()
    ensures retries_spent { WrongAt retries_spent_spec 21 (instead 21 (again 1 true) retries_spent) }
    ensures fails_fast { WrongAt fails_fast_spec 38 (instead 38 (again 3 true) fails_fast) }
    ensures fails_fast_after_its_sense { WrongAt fails_fast_spec 37 (instead 37 (again 2 true) fails_fast) }
    ensures its_device_is_offline { WrongAt stopped_beside_spec 29 (instead 29 (again 1 true) stopped_beside) }
    ensures outside_recovery { WrongAt bounces_spec 41 (with_entry 41 (told 1 fine) bounces) }
    ensures not_failed { WrongAt second_expiry_spec 20 (with_entry 20 (again 1 true) second_expiry) }
{}
