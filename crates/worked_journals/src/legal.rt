ghost use Rattle.trace_model.specs.Drained.{Drained};
ghost use Rattle.trace_model.specs.Legal.{LegalByPlaces};
ghost use Rattle.worked_journals.specs.AnswerWins.{answer_wins, answer_wins_spec};
ghost use Rattle.worked_journals.specs.ExpiryWins.{expiry_wins, expiry_wins_spec};
ghost use Rattle.worked_journals.specs.TwoRecovered.{two_recovered, two_recovered_spec};
ghost use Rattle.worked_journals.specs.NoCallbacks.{no_callbacks, no_callbacks_spec};
ghost use Rattle.worked_journals.specs.FetchedSense.{fetched_sense, fetched_sense_spec};
ghost use Rattle.worked_journals.specs.StartUnit.{start_unit, start_unit_spec};
ghost use Rattle.worked_journals.specs.StartUnit.{reset_unit, reset_unit_spec};
ghost use Rattle.worked_journals.specs.SecondExpiry.{second_expiry, second_expiry_spec};
ghost use Rattle.worked_journals.specs.RetriesSpent.{retries_spent, retries_spent_spec};
ghost use Rattle.worked_journals.specs.LateCounts.{late_counts, late_counts_spec};
ghost use Rattle.worked_journals.specs.TimersReset.{timers_reset, timers_reset_spec};
ghost use Rattle.worked_journals.specs.ThreeAborts.{three_aborts, three_aborts_spec};
ghost use Rattle.worked_journals.specs.BothStarted.{both_started, both_started_spec};
ghost use Rattle.worked_journals.specs.Bounces.{bounces, bounces_spec};
ghost use Rattle.worked_journals.specs.DepthMoves.{depth_moves, depth_moves_spec};
ghost use Rattle.worked_journals.specs.StatesChange.{states_change, states_change_spec};
ghost use Rattle.worked_journals.specs.ClimbsOn.{climbs_on, climbs_on_spec};
ghost use Rattle.worked_journals.specs.StoppedBeside.{stopped_beside, stopped_beside_spec};
ghost use Rattle.worked_journals.specs.NoAsyncAborts.{no_async_aborts, no_async_aborts_spec};
ghost use Rattle.worked_journals.specs.CutDescriptor.{cut_descriptor, cut_descriptor_spec};
ghost use Rattle.worked_journals.specs.FailsAgain.{fails_again, fails_again_spec};
ghost use Rattle.worked_journals.specs.OfflineBefore.{offline_before, offline_before_spec};
ghost use Rattle.worked_journals.specs.FailsFast.{fails_fast, fails_fast_spec};
ghost use Rattle.worked_journals.specs.TwoChannels.{two_channels, two_channels_spec};

/// An answer and the deadline come at the same tick. The attempt is given to its answer, and the command is reported.
pub fn answer_wins_is_legal()
    ensures legal { LegalByPlaces answer_wins_spec answer_wins }
    ensures drained { Drained answer_wins_spec answer_wins }
{}

/// The same, but the expired timer owns the attempt: its answer is ignored, its abort succeeds and the command goes again.
pub fn expiry_wins_is_legal()
    ensures legal { LegalByPlaces expiry_wins_spec expiry_wins }
    ensures drained { Drained expiry_wins_spec expiry_wins }
{}

/// Recovery waits until both commands of the host failed. A reset of their device helps, which a test shows.
pub fn two_recovered_is_legal()
    ensures legal { LegalByPlaces two_recovered_spec two_recovered }
    ensures drained { Drained two_recovered_spec two_recovered }
{}

/// A host without callbacks climbs every level, and the device goes offline. The other command is refused.
pub fn no_callbacks_is_legal()
    ensures legal { LegalByPlaces no_callbacks_spec no_callbacks }
    ensures drained { Drained no_callbacks_spec no_callbacks }
{}

/// Sense data that an answer lacked is fetched, and the verdict is taken again.
pub fn fetched_sense_is_legal()
    ensures legal { LegalByPlaces fetched_sense_spec fetched_sense }
    ensures drained { Drained fetched_sense_spec fetched_sense }
{}

/// A unit that isn't started is started by recovery.
pub fn start_unit_is_legal()
    ensures legal { LegalByPlaces start_unit_spec start_unit }
    ensures drained { Drained start_unit_spec start_unit }
{}

/// A unit that isn't started is reset instead, where it has a cancelled command.
pub fn reset_unit_is_legal()
    ensures legal { LegalByPlaces reset_unit_spec reset_unit }
    ensures drained { Drained reset_unit_spec reset_unit }
{}

/// A command whose first expiry was aborted expires again, and recovery takes it.
pub fn second_expiry_is_legal()
    ensures legal { LegalByPlaces second_expiry_spec second_expiry }
    ensures drained { Drained second_expiry_spec second_expiry }
{}

/// Retries are counted, until they are spent.
pub fn retries_spent_is_legal()
    ensures legal { LegalByPlaces retries_spent_spec retries_spent }
    ensures drained { Drained retries_spent_spec retries_spent }
{}

/// Answers that come too early, again and too late are each ignored once.
pub fn late_counts_is_legal()
    ensures legal { LegalByPlaces late_counts_spec late_counts }
    ensures drained { Drained late_counts_spec late_counts }
{}

/// A timer is reset twice; another one is stopped, since its attempt is done.
pub fn timers_reset_is_legal()
    ensures legal { LegalByPlaces timers_reset_spec timers_reset }
    ensures drained { Drained timers_reset_spec timers_reset }
{}

/// Three aborts are tried in the order of their scheduling.
pub fn three_aborts_is_legal()
    ensures legal { LegalByPlaces three_aborts_spec three_aborts }
    ensures drained { Drained three_aborts_spec three_aborts }
{}

/// Two units are started, and three commands go again.
pub fn both_started_is_legal()
    ensures legal { LegalByPlaces both_started_spec both_started }
    ensures drained { Drained both_started_spec both_started }
{}

/// The lower layer turns attempts away, for a device and for the host.
pub fn bounces_is_legal()
    ensures legal { LegalByPlaces bounces_spec bounces }
    ensures drained { Drained bounces_spec bounces }
{}

/// The depth of a device falls by TASK SET FULL and rises by GOODs.
pub fn depth_moves_is_legal()
    ensures legal { LegalByPlaces depth_moves_spec depth_moves }
    ensures drained { Drained depth_moves_spec depth_moves }
{}

/// A device goes through its states from outside, while its commands wait, end or are refused.
pub fn states_change_is_legal()
    ensures legal { LegalByPlaces states_change_spec states_change }
    ensures drained { Drained states_change_spec states_change }
{}

/// The ladder climbs on where a reset is ok and a unit isn't ready.
pub fn climbs_on_is_legal()
    ensures legal { LegalByPlaces climbs_on_spec climbs_on }
    ensures drained { Drained climbs_on_spec climbs_on }
{}

/// A stopped unit is started beside a cancelled command on another device; both go offline at last.
pub fn stopped_beside_is_legal()
    ensures legal { LegalByPlaces stopped_beside_spec stopped_beside }
    ensures drained { Drained stopped_beside_spec stopped_beside }
{}

/// A host without asynchronous aborts recovers twice.
pub fn no_async_aborts_is_legal()
    ensures legal { LegalByPlaces no_async_aborts_spec no_async_aborts }
    ensures drained { Drained no_async_aborts_spec no_async_aborts }
{}

/// Sense data that isn't whole is fetched, and the answer with it is told.
pub fn cut_descriptor_is_legal()
    ensures legal { LegalByPlaces cut_descriptor_spec cut_descriptor }
    ensures drained { Drained cut_descriptor_spec cut_descriptor }
{}

/// Sense data that was fetched asks for a start of the unit; that of another device can't be fetched.
pub fn fails_again_is_legal()
    ensures legal { LegalByPlaces fails_again_spec fails_again }
    ensures drained { Drained fails_again_spec fails_again }
{}

/// The commands of a device that went offline before recovery are cleared first.
pub fn offline_before_is_legal()
    ensures legal { LegalByPlaces offline_before_spec offline_before }
    ensures drained { Drained offline_before_spec offline_before }
{}

/// Commands that fail at the first error are told wherever another one would go again.
pub fn fails_fast_is_legal()
    ensures legal { LegalByPlaces fails_fast_spec fails_fast }
    ensures drained { Drained fails_fast_spec fails_fast }
{}

/// Resets of each kind, over devices of two channels.
pub fn two_channels_is_legal()
    ensures legal { LegalByPlaces two_channels_spec two_channels }
    ensures drained { Drained two_channels_spec two_channels }
{}
