ghost use Rattle.mid_base.specs.declared.answers.BusyOf.TheVariants.{Device as DeviceBusy};
ghost use Rattle.mid_base.specs.declared.states.DeviceState.TheVariants.{Running, Offline as OfflineState, Del};
ghost use Rattle.mid_base.specs.declared.entries.Entry.TheVariants.{State};
ghost use Rattle.worked_journals.specs.Edits.{WrongAt, instead, swapped, twice, with_entry};
ghost use Rattle.worked_journals.specs.Hosts.{at, unit};
ghost use Rattle.worked_journals.specs.Say.{bare, bounced, sent, told, took};
ghost use Rattle.worked_journals.specs.AnswerWins.{answer_wins, answer_wins_spec};
ghost use Rattle.worked_journals.specs.Bounces.{bounces, bounces_spec};
ghost use Rattle.worked_journals.specs.ClimbsOn.{climbs_on, climbs_on_spec};
ghost use Rattle.worked_journals.specs.DepthMoves.{depth_moves, depth_moves_spec};
ghost use Rattle.worked_journals.specs.ExpiryWins.{expiry_wins, expiry_wins_spec};
ghost use Rattle.worked_journals.specs.NoCallbacks.{no_callbacks, no_callbacks_spec};
ghost use Rattle.worked_journals.specs.SecondExpiry.{second_expiry, second_expiry_spec};
ghost use Rattle.worked_journals.specs.StatesChange.{states_change, states_change_spec};
ghost use Rattle.worked_journals.specs.TwoRecovered.{two_recovered, two_recovered_spec};

// Who is taken and sent, and when a device takes one more.

/// Commands of a lane are taken in order, once, and by hosts that have them.
pub fn around_taking()
    ensures the_second_of_a_lane { WrongAt bounces_spec 0 (instead 0 (took 3) bounces) }
    ensures the_next_of_another_lane { WrongAt bounces_spec 2 (with_entry 2 (took 1) bounces) }
    ensures no_command_of_the_host { WrongAt bounces_spec 0 (instead 0 (took 9) bounces) }
    ensures taken_again { WrongAt answer_wins_spec 1 (twice 0 answer_wins) }
    ensures sent_before { WrongAt answer_wins_spec 0 (swapped 0 answer_wins) }
    ensures taken_though_sent { WrongAt answer_wins_spec 2 (with_entry 2 (took 1) answer_wins) }
{}

/// A command of a device that is cancelled or deleted is refused in its turn, and no other is.
pub fn around_refusals()
    ensures taken_by_a_cancelled_device { WrongAt states_change_spec 26 (instead 26 (took 5) states_change) }
    ensures taken_by_a_deleted_device { WrongAt states_change_spec 28 (instead 28 (took 6) states_change) }
    ensures refused_out_of_turn { WrongAt states_change_spec 26 (instead 26 (told 6 (bare 1 0)) states_change) }
    ensures refused_with_another_answer { WrongAt states_change_spec 26 (instead 26 (told 5 (bare 3 0)) states_change) }
    ensures refused_by_a_device_that_is_online { WrongAt bounces_spec 8 (with_entry 8 (told 3 (bare 1 0)) bounces) }
    ensures refused_by_a_device_that_is_offline { WrongAt states_change_spec 23 (instead 23 (told 3 (bare 1 0)) states_change) }
{}

/// The command that was taken first of those that can go is sent, with the next number and the least free tag.
pub fn around_sendings()
    ensures sent_out_of_order { WrongAt two_recovered_spec 2 (swapped 2 two_recovered) }
    ensures another_tag { WrongAt answer_wins_spec 1 (instead 1 (sent 1 1 1) answer_wins) }
    ensures a_tag_that_is_held { WrongAt two_recovered_spec 3 (instead 3 (sent 2 2 0) two_recovered) }
    ensures another_number { WrongAt answer_wins_spec 1 (instead 1 (sent 1 2 0) answer_wins) }
    ensures a_number_again { WrongAt expiry_wins_spec 12 (instead 12 (sent 1 1 0) expiry_wins) }
    ensures told_in_its_place { WrongAt answer_wins_spec 1 (instead 1 (told 1 (bare 1 0)) answer_wins) }
{}

/// A tag between held ones is used before those above it.
pub fn around_tags()
    ensures above_the_free_one { WrongAt depth_moves_spec 34 (instead 34 (sent 2 7 3) depth_moves) }
    ensures below_the_free_one { WrongAt depth_moves_spec 34 (instead 34 (sent 2 7 0) depth_moves) }
    ensures above_a_held_one { WrongAt depth_moves_spec 29 (instead 29 (sent 1 6 3) depth_moves) }
    ensures more_than_the_host_takes { WrongAt depth_moves_spec 10 (with_entry 10 (sent 7 5 4) depth_moves) }
    ensures sent_twice { WrongAt depth_moves_spec 7 (with_entry 7 (sent 1 2 1) depth_moves) }
{}

/// Nothing is sent to a device that is offline, and what waits for it is told outside recovery.
pub fn around_offline_devices()
    ensures sent { WrongAt no_callbacks_spec 21 (instead 21 (sent 2 2 0) no_callbacks) }
    ensures told_in_recovery { WrongAt no_callbacks_spec 19 (with_entry 19 (told 2 (bare 1 0)) no_callbacks) }
    ensures a_busy_one_told { WrongAt states_change_spec 14 (with_entry 14 (told 1 (bare 1 0)) states_change) }
    ensures one_that_is_new_told { WrongAt states_change_spec 23 (with_entry 23 (told 3 (bare 1 0)) states_change) }
    ensures another_answer { WrongAt no_callbacks_spec 21 (instead 21 (told 2 (bare 3 0)) no_callbacks) }
{}

/// Nothing is sent from the first failure until recovery has ended.
pub fn around_recovery()
    ensures sent_in_recovery { WrongAt two_recovered_spec 26 (with_entry 26 (sent 1 3 0) two_recovered) }
    ensures sent_before_it_begins { WrongAt two_recovered_spec 18 (with_entry 18 (sent 2 3 0) two_recovered) }
    ensures sent_while_one_has_failed { WrongAt climbs_on_spec 13 (with_entry 13 (sent 1 3 0) climbs_on) }
{}

/// A command is sent only to a running device.
pub fn around_states()
    ensures created { WrongAt states_change_spec 1 (with_entry 1 (sent 1 1 0) states_change) }
    ensures held_back { WrongAt states_change_spec 5 (with_entry 5 (sent 1 2 1) states_change) }
    ensures blocked { WrongAt states_change_spec 9 (with_entry 9 (sent 2 3 2) states_change) }
    ensures the_wrong_one_while_held_back { WrongAt states_change_spec 4 (instead 4 (sent 1 1 0) states_change) }
{}

/// A state follows only one that it may follow, and none is set in recovery.
pub fn around_state_entries()
    ensures the_same_again { WrongAt states_change_spec 2 (twice 1 states_change) }
    ensures from_running_to_deleted { WrongAt states_change_spec 8 (instead 8 (State (at 0 0 0) Del) states_change) }
    ensures from_cancelled_to_running { WrongAt states_change_spec 27 (instead 27 (State (at 0 0 0) Running) states_change) }
    ensures a_foreign_device { WrongAt states_change_spec 5 (with_entry 5 (State (at 0 5 0) Running) states_change) }
    ensures in_recovery { WrongAt second_expiry_spec 16 (with_entry 16 (State unit OfflineState) second_expiry) }
{}

/// An attempt is turned away at once after its sending, and only then.
pub fn around_bounces()
    ensures twice { WrongAt bounces_spec 4 (twice 3 bounces) }
    ensures another_attempt { WrongAt bounces_spec 3 (instead 3 (bounced 1 2 DeviceBusy) bounces) }
    ensures another_command { WrongAt bounces_spec 3 (instead 3 (bounced 2 1 DeviceBusy) bounces) }
    ensures later { WrongAt bounces_spec 12 (with_entry 12 (bounced 1 3 DeviceBusy) bounces) }
    ensures without_a_sending { WrongAt bounces_spec 2 (with_entry 2 (bounced 1 1 DeviceBusy) bounces) }
{}

/// A busy device or host pauses until the next tick.
pub fn around_pauses()
    ensures the_device { WrongAt bounces_spec 4 (with_entry 4 (sent 1 2 0) bounces) }
    ensures the_host { WrongAt bounces_spec 9 (with_entry 9 (sent 2 3 0) bounces) }
    ensures one_device_after_the_other { WrongAt bounces_spec 15 (with_entry 15 (sent 2 6 1) bounces) }
    ensures after_a_requeue { WrongAt depth_moves_spec 24 (with_entry 24 (sent 1 6 1) depth_moves) }
    ensures after_requeues_of_both { WrongAt bounces_spec 30 (with_entry 30 (sent 2 8 0) bounces) }
    ensures another_device_goes_on { WrongAt depth_moves_spec 16 (instead 16 (sent 1 5 0) depth_moves) }
{}

/// A device takes no more than its depth.
pub fn around_depths()
    ensures at_first { WrongAt depth_moves_spec 9 (instead 9 (sent 5 4 3) depth_moves) }
    ensures after_task_set_full { WrongAt depth_moves_spec 20 (with_entry 20 (sent 1 6 3) depth_moves) }
    ensures after_two_goods { WrongAt depth_moves_spec 35 (with_entry 35 (sent 5 8 3) depth_moves) }
    ensures of_one_command { WrongAt no_callbacks_spec 3 (with_entry 3 (sent 2 2 1) no_callbacks) }
{}
