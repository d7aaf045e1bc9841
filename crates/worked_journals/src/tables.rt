ghost use Rattle.std.specs.Prelude.{[], ◌∷◌, ◌≡◌, ◌++◌, true, false, None, Some, map, replicate, nat_lt};
ghost use Rattle.mid_base.specs.declared.answers.Disp.TheVariants.{Success, Retry, Requeue, Fail};
ghost use Rattle.mid_base.specs.declared.answers.Scope.TheVariants.{Cmd, Dev, Target, Bus, Host};
ghost use Rattle.mid_base.specs.declared.states.HostState.TheVariants as host;
ghost use Rattle.mid_base.specs.declared.states.DeviceState.TheVariants.{Created, Running, Quiesce, Block, Offline as OfflineState, Cancel, Del};
ghost use Rattle.mid_base.specs.Depths.{after_full, after_good};
ghost use Rattle.trace_model.specs.Sending.{depths};
ghost use Rattle.trace_model.specs.Time.{is_before, deadline};
ghost use Rattle.trace_model.specs.Flush.{verdict};
ghost use Rattle.trace_model.specs.Commands.{is_own};
ghost use Rattle.disposition.specs.Ladder.{wants_sense, wants_start, address, with_dev, beyond_pair};
ghost use Rattle.disposition.specs.Disp.{disp, check_sense};
ghost use Rattle.device_states.specs.States.{may_become, host_may_become, is_online_state, is_running, is_closed, same_state};
ghost use Rattle.worked_journals.specs.Edits.{before};
ghost use Rattle.worked_journals.specs.Hosts.{at, unit};
ghost use Rattle.worked_journals.specs.Say.{bare, checked, cut_short, fine, not_known, not_started, was_reset};
ghost use Rattle.worked_journals.specs.Tables.{deferred_descriptor, deferred_fixed, device_states, host_states, in_scopes, may_be_ok, may_have_failed, of_codes, of_hosts, of_keys, of_retries, of_statuses, other_entries, own_entries, same_scopes};
ghost use Rattle.worked_journals.specs.AnswerWins.{answer_wins};
ghost use Rattle.worked_journals.specs.Bounces.{bounces};
ghost use Rattle.worked_journals.specs.ClimbsOn.{climbs_on, climbs_on_spec};
ghost use Rattle.worked_journals.specs.CutDescriptor.{cut_descriptor};
ghost use Rattle.worked_journals.specs.DepthMoves.{depth_moves, depth_moves_spec};
ghost use Rattle.worked_journals.specs.ExpiryWins.{expiry_wins};
ghost use Rattle.worked_journals.specs.FailsFast.{fails_fast, fails_fast_spec};
ghost use Rattle.worked_journals.specs.LateCounts.{late_counts};
ghost use Rattle.worked_journals.specs.RetriesSpent.{retries_spent, retries_spent_spec};
ghost use Rattle.worked_journals.specs.TimersReset.{timers_reset, timers_reset_spec};
ghost use Rattle.worked_journals.specs.TwoRecovered.{two_recovered, two_recovered_spec};

/// From each state of a device, which ones may follow: Created, Running, Quiesce, Block, Offline, Cancel, Del.
pub fn which_state_a_device_may_become()
    ensures from_created { map (may_become Created) device_states ≡ false ∷ true ∷ false ∷ false ∷ true ∷ true ∷ true ∷ [] }
    ensures from_running { map (may_become Running) device_states ≡ false ∷ false ∷ true ∷ true ∷ true ∷ true ∷ false ∷ [] }
    ensures from_quiesce { map (may_become Quiesce) device_states ≡ false ∷ true ∷ false ∷ false ∷ true ∷ true ∷ false ∷ [] }
    ensures from_block { map (may_become Block) device_states ≡ false ∷ true ∷ false ∷ false ∷ true ∷ true ∷ false ∷ [] }
    ensures from_offline { map (may_become OfflineState) device_states ≡ false ∷ true ∷ false ∷ false ∷ false ∷ true ∷ false ∷ [] }
    ensures from_cancel { map (may_become Cancel) device_states ≡ false ∷ false ∷ false ∷ false ∷ false ∷ false ∷ true ∷ [] }
    ensures from_del { map (may_become Del) device_states ≡ false ∷ false ∷ false ∷ false ∷ false ∷ false ∷ false ∷ [] }
{}

/// From each state of a host: Created, Running, Recovery, Cancel, CancelRecovery, DelRecovery, Del.
pub fn which_state_a_host_may_become()
    ensures from_created { map (host_may_become host.Created) host_states ≡ false ∷ true ∷ false ∷ true ∷ false ∷ false ∷ false ∷ [] }
    ensures from_running { map (host_may_become host.Running) host_states ≡ false ∷ false ∷ true ∷ true ∷ false ∷ false ∷ false ∷ [] }
    ensures from_recovery { map (host_may_become host.Recovery) host_states ≡ false ∷ true ∷ false ∷ false ∷ true ∷ false ∷ false ∷ [] }
    ensures from_cancel { map (host_may_become host.Cancel) host_states ≡ false ∷ false ∷ false ∷ false ∷ true ∷ false ∷ true ∷ [] }
    ensures from_cancel_recovery { map (host_may_become host.CancelRecovery) host_states ≡ false ∷ false ∷ false ∷ true ∷ false ∷ true ∷ false ∷ [] }
    ensures from_del_recovery { map (host_may_become host.DelRecovery) host_states ≡ false ∷ false ∷ false ∷ false ∷ false ∷ false ∷ true ∷ [] }
    ensures from_del { map (host_may_become host.Del) host_states ≡ false ∷ false ∷ false ∷ false ∷ false ∷ false ∷ false ∷ [] }
{}

/// Created, Running, Quiesce, Block, Offline, Cancel, Del: which are online, running, closed.
pub fn what_a_device_in_a_state_takes()
    ensures online { map is_online_state device_states ≡ true ∷ true ∷ true ∷ true ∷ false ∷ false ∷ false ∷ [] }
    ensures running { map is_running device_states ≡ false ∷ true ∷ false ∷ false ∷ false ∷ false ∷ false ∷ [] }
    ensures closed { map is_closed device_states ≡ false ∷ false ∷ false ∷ false ∷ false ∷ true ∷ true ∷ [] }
{}

/// Each state of a device is the same as itself alone.
pub fn which_states_are_the_same()
    ensures created { map (same_state Created) device_states ≡ true ∷ false ∷ false ∷ false ∷ false ∷ false ∷ false ∷ [] }
    ensures running { map (same_state Running) device_states ≡ false ∷ true ∷ false ∷ false ∷ false ∷ false ∷ false ∷ [] }
    ensures quiesce { map (same_state Quiesce) device_states ≡ false ∷ false ∷ true ∷ false ∷ false ∷ false ∷ false ∷ [] }
    ensures block { map (same_state Block) device_states ≡ false ∷ false ∷ false ∷ true ∷ false ∷ false ∷ false ∷ [] }
    ensures offline { map (same_state OfflineState) device_states ≡ false ∷ false ∷ false ∷ false ∷ true ∷ false ∷ false ∷ [] }
    ensures cancel { map (same_state Cancel) device_states ≡ false ∷ false ∷ false ∷ false ∷ false ∷ true ∷ false ∷ [] }
    ensures del { map (same_state Del) device_states ≡ false ∷ false ∷ false ∷ false ∷ false ∷ false ∷ true ∷ [] }
{}

/// Host bytes but DID_OK.
pub fn what_host_bytes_come_to()
    ensures success { of_hosts (1 ∷ 4 ∷ 5 ∷ 8 ∷ []) ≡ replicate 4 Success }
    ensures retry { of_hosts (2 ∷ 6 ∷ 7 ∷ 11 ∷ []) ≡ replicate 4 Retry }
    ensures requeue { of_hosts (12 ∷ 13 ∷ []) ≡ replicate 2 Requeue }
    ensures failure { of_hosts (3 ∷ 9 ∷ 10 ∷ 14 ∷ 15 ∷ 255 ∷ []) ≡ replicate 6 Fail }
    ensures whatever_the_status { map (λ status. disp (bare 7 status) 0 1 false true) (0 ∷ 2 ∷ 8 ∷ 40 ∷ []) ≡ replicate 4 Retry }
{}

/// Statuses with DID_OK.
pub fn what_statuses_come_to()
    ensures success { of_statuses (0 ∷ 4 ∷ 24 ∷ 48 ∷ []) ≡ replicate 4 Success }
    ensures requeue { of_statuses (8 ∷ 40 ∷ []) ≡ replicate 2 Requeue }
    ensures retry { of_statuses (64 ∷ []) ≡ Retry ∷ [] }
    ensures failure { of_statuses (1 ∷ 2 ∷ 16 ∷ 20 ∷ 34 ∷ 255 ∷ []) ≡ replicate 6 Fail }
    ensures by_its_sense_data { map (λ sense. disp (checked sense) 0 1 false true) (was_reset ∷ not_started ∷ not_known ∷ cut_short ∷ []) ≡ Retry ∷ Fail ∷ Success ∷ Fail ∷ [] }
    ensures good_with_sense_data { disp (record { host = record { 0 = 0 }; status = 0; sense = not_started; moved = 0; sum = 0 }) 0 1 false true ≡ Success }
{}

/// Sense keys with their additional codes.
pub fn what_sense_data_comes_to()
    ensures no_sense_and_recovered { of_keys (41, 0) (0 ∷ 1 ∷ []) ≡ replicate 2 Success }
    ensures aborted_command { of_codes 11 ((0, 0) ∷ (4, 2) ∷ []) ≡ replicate 2 Retry }
    ensures not_ready { of_codes 2 ((4, 1) ∷ (4, 2) ∷ (41, 0) ∷ (41, 3) ∷ (4, 0) ∷ (5, 1) ∷ (5, 2) ∷ (58, 0) ∷ []) ≡ Retry ∷ Fail ∷ Retry ∷ Retry ∷ replicate 4 Success }
    ensures unit_attention { of_codes 6 ((4, 1) ∷ (4, 2) ∷ (41, 0) ∷ (41, 3) ∷ (4, 0) ∷ (5, 1) ∷ (5, 2) ∷ (58, 0) ∷ []) ≡ Retry ∷ Fail ∷ Retry ∷ Retry ∷ replicate 4 Success }
    ensures medium_error { of_codes 3 ((17, 0) ∷ (19, 0) ∷ (20, 1) ∷ (16, 0) ∷ (18, 0) ∷ (21, 0) ∷ []) ≡ replicate 3 Success ++ replicate 3 Retry }
    ensures every_other { of_keys (4, 2) (4 ∷ 5 ∷ 7 ∷ 8 ∷ 9 ∷ 10 ∷ 12 ∷ 13 ∷ 14 ∷ 15 ∷ []) ≡ replicate 10 Success }
    ensures deferred { map check_sense (deferred_fixed ∷ deferred_descriptor ∷ []) ≡ replicate 2 Retry }
{}

/// A retry that may not be made is a success, and so is each answer of a device that is offline.
pub fn what_is_left_of_a_retry()
    ensures counts { of_retries (bare 7 0) ((0, 1) ∷ (4, 5) ∷ (1, 1) ∷ (0, 0) ∷ (2, 1) ∷ []) ≡ Retry ∷ Retry ∷ replicate 3 Success }
    ensures fails_fast { map (λ h. disp (bare h 0) 0 5 true true) (7 ∷ 12 ∷ 3 ∷ []) ≡ Success ∷ Requeue ∷ Fail ∷ [] }
    ensures others { map (λ h. disp (bare h 0) 5 5 false true) (12 ∷ 3 ∷ []) ≡ Requeue ∷ Fail ∷ [] }
    ensures offline { map (λ h. disp (bare h 0) 0 5 false false) (0 ∷ 7 ∷ 12 ∷ 3 ∷ []) ≡ replicate 4 Success }
{}

/// Levels 0 to 9 of the ladder, by the callbacks of a host.
pub fn which_levels_may_be_ok()
    ensures none { may_be_ok 0 ≡ true ∷ true ∷ false ∷ true ∷ false ∷ false ∷ false ∷ false ∷ true ∷ true ∷ [] }
    ensures abort { may_be_ok 1 ≡ true ∷ true ∷ true ∷ true ∷ false ∷ false ∷ false ∷ false ∷ true ∷ true ∷ [] }
    ensures device_reset { may_be_ok 2 ≡ true ∷ true ∷ false ∷ true ∷ true ∷ false ∷ false ∷ false ∷ true ∷ true ∷ [] }
    ensures target_reset { may_be_ok 4 ≡ true ∷ true ∷ false ∷ true ∷ false ∷ true ∷ false ∷ false ∷ true ∷ true ∷ [] }
    ensures bus_reset { may_be_ok 8 ≡ true ∷ true ∷ false ∷ true ∷ false ∷ false ∷ true ∷ false ∷ true ∷ true ∷ [] }
    ensures host_reset { may_be_ok 16 ≡ true ∷ true ∷ false ∷ true ∷ false ∷ false ∷ false ∷ true ∷ true ∷ true ∷ [] }
    ensures failed { may_have_failed ≡ true ∷ true ∷ true ∷ true ∷ true ∷ true ∷ true ∷ true ∷ false ∷ true ∷ [] }
{}

/// Level 1 is for a check without valid sense data, level 3 for sense data that asks for a start.
pub fn which_answers_want_a_level()
    ensures sense { map wants_sense (Some (bare 0 2) ∷ Some (checked cut_short) ∷ Some (checked was_reset) ∷ Some (bare 7 2) ∷ Some (bare 0 8) ∷ Some fine ∷ None ∷ []) ≡ true ∷ true ∷ false ∷ false ∷ false ∷ false ∷ false ∷ [] }
    ensures start { map wants_start (Some (checked not_started) ∷ Some (checked cut_short) ∷ Some (checked was_reset) ∷ Some (bare 0 2) ∷ None ∷ []) ≡ true ∷ false ∷ false ∷ false ∷ false ∷ [] }
{}

/// Scopes: command 1, device 1:2:3, target 1:2, channel 1, the host.
pub fn which_scopes_have_a_command()
    ensures its_own { in_scopes (at 1 2 3) 1 ≡ true ∷ true ∷ true ∷ true ∷ true ∷ [] }
    ensures another_command { in_scopes (at 1 2 3) 2 ≡ false ∷ true ∷ true ∷ true ∷ true ∷ [] }
    ensures another_unit { in_scopes (at 1 2 0) 1 ≡ true ∷ false ∷ true ∷ true ∷ true ∷ [] }
    ensures another_target { in_scopes (at 1 0 3) 1 ≡ true ∷ false ∷ false ∷ true ∷ true ∷ [] }
    ensures another_channel { in_scopes (at 0 2 3) 1 ≡ true ∷ false ∷ false ∷ false ∷ true ∷ [] }
    ensures target_and_channel_changed_round { in_scopes (at 2 1 3) 1 ≡ true ∷ false ∷ false ∷ false ∷ true ∷ [] }
{}

/// The same scopes, compared.
pub fn which_scopes_are_the_same()
    ensures command { same_scopes (Cmd (record { 0 = 1 })) ≡ true ∷ false ∷ false ∷ false ∷ false ∷ [] }
    ensures another_command { same_scopes (Cmd (record { 0 = 2 })) ≡ false ∷ false ∷ false ∷ false ∷ false ∷ [] }
    ensures device { same_scopes (Dev (at 1 2 3)) ≡ false ∷ true ∷ false ∷ false ∷ false ∷ [] }
    ensures another_device { same_scopes (Dev (at 1 2 0)) ≡ false ∷ false ∷ false ∷ false ∷ false ∷ [] }
    ensures target { same_scopes (Target 1 2) ≡ false ∷ false ∷ true ∷ false ∷ false ∷ [] }
    ensures another_target { same_scopes (Target 1 0) ≡ false ∷ false ∷ false ∷ false ∷ false ∷ [] }
    ensures its_target_elsewhere { same_scopes (Target 0 2) ≡ false ∷ false ∷ false ∷ false ∷ false ∷ [] }
    ensures channel { same_scopes (Bus 1) ≡ false ∷ false ∷ false ∷ true ∷ false ∷ [] }
    ensures another_channel { same_scopes (Bus 0) ≡ false ∷ false ∷ false ∷ false ∷ false ∷ [] }
    ensures host { same_scopes Host ≡ false ∷ false ∷ false ∷ false ∷ true ∷ [] }
{}

/// Channel, then target, then logical unit number.
pub fn what_the_order_of_addresses_is()
    ensures by_unit { nat_lt (address (at 0 0 0)) (address (at 0 0 1)) ≡ true }
    ensures by_target { nat_lt (address (at 0 0 16383)) (address (at 0 1 0)) ≡ true }
    ensures by_channel { nat_lt (address (at 0 255 16383)) (address (at 1 0 0)) ≡ true }
    ensures put_before { with_dev (at 0 0 1) (at 0 0 2 ∷ at 0 1 0 ∷ []) ≡ at 0 0 1 ∷ at 0 0 2 ∷ at 0 1 0 ∷ [] }
    ensures put_between { with_dev (at 0 0 1) (at 0 0 0 ∷ at 0 1 0 ∷ []) ≡ at 0 0 0 ∷ at 0 0 1 ∷ at 0 1 0 ∷ [] }
    ensures put_behind { with_dev (at 1 0 1) (at 0 0 0 ∷ at 0 1 0 ∷ []) ≡ at 0 0 0 ∷ at 0 1 0 ∷ at 1 0 1 ∷ [] }
    ensures there_already { with_dev (at 0 1 0) (at 0 0 0 ∷ at 0 1 0 ∷ []) ≡ at 0 0 0 ∷ at 0 1 0 ∷ [] }
{}

/// What stands beyond the last place of an act in a list of acts.
pub fn what_stands_beyond_an_act()
    ensures once { beyond_pair (5, Host) ((4, Host) ∷ (5, Host) ∷ (6, Host) ∷ []) ≡ (6, Host) ∷ [] }
    ensures twice { beyond_pair (5, Host) ((5, Host) ∷ (4, Host) ∷ (5, Host) ∷ (6, Host) ∷ []) ≡ (6, Host) ∷ [] }
    ensures not_there { beyond_pair (5, Bus 0) ((4, Host) ∷ (5, Host) ∷ (6, Host) ∷ []) ≡ [] }
{}

/// A depth with the GOODs since it changed, after TASK SET FULL and after GOOD.
pub fn what_a_depth_becomes()
    ensures full { after_full 3 (4, 2) ≡ (2, 0) }
    ensures full_with_one_held { after_full 1 (4, 2) ≡ (1, 0) }
    ensures full_with_one_held_at_one { after_full 1 (1, 2) ≡ (1, 2) }
    ensures full_with_many_held { after_full 9 (4, 2) ≡ (4, 2) }
    ensures good { after_good 8 (4, 0) ≡ (4, 1) }
    ensures good_again { after_good 8 (4, 2) ≡ (4, 3) }
    ensures fourth_good { after_good 8 (4, 3) ≡ (5, 0) }
    ensures good_at_the_most { after_good 4 (4, 3) ≡ (4, 3) }
{}

/// The depths of both devices along the journal.
pub fn what_depths_are()
    ensures at_first { depths depth_moves_spec (at 0 0 0) (before 14 depth_moves) ≡ (3, 0) }
    ensures after_task_set_full { depths depth_moves_spec (at 0 0 0) (before 15 depth_moves) ≡ (2, 0) }
    ensures after_busy { depths depth_moves_spec (at 0 0 0) (before 23 depth_moves) ≡ (2, 0) }
    ensures after_a_good { depths depth_moves_spec (at 0 0 0) (before 33 depth_moves) ≡ (2, 1) }
    ensures after_three { depths depth_moves_spec (at 0 0 0) (before 43 depth_moves) ≡ (2, 3) }
    ensures after_four { depths depth_moves_spec (at 0 0 0) (before 49 depth_moves) ≡ (3, 0) }
    ensures after_the_same_status_of_a_failed_transport { depths retries_spent_spec unit (before 5 retries_spent) ≡ (8, 0) }
    ensures of_the_other_device { depths depth_moves_spec (at 0 1 0) (before 54 depth_moves) ≡ (2, 0) }
{}

/// Entries that name command 2, of each kind, and those of attempts and of none.
pub fn what_names_a_command()
    ensures its_own { map (is_own 2) own_entries ≡ replicate 11 true }
    ensures of_another { map (is_own 1) own_entries ≡ replicate 11 false }
    ensures of_none { map (is_own 0) own_entries ≡ replicate 11 false }
    ensures others { map (is_own 2) other_entries ≡ replicate 13 false }
{}

/// The verdict on a command after each kind of its own entries.
pub fn what_verdicts_are()
    ensures none { verdict 1 (before 0 answer_wins) ≡ Some (bare 1 0) }
    ensures taken { verdict 1 (before 1 answer_wins) ≡ Some (bare 1 0) }
    ensures turned_away { verdict 2 (before 8 bounces) ≡ Some (bare 1 0) }
    ensures waits_again { verdict 1 (before 6 retries_spent) ≡ Some (bare 1 0) }
    ensures judged { verdict 1 (before 11 late_counts) ≡ Some (bare 0 8) }
    ensures aborted { verdict 1 (before 10 expiry_wins) ≡ Some (bare 3 0) }
    ensures cleared_and_answered { verdict 7 (before 23 cut_descriptor) ≡ Some (checked not_known) }
    ensures cleared_and_expired { verdict 1 (before 21 retries_spent) ≡ Some (bare 3 0) }
{}

/// Deadlines, and which of two is before the other.
pub fn what_deadlines_are()
    ensures first { deadline timers_reset_spec (before 3 timers_reset) 1 ≡ 3 }
    ensures reset_once { deadline timers_reset_spec (before 6 timers_reset) 1 ≡ 5 }
    ensures reset_twice { deadline timers_reset_spec (before 11 timers_reset) 1 ≡ 7 }
    ensures the_earlier_one { is_before climbs_on_spec (before 4 climbs_on) 1 2 ≡ true }
    ensures the_later_number { is_before climbs_on_spec (before 4 climbs_on) 2 1 ≡ false }
    ensures the_later_one { is_before two_recovered_spec (before 4 two_recovered) 2 1 ≡ false }
    ensures a_later_number_before { is_before fails_fast_spec (before 8 fails_fast) 3 2 ≡ true }
    ensures an_earlier_number_behind { is_before fails_fast_spec (before 8 fails_fast) 2 3 ≡ false }
{}
