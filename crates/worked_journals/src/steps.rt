ghost use Rattle.std.specs.Prelude.{[], ◌∷◌, ◌≡◌, true, false, None, Some, map};
ghost use Rattle.mid_base.specs.declared.answers.BusyOf.TheVariants.{Device as DeviceBusy};
ghost use Rattle.mid_base.specs.declared.answers.By.TheVariants.{Answer, Expiry};
ghost use Rattle.mid_base.specs.declared.answers.Disp.TheVariants.{Success};
ghost use Rattle.mid_base.specs.declared.answers.Scope.TheVariants.{Dev};
ghost use Rattle.mid_base.specs.declared.states.DeviceState.TheVariants.{Created, Running, Quiesce, Block, Offline as OfflineState};
ghost use Rattle.mid_base.specs.declared.entries.Entry.TheVariants.{Act, Tick};
ghost use Rattle.mid_base.specs.declared.steps.Step.TheVariants.{Submit, Send, Work, Due as AskDue, Own, Settle, Drop, Abort, EhBegin as Begin, EhAct, EhFlush, EhEnd as End, Tick as GoOn, SetState};
ghost use Rattle.mid_base.specs.declared.steps.Why.TheVariants.{LaneDone, Recovery, NoSend, NoWork, NoDue, NotOpen, NotReady, NotDue, NotOwned, NotLate, NoAbort, EhRunning, NoFailed, NotQuiet, EhIdle, LadderDone, LadderOpen, FlushDone, FlushLeft, WorkDue, AnswerWaiting, ExpiryWaiting, Illegal};
ghost use Rattle.mid_base.specs.declared.answers.TagState.TheVariants.{Free as TagFree, Armed as TagArmed, Owned as TagOwned};
ghost use Rattle.trace_model.specs.Tags.{tag_states};
ghost use Rattle.trace_model.specs.Claims.{waiting_claims};
ghost use Rattle.mid_base.specs.Limits.{last_number};
ghost use Rattle.trace_model.specs.Steps.{barred, opens, IsAdded, would_send};
ghost use Rattle.worked_journals.specs.Edits.{before};
ghost use Rattle.worked_journals.specs.Hosts.{at, unit};
ghost use Rattle.worked_journals.specs.Say.{bare, bounced, cleared, fine, judged, probe, sent, told, took};
ghost use Rattle.worked_journals.specs.Tables.{openers};
ghost use Rattle.worked_journals.specs.AnswerWins.{answer_wins, answer_wins_spec};
ghost use Rattle.worked_journals.specs.Bounces.{bounces, bounces_spec};
ghost use Rattle.worked_journals.specs.ClimbsOn.{climbs_on, climbs_on_spec};
ghost use Rattle.worked_journals.specs.ExpiryWins.{expiry_wins, expiry_wins_spec};
ghost use Rattle.worked_journals.specs.NoAsyncAborts.{no_async_aborts, no_async_aborts_spec};
ghost use Rattle.worked_journals.specs.NoCallbacks.{no_callbacks, no_callbacks_spec};
ghost use Rattle.worked_journals.specs.OfflineBefore.{offline_before, offline_before_spec};
ghost use Rattle.worked_journals.specs.StatesChange.{states_change, states_change_spec};
ghost use Rattle.worked_journals.specs.TwoRecovered.{two_recovered, two_recovered_spec};

/// Steps that hand in and send commands.
pub fn what_bars_submit_and_send()
    ensures submit { barred answer_wins_spec false (before 0 answer_wins) (Submit (record { 0 = 0 })) ≡ None }
    ensures lane_done { barred answer_wins_spec false (before 1 answer_wins) (Submit (record { 0 = 0 })) ≡ Some LaneDone }
    ensures another_lane { barred bounces_spec false (before 1 bounces) (Submit (record { 0 = 1 })) ≡ None }
    ensures no_such_lane { barred bounces_spec false (before 0 bounces) (Submit (record { 0 = 2 })) ≡ Some LaneDone }
    ensures send { barred answer_wins_spec false (before 1 answer_wins) Send ≡ None }
    ensures nothing_waits { barred answer_wins_spec false (before 0 answer_wins) Send ≡ Some NoSend }
{}

/// Nothing is sent in recovery or in a pause, and a command that is told instead may go.
pub fn what_bars_send()
    ensures in_recovery { barred two_recovered_spec false (before 18 two_recovered) Send ≡ Some Recovery }
    ensures in_recovery_with_one_that_waits { barred no_callbacks_spec false (before 19 no_callbacks) Send ≡ Some Recovery }
    ensures in_a_pause { barred bounces_spec false (before 9 bounces) Send ≡ Some NoSend }
    ensures after_a_pause { barred bounces_spec false (before 10 bounces) Send ≡ None }
    ensures to_be_told { barred no_callbacks_spec false (before 21 no_callbacks) Send ≡ None }
{}

/// An answer is taken where the lower layer has one; an attempt is asked about where one has expired.
pub fn what_bars_work_and_due()
    ensures work { barred answer_wins_spec true (before 2 answer_wins) Work ≡ None }
    ensures no_answer { barred answer_wins_spec false (before 2 answer_wins) Work ≡ Some NoWork }
    ensures due { barred answer_wins_spec false (before 5 answer_wins) AskDue ≡ None }
    ensures not_yet_due { barred answer_wins_spec false (before 3 answer_wins) AskDue ≡ Some NoDue }
    ensures asked_already { barred answer_wins_spec false (before 6 answer_wins) AskDue ≡ Some NoDue }
    ensures the_second_of_two { barred climbs_on_spec false (before 6 climbs_on) AskDue ≡ None }
{}

/// An open attempt is given to its answer or to its expiry.
pub fn what_bars_own()
    ensures to_its_answer { barred expiry_wins_spec false (before 6 expiry_wins) (Own (record { 0 = 1 }) Answer) ≡ None }
    ensures to_its_expiry { barred expiry_wins_spec false (before 6 expiry_wins) (Own (record { 0 = 1 }) Expiry) ≡ None }
    ensures not_ready { barred expiry_wins_spec false (before 2 expiry_wins) (Own (record { 0 = 1 }) Answer) ≡ Some NotReady }
    ensures not_due { barred expiry_wins_spec false (before 5 expiry_wins) (Own (record { 0 = 1 }) Expiry) ≡ Some NotDue }
    ensures owned_already_to_its_answer { barred expiry_wins_spec false (before 7 expiry_wins) (Own (record { 0 = 1 }) Answer) ≡ Some NotOpen }
    ensures owned_already_to_its_expiry { barred expiry_wins_spec false (before 7 expiry_wins) (Own (record { 0 = 1 }) Expiry) ≡ Some NotOpen }
    ensures not_sent_to_its_answer { barred expiry_wins_spec false (before 1 expiry_wins) (Own (record { 0 = 1 }) Answer) ≡ Some NotOpen }
    ensures not_sent_to_its_expiry { barred expiry_wins_spec false (before 1 expiry_wins) (Own (record { 0 = 1 }) Expiry) ≡ Some NotOpen }
{}

/// An owned attempt is settled once; late answers and scheduled aborts are dealt with while there are some.
pub fn what_bars_settle_drop_and_abort()
    ensures settle { barred expiry_wins_spec false (before 7 expiry_wins) (Settle (record { 0 = 1 })) ≡ None }
    ensures not_owned { barred expiry_wins_spec false (before 6 expiry_wins) (Settle (record { 0 = 1 })) ≡ Some NotOwned }
    ensures settled { barred expiry_wins_spec false (before 8 expiry_wins) (Settle (record { 0 = 1 })) ≡ Some NotOwned }
    ensures drop { barred expiry_wins_spec false (before 7 expiry_wins) (Drop (record { 0 = 1 })) ≡ None }
    ensures not_late { barred expiry_wins_spec false (before 6 expiry_wins) (Drop (record { 0 = 1 })) ≡ Some NotLate }
    ensures abort { barred expiry_wins_spec false (before 8 expiry_wins) Abort ≡ None }
    ensures no_abort { barred expiry_wins_spec false (before 7 expiry_wins) Abort ≡ Some NoAbort }
{}

/// Recovery begins once, with failed commands alone out.
pub fn what_bars_the_beginning()
    ensures begin { barred two_recovered_spec false (before 18 two_recovered) Begin ≡ None }
    ensures running { barred two_recovered_spec false (before 19 two_recovered) Begin ≡ Some EhRunning }
    ensures running_with_none_failed { barred two_recovered_spec false (before 26 two_recovered) Begin ≡ Some EhRunning }
    ensures none_failed { barred two_recovered_spec false (before 4 two_recovered) Begin ≡ Some NoFailed }
    ensures not_quiet { barred two_recovered_spec false (before 13 two_recovered) Begin ≡ Some NotQuiet }
{}

/// The ladder acts while its to-do list has commands.
pub fn what_bars_acts()
    ensures act { barred two_recovered_spec false (before 19 two_recovered) EhAct ≡ None }
    ensures idle { barred two_recovered_spec false (before 18 two_recovered) EhAct ≡ Some EhIdle }
    ensures idle_with_nothing_to_do { barred two_recovered_spec false (before 0 two_recovered) EhAct ≡ Some EhIdle }
    ensures ladder_done { barred two_recovered_spec false (before 24 two_recovered) EhAct ≡ Some LadderDone }
{}

/// The flush comes after the ladder, the end after the flush.
pub fn what_bars_the_flush()
    ensures flush { barred two_recovered_spec false (before 24 two_recovered) EhFlush ≡ None }
    ensures flush_idle { barred two_recovered_spec false (before 18 two_recovered) EhFlush ≡ Some EhIdle }
    ensures flush_with_the_ladder_open { barred two_recovered_spec false (before 19 two_recovered) EhFlush ≡ Some LadderOpen }
    ensures flush_done { barred two_recovered_spec false (before 26 two_recovered) EhFlush ≡ Some FlushDone }
    ensures end { barred two_recovered_spec false (before 26 two_recovered) End ≡ None }
    ensures end_idle { barred two_recovered_spec false (before 18 two_recovered) End ≡ Some EhIdle }
    ensures end_with_the_ladder_open { barred two_recovered_spec false (before 19 two_recovered) End ≡ Some LadderOpen }
    ensures end_with_one_left { barred two_recovered_spec false (before 25 two_recovered) End ≡ Some FlushLeft }
{}

/// Time goes on where nothing waits.
pub fn what_bars_tick()
    ensures tick { barred expiry_wins_spec false (before 2 expiry_wins) GoOn ≡ None }
    ensures work_due { barred expiry_wins_spec true (before 2 expiry_wins) GoOn ≡ Some WorkDue }
    ensures work_due_first { barred expiry_wins_spec true (before 5 expiry_wins) GoOn ≡ Some WorkDue }
    ensures answer_waiting { barred expiry_wins_spec false (before 15 expiry_wins) GoOn ≡ Some AnswerWaiting }
    ensures answer_waiting_first { barred expiry_wins_spec false (before 5 expiry_wins) GoOn ≡ Some AnswerWaiting }
    ensures late_answer { barred expiry_wins_spec false (before 8 expiry_wins) GoOn ≡ Some AnswerWaiting }
    ensures deadline { barred two_recovered_spec false (before 6 two_recovered) GoOn ≡ Some ExpiryWaiting }
    ensures expiry { barred two_recovered_spec false (before 7 two_recovered) GoOn ≡ Some ExpiryWaiting }
    ensures answer_owned { barred answer_wins_spec false (before 7 answer_wins) GoOn ≡ None }
{}

/// A device of the host takes a state that it may, outside recovery.
pub fn what_bars_set_state()
    ensures set { barred states_change_spec false (before 1 states_change) (SetState (at 0 0 0) Running) ≡ None }
    ensures not_a_pair { barred states_change_spec false (before 1 states_change) (SetState (at 0 0 0) Quiesce) ≡ Some Illegal }
    ensures foreign { barred states_change_spec false (before 1 states_change) (SetState (at 0 5 0) Running) ≡ Some Illegal }
    ensures recovery { barred two_recovered_spec false (before 19 two_recovered) (SetState unit OfflineState) ≡ Some EhRunning }
    ensures recovery_first { barred two_recovered_spec false (before 19 two_recovered) (SetState unit Created) ≡ Some EhRunning }
{}

/// One entry of each kind, of command 1 and attempt 1: which of them open a step where nothing has been.
pub fn which_entries_open_a_step()
    ensures submit { map (opens bounces_spec [] (Submit (record { 0 = 0 }))) openers ≡ true ∷ false ∷ false ∷ false ∷ false ∷ false ∷ false ∷ false ∷ false ∷ false ∷ false ∷ false ∷ false ∷ false ∷ false ∷ false ∷ false ∷ false ∷ false ∷ false ∷ false ∷ false ∷ [] }
    ensures send { map (opens bounces_spec [] Send) openers ≡ false ∷ true ∷ false ∷ false ∷ false ∷ false ∷ false ∷ false ∷ false ∷ false ∷ false ∷ false ∷ false ∷ false ∷ false ∷ false ∷ false ∷ false ∷ false ∷ false ∷ false ∷ false ∷ [] }
    ensures work { map (opens bounces_spec [] Work) openers ≡ false ∷ false ∷ false ∷ true ∷ false ∷ false ∷ false ∷ false ∷ false ∷ false ∷ false ∷ false ∷ false ∷ false ∷ false ∷ false ∷ false ∷ false ∷ false ∷ false ∷ false ∷ false ∷ [] }
    ensures due { map (opens bounces_spec [] AskDue) openers ≡ false ∷ false ∷ false ∷ false ∷ true ∷ true ∷ true ∷ false ∷ false ∷ false ∷ false ∷ false ∷ false ∷ false ∷ false ∷ false ∷ false ∷ false ∷ false ∷ false ∷ false ∷ false ∷ [] }
    ensures own_by_its_answer { map (opens bounces_spec [] (Own (record { 0 = 1 }) Answer)) openers ≡ false ∷ false ∷ false ∷ false ∷ false ∷ false ∷ false ∷ true ∷ false ∷ false ∷ false ∷ false ∷ false ∷ false ∷ false ∷ false ∷ false ∷ false ∷ false ∷ false ∷ false ∷ false ∷ [] }
    ensures own_by_its_expiry { map (opens bounces_spec [] (Own (record { 0 = 1 }) Expiry)) openers ≡ false ∷ false ∷ false ∷ false ∷ false ∷ false ∷ false ∷ false ∷ true ∷ false ∷ false ∷ false ∷ false ∷ false ∷ false ∷ false ∷ false ∷ false ∷ false ∷ false ∷ false ∷ false ∷ [] }
    ensures settle { map (opens bounces_spec [] (Settle (record { 0 = 1 }))) openers ≡ false ∷ false ∷ false ∷ false ∷ false ∷ false ∷ false ∷ false ∷ false ∷ false ∷ true ∷ true ∷ false ∷ true ∷ false ∷ false ∷ false ∷ false ∷ false ∷ false ∷ false ∷ false ∷ [] }
{}

/// The same entries, for the other steps.
pub fn which_entries_open_another_step()
    ensures drop { map (opens bounces_spec [] (Drop (record { 0 = 1 }))) openers ≡ false ∷ false ∷ false ∷ false ∷ false ∷ false ∷ false ∷ false ∷ false ∷ true ∷ false ∷ false ∷ false ∷ false ∷ false ∷ false ∷ false ∷ false ∷ false ∷ false ∷ false ∷ false ∷ [] }
    ensures abort { map (opens bounces_spec [] Abort) openers ≡ false ∷ false ∷ false ∷ false ∷ false ∷ false ∷ false ∷ false ∷ false ∷ false ∷ false ∷ false ∷ true ∷ false ∷ false ∷ false ∷ false ∷ false ∷ false ∷ false ∷ false ∷ false ∷ [] }
    ensures begin { map (opens bounces_spec [] Begin) openers ≡ false ∷ false ∷ false ∷ false ∷ false ∷ false ∷ false ∷ false ∷ false ∷ false ∷ false ∷ false ∷ false ∷ false ∷ false ∷ false ∷ false ∷ true ∷ false ∷ false ∷ false ∷ false ∷ [] }
    ensures act { map (opens bounces_spec [] EhAct) openers ≡ false ∷ false ∷ false ∷ false ∷ false ∷ false ∷ false ∷ false ∷ false ∷ false ∷ false ∷ false ∷ false ∷ false ∷ false ∷ false ∷ false ∷ false ∷ false ∷ true ∷ false ∷ false ∷ [] }
    ensures flush { map (opens bounces_spec [] EhFlush) openers ≡ false ∷ false ∷ false ∷ false ∷ false ∷ false ∷ false ∷ false ∷ false ∷ false ∷ false ∷ false ∷ false ∷ false ∷ false ∷ true ∷ false ∷ false ∷ false ∷ false ∷ false ∷ false ∷ [] }
    ensures end { map (opens bounces_spec [] End) openers ≡ false ∷ false ∷ false ∷ false ∷ false ∷ false ∷ false ∷ false ∷ false ∷ false ∷ false ∷ false ∷ false ∷ false ∷ false ∷ false ∷ false ∷ false ∷ true ∷ false ∷ false ∷ false ∷ [] }
    ensures tick { map (opens bounces_spec [] GoOn) openers ≡ false ∷ false ∷ false ∷ false ∷ false ∷ false ∷ false ∷ false ∷ false ∷ false ∷ false ∷ false ∷ false ∷ false ∷ false ∷ false ∷ false ∷ false ∷ false ∷ false ∷ false ∷ true ∷ [] }
    ensures set_state { map (opens bounces_spec [] (SetState unit Running)) openers ≡ false ∷ false ∷ false ∷ false ∷ false ∷ false ∷ false ∷ false ∷ false ∷ false ∷ false ∷ false ∷ false ∷ false ∷ false ∷ false ∷ false ∷ false ∷ false ∷ false ∷ true ∷ false ∷ [] }
{}

/// The same entries, for steps of another lane, attempt, device or state.
pub fn which_entries_open_no_step()
    ensures another_lane { map (opens bounces_spec [] (Submit (record { 0 = 1 }))) openers ≡ false ∷ false ∷ false ∷ false ∷ false ∷ false ∷ false ∷ false ∷ false ∷ false ∷ false ∷ false ∷ false ∷ false ∷ false ∷ false ∷ false ∷ false ∷ false ∷ false ∷ false ∷ false ∷ [] }
    ensures its_own_lane { opens bounces_spec [] (Submit (record { 0 = 1 })) (took 2) ≡ true }
    ensures own_another { map (opens bounces_spec [] (Own (record { 0 = 2 }) Answer)) openers ≡ false ∷ false ∷ false ∷ false ∷ false ∷ false ∷ false ∷ false ∷ false ∷ false ∷ false ∷ false ∷ false ∷ false ∷ false ∷ false ∷ false ∷ false ∷ false ∷ false ∷ false ∷ false ∷ [] }
    ensures settle_another { map (opens bounces_spec [] (Settle (record { 0 = 2 }))) openers ≡ false ∷ false ∷ false ∷ false ∷ false ∷ false ∷ false ∷ false ∷ false ∷ false ∷ false ∷ false ∷ false ∷ false ∷ false ∷ false ∷ false ∷ false ∷ false ∷ false ∷ false ∷ false ∷ [] }
    ensures drop_another { map (opens bounces_spec [] (Drop (record { 0 = 2 }))) openers ≡ false ∷ false ∷ false ∷ false ∷ false ∷ false ∷ false ∷ false ∷ false ∷ false ∷ false ∷ false ∷ false ∷ false ∷ false ∷ false ∷ false ∷ false ∷ false ∷ false ∷ false ∷ false ∷ [] }
    ensures set_another_state { map (opens bounces_spec [] (SetState unit Block)) openers ≡ false ∷ false ∷ false ∷ false ∷ false ∷ false ∷ false ∷ false ∷ false ∷ false ∷ false ∷ false ∷ false ∷ false ∷ false ∷ false ∷ false ∷ false ∷ false ∷ false ∷ false ∷ false ∷ [] }
    ensures set_another_device { map (opens bounces_spec [] (SetState (at 0 0 1) Running)) openers ≡ false ∷ false ∷ false ∷ false ∷ false ∷ false ∷ false ∷ false ∷ false ∷ false ∷ false ∷ false ∷ false ∷ false ∷ false ∷ false ∷ false ∷ false ∷ false ∷ false ∷ false ∷ false ∷ [] }
{}

/// A report opens a step where that step tells: of a refused, a stranded or a flushed command.
pub fn which_reports_open_a_step()
    ensures refused { opens states_change_spec (before 26 states_change) (Submit (record { 0 = 0 })) (told 5 (bare 1 0)) ≡ true }
    ensures refused_of_another_lane { opens states_change_spec (before 26 states_change) (Submit (record { 0 = 1 })) (told 5 (bare 1 0)) ≡ false }
    ensures not_refused { opens states_change_spec (before 26 states_change) (Submit (record { 0 = 0 })) (told 6 (bare 1 0)) ≡ false }
    ensures stranded { opens no_callbacks_spec (before 21 no_callbacks) Send (told 2 (bare 1 0)) ≡ true }
    ensures not_stranded { opens no_callbacks_spec (before 21 no_callbacks) Send (told 1 (bare 1 0)) ≡ false }
    ensures flushed { opens no_callbacks_spec (before 18 no_callbacks) EhFlush (told 1 (bare 3 0)) ≡ true }
    ensures not_flushed { opens no_callbacks_spec (before 18 no_callbacks) EhFlush (told 2 (bare 3 0)) ≡ false }
{}

/// A tag is free, armed with an open attempt, or owned until the attempt is settled.
pub fn what_tags_are()
    ensures never_used { tag_states answer_wins_spec (before 1 answer_wins) ≡ TagFree ∷ [] }
    ensures armed { tag_states answer_wins_spec (before 2 answer_wins) ≡ TagArmed (record { 0 = 1 }) ∷ [] }
    ensures owned { tag_states answer_wins_spec (before 7 answer_wins) ≡ TagOwned (record { 0 = 1 }) Answer ∷ [] }
    ensures settled { tag_states answer_wins_spec (before 8 answer_wins) ≡ TagFree ∷ [] }
    ensures turned_away { tag_states bounces_spec (before 4 bounces) ≡ TagFree ∷ TagFree ∷ TagFree ∷ [] }
    ensures several { tag_states bounces_spec (before 22 bounces) ≡ TagOwned (record { 0 = 3 }) Answer ∷ TagArmed (record { 0 = 6 }) ∷ TagArmed (record { 0 = 7 }) ∷ [] }
    ensures owned_by_its_expiry { tag_states no_async_aborts_spec (before 10 no_async_aborts) ≡ TagOwned (record { 0 = 1 }) Expiry ∷ TagFree ∷ TagFree ∷ TagFree ∷ [] }
{}

/// Open attempts with an answer or a deadline that was said, in the order of their numbers.
pub fn which_claims_wait()
    ensures none { waiting_claims (before 4 expiry_wins) ≡ [] }
    ensures its_answer { waiting_claims (before 5 expiry_wins) ≡ ((record { 0 = 0 }), (record { 0 = 1 }), Answer) ∷ [] }
    ensures both { waiting_claims (before 6 expiry_wins) ≡ ((record { 0 = 0 }), (record { 0 = 1 }), Answer) ∷ ((record { 0 = 0 }), (record { 0 = 1 }), Expiry) ∷ [] }
    ensures owned { waiting_claims (before 7 expiry_wins) ≡ [] }
    ensures of_two_attempts { waiting_claims (before 7 no_async_aborts) ≡ ((record { 0 = 0 }), (record { 0 = 1 }), Expiry) ∷ ((record { 0 = 1 }), (record { 0 = 2 }), Expiry) ∷ [] }
    ensures of_three { waiting_claims (before 21 bounces) ≡ ((record { 0 = 0 }), (record { 0 = 3 }), Answer) ∷ ((record { 0 = 1 }), (record { 0 = 6 }), Answer) ∷ ((record { 0 = 2 }), (record { 0 = 7 }), Answer) ∷ [] }
{}

/// A group, or a sending that is turned away.
pub fn what_a_step_adds()
    ensures turned_away { IsAdded bounces_spec (before 2 bounces) (sent 1 1 0 ∷ bounced 1 1 DeviceBusy ∷ []) }
    ensures sent { IsAdded bounces_spec (before 2 bounces) (sent 1 1 0 ∷ []) }
    ensures another_turned_away { IsAdded bounces_spec (before 2 bounces) (sent 1 1 0 ∷ bounced 2 1 DeviceBusy ∷ []) → ⊥ }
    ensures another_sent { IsAdded bounces_spec (before 2 bounces) (sent 3 1 0 ∷ bounced 3 1 DeviceBusy ∷ []) → ⊥ }
    ensures nothing { IsAdded bounces_spec (before 2 bounces) [] → ⊥ }
{}

/// An entry with all that follows it at once.
pub fn which_groups_a_step_adds()
    ensures judged { IsAdded answer_wins_spec (before 7 answer_wins) (judged 1 1 Success ∷ told 1 fine ∷ []) }
    ensures not_told { IsAdded answer_wins_spec (before 7 answer_wins) (judged 1 1 Success ∷ []) → ⊥ }
    ensures told_otherwise { IsAdded answer_wins_spec (before 7 answer_wins) (judged 1 1 Success ∷ told 1 (bare 3 0) ∷ []) → ⊥ }
    ensures told_and_more { IsAdded answer_wins_spec (before 7 answer_wins) (judged 1 1 Success ∷ told 1 fine ∷ Tick ∷ []) → ⊥ }
    ensures an_act { IsAdded two_recovered_spec (before 19 two_recovered) (Act 4 (Dev unit) true ∷ probe 0 fine ∷ cleared 1 4 ∷ cleared 2 4 ∷ []) }
    ensures not_all_cleared { IsAdded two_recovered_spec (before 19 two_recovered) (Act 4 (Dev unit) true ∷ probe 0 fine ∷ cleared 1 4 ∷ []) → ⊥ }
    ensures another_cleared { IsAdded two_recovered_spec (before 19 two_recovered) (Act 4 (Dev unit) true ∷ probe 0 fine ∷ cleared 2 4 ∷ cleared 2 4 ∷ []) → ⊥ }
{}

/// A picked command is sent where its device is online, and told else.
pub fn what_would_be_sent()
    ensures none { would_send no_callbacks_spec [] None ≡ false }
    ensures online { would_send no_callbacks_spec [] (Some 2) ≡ true }
    ensures offline { would_send no_callbacks_spec (before 21 no_callbacks) (Some 2) ≡ false }
    ensures on_another_device { would_send offline_before_spec (before 17 offline_before) (Some 2) ≡ true }
{}

/// The greatest number of ticks and of attempts: 2 to the power of 60, minus 1.
pub fn what_is_too_much()
    ensures last { last_number ≡ 1152921504606846975 }
{}
