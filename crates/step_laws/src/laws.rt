ghost use Rattle.std.specs.Prelude.{◌≡◌, ◌↔◌, Bool, true, List, reverse, None};
ghost use Rattle.mid_base.specs.Limits.{differ_in_id};
ghost use Rattle.mid_base.specs.declared.answers.By.{By};
ghost use Rattle.mid_base.specs.declared.entries.Entry.{Entry};
ghost use Rattle.mid_base.specs.declared.host_spec.HostSpec.{HostSpec};
ghost use Rattle.mid_base.specs.declared.names.Attempt.{Attempt};
ghost use Rattle.mid_base.specs.declared.names.DevAddr.{DevAddr};
ghost use Rattle.mid_base.specs.declared.names.LaneNo.{LaneNo};
ghost use Rattle.mid_base.specs.declared.states.DeviceState.{DeviceState};
ghost use Rattle.mid_base.specs.declared.steps.Step.{Step};
ghost use Rattle.mid_base.specs.declared.steps.Step.TheVariants.{Submit, Send, Work, Due, Own, Settle, Drop, Abort, EhBegin, EhAct, EhFlush, EhEnd, Tick, SetState};
ghost use Rattle.trace_model.specs.Legal.{ByPlaces, EachStands, Legal};
ghost use Rattle.trace_model.specs.Steps.{barred};
ghost use Rattle.step_laws.specs.Enabled.{HasNumbers, IsEnabled, IsRightlyBarred, is_let};

// Here P is what a journal holds, the newest entry first.

/// A lane hands in a command exactly where it has one left, if no two commands share an id: the command is taken, or told at
/// once where its device is on its way out.
pub fn submit_is_rightly_barred()
    ensures { (s : HostSpec) (P : List Entry) (lane : LaneNo) → differ_in_id s.cmds ≡ true → IsRightlyBarred s P (Submit lane) }
{}

/// A command is sent exactly where one can go and the host isn't in recovery, or told at once where its device is offline.
pub fn send_is_rightly_barred()
    ensures { (s : HostSpec) (P : List Entry) → IsRightlyBarred s P Send }
{}

/// An answer is taken exactly where the lower layer has one.
pub fn work_is_rightly_barred()
    ensures { (s : HostSpec) (P : List Entry) → IsRightlyBarred s P Work }
{}

/// The lower layer is asked about an attempt exactly where one has reached its deadline.
pub fn due_is_rightly_barred()
    ensures { (s : HostSpec) (P : List Entry) → IsRightlyBarred s P Due }
{}

/// An attempt is given to its answer, or to its expiry, exactly where it is open and has the one, or the other.
pub fn own_is_rightly_barred()
    ensures { (s : HostSpec) (P : List Entry) (n : Attempt) (by : By) → IsRightlyBarred s P (Own n by) }
{}

/// An attempt is settled exactly where it has an owner and isn't settled. Where its answer owns it there is one to judge, and
/// recovery hasn't begun.
pub fn settle_is_rightly_barred()
    ensures { (s : HostSpec) (P : List Entry) (n : Attempt) → EachStands s P → IsRightlyBarred s P (Settle n) }
{}

/// A late answer is ignored exactly where there is one.
pub fn drop_is_rightly_barred()
    ensures { (s : HostSpec) (P : List Entry) (n : Attempt) → IsRightlyBarred s P (Drop n) }
{}

/// An abort is tried exactly where one is scheduled.
pub fn abort_is_rightly_barred()
    ensures { (s : HostSpec) (P : List Entry) → IsRightlyBarred s P Abort }
{}

/// Recovery begins exactly where it hasn't begun, a command is failed, and each busy one is.
pub fn eh_begin_is_rightly_barred()
    ensures { (s : HostSpec) (P : List Entry) → IsRightlyBarred s P EhBegin }
{}

/// Recovery that has begun acts exactly where a failed command isn't cleared: then there is a next act, and each busy
/// command is failed.
pub fn eh_act_is_rightly_barred()
    ensures { (s : HostSpec) (P : List Entry) → ByPlaces s P → IsRightlyBarred s P EhAct }
{}

/// Recovery that has begun flushes a command exactly where one is failed and all of them are cleared: then it has a verdict,
/// or goes again.
pub fn eh_flush_is_rightly_barred()
    ensures { (s : HostSpec) (P : List Entry) → EachStands s P → IsRightlyBarred s P EhFlush }
{}

/// Recovery that has begun ends exactly where no failed command is left.
pub fn eh_end_is_rightly_barred()
    ensures { (s : HostSpec) (P : List Entry) → IsRightlyBarred s P EhEnd }
{}

/// Time goes on exactly where no answer waits, none is due, and no attempt is at its deadline without an owner.
pub fn tick_is_rightly_barred()
    ensures { (s : HostSpec) (P : List Entry) → IsRightlyBarred s P Tick }
{}

/// A device goes to a state exactly where it is the host's, may go there, and recovery hasn't begun.
pub fn set_state_is_rightly_barred()
    ensures { (s : HostSpec) (P : List Entry) (d : DevAddr) (x : DeviceState) → IsRightlyBarred s P (SetState d x) }
{}

/// All at once, for a legal journal: no rule bars a step exactly where the lower layer lets it be and some entry that opens
/// it may stand.
pub fn each_step_is_rightly_barred()
    ensures { (s : HostSpec) (journal : List Entry) (step : Step) → differ_in_id s.cmds ≡ true → Legal s journal → IsRightlyBarred s (reverse journal) step }
{}

/// The same while numbers of attempts and of ticks are left: nothing bars the step exactly there.
pub fn each_step_is_enabled_where_nothing_bars_it()
    ensures { (s : HostSpec) (journal : List Entry) (step : Step) → differ_in_id s.cmds ≡ true → Legal s journal → HasNumbers (reverse journal) → (due : Bool) → (barred s due (reverse journal) step ≡ None) ↔ ((is_let due step ≡ true) × IsEnabled s (reverse journal) step) }
{}
