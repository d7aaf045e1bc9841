ghost use Rattle.std.specs.Prelude.{◌≡◌, ℕ, Bool, true, false, List, [], ◌∷◌};
ghost use Rattle.mid_base.specs.declared.answers.Answer.{Answer};
ghost use Rattle.mid_base.specs.declared.answers.Scope.{Scope};
ghost use Rattle.mid_base.specs.declared.entries.Entry.{Entry};
ghost use Rattle.mid_base.specs.declared.entries.Entry.TheVariants.{EhBegin, Again, Told};
ghost use Rattle.mid_base.specs.declared.host_spec.HostSpec.{HostSpec};
ghost use Rattle.mid_base.specs.declared.names.CmdId.{CmdId};
ghost use Rattle.trace_model.specs.Devices.{has_begun};
ghost use Rattle.trace_model.specs.Flush.{is_empty};
ghost use Rattle.trace_model.specs.Legal.{EachStands, Group};
ghost use Rattle.trace_model.specs.Recovery.{failed, listed, todo, may_begin, next_act, is_quiet};
ghost use Rattle.trace_model.specs.Sending.{is_refused};
ghost use Rattle.escalation.specs.Climbing.{AreLast, Climb, begun, online_alone, next_pair, gone_on};
ghost use Rattle.climb_laws.specs.LadderOf.{IsLadderOf, IsActAt, LeadTo, LeavesList, begun_at, is_on_list, lost_cleared};

// Here P is what a journal holds, the newest entry first.

/// A ladder that is begun with the failed commands, without those whose device isn't online, stands where recovery has begun
/// and has cleared those.
pub fn a_ladder_begins_with_recovery()
    ensures ladder { (s : HostSpec) (P : List Entry) → IsLadderOf s (begun_at s P) (online_alone (begun (listed s P) s.handlers s.no_async_abort)) }
    ensures group { (s : HostSpec) (P : List Entry) → may_begin s P ≡ true → Group s P (EhBegin ∷ lost_cleared s P) }
    ensures begun { (s : HostSpec) (P : List Entry) → has_begun (begun_at s P) ≡ true }
    ensures failed { (s : HostSpec) (P : List Entry) → failed (begun_at s P) ≡ failed P }
{}

/// The entries that tell the next act of a ladder are a group that the rules allow, and the ladder after it stands where they
/// lead.
pub fn a_ladder_acts_by_the_rules()
    ensures { (s : HostSpec) (P : List Entry) (k : Climb) (level : ℕ) (scope : Scope) (ok : Bool) (es : List Entry) → IsActAt s P k level scope ok es
        → LeadTo s P es (gone_on (level, scope) es k) }
{}

/// A ladder that stands at a journal does its next act, and has nothing left exactly where nothing is to be done.
pub fn a_ladder_does_the_next_act_of_its_journal()
    ensures next { (s : HostSpec) (P : List Entry) (k : Climb) → IsLadderOf s P k → next_pair k ≡ next_act s P }
    ensures left { (s : HostSpec) (P : List Entry) (k : Climb) → IsLadderOf s P k → is_empty k.left ≡ is_empty (todo s P) }
{}

/// While recovery goes on, an entry that has nothing to do with its list leaves the ladder where it stands.
pub fn other_entries_keep_the_ladder()
    ensures { (s : HostSpec) (P : List Entry) (k : Climb) (e : Entry) → LeavesList P e → IsLadderOf s P k → IsLadderOf s (e ∷ P) k }
{}

/// While recovery goes on each busy command is failed, as an act wants it.
pub fn recovery_is_quiet()
    ensures { (s : HostSpec) (P : List Entry) → EachStands s P → has_begun P ≡ true → is_quiet s P ≡ true }
{}

/// A command that is told as it is handed in isn't on the failed list.
pub fn refused_commands_have_not_failed()
    ensures { (s : HostSpec) (P : List Entry) (c : ℕ) → EachStands s P → is_refused s P c ≡ true → is_on_list c (failed P) ≡ false }
{}

/// The attempts of a ladder's commands are the last of each, on its device: so the lower layer stands where the acts lead.
pub fn a_ladder_has_last_attempts()
    ensures { (s : HostSpec) (P : List Entry) (k : Climb) → EachStands s P → IsLadderOf s P k → AreLast s P k.left }
{}

/// Where nothing is left to do, the flush of a command leaves the ladder where it stands.
pub fn a_flush_keeps_the_ladder()
    ensures again { (s : HostSpec) (P : List Entry) (k : Climb) (c : CmdId) (counted : Bool) → todo s P ≡ [] → IsLadderOf s P k
        → IsLadderOf s (Again c counted ∷ P) k }
    ensures told { (s : HostSpec) (P : List Entry) (k : Climb) (c : CmdId) (a : Answer) → todo s P ≡ [] → IsLadderOf s P k
        → IsLadderOf s (Told c a ∷ P) k }
{}
