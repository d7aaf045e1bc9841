ghost use Rattle.std.specs.Prelude.{◌≡◌, true, List, ◌∷◌};
ghost use Rattle.mid_base.specs.declared.entries.Entry.{Entry};
ghost use Rattle.mid_base.specs.declared.entries.Entry.TheVariants.{EhBegin};
ghost use Rattle.mid_base.specs.declared.host_spec.HostSpec.{HostSpec};
ghost use Rattle.trace_model.specs.Course.{IsOver};
ghost use Rattle.trace_model.specs.Devices.{has_begun};
ghost use Rattle.trace_model.specs.Legal.{EachStands, owed};
ghost use Rattle.trace_model.specs.Recovery.{may_begin};
ghost use Rattle.recovery_laws.specs.Still.{IsStill};

// Here P is what a journal holds, the newest entry first.

/// Where recovery may begin, nothing is under way but failed commands.
pub fn recovery_begins_in_quiet()
    ensures may { (s : HostSpec) (P : List Entry) → EachStands s P → IsOver (owed s P) → may_begin s P ≡ true → IsStill s P }
    ensures began { (s : HostSpec) (P : List Entry) → EachStands s (EhBegin ∷ P) → IsStill s P }
{}

/// Once recovery has begun, nothing is under way but failed commands until it ends.
pub fn nothing_else_is_under_way()
    ensures { (s : HostSpec) (P : List Entry) → EachStands s P → has_begun P ≡ true → IsStill s P }
{}
