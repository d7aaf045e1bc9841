ghost use Rattle.std.specs.Prelude.{◌≡◌, ℕ, true, List, [], ◌∷◌};
ghost use Rattle.mid_base.specs.declared.entries.Entry.{Entry};
ghost use Rattle.mid_base.specs.declared.entries.Entry.TheVariants.{Sent};
ghost use Rattle.mid_base.specs.declared.host_spec.HostSpec.{HostSpec};
ghost use Rattle.mid_base.specs.declared.names.Attempt.{Attempt};
ghost use Rattle.mid_base.specs.declared.names.CmdId.{CmdId};
ghost use Rattle.mid_base.specs.declared.names.Tag.{Tag};
ghost use Rattle.host_template.specs.Meaning.{Meaning, SameNature, SameMeaning, IfHonest};
ghost use Rattle.trace_model.specs.Commands.{standing, waits};
ghost use Rattle.trace_model.specs.Legal.{EachStands, onto};
ghost use Rattle.trace_model.specs.Steps.{IsAdded};
ghost use Rattle.held_laws.specs.Held.{Held, HoldsRight, IsRight, NoneHeld};
ghost use Rattle.held_laws.specs.Steps.{HonestGroup};

// Here P is what a journal holds, the newest entry first.

/// Whatever is held where no entry stands was never sent.
pub fn a_lower_layer_begins_right()
    ensures { (s : HostSpec) (m : Meaning) → IsRight s [] m }
{}

/// What an honest lower layer holds after a step is right again, whatever group of entries the step adds.
pub fn each_group_keeps_it_right()
    ensures { (s : HostSpec) (P g : List Entry) (old new : Meaning) → EachStands s P → IsAdded s P g → SameNature old new → IfHonest (HonestGroup s P g) old new
        → IsRight s P old → IsRight s (onto g P) new }
{}

/// It stays right where the lower layer means the same.
pub fn the_same_attempts_are_right()
    ensures { (s : HostSpec) (P : List Entry) (old new : Meaning) → SameMeaning old new → IsRight s P old → IsRight s P new }
{}

/// No attempt is held of a command that waits to be sent.
pub fn a_waiting_command_has_no_held_attempt()
    ensures { (s : HostSpec) (P : List Entry) (c : ℕ) (held : Held) → HoldsRight s P held → waits (standing c P) ≡ true → NoneHeld P c held }
{}

/// Where a command is sent, no earlier attempt of it is held.
pub fn no_earlier_attempt_is_held()
    ensures { (s : HostSpec) (P g : List Entry) (c : CmdId) (n : Attempt) (t : Tag) (held : Held) → IsAdded s P (Sent c n t ∷ g) → HoldsRight s P held → NoneHeld P c.0 held }
{}
