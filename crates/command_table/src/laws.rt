ghost use Rattle.std.specs.Prelude.{◌≡◌, List, ◌∷◌};
ghost use Rattle.mid_base.specs.declared.answers.BusyOf.{BusyOf};
ghost use Rattle.mid_base.specs.declared.entries.Entry.{Entry};
ghost use Rattle.mid_base.specs.declared.entries.Entry.TheVariants.{Sent, Bounced};
ghost use Rattle.mid_base.specs.declared.host_spec.HostSpec.{HostSpec};
ghost use Rattle.mid_base.specs.declared.names.Attempt.{Attempt};
ghost use Rattle.mid_base.specs.declared.names.CmdId.{CmdId};
ghost use Rattle.mid_base.specs.declared.names.Tag.{Tag};
ghost use Rattle.trace_model.specs.declared.standing.Standing.TheVariants.{Waits};
ghost use Rattle.trace_model.specs.Commands.{standing};
ghost use Rattle.command_table.specs.declared.commands.Commands.{Commands};
ghost use Rattle.command_table.specs.CommandsAgree.{CommandsAgree, IsApart};

/// An entry that says nothing of commands leaves the table as it has to be.
pub fn other_entries_change_no_command()
    ensures { (s : HostSpec) (P : List Entry) (t : Commands) (e : Entry) → IsApart e → CommandsAgree s P t → CommandsAgree s (e ∷ P) t }
{}

/// So does a command that waits and is sent, where the lower layer turns the attempt away at once.
pub fn a_bounced_command_waits_again()
    ensures { (s : HostSpec) (P : List Entry) (t : Commands) (c : CmdId) (n m : Attempt) (u : Tag) (why : BusyOf) → standing c.0 P ≡ Waits → CommandsAgree s P t → CommandsAgree s (Bounced c m why ∷ Sent c n u ∷ P) t }
{}
