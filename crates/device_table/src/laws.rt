ghost use Rattle.std.specs.Prelude.{◌≡◌, false, List, ◌∷◌};
ghost use Rattle.mid_base.specs.declared.answers.Answer.{Answer};
ghost use Rattle.mid_base.specs.declared.entries.Entry.{Entry};
ghost use Rattle.mid_base.specs.declared.entries.Entry.TheVariants.{Took, Told};
ghost use Rattle.mid_base.specs.declared.host_spec.HostSpec.{HostSpec};
ghost use Rattle.mid_base.specs.declared.names.CmdId.{CmdId};
ghost use Rattle.trace_model.specs.Commands.{standing, is_busy};
ghost use Rattle.device_table.specs.declared.devices.Devices.{Devices};
ghost use Rattle.device_table.specs.DevicesAgree.{DevicesAgree, IsApart};

/// An entry that says nothing of devices and tags leaves the table as it has to be.
pub fn other_entries_change_no_device()
    ensures { (s : HostSpec) (P : List Entry) (t : Devices) (e : Entry) → IsApart e → DevicesAgree s P t → DevicesAgree s (e ∷ P) t }
{}

/// So does a command that isn't busy where it is taken or reported: it holds no tag.
pub fn idle_commands_change_no_tag()
    ensures took { (s : HostSpec) (P : List Entry) (t : Devices) (c : CmdId) → is_busy (standing c.0 P) ≡ false → DevicesAgree s P t → DevicesAgree s (Took c ∷ P) t }
    ensures told { (s : HostSpec) (P : List Entry) (t : Devices) (c : CmdId) (a : Answer) → is_busy (standing c.0 P) ≡ false → DevicesAgree s P t → DevicesAgree s (Told c a ∷ P) t }
{}
