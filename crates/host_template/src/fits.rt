ghost use Rattle.std.specs.Prelude.{◌≡◌, ◌<◌, ℕ, List, ◌∷◌, [], Some};
ghost use Rattle.mid_base.specs.declared.bytes.CdbBytes.{CdbBytes as Cdb};
ghost use Rattle.mid_base.specs.declared.host_spec.CmdSpec.{CmdSpec};
ghost use Rattle.mid_base.specs.declared.host_spec.HostSpec.{HostSpec};
ghost use Rattle.mid_base.specs.declared.names.DevAddr.{DevAddr};
ghost use Rattle.mid_base.specs.declared.names.Attempt.{Attempt};
ghost use Rattle.mid_base.specs.declared.names.CmdId.{CmdId};
ghost use Rattle.mid_base.specs.declared.names.Tag.{Tag};
ghost use Rattle.mid_base.specs.declared.entries.Entry.{Entry};
ghost use Rattle.mid_base.specs.declared.entries.Entry.TheVariants.{Sent};
ghost use Rattle.mid_base.specs.Past.{find_command};
ghost use Rattle.host_template.specs.Calls.{FitsQueue, FitsLast};
ghost use Rattle.host_template.specs.Probes.{IsProbe};
ghost use Rattle.mid_base.specs.Bytes.{cdb_list};

/// The first attempt of a command of the spec may be queued.
pub fn a_first_attempt_fits_queue()
    ensures { (s : HostSpec) (c : CmdId) (k : CmdSpec) (n : ℕ) → find_command s c.0 ≡ Some k → FitsQueue s [] c k n 0 k.dev k.cdb k.fill }
{}

/// An attempt that was sent isn't queued again.
pub fn a_sent_attempt_does_not_fit_queue()
    ensures { (s : HostSpec) (P : List Entry) (c : CmdId) (k : CmdSpec) (d : CmdId) (n : Attempt) (t : Tag) (now fill : ℕ) (dev : DevAddr) (cdb : Cdb)
        → FitsQueue s (Sent d n t ∷ P) c k n.0 now dev cdb fill → ⊥ }
{}

/// The attempt that was sent last may time out, or be aborted.
pub fn a_last_attempt_fits_abort()
    ensures { (s : HostSpec) (P : List Entry) (c : CmdId) (k : CmdSpec) (n : Attempt) (t : Tag)
        → find_command s c.0 ≡ Some k → FitsLast s (Sent c n t ∷ P) c k n.0 k.dev }
{}

/// An attempt after which its command was sent again doesn't.
pub fn an_earlier_attempt_does_not_fit_abort()
    ensures { (s : HostSpec) (P : List Entry) (c : CmdId) (k : CmdSpec) (n m : Attempt) (t : Tag) (dev : DevAddr)
        → n.0 < m.0 → FitsLast s (Sent c m t ∷ P) c k n.0 dev → ⊥ }
{}

/// REQUEST SENSE for 252 bytes is a probe, and for 18 it isn't.
pub fn request_sense_is_a_probe_for_252_bytes()
    ensures is { (cdb : Cdb) → cdb_list cdb ≡ 3 ∷ 0 ∷ 0 ∷ 0 ∷ 252 ∷ 0 ∷ [] → IsProbe cdb }
    ensures not { (cdb : Cdb) → cdb_list cdb ≡ 3 ∷ 0 ∷ 0 ∷ 0 ∷ 18 ∷ 0 ∷ [] → IsProbe cdb → ⊥ }
{}
