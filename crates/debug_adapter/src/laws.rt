ghost use Rattle.std.specs.Prelude.{◌≡◌, ℕ, List, ◌∷◌};
ghost use Rattle.mid_base.specs.declared.names.Attempt.{Attempt};
ghost use Rattle.mid_base.specs.declared.names.CmdId.{CmdId};
ghost use Rattle.mid_base.specs.declared.names.DevAddr.{DevAddr};
ghost use Rattle.mid_base.specs.declared.answers.Answer.{Answer};
ghost use Rattle.mid_base.specs.declared.answers.BusyOf.{BusyOf};
ghost use Rattle.mid_base.specs.declared.answers.ProbeSay.{ProbeSay};
ghost use Rattle.mid_base.specs.declared.entries.Entry.{Entry};
ghost use Rattle.mid_base.specs.declared.entries.Entry.TheVariants.{Sent, Bounced, Ready, Probe};
ghost use Rattle.mid_base.specs.declared.host_spec.HostSpec.{HostSpec};
ghost use Rattle.mid_base.specs.declared.names.Tag.{Tag};
ghost use Rattle.host_template.specs.Standing.{Before};
ghost use Rattle.debug_adapter.specs.LowerRun.{LowerRun};
ghost use Rattle.debug_adapter.specs.Adapter.{AdapterStands};
ghost use Rattle.debug_adapter.specs.declared.adapter.DebugAdapter.{DebugAdapter};

/// After entries of the adapter at most one answer may come next.
pub fn the_next_answer_is_one()
    ensures { (s : HostSpec) (b : Before) (P : List Entry) (n m : Attempt) (a c : Answer)
        → LowerRun s b (Ready n a ∷ P) → LowerRun s b (Ready m c ∷ P) → (n ≡ m) × (a ≡ c) }
{}

/// A sending is turned away or it isn't, and if it is, by one of both.
#[tactic(auto, using(crate::proofs::Once::bounced_once, crate::proofs::Once::bounced_or_not))]
pub fn the_plan_says_who_is_busy()
    ensures once { (s : HostSpec) (b : Before) (P : List Entry) (c : CmdId) (n : Attempt) (t : Tag) (why other : BusyOf)
        → LowerRun s b (Bounced c n why ∷ Sent c n t ∷ P) → LowerRun s b (Bounced c n other ∷ Sent c n t ∷ P) → why ≡ other }
    ensures apart { (s : HostSpec) (b : Before) (P : List Entry) (c : CmdId) (n : Attempt) (t : Tag) (why : BusyOf)
        → LowerRun s b (Bounced c n why ∷ Sent c n t ∷ P) → LowerRun s b (Sent c n t ∷ P) → ⊥ }
{}

/// After entries of the adapter a probe has one answer.
pub fn a_probe_has_one_answer()
    ensures { (s : HostSpec) (b : Before) (P : List Entry) (d : DevAddr) (code : ℕ) (say other : ProbeSay)
        → LowerRun s b (Probe d code say ∷ P) → LowerRun s b (Probe d code other ∷ P) → say ≡ other }
{}

/// Where an adapter stands, the lower layer's part of the journal is that of an adapter.
pub fn standing_adapters_ran()
    ensures { (x : DebugAdapter) (s : HostSpec) (b : Before) (P : List Entry) → AdapterStands x s b P → LowerRun s b P }
{}
