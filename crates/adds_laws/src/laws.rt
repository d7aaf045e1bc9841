ghost use Rattle.std.specs.Prelude.{◌≡◌, Bool, List};
ghost use Rattle.mid_base.specs.declared.entries.Entry.{Entry};
ghost use Rattle.mid_base.specs.declared.host_spec.HostSpec.{HostSpec};
ghost use Rattle.mid_base.specs.declared.steps.Step.{Step};
ghost use Rattle.host_template.specs.Standing.{Before};
ghost use Rattle.trace_model.specs.Legal.{onto};
ghost use Rattle.debug_adapter.specs.LowerRun.{LowerRun};
ghost use Rattle.mid_core.specs.Steps.{AddsTo};
ghost use Rattle.drain_rounds.specs.Making.{IsDueAfter};

// Here P is what a journal holds, the newest entry first.

/// After any entries a step adds one list at most over the simulated adapter.
pub fn what_a_step_adds_is_one_list()
    ensures { (s : HostSpec) (b : Before) (P : List Entry) (t : Step) (due other : Bool) (g h : List Entry)
        → AddsTo s due P t g → LowerRun s b (onto g P)
        → AddsTo s other P t h → LowerRun s b (onto h P)
        → g ≡ h }
{}

/// After no entries is an answer of the adapter both due and not due.
pub fn it_is_determined_whether_an_answer_is_due()
    ensures { (s : HostSpec) (b : Before) (P : List Entry) (x y : Bool) → IsDueAfter s b P x → IsDueAfter s b P y → x ≡ y }
{}
