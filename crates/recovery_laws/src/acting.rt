ghost use Rattle.std.specs.Prelude.{◌≡◌, ℕ, Bool, List, ◌∷◌, map, Some};
ghost use Rattle.mid_base.specs.Limits.{KeepsLimits};
ghost use Rattle.mid_base.specs.declared.answers.Scope.{Scope};
ghost use Rattle.mid_base.specs.declared.entries.Entry.{Entry};
ghost use Rattle.mid_base.specs.declared.entries.Entry.TheVariants.{Act, Cleared, EhBegin};
ghost use Rattle.mid_base.specs.declared.host_spec.HostSpec.{HostSpec};
ghost use Rattle.disposition.specs.declared.todo.Todo.{Todo};
ghost use Rattle.trace_model.specs.Climb.{climb};
ghost use Rattle.trace_model.specs.Course.{Follows};
ghost use Rattle.trace_model.specs.Legal.{EachStands};
ghost use Rattle.trace_model.specs.Recovery.{todo, next_act};
ghost use Rattle.trace_model.specs.Rules.{course};
ghost use Rattle.verdict_table.specs.Taken.{AreTaken};

// Here P is what a journal holds, the newest entry first.

/// What the next act makes owed says nothing but of commands on the failed list and of devices of the host, and an answer that
/// is judged anew moves no depth.
pub fn the_next_act_is_taken()
    ensures { (s : HostSpec) (P : List Entry) (level : ℕ) (scope : Scope) (ok : Bool) (rest : List Entry) → KeepsLimits s → EachStands s P
        → next_act s P ≡ Some (level, scope) → Follows (climb (todo s P) level scope ok) rest → AreTaken s P (Act level scope ok ∷ rest) }
{}

/// What the beginning of recovery makes owed clears commands, and says nothing else.
pub fn the_clearing_at_the_beginning_is_taken()
    ensures begun { (s : HostSpec) (P : List Entry) (rest : List Entry) → Follows (course s P EhBegin) rest → AreTaken s (EhBegin ∷ P) rest }
    ensures cleared { (s : HostSpec) (P : List Entry) (level : ℕ) (xs : List Todo) → AreTaken s P (map (λ (x : Todo). Cleared x.cmd level) xs) }
{}
