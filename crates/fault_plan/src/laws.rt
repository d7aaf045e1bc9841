ghost use Rattle.std.specs.Prelude.{ℕ, ◌↔◌, IsTrue};
ghost use Rattle.mid_base.specs.declared.faults.PlanEntry.{PlanEntry};
ghost use Rattle.fault_plan.specs.Plan.{hits, IsNumberOf};

/// An entry hits exactly the numbers `first + k * every` with a k below `uses`.

#[tactic(auto, using(crate::proofs::Numbers::hit_is_number, crate::proofs::Numbers::number_is_hit))]
pub fn hits_are_the_numbers_of_the_entry()
    ensures { (e : PlanEntry) (nth : ℕ) → IsTrue (hits e nth) ↔ IsNumberOf e nth }
{}
