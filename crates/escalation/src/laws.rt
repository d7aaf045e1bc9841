ghost use Rattle.std.specs.Prelude.{◌≡◌, ℕ, Bool, List, Option, None, Some};
ghost use Rattle.mid_base.specs.declared.entries.Entry.{Entry};
ghost use Rattle.mid_base.specs.declared.host_spec.Handlers.{Handlers};
ghost use Rattle.disposition.specs.declared.todo.Todo.{Todo};
ghost use Rattle.disposition.specs.Ladder.{Pair, pairs, beyond, next_of};
ghost use Rattle.escalation.specs.Climbing.{Climb, begun, next_pair, gone_on};

/// What a ladder does first, and after each act, is the next act of its list: what it has ahead are the pairs of the list
/// that it was begun with, above the pair of its last act.
pub fn a_ladder_does_the_next_act_of_its_list()
    ensures first { (all : List Todo) (h : Handlers) (aborts : Bool) → next_pair (begun all h aborts) ≡ next_of aborts None all all }
    ensures next { (k : Climb) (all : List Todo) (last : Option Pair) → k.ahead ≡ beyond last (pairs all) → next_pair k ≡ next_of k.aborts last all k.left }
    ensures ahead { (k : Climb) (all : List Todo) (last : Option Pair) (p : Pair) (es : List Entry) → k.ahead ≡ beyond last (pairs all) → next_pair k ≡ Some p
        → (gone_on p es k).ahead ≡ beyond (Some p) (pairs all) }
{}
