ghost use Rattle.std.specs.Prelude.{◌≡◌, ℕ, List, Option};
ghost use Rattle.mid_base.specs.declared.entries.Entry.{Entry};
ghost use Rattle.mid_base.specs.declared.host_spec.HostSpec.{HostSpec};
ghost use Rattle.mid_base.specs.declared.steps.Step.{Step};
ghost use Rattle.mid_base.specs.declared.steps.Why.{Why};
ghost use Rattle.host_template.specs.Standing.{Before};
ghost use Rattle.script_text.specs.declared.script.Script.{Script};
ghost use Rattle.script_text.specs.Playable.{IsPlayable};
ghost use Rattle.drain_rounds.specs.Making.{Comes};
ghost use Rattle.drain_rounds.specs.Rounds.{Drains, Exhausts, Phase, Round};
ghost use Rattle.ran_laws.specs.Counted.{DrainsIn};
ghost use Rattle.ran_laws.specs.Outcome.{ComesOut, Outcome};

// Here P, Q and R are what a journal holds, the newest entry first.

/// After any entries a step is made or skipped in one way: the cause of skipping it is one, and so is the journal after it.
pub fn a_step_comes_to_one_journal()
    ensures why { (s : HostSpec) (b : Before) (P Q R : List Entry) (t : Step) (why other : Option Why)
        → Comes s b P t why Q → Comes s b P t other R → why ≡ other }
    ensures entries { (s : HostSpec) (b : Before) (P Q R : List Entry) (t : Step) (why other : Option Why)
        → Comes s b P t why Q → Comes s b P t other R → Q ≡ R }
{}

/// A phase that makes what it names until it names none comes to one journal.
pub fn a_phase_comes_to_one_journal()
    ensures { (f : Phase) (s : HostSpec) (b : Before) (P Q R : List Entry) → Exhausts f s b P Q → Exhausts f s b P R → Q ≡ R }
{}

/// A round comes to one journal.
pub fn a_round_comes_to_one_journal()
    ensures { (s : HostSpec) (b : Before) (P Q R : List Entry) → Round s b P Q → Round s b P R → Q ≡ R }
{}

/// At most so many rounds, until the host is drained, come to one journal.
pub fn rounds_come_to_one_journal()
    ensures { (most : ℕ) (s : HostSpec) (b : Before) (P Q R : List Entry) → Drains most s b P Q → Drains most s b P R → Q ≡ R }
{}

/// Each host that is run on makes one number of rounds.
pub fn rounds_are_counted()
    ensures made { (most : ℕ) (s : HostSpec) (b : Before) (P Q : List Entry) → Drains most s b P Q → (n : ℕ) × DrainsIn n most s b P Q }
    ensures one { (n m most : ℕ) (s : HostSpec) (b : Before) (P Q R : List Entry) → DrainsIn n most s b P Q → DrainsIn m most s b P R → n ≡ m }
{}

/// A playable script comes to one outcome: the same journals, the same skipped lines, and the same answer whether its rounds
/// were used up.
pub fn a_playable_script_has_one_outcome()
    ensures { (script : Script) (one other : Outcome) → IsPlayable script → ComesOut script one → ComesOut script other → one ≡ other }
{}
