ghost use Rattle.std.specs.Prelude.{◌≡◌, ◌<◌, List, ◌∷◌, true, false, length, map};
ghost use Rattle.std.specs.List.{All};
ghost use Rattle.mid_base.specs.declared.answers.Answer.{Answer};
ghost use Rattle.mid_base.specs.declared.answers.By.{By};
ghost use Rattle.mid_base.specs.declared.answers.Disp.{Disp};
ghost use Rattle.mid_base.specs.declared.entries.Entry.{Entry};
ghost use Rattle.mid_base.specs.declared.entries.Entry.TheVariants.{Sent, Ready, Owned, Judged};
ghost use Rattle.mid_base.specs.declared.host_spec.HostSpec.{HostSpec};
ghost use Rattle.mid_base.specs.declared.names.Attempt.{Attempt};
ghost use Rattle.mid_base.specs.declared.names.CmdId.{CmdId};
ghost use Rattle.mid_base.specs.declared.names.Tag.{Tag};
ghost use Rattle.mid_base.specs.Past.{was_sent};
ghost use Rattle.trace_model.specs.Attempts.{is_open, is_settled};
ghost use Rattle.trace_model.specs.Recovery.{failed};
ghost use Rattle.verdict_table.specs.declared.verdicts.Verdicts.{Verdicts};
ghost use Rattle.verdict_table.specs.VerdictsAgree.{VerdictsAgree, IsApart, IsKept, HasRoom};

/// An entry that says nothing of failed commands and of answers leaves the table as it has to be.
pub fn other_entries_change_no_verdict()
    ensures { (s : HostSpec) (P : List Entry) (t : Verdicts) (e : Entry) → IsApart e → VerdictsAgree s P t → VerdictsAgree s (e ∷ P) t }
{}

/// So does an attempt that is sent and wasn't before, any answer, and an attempt that comes to an owner: the attempts of failed
/// commands are under way no longer. And so does the judgement of one that wasn't settled.
pub fn other_attempts_change_no_verdict()
    ensures sent { (s : HostSpec) (P : List Entry) (t : Verdicts) (c : CmdId) (n : Attempt) (u : Tag) → was_sent n.0 P ≡ false → VerdictsAgree s P t → VerdictsAgree s (Sent c n u ∷ P) t }
    ensures answered { (s : HostSpec) (P : List Entry) (t : Verdicts) (n : Attempt) (a : Answer) → VerdictsAgree s P t → VerdictsAgree s (Ready n a ∷ P) t }
    ensures owned { (s : HostSpec) (P : List Entry) (t : Verdicts) (n : Attempt) (by : By) → is_open n.0 P ≡ true → VerdictsAgree s P t → VerdictsAgree s (Owned n by ∷ P) t }
    ensures judged { (s : HostSpec) (P : List Entry) (t : Verdicts) (c : CmdId) (n : Attempt) (d : Disp) → is_settled n.0 P ≡ false → VerdictsAgree s P t → VerdictsAgree s (Judged c n d ∷ P) t }
{}

/// There is room for one failed command more while fewer have failed than the host has tags.
pub fn there_is_room_while_fewer_have_failed_than_there_are_tags()
    ensures { (s : HostSpec) (P : List Entry) (t : Verdicts) → length (failed P) < s.can_queue → VerdictsAgree s P t → HasRoom t }
{}

/// Each row is of a command that has failed with its attempt, which was sent and is under way no longer.
pub fn each_row_is_of_a_failed_command()
    ensures { (s : HostSpec) (P : List Entry) (t : Verdicts) → VerdictsAgree s P t → All (IsKept P) t.rows.items }
{}
