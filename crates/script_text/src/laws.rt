ghost use Rattle.std.specs.Prelude.{◌≡◌, ℕ, List, Ok};
ghost use Rattle.script_text.specs.Script.{counted, script_of};
ghost use Rattle.script_text.specs.Playable.{IsPlayable};
ghost use Rattle.script_text.specs.declared.script.Script.{Script as ScriptSaid};

/// What a good script says can be played: its hosts keep the limits, their numbers differ, and each step is of
/// one of these hosts, with its unit, with a lane that has commands, or with an attempt's number below 2^60.
pub fn good_scripts_are_playable()
    ensures { (text : List ℕ) (script : ScriptSaid) → script_of text ≡ Ok script → IsPlayable script }
{}

/// No byte of a text behind number 16,777,217 matters.
#[tactic(auto, using(crate::proofs::Counted::counted_says_all))]
pub fn counted_bytes_say_all()
    ensures { (text : List ℕ) → script_of (counted text) ≡ script_of text }
{}
