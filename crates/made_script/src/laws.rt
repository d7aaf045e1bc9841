ghost use Rattle.std.specs.Prelude.{ℕ, ◌≤◌};
ghost use Rattle.script_text.specs.Playable.{IsPlayable};
ghost use Rattle.made_script.specs.Made.{made};

/// A made script can be played: its host keeps the limits.
pub fn made_scripts_are_playable()
    ensures { (n : ℕ) → n ≤ 65536 → IsPlayable (made n) }
{}
