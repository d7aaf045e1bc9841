ghost use Rattle.std.specs.Prelude.{◌≡◌, ℕ, false, List};
ghost use Rattle.mid_base.specs.declared.entries.Entry.{Entry};
ghost use Rattle.mid_base.specs.declared.host_spec.HostSpec.{HostSpec};
ghost use Rattle.mid_base.specs.declared.names.DevAddr.{DevAddr};
ghost use Rattle.host_template.specs.Standing.{Before};
ghost use Rattle.rogue_lower.specs.Lists.{Lists};

use crate::RogueLower;
use host_template::HostTemplate;

/// It stands wherever a journal leaves it, and all bytes are data-in.
pub fn rogues_stand_everywhere()
    ensures stands { (x : Lists) (s : HostSpec) (b : Before) (P : List Entry) → ⟦<RogueLower as HostTemplate>⟧.stands x s b P }
    ensures brings { (s : HostSpec) (b : Before) (P : List Entry) (d : DevAddr) (code : ℕ) (bytes : List ℕ)
        → ⟦<RogueLower as HostTemplate>⟧.data_in s b P d code bytes }
{}

/// It isn't honest, and tells no attempts.
pub fn rogues_are_not_honest()
    ensures honest { (x : Lists) → (⟦<RogueLower as HostTemplate>⟧.means x).honest ≡ false }
    ensures tells { (x : Lists) → (⟦<RogueLower as HostTemplate>⟧.means x).tells ≡ false }
{}
