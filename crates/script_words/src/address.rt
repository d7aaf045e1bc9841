ghost use Rattle.std.specs.Prelude.{◌≡◌, option_map};
ghost use Rattle.script_words.specs.Words.{address};

use crate::number::number;
use crate::pieces::Parts;

/// Channel, target and logical unit number of three numbers between colons. They may be outside their ranges.
#[tactic(auto, unfolding(crate::specs::Words::address))]
pub fn address_parts(word: &[u8]) -> Option<(u128, u128, u128)>
    ensures { option_map (λ a. record { channel = a.0; target = a.1; lun = a.2 }) result ≡ address word.now }
{
    let mut parts = Parts {
        rest: Some(word),
        separator: b':',
    };
    let channel = number(parts.next()?)?;
    let target = number(parts.next()?)?;
    let lun = number(parts.next()?)?;
    if parts.next().is_some() {
        return None;
    }
    Some((channel, target, lun))
}
