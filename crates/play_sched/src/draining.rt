ghost use Rattle.std.specs.Prelude.{◌≡◌, OnOk};
ghost use Rattle.drain_rounds.specs.Rounds.{Drains};

use crate::host::Host;
use crate::rounds::{Rest, round};
use mid_base::NoMemory;

/// Runs a host on for at most so many rounds, until it is drained.
pub fn drain(host: &mut Host, most: u128) -> Result<(), NoMemory>
    ensures drains { OnOk result (Drains most host.old.spec host.old.before host.old.entries host.new.entries) }
    ensures spec { OnOk result (host.new.spec ≡ host.old.spec) }
    ensures before { OnOk result (host.new.before ≡ host.old.before) }
{
    let mut rest = Rest {
        handed_in: false,
        awake: false,
    };
    for _ in 0..most {
        if host.is_drained() {
            return Ok(());
        }
        round(host, &mut rest)?;
    }
    Ok(())
}
