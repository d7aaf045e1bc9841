ghost use Rattle.std.specs.Prelude.{◌≡◌, ◌<◌, ◌≤◌, ◌+◌, length, unwrap_or, vec_len, vec_capacity};
ghost use Rattle.std.specs.List.{position};
ghost use Rattle.attempt_table.specs.Claims.{goes_before, claims_with, claims_without};

use mid_base::{Attempt, By, Tag};

// The claim stands before another one: of a later attempt, or of the same one by its expiry.
fn goes_before(claim: &(Tag, Attempt, By), other: &(Tag, Attempt, By)) -> bool
    ensures { result ≡ goes_before claim.now other.now }
{
    claim.1.0 < other.1.0 || (claim.1.0 == other.1.0 && matches!(claim.2, By::Answer))
}

// How many claims stand before this one.
fn place_of(claims: &[(Tag, Attempt, By)], claim: &(Tag, Attempt, By)) -> usize
    ensures { result ≡ unwrap_or (position (goes_before claim.now) claims.now) (length claims.now) }
{
    let later = claims.iter().position(|other| goes_before(claim, other));
    later.unwrap_or(claims.len())
}

// One claim more, at its place, for which there is room.
pub fn claim(claims: &mut Vec<(Tag, Attempt, By)>, claim: (Tag, Attempt, By))
    requires { vec_len claims.old < vec_capacity claims.old }
    ensures claims { claims.new.items ≡ claims_with claim claims.old.items }
    ensures count { vec_len claims.new ≡ vec_len claims.old + 1 }
{
    let place = place_of(claims, &claim);
    let _ = claims.insert(place, claim);
}

// The attempt waits no longer.
pub fn unclaim(claims: &mut Vec<(Tag, Attempt, By)>, n: Attempt)
    ensures claims { claims.new.items ≡ claims_without n.0 claims.old.items }
    ensures count { vec_len claims.new ≤ vec_len claims.old }
{
    claims.retain(|claim| claim.1.0 != n.0);
}
