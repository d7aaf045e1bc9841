ghost use Rattle.std.specs.Prelude.{◌≡◌, ◌↔◌, ◌⊎◌, ◌+◌, ℕ, Some, false};
ghost use Rattle.mid_base.specs.Address.{in_scope};
ghost use Rattle.slab.specs.Slab.{Slab as SlabSeen, get, HasRoomFor};
ghost use Rattle.adapter_tables.specs.declared.held.Held.{Held as HeldSeen};
ghost use Rattle.adapter_tables.specs.Held.{is_attempt, due_from, is_due as is_due_by};
ghost use Rattle.adapter_tables.specs.Tests.{passes};
ghost use Rattle.adapter_tables.specs.Ties.{IsKept, IsKeptBelow, IsLeast, SetsDue, any_due};

use crate::Held;
use crate::held::{due_now, goes_before, is_due, is_number, is_on};
use mid_base::{Attempt, Scope};
use slab::Slab;

/// Holds one attempt more, for which there is room.
pub fn hold(held: &mut Slab<Held>, h: Held)
    requires { HasRoomFor held.old 1 }
    ensures kept { (g : HeldSeen) → IsKept held.new g ↔ (IsKept held.old g ⊎ (h ≡ g)) }
    ensures room { (k : ℕ) → HasRoomFor held.old (k + 1) → HasRoomFor held.new k }
{
    let _ = held.insert_reserved(h);
}

fn is_number_at(held: &Slab<Held>, key: usize, n: Attempt) -> bool
    ensures { result ≡ passes (is_attempt n.0) (get held.now key) }
{
    match held.get(key) {
        Some(h) => is_number(h, n),
        None => false,
    }
}

/// Lets an attempt go, as one that is answered or aborted (SAM-5, ABORT TASK). The others are held on, and room stays. Where
/// it isn't held nothing changes.
pub fn let_go(held: &mut Slab<Held>, n: Attempt)
    ensures kept { (g : HeldSeen) → IsKept held.new g ↔ (IsKept held.old g × (is_attempt n.0 g ≡ false)) }
    ensures room { (k : ℕ) → HasRoomFor held.old k → HasRoomFor held.new k }
{
    for key in 0..held.capacity() {
        if is_number_at(held, key, n) {
            let _ = held.try_remove(key);
        }
    }
}

fn is_on_at(held: &Slab<Held>, key: usize, scope: Scope) -> bool
    ensures { result ≡ passes (λ h. in_scope scope h.dev) (get held.now key) }
{
    match held.get(key) {
        Some(h) => is_on(h, scope),
        None => false,
    }
}

// Lets the attempts of a scope go.
pub(crate) fn let_go_in(held: &mut Slab<Held>, scope: Scope)
    ensures { (g : HeldSeen) → IsKept held.new g ↔ (IsKept held.old g × (in_scope scope g.dev ≡ false)) }
{
    for key in 0..held.capacity() {
        if is_on_at(held, key, scope) {
            let _ = held.try_remove(key);
        }
    }
}

/// From now on the attempt is due at this tick, as where a timeout is answered by "done" (`scsi_mid_low_api.rst`,
/// `eh_timed_out`). The others are held on as they are. Where it isn't held nothing changes.
pub fn set_due(held: &mut Slab<Held>, n: Attempt, at: u64)
    ensures { (g : HeldSeen) → IsKept held.new g ↔ ((h : HeldSeen) × IsKept held.old h × (due_from n.0 at h ≡ g)) }
{
    for key in 0..held.capacity() {
        if is_number_at(held, key, n) {
            set_due_at(held, key, at);
        }
    }
}

fn set_due_at(held: &mut Slab<Held>, key: usize, at: u64)
    ensures { SetsDue held.old held.new key at }
{
    if let Some(h) = held.try_remove(key) {
        let _ = held.insert_reserved(due_now(h, at));
    }
}

/// Whether some attempt is due at this tick, or has been before.
pub fn is_any_due(held: &Slab<Held>, at: u64) -> bool
    ensures { result ≡ any_due held.now at }
{
    for key in 0..held.capacity() {
        if is_due_at(held, key, at) {
            return true;
        }
    }
    false
}

fn is_due_at(held: &Slab<Held>, key: usize, at: u64) -> bool
    ensures { result ≡ passes (λ h. is_due_by at h.due) (get held.now key) }
{
    match held.get(key) {
        Some(h) => is_due(h, at),
        None => false,
    }
}

fn better(best: Option<Held>, h: Held, now: u64) -> Option<Held>
    ensures { (t : SlabSeen HeldSeen) (key : ℕ) → get t key ≡ Some h → IsLeast (IsKeptBelow t key) now best → IsLeast (IsKeptBelow t (key + 1)) now result }
{
    let Some(at) = h.due else {
        return best;
    };
    if at > now {
        return best;
    }
    let Some(b) = best else {
        return Some(h);
    };
    if goes_before(at, h.n.0, b.due, b.n.0) {
        return Some(h);
    }
    best
}

/// The attempt to be answered next: of those that are due by now the one with the least due tick, and of these the one with
/// the least number. None exactly where none is due. It stays held.
pub fn first_due(held: &Slab<Held>, now: u64) -> Option<Held>
    ensures { IsLeast (IsKept held.now) now result }
{
    let mut best = None;
    for key in 0..held.capacity() {
        if let Some(h) = held.get(key) {
            best = better(best, *h, now);
        }
    }
    best
}
