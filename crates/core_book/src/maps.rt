ghost use Rattle.std.specs.Prelude.{◌≡◌, ◌+◌, ◌<◌, ◌≤◌, Some, if◌then◌else◌};
ghost use Rattle.std.specs.HashMap.{get, spare};

use std::alloc::Global;
use std::collections::HashMap;
use std::hash::Hash;

/// Puts a value at a key, in place of what the map has there. The map has room for one more entry.
pub(crate) fn put<K: Eq + Hash + Drop, V: Drop>(map: &mut HashMap<K, V>, key: K, value: V)
    requires { 0 < spare map.old }
    ensures values { (q : K) → get K.eq map.new q ≡ (if K.eq key q then Some value else get K.eq map.old q) }
    ensures room { spare map.old ≤ spare map.new + 1 }
{
    let _ = map.insert(key, value);
}
