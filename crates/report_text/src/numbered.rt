ghost use Rattle.std.specs.Prelude.{◌≡◌, ◌==◌, ℕ, None, Some, if◌then◌else◌, IfOk, OnOk};
ghost use Rattle.report_text.specs.Numbered.{at};

use mid_base::NoMemory;
use std::alloc::Global;
use std::collections::BTreeMap;

/// Values by their numbers. Those of small numbers lie side by side, and a look-up of one takes one step; the others are in a
/// tree.
#[derive(Drop)]
pub struct Numbered<V> {
    low: Vec<Option<V>>,
    rest: BTreeMap<u64, V>,
}

impl<V: Copy> Numbered<V> {
    /// Without values, with room for those of numbers below `low`.
    pub fn new(alloc: Global, low: usize) -> Result<Numbered<V>, NoMemory>
        ensures { IfOk result (λ t. (n : ℕ) → at t n ≡ None) }
    {
        match vec![in alloc; None; low] {
            Ok(low) => Ok(Numbered {
                low,
                rest: BTreeMap::new(alloc),
            }),
            Err(_) => Err(NoMemory),
        }
    }

    /// The value of a number.
    pub fn get(&self, n: u64) -> Option<V>
        ensures { result ≡ at self.now n }
    {
        match self.low.get(n as usize) {
            Some(value) => *value,
            None => self.rest.get(&n).copied(),
        }
    }

    /// Gives a number its value.
    pub fn put(&mut self, n: u64, value: V) -> Result<(), NoMemory>
        ensures { OnOk result ((k : ℕ) → at self.new k ≡ (if n == k then Some value else at self.old k)) }
    {
        let place = n as usize;
        if place < self.low.len() {
            self.low[place] = Some(value);
            return Ok(());
        }
        match self.rest.insert(n, value) {
            Ok(_) => Ok(()),
            Err(_) => Err(NoMemory),
        }
    }
}
