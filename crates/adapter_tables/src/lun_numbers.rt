ghost use Rattle.std.specs.Prelude.{◌≡◌, ◌≤◌, ◌==◌, ◌&&◌, ◌++◌, ◌∷◌, length, take, drop, IfOk, OnOk};
ghost use Rattle.adapter_tables.specs.Units.{with_number, target_luns};

use mid_base::{DevAddr, LunSpec, NoMemory};
use std::alloc::Global;

fn is_same_target(a: DevAddr, b: DevAddr) -> bool
    ensures { result ≡ (a.channel == b.channel) && (a.target == b.target) }
{
    a.channel == b.channel && a.target == b.target
}

// The place at which a number stands among ascending ones.
fn place_of(numbers: &[u16], n: u16) -> usize
    ensures within { result ≤ length numbers.now }
    ensures place { take result numbers.now ++ n ∷ drop result numbers.now ≡ with_number n numbers.now }
{
    for (i, m) in numbers.iter().enumerate() {
        if n <= *m {
            return i;
        }
    }
    numbers.len()
}

// Puts a number into its place.
fn put_number(numbers: &mut Vec<u16>, n: u16) -> Result<(), NoMemory>
    ensures { OnOk result (numbers.new.items ≡ with_number n numbers.old.items) }
{
    let place = place_of(numbers, n);
    match numbers.insert(place, n) {
        Ok(()) => Ok(()),
        Err(_) => Err(NoMemory),
    }
}

// The numbers of the units of a device's target, ascending.
pub(crate) fn numbers_of(
    alloc: Global,
    luns: &[LunSpec],
    dev: DevAddr,
) -> Result<Vec<u16>, NoMemory>
    ensures { IfOk result (λ v. v.items ≡ target_luns luns.now dev) }
{
    let Some((first, others)) = luns.split_first() else {
        return Ok(Vec::new(alloc));
    };
    let mut numbers = numbers_of(alloc, others, dev)?;
    if is_same_target(first.dev, dev) {
        put_number(&mut numbers, first.dev.lun)?;
    }
    Ok(numbers)
}
