ghost use Rattle.std.specs.Prelude.{◌≡◌, map, true, false, slice_get, IfOk, MatchOption, Some};
ghost use Rattle.std.specs.Bool.{OnTrue};
ghost use Rattle.mid_base.specs.Limits.{differ_in_address};
ghost use Rattle.mid_base.specs.Address.{in_scope};
ghost use Rattle.adapter_tables.specs.Addresses.{are_apart, has_address, lun_devs};

use mid_base::{DevAddr, LunSpec, NoMemory, Scope, same_dev};
use std::alloc::Global;
use std::collections::BTreeMap;

// The addresses of a host's units, in their order, and at which place each stands. What `places` says is looked up in `devs`, so
// that no contract rests on it.
#[derive(Drop)]
pub(crate) struct Addresses {
    pub(crate) devs: Vec<DevAddr>,
    places: BTreeMap<DevAddr, usize>,
    pub(crate) ghost apart: { are_apart devs.items ≡ true },
}

fn devs_of(alloc: Global, luns: &[LunSpec]) -> Result<Vec<DevAddr>, NoMemory>
    ensures { IfOk result (λ v. v.items ≡ lun_devs luns.now) }
{
    match luns.iter().map(|l| l.dev).collect(alloc) {
        Ok(devs) => Ok(devs),
        Err(_) => Err(NoMemory),
    }
}

fn places_of(alloc: Global, luns: &[LunSpec]) -> Result<BTreeMap<DevAddr, usize>, NoMemory> {
    let mut places = BTreeMap::new(alloc);
    for (i, l) in luns.iter().enumerate() {
        if places.insert(l.dev, i).is_err() {
            return Err(NoMemory);
        }
    }
    Ok(places)
}

fn is_at(devs: &[DevAddr], place: usize, dev: DevAddr) -> bool
    ensures { OnTrue result (slice_get devs.now place ≡ Some dev) }
{
    match devs.get(place) {
        Some(d) => *d == dev,
        None => false,
    }
}

fn scan(devs: &[DevAddr], dev: DevAddr) -> Option<usize>
    ensures { MatchOption result (has_address devs.now dev ≡ false) (λ i. slice_get devs.now i ≡ Some dev) }
{
    for (i, d) in devs.iter().enumerate() {
        if same_dev(*d, dev) {
            return Some(i);
        }
    }
    None
}

impl Addresses {
    pub(crate) fn new(alloc: Global, luns: &[LunSpec]) -> Result<Addresses, NoMemory>
        requires { differ_in_address luns.now ≡ true }
        ensures { IfOk result (λ a. a.devs.items ≡ lun_devs luns.now) }
    {
        let devs = devs_of(alloc, luns)?;
        let places = places_of(alloc, luns)?;
        Ok(Addresses { devs, places })
    }

    // The place of a device.
    pub(crate) fn find(&self, dev: DevAddr) -> Option<usize>
        ensures { MatchOption result (has_address self.now.devs.items dev ≡ false) (λ i. slice_get self.now.devs.items i ≡ Some dev) }
    {
        if let Some(place) = self.places.get(&dev) {
            if is_at(&self.devs, *place, dev) {
                return Some(*place);
            }
        }
        scan(&self.devs, dev)
    }
}

// Whether the scope of a reset has the device.
pub(crate) fn covers(scope: Scope, dev: DevAddr) -> bool
    ensures { result ≡ in_scope scope dev }
{
    match scope {
        Scope::Cmd(_) => false,
        Scope::Dev(d) => same_dev(d, dev),
        Scope::Target(channel, target) => channel == dev.channel && target == dev.target,
        Scope::Bus(channel) => channel == dev.channel,
        Scope::Host => true,
    }
}
