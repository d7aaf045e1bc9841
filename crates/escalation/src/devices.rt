ghost use Rattle.std.specs.Prelude.{◌≡◌, ◌<◌, ℕ, filter, IfOk};
ghost use Rattle.mid_base.specs.Address.{in_scope};
ghost use Rattle.disposition.specs.Ladder.{address as address_seen, with_dev, devs, is_in_scope as is_in_scope_seen};

use disposition::Todo;
use mid_base::{DevAddr, NoMemory, Scope, same_dev};

/// Whether a scope has a command: it is the command's own, or that of a reset has its device.
pub(crate) fn is_in_scope(scope: Scope, x: &Todo) -> bool
    ensures { result ≡ is_in_scope_seen scope x.now }
{
    match scope {
        Scope::Cmd(c) => x.cmd == c,
        Scope::Dev(dev) => same_dev(dev, x.dev),
        Scope::Target(channel, target) => channel == x.dev.channel && target == x.dev.target,
        Scope::Bus(channel) => channel == x.dev.channel,
        Scope::Host => true,
    }
}

/// The commands of a scope, in their order.
pub(crate) fn in_scope_of(left: &Vec<Todo>, scope: Scope) -> Result<Vec<Todo>, NoMemory>
    ensures { IfOk result (λ v. v.items ≡ filter (is_in_scope_seen scope) left.now.items) }
{
    let chosen = left.iter().copied().filter(|x| is_in_scope(scope, x));
    match chosen.collect(*left.allocator()) {
        Ok(chosen) => Ok(chosen),
        Err(_) => Err(NoMemory),
    }
}

// The place of a device in address order.
fn address(dev: DevAddr) -> u32
    ensures { result ≡ address_seen dev }
{
    (u32::from(dev.channel) * 256 + u32::from(dev.target)) * 65536 + u32::from(dev.lun)
}

// Puts a device among others in address order, where it isn't there.
fn add_device(devices: &mut Vec<DevAddr>, dev: DevAddr) -> Result<(), NoMemory>
    ensures { IfOk result (λ u. devices.new.items ≡ with_dev dev devices.old.items) }
{
    for place in 0..devices.len() {
        let other = devices[place];
        if same_dev(dev, other) {
            return Ok(());
        }
        if address(dev) < address(other) {
            return match devices.insert(place, dev) {
                Ok(()) => Ok(()),
                Err(_) => Err(NoMemory),
            };
        }
    }
    match devices.push(dev) {
        Ok(()) => Ok(()),
        Err(_) => Err(NoMemory),
    }
}

/// The devices of these commands in address order, each once.
pub(crate) fn devices_of(todo: &Vec<Todo>) -> Result<Vec<DevAddr>, NoMemory>
    ensures { IfOk result (λ v. v.items ≡ devs todo.now.items) }
{
    let mut devices = Vec::new(*todo.allocator());
    for x in todo.iter().rev().copied() {
        add_device(&mut devices, x.dev)?;
    }
    Ok(devices)
}
