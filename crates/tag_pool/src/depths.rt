ghost use Rattle.std.specs.Prelude.{◌≡◌, List};
ghost use Rattle.std.specs.List.{position};
ghost use Rattle.tag_pool.specs.Depths.{fuller, better, at_start, is_at, IsSound};

use mid_base::{DevAddr, same_dev};

// So many GOODs raise a depth by one.
const GOODS_TO_RAISE: u8 = 4;

/// What a pool keeps of a device: its scripted depth, its depth, and how many GOODs were counted since that last changed.
#[derive(Clone, Copy, PartialEq, Eq, Debug)]
pub struct DeviceDepth {
    pub dev: DevAddr,
    pub scripted: u16,
    pub depth: u16,
    pub goods: u8,
}

pub fn at_start(scripted: (DevAddr, u16)) -> DeviceDepth
    ensures { result ≡ at_start scripted }
{
    let (dev, depth) = scripted;
    DeviceDepth {
        dev,
        scripted: depth,
        depth,
        goods: 0,
    }
}

// The device after TASK SET FULL, while so many of its tags are out.
pub fn fuller(device: DeviceDepth, out: u16) -> DeviceDepth
    ensures { result ≡ fuller out device }
{
    let depth = device.depth.min(out.saturating_sub(1)).max(1);
    if depth == device.depth {
        return device;
    }
    DeviceDepth {
        depth,
        goods: 0,
        ..device
    }
}

// The device after GOOD.
pub fn better(device: DeviceDepth) -> DeviceDepth
    requires { IsSound device }
    ensures { result ≡ better device }
{
    if device.depth == device.scripted {
        return device;
    }
    if device.goods + 1 == GOODS_TO_RAISE {
        return DeviceDepth {
            depth: device.depth + 1,
            goods: 0,
            ..device
        };
    }
    DeviceDepth {
        goods: device.goods + 1,
        ..device
    }
}

pub fn place_of(devices: &[DeviceDepth], dev: DevAddr) -> Option<usize>
    ensures { result ≡ position (is_at dev) devices.now }
{
    devices.iter().position(|device| is_at(dev, device))
}

fn is_at(dev: DevAddr, device: &DeviceDepth) -> bool
    ensures { result ≡ is_at dev device.now }
{
    same_dev(device.dev, dev)
}
