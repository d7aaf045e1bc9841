ghost use Rattle.std.specs.Prelude.{◌≡◌};

use crate::Devices;
use mid_base::{DevAddr, DeviceState, LunSpec};
use std::test::Fail;

fn address(target: u8) -> DevAddr
    ensures { (result.channel ≡ 0) × (result.target ≡ target) × (result.lun ≡ 0) }
{
    DevAddr {
        channel: 0,
        target,
        lun: 0,
    }
}

fn unit(target: u8, start: DeviceState) -> LunSpec
    ensures { (result.dev.channel ≡ 0) × (result.dev.target ≡ target) × (result.dev.lun ≡ 0) × (result.depth ≡ 2) }
{
    LunSpec {
        dev: address(target),
        blocks: 8,
        depth: 2,
        read_only: false,
        stopped: false,
        start,
    }
}

#[test]
fn devices_are_found_by_their_address(rt: HostRuntime) -> Result<(), Fail> {
    let luns = [
        unit(3, DeviceState::Running),
        unit(1, DeviceState::Quiesce),
        unit(2, DeviceState::Offline),
    ];
    let Ok(devices) = Devices::new(rt.alloc(), 4, &luns) else {
        assert!(rt; false, "memory for three devices");
        return Ok(());
    };
    assert_eq!(rt; devices.count(), 3);
    assert_eq!(rt; devices.place_of(address(3)), Some(0));
    assert_eq!(rt; devices.place_of(address(1)), Some(1));
    assert_eq!(rt; devices.place_of(address(2)), Some(2));
    assert_eq!(rt; devices.place_of(address(4)), None);
    Ok(())
}

#[test]
fn commands_go_to_running_and_offline_devices(rt: HostRuntime) -> Result<(), Fail> {
    let luns = [
        unit(3, DeviceState::Running),
        unit(1, DeviceState::Quiesce),
        unit(2, DeviceState::Offline),
    ];
    let Ok(mut devices) = Devices::new(rt.alloc(), 4, &luns) else {
        assert!(rt; false, "memory for three devices");
        return Ok(());
    };
    if devices.count() < 3 {
        assert!(rt; false, "three devices");
        return Ok(());
    }
    assert!(rt; devices.goes(0));
    assert!(rt; !devices.goes(1));
    assert!(rt; devices.goes(2));
    assert_eq!(rt; devices.row(1).state, DeviceState::Quiesce);
    devices.tick();
    Ok(())
}

#[test]
fn a_device_goes_offline(rt: HostRuntime) -> Result<(), Fail> {
    let luns = [unit(3, DeviceState::Running)];
    let Ok(mut devices) = Devices::new(rt.alloc(), 4, &luns) else {
        assert!(rt; false, "memory for a device");
        return Ok(());
    };
    if devices.count() < 1 {
        assert!(rt; false, "a device");
        return Ok(());
    }
    devices.go_offline(0);
    if devices.count() < 1 {
        assert!(rt; false, "a device still");
        return Ok(());
    }
    assert_eq!(rt; devices.row(0).state, DeviceState::Offline);
    Ok(())
}
