/// The state of a device, with the names of the kernel's `enum scsi_device_state`.
///
/// It counts as online in Created, Running, Quiesce and Block.
#[derive(Clone, Copy, PartialEq, Eq, Debug)]
pub enum DeviceState {
    Created,
    Running,
    Quiesce,
    Block,
    Offline,
    Cancel,
    Del,
}

/// The state of a host, with the names of the kernel's `enum scsi_host_state`.
#[derive(Clone, Copy, PartialEq, Eq, Debug)]
pub enum HostState {
    Created,
    Running,
    Recovery,
    Cancel,
    CancelRecovery,
    DelRecovery,
    Del,
}
