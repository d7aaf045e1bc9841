/// What `queue` comes to, as the return values of `queuecommand` in `scsi_mid_low_api.rst`: 0, SCSI_MLQUEUE_HOST_BUSY and
/// SCSI_MLQUEUE_DEVICE_BUSY.
#[derive(Clone, Copy, PartialEq, Eq, Debug)]
pub enum Queued {
    Taken,
    HostBusy,
    DeviceBusy,
}
