// Host bytes and status bytes by their names.
use crate::HostByte;

// Host bytes, as the Linux kernel's `scsi_status.h` names and numbers them.

pub const DID_OK: HostByte = HostByte(0x00);

pub const DID_NO_CONNECT: HostByte = HostByte(0x01);

pub const DID_BUS_BUSY: HostByte = HostByte(0x02);

pub const DID_TIME_OUT: HostByte = HostByte(0x03);

pub const DID_BAD_TARGET: HostByte = HostByte(0x04);

pub const DID_ABORT: HostByte = HostByte(0x05);

pub const DID_PARITY: HostByte = HostByte(0x06);

pub const DID_ERROR: HostByte = HostByte(0x07);

pub const DID_RESET: HostByte = HostByte(0x08);

pub const DID_SOFT_ERROR: HostByte = HostByte(0x0b);

pub const DID_IMM_RETRY: HostByte = HostByte(0x0c);

pub const DID_REQUEUE: HostByte = HostByte(0x0d);

// Status bytes (SAM-5, 5.3).

pub const GOOD: u8 = 0x00;

pub const CHECK_CONDITION: u8 = 0x02;

pub const CONDITION_MET: u8 = 0x04;

pub const BUSY: u8 = 0x08;

pub const RESERVATION_CONFLICT: u8 = 0x18;

pub const TASK_SET_FULL: u8 = 0x28;

pub const ACA_ACTIVE: u8 = 0x30;

pub const TASK_ABORTED: u8 = 0x40;

#[cfg(test)]
mod tests {
    use super::*;

    #[test]
    fn host_bytes_are_numbered_as_in_the_kernel(rt: HostRuntime) {
        let bytes = [
            DID_OK,
            DID_NO_CONNECT,
            DID_BUS_BUSY,
            DID_TIME_OUT,
            DID_BAD_TARGET,
            DID_ABORT,
            DID_PARITY,
            DID_ERROR,
            DID_RESET,
            DID_SOFT_ERROR,
            DID_IMM_RETRY,
            DID_REQUEUE,
        ]
        .map(|byte| byte.0);
        assert_eq!(rt; bytes, [0, 1, 2, 3, 4, 5, 6, 7, 8, 11, 12, 13]);
    }

    #[test]
    fn statuses_are_numbered_as_in_the_standard(rt: HostRuntime) {
        let statuses = [
            GOOD,
            CHECK_CONDITION,
            CONDITION_MET,
            BUSY,
            RESERVATION_CONFLICT,
            TASK_SET_FULL,
            ACA_ACTIVE,
            TASK_ABORTED,
        ];
        assert_eq!(rt; statuses, [0x00, 0x02, 0x04, 0x08, 0x18, 0x28, 0x30, 0x40]);
    }
}
