// Sense keys and additional sense codes by their names.

// Sense keys (SPC-4, 4.5.6).

pub const NO_SENSE: u8 = 0x0;

pub const RECOVERED_ERROR: u8 = 0x1;

pub const NOT_READY: u8 = 0x2;

pub const MEDIUM_ERROR: u8 = 0x3;

pub const HARDWARE_ERROR: u8 = 0x4;

pub const ILLEGAL_REQUEST: u8 = 0x5;

pub const UNIT_ATTENTION: u8 = 0x6;

pub const DATA_PROTECT: u8 = 0x7;

pub const BLANK_CHECK: u8 = 0x8;

pub const VENDOR_SPECIFIC: u8 = 0x9;

pub const COPY_ABORTED: u8 = 0xa;

pub const ABORTED_COMMAND: u8 = 0xb;

pub const VOLUME_OVERFLOW: u8 = 0xd;

pub const MISCOMPARE: u8 = 0xe;

pub const COMPLETED: u8 = 0xf;

// Additional sense codes with their qualifiers (SPC-4, 4.5.6).

pub const NO_ADDITIONAL_SENSE: (u8, u8) = (0x00, 0x00);

pub const BECOMING_READY: (u8, u8) = (0x04, 0x01);

pub const INITIALIZING_COMMAND_REQUIRED: (u8, u8) = (0x04, 0x02);

pub const INVALID_COMMAND_OPERATION_CODE: (u8, u8) = (0x20, 0x00);

pub const BLOCK_ADDRESS_OUT_OF_RANGE: (u8, u8) = (0x21, 0x00);

pub const INVALID_FIELD_IN_CDB: (u8, u8) = (0x24, 0x00);

pub const WRITE_PROTECTED: (u8, u8) = (0x27, 0x00);

pub const RESET_OCCURRED: (u8, u8) = (0x29, 0x00);

// Additional sense codes that stand for themselves and their qualifiers.

pub const UNRECOVERED_READ_ERROR: u8 = 0x11;

pub const ADDRESS_MARK_NOT_FOUND: u8 = 0x13;

pub const RECORDED_ENTITY_NOT_FOUND: u8 = 0x14;

#[cfg(test)]
mod tests {
    use super::*;

    #[test]
    fn sense_keys_are_numbered_as_in_the_standard(rt: HostRuntime) {
        let keys = [
            NO_SENSE,
            RECOVERED_ERROR,
            NOT_READY,
            MEDIUM_ERROR,
            HARDWARE_ERROR,
            ILLEGAL_REQUEST,
            UNIT_ATTENTION,
            DATA_PROTECT,
            BLANK_CHECK,
            VENDOR_SPECIFIC,
            COPY_ABORTED,
            ABORTED_COMMAND,
            VOLUME_OVERFLOW,
            MISCOMPARE,
            COMPLETED,
        ];
        assert_eq!(rt; keys, [0, 1, 2, 3, 4, 5, 6, 7, 8, 9, 10, 11, 13, 14, 15]);
    }

    #[test]
    fn additional_sense_codes_are_numbered_as_in_the_standard(rt: HostRuntime) {
        let codes = [
            NO_ADDITIONAL_SENSE,
            BECOMING_READY,
            INITIALIZING_COMMAND_REQUIRED,
            INVALID_COMMAND_OPERATION_CODE,
            BLOCK_ADDRESS_OUT_OF_RANGE,
            INVALID_FIELD_IN_CDB,
            WRITE_PROTECTED,
            RESET_OCCURRED,
        ]
        .map(|code| u16::from(code.0) << 8 | u16::from(code.1));
        assert_eq!(rt;
            codes,
            [0, 0x401, 0x402, 0x2000, 0x2100, 0x2400, 0x2700, 0x2900]
        );
    }

    #[test]
    fn errors_of_the_medium_are_numbered_as_in_the_standard(rt: HostRuntime) {
        let codes = [
            UNRECOVERED_READ_ERROR,
            ADDRESS_MARK_NOT_FOUND,
            RECORDED_ENTITY_NOT_FOUND,
        ];
        assert_eq!(rt; codes, [0x11, 0x13, 0x14]);
    }
}
