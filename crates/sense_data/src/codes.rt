// The response codes of byte 0 (SPC-4, 4.5.1), and the bits that stand beside other fields.

pub(crate) const FIXED_CURRENT: u8 = 0x70;

pub(crate) const FIXED_DEFERRED: u8 = 0x71;

pub(crate) const DESCRIPTOR_CURRENT: u8 = 0x72;

pub(crate) const DESCRIPTOR_DEFERRED: u8 = 0x73;

/// Bits 6 to 0 of byte 0.
pub(crate) const RESPONSE_CODE: u8 = 0x7f;

/// Bit 7 of byte 0 of the fixed form, and of byte 2 of an information descriptor.
pub(crate) const VALID: u8 = 0x80;

/// Bits 3 to 0 of the byte that has the sense key.
pub(crate) const SENSE_KEY: u8 = 0x0f;
