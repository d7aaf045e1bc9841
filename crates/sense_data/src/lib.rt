//! Sense data of SCSI (SPC-4, 4.5): a view over the bytes that a device sent, and sense data made of its fields.
//!
//! `SenseView::read` refuses what isn't sense data. A view and its descriptors are parts of the caller's own bytes:
//! nothing is copied, and no call takes memory. The definitions in `specs/Grammar.antt` say of a plain list of bytes
//! whether it is sense data and what its fields are.
#![tactic(auto)]

mod builders;
mod codes;
mod descriptors;
mod faults;
mod laws;
mod senses;
#[cfg(test)]
mod tests;
mod view;

pub use builders::{build_descriptor, build_fixed};
pub use descriptors::Descriptors;
pub use faults::SenseFault;
pub use laws::{
    additional_sense_codes_have_their_numbers, descriptor_sense_reads_back,
    descriptors_fill_the_sense, fixed_sense_reads_back, sense_keys_have_their_numbers,
};
pub use senses::{
    ABORTED_COMMAND, ADDRESS_MARK_NOT_FOUND, BECOMING_READY, BLANK_CHECK,
    BLOCK_ADDRESS_OUT_OF_RANGE, COMPLETED, COPY_ABORTED, DATA_PROTECT, HARDWARE_ERROR,
    ILLEGAL_REQUEST, INITIALIZING_COMMAND_REQUIRED, INVALID_COMMAND_OPERATION_CODE,
    INVALID_FIELD_IN_CDB, MEDIUM_ERROR, MISCOMPARE, NO_ADDITIONAL_SENSE, NO_SENSE, NOT_READY,
    RECORDED_ENTITY_NOT_FOUND, RECOVERED_ERROR, RESET_OCCURRED, UNIT_ATTENTION,
    UNRECOVERED_READ_ERROR, VENDOR_SPECIFIC, VOLUME_OVERFLOW, WRITE_PROTECTED,
};
pub use view::SenseView;
