ghost use Rattle.std.specs.Prelude.{◌≡◌, ◌<◌, ◌≤◌, ◌+◌, ◌++◌, length, take};
ghost use Rattle.mid_base.specs.Bytes.{sense_list};
ghost use Rattle.debug_lun.specs.Pages.{address_text as text_of, identification as identification_of, capacity, sense_bytes as bytes_of_sense};

use crate::Sense;
use itoa::Buffer;
use mid_base::{DevAddr, SenseBytes};
use sense_data::{build_descriptor, build_fixed};

// The PERIPHERAL QUALIFIER and DEVICE TYPE of a direct access block device that is connected (SPC-4).
const CONNECTED_DISK: u8 = 0x00;

/// The page of the supported pages (SPC-4, Supported VPD Pages).
pub(crate) const SUPPORTED_PAGES: u8 = 0x00;

/// The page of device identification (SPC-4, Device Identification).
pub(crate) const IDENTIFICATION: u8 = 0x83;

/// Standard INQUIRY data (SPC-4): a direct access block device, not removable, SPC-4, response data format 2, 31 bytes
/// more, and of the flags CMDQUE alone; then vendor, product and revision.
pub(crate) const STANDARD_INQUIRY: [u8; 36] =
    *b"\x00\x00\x06\x02\x1f\x00\x00\x02MIDLAYERdebug LUN       0001";

/// The supported pages, two of them.
pub(crate) const PAGE_LIST: [u8; 6] = [
    CONNECTED_DISK,
    SUPPORTED_PAGES,
    0,
    2,
    SUPPORTED_PAGES,
    IDENTIFICATION,
];

// Puts a piece behind the first `at` bytes, and answers where it ends.
fn append(bytes: &mut [u8], at: usize, piece: &[u8]) -> usize
    requires { at + length piece.now ≤ length bytes.old }
    ensures front { take result bytes.new ≡ take at bytes.old ++ piece.now }
    ensures end { result ≡ at + length piece.now }
{
    let end = at + piece.len();
    bytes[at..end].copy_from_slice(piece);
    end
}

// Writes the address as text, and answers its length.
fn address_text(dev: DevAddr, text: &mut [u8]) -> usize
    requires { 13 ≤ length text.old }
    ensures text { take result text.new ≡ text_of dev }
    ensures length { result ≤ 13 }
{
    let mut digits = Buffer::new();
    let end = append(text, 0, digits.format(dev.channel).as_bytes());
    let end = append(text, end, b":");
    let end = append(text, end, digits.format(dev.target).as_bytes());
    let end = append(text, end, b":");
    append(text, end, digits.format(dev.lun).as_bytes())
}

/// Writes the page of device identification, and answers its length: one designator for the logical unit, in ASCII and
/// vendor specific, which is its address (SPC-4, Device Identification).
pub(crate) fn identification(dev: DevAddr, page: &mut [u8]) -> usize
    requires { 21 ≤ length page.old }
    ensures page { take result page.new ≡ identification_of dev }
    ensures length { result ≤ 21 }
{
    let length = address_text(dev, &mut page[8..]);
    page[..8].copy_from_slice(&[
        CONNECTED_DISK,
        IDENTIFICATION,
        0,
        4 + length as u8,
        0x02,
        0,
        0,
        length as u8,
    ]);
    8 + length
}

/// READ CAPACITY(10) parameter data of so many blocks, 1 at least (SBC-3): the last address, and the length of a block.
pub(crate) fn capacity_data(blocks: u32) -> [u8; 8]
    ensures { result ≡ capacity blocks }
{
    let [a, b, c, d] = blocks.saturating_sub(1).to_be_bytes();
    [a, b, c, d, 0, 0, 2, 0]
}

/// Sense data, of the descriptor form where DESC is set, else of the fixed form (SPC-4, REQUEST SENSE).
pub(crate) fn sense_bytes(desc: bool, sense: Sense) -> SenseBytes
    requires { sense.key < 16 }
    ensures { sense_list result ≡ bytes_of_sense desc sense }
{
    if desc {
        return build_descriptor(sense.key, sense.asc, sense.ascq, None, false);
    }
    build_fixed(sense.key, sense.asc, sense.ascq, None, false)
}
