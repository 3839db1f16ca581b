//! The words of IDENTIFY DEVICE (ATA/ATAPI-6, IDENTIFY DEVICE; own: each value).

ghost use Rattle.std.specs.Prelude.{◌≡◌, ◌<◌, ◌+◌, ◌*◌, length};
ghost use Rattle.plain_drive.specs.Identify.{identity, identity_word, text_word, part_at};

const SERIAL_NUMBER: &[u8; 20] = b"BMC00000000000000001";

const FIRMWARE_REVISION: &[u8; 8] = b"1.0     ";

const MODEL_NUMBER: &[u8; 40] = b"BMCAST DRIVE                            ";

/// The 256 words, of a drive of so many sectors.
pub(crate) fn identity(sectors: u64) -> [u16; 256]
    ensures { result ≡ identity sectors }
{
    let mut words = [0; 256];
    for i in 0..256u16 {
        words[i as usize] = identity_word(i, sectors);
    }
    words
}

// The word at a place.
fn identity_word(i: u16, sectors: u64) -> u16
    requires { i < 256 }
    ensures { result ≡ identity_word i sectors }
{
    match i {
        // Words 10 to 46: the serial number, the firmware revision and the model number.
        10..=19 => text_word(SERIAL_NUMBER, i - 10),
        23..=26 => text_word(FIRMWARE_REVISION, i - 23),
        27..=46 => text_word(MODEL_NUMBER, i - 27),
        // LBA (bit 9) and DMA (bit 8).
        49 => 0x0300,
        // Sectors in 28 bits.
        60..=61 => part_at(i - 60, sectors),
        // The write cache (bit 5), there and on.
        82 | 85 => 0x0020,
        // FLUSH CACHE EXT (bit 13), FLUSH CACHE (bit 12) and 48-bit addresses (bit 10); bit 14 is 1.
        83 => 0x7400,
        // Sectors in 48 bits.
        100..=103 => part_at(i - 100, sectors),
        _ => 0,
    }
}

// A word of a text, whose first character is the high byte.
fn text_word(text: &[u8], i: u16) -> u16
    requires { 2 * i + 1 < length text.now }
    ensures { result ≡ text_word text.now i }
{
    let at = 2 * i as usize;
    u16::from_be_bytes([text[at], text[at + 1]])
}

// 16 bits of a number, the i-th from the lowest.
fn part_at(i: u16, number: u64) -> u16
    requires { i < 4 }
    ensures { result ≡ part_at i number }
{
    match i {
        0 => (number % 0x1_0000) as u16,
        1 => (number / 0x1_0000 % 0x1_0000) as u16,
        2 => (number / 0x1_0000_0000 % 0x1_0000) as u16,
        _ => (number / 0x1_0000_0000_0000 % 0x1_0000) as u16,
    }
}
