//! Sectors as words of Data, and words as the bytes of a sector.

ghost use Rattle.std.specs.Prelude.{◌≡◌, ◌*◌, length};
ghost use Rattle.plain_drive.specs.Plain.{words_of};
ghost use Rattle.plain_drive.specs.Words.{bytes_of};

use ata_taskfile::registers::SECTOR_BYTES;

/// The words of a sector's bytes, the even byte low (ATA/ATAPI-6, Data register).
pub(crate) fn words_of(bytes: &[u8]) -> [u16; 256]
    requires { length bytes.now ≡ SECTOR_BYTES }
    ensures { result ≡ words_of bytes.now }
{
    let mut words = [0; 256];
    get_words(bytes, &mut words);
    words
}

/// The bytes of a block's words, the low byte of each first (ATA/ATAPI-6, Data register).
pub(crate) fn bytes_of(words: [u16; 256]) -> [u8; SECTOR_BYTES]
    ensures { result ≡ bytes_of words }
{
    let mut bytes = [0; SECTOR_BYTES];
    put_words(&words, &mut bytes);
    bytes
}

/// The bytes of words, in place of what `bytes` holds.
pub(crate) fn put_words(words: &[u16], bytes: &mut [u8])
    requires { length bytes.old ≡ 2 * length words.now }
    ensures { bytes.new ≡ bytes_of words.now }
{
    for i in 0..words.len() {
        let [low, high] = words[i].to_le_bytes();
        bytes[2 * i] = low;
        bytes[2 * i + 1] = high;
    }
}

/// The words of bytes, in place of what `words` holds.
pub(crate) fn get_words(bytes: &[u8], words: &mut [u16])
    requires { length bytes.now ≡ 2 * length words.old }
    ensures { words.new ≡ words_of bytes.now }
{
    for i in 0..words.len() {
        words[i] = u16::from_le_bytes([bytes[2 * i], bytes[2 * i + 1]]);
    }
}
