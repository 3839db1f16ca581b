//! The reserved sectors that the monitor reads and writes, and the buffer with the bytes of one.

ghost use Rattle.std.specs.Prelude.{◌≡◌, ◌<◌, ◌≤◌, ◌++◌, length, take, drop};
ghost use Rattle.fill_bitmap.specs.Area.{IsSuitable, bitmap_sectors_of, sector_of_bits};

use fill_bitmap::{Area, SECTOR_BYTES};

// The sector of the disk that holds the bitmap's sector `k`.
pub(crate) fn sector_of_bits(area: &Area, k: u32) -> u64
    requires suitable { IsSuitable area.now }
    requires there { k < bitmap_sectors_of area.now }
    ensures sector { result ≡ sector_of_bits area.now k }
{
    area.reserved() + 1 + u64::from(k)
}

// Puts a sector's bytes at the front of the buffer.
pub(crate) fn put(bytes: &[u8; SECTOR_BYTES], buffer: &mut [u8])
    requires { SECTOR_BYTES ≤ length buffer.old }
    ensures buffer { buffer.new ≡ bytes.now ++ drop SECTOR_BYTES buffer.old }
{
    buffer[..SECTOR_BYTES].copy_from_slice(bytes);
}

// The bytes at the front of the buffer.
pub(crate) fn front(buffer: &[u8]) -> [u8; SECTOR_BYTES]
    requires { SECTOR_BYTES ≤ length buffer.now }
    ensures bytes { result ≡ take SECTOR_BYTES buffer.now }
{
    let mut bytes = [0; SECTOR_BYTES];
    bytes.copy_from_slice(&buffer[..SECTOR_BYTES]);
    bytes
}
