//! Numbers at their places in a frame. Each function reads all bytes of its number by their places first (`_below`):
//! that tells the proof that each is below 256.

ghost use Rattle.std.specs.Prelude.{◌≡◌, ◌≤◌, ◌<◌, ◌+◌, ◌^◌, length, take, drop};
ghost use Rattle.byteorder.specs.Endian.{big_bytes, little_bytes};

use byteorder::{BigEndian, ByteOrder, LittleEndian};

// Two bytes, the highest first.
pub(crate) fn u16_at(bytes: &[u8], at: usize) -> u16
    requires within { at + 2 ≤ length bytes.now }
    ensures number { big_bytes 2 result ≡ take 2 (drop at bytes.now) }
{
    let field = &bytes[at..];
    let _below = (field[0], field[1]);
    BigEndian::read_u16(field)
}

// Four bytes, the highest first.
pub(crate) fn u32_at(bytes: &[u8], at: usize) -> u32
    requires within { at + 4 ≤ length bytes.now }
    ensures number { big_bytes 4 result ≡ take 4 (drop at bytes.now) }
{
    let field = &bytes[at..];
    let _below = (field[0], field[1], field[2], field[3]);
    BigEndian::read_u32(field)
}

// The six bytes of an ATA address, the lowest first.
pub(crate) fn u48_at(bytes: &[u8], at: usize) -> u64
    requires within { at + 6 ≤ length bytes.now }
    ensures number { little_bytes 6 result ≡ take 6 (drop at bytes.now) }
    ensures fits { result < 2 ^ 48 }
{
    let field = &bytes[at..];
    let _below = (field[0], field[1], field[2], field[3], field[4], field[5]);
    LittleEndian::read_u48(field)
}
