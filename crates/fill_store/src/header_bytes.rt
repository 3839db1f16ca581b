//! The header, by which a disk shows that its bitmap is that of a run.

ghost use Rattle.std.specs.Prelude.{◌≡◌, ◌≤◌, ◌++◌, length, drop};
ghost use Rattle.std.specs.Int.{w32, w64, to_be_bytes};
ghost use Rattle.fill_bitmap.specs.Disk.{header_of};

use byteorder::{BigEndian, ByteOrder};
use fill_bitmap::{Area, SECTOR_BYTES};

/// Fills `into` with the header of the run `id` on this area: `BMCFILL1`, the run's number, the image's sectors and a
/// block's sectors with the high byte first, then zeros (own).
pub fn header(area: &Area, id: u64, into: &mut [u8; SECTOR_BYTES])
    ensures bytes { into.new ≡ header_of area.now id }
{
    *into = [0; SECTOR_BYTES];
    into[..8].copy_from_slice(b"BMCFILL1");
    put_numbers(area, id, &mut into[8..]);
}

// Puts the numbers of a header at the front of these bytes.
fn put_numbers(area: &Area, id: u64, bytes: &mut [u8])
    requires { 20 ≤ length bytes.old }
    ensures numbers { bytes.new ≡ to_be_bytes w64 id ++ to_be_bytes w64 area.now.image
        ++ to_be_bytes w32 area.now.block ++ drop 20 bytes.old }
{
    BigEndian::write_u64(bytes, id);
    BigEndian::write_u64(&mut bytes[8..], area.image);
    BigEndian::write_u32(&mut bytes[16..], area.block);
}
