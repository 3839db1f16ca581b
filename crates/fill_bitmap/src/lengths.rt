//! The lengths of image and disk, and whether they are suitable.

ghost use Rattle.std.specs.Prelude.{◌≡◌, OnOk, IfOk, IfErr, Some, None};
ghost use Rattle.fill_bitmap.specs.Area.{IsBlock, IsSuitable};
ghost use Rattle.fill_bitmap.specs.Lengths.{area_on, refusal_of};

use crate::area::{Area, MOST_SECTORS};

/// The bytes of a sector (own).
pub const SECTOR_BYTES: usize = 512;

// A sector in bytes, as a divisor of lengths.
const BYTES: u64 = SECTOR_BYTES as u64;

/// Why an image and a disk can't be used: the first that holds is told (own).
#[derive(Clone, Copy, Debug, PartialEq, Eq)]
pub enum Unsuitable {
    /// The image isn't a whole number of blocks.
    ImageLength,
    /// The disk isn't a whole number of sectors.
    DiskLength,
    /// The disk has no sector, or too few for an image that isn't empty and the reserved sectors.
    TooSmall,
    /// The disk has more than `MOST_SECTORS`.
    TooLarge,
}

/// The area of an image and a disk of so many bytes, in blocks of `block` sectors (own).
pub fn area_of(image_bytes: u64, disk_bytes: u64, block: u32) -> Result<Area, Unsuitable>
    requires { IsBlock block }
    ensures refused { IfErr result (λ why. refusal_of image_bytes disk_bytes block ≡ Some why) }
    ensures taken { OnOk result (refusal_of image_bytes disk_bytes block ≡ None) }
    ensures area { IfOk result (λ area. area ≡ area_on image_bytes disk_bytes block) }
    ensures suitable { IfOk result IsSuitable }
{
    if image_bytes % (BYTES * u64::from(block)) != 0 {
        return Err(Unsuitable::ImageLength);
    }
    if disk_bytes % BYTES != 0 {
        return Err(Unsuitable::DiskLength);
    }
    let area = Area {
        sectors: disk_bytes / BYTES,
        image: image_bytes / BYTES,
        block,
    };
    if area.sectors < area.sectors_needed() {
        return Err(Unsuitable::TooSmall);
    }
    if area.sectors > MOST_SECTORS {
        return Err(Unsuitable::TooLarge);
    }
    Ok(area)
}
