//! The blocks of sectors, and which of them are empty.

ghost use Rattle.std.specs.Prelude.{◌≡◌, ◌<◌, ◌+◌, ◌^◌};
ghost use Rattle.fill_bitmap.specs.Area.{IsSuitable, blocks_of};
ghost use Rattle.fill_bitmap.specs.Bitmap.{blocks_in};
ghost use Rattle.io_interpret.specs.Blocks.{empty_block, touches_empty};

use fill_bitmap::{Area, Bitmap};

// The block of a sector, where that is empty.
pub(crate) fn empty_block(sector: u64, area: &Area, bitmap: &Bitmap) -> Option<u32>
    requires suitable { IsSuitable area.now }
    requires blocks { blocks_in bitmap.now ≡ blocks_of area.now }
    ensures block { result ≡ empty_block area.now bitmap.now.filled sector }
{
    if sector >= area.image {
        return None;
    }
    let b = area.block_at(sector);
    if bitmap.is_filled(b) { None } else { Some(b) }
}

// Whether one of `count` sectors from `first` on lies in an empty block. Their blocks are looked at from the lowest on,
// each once at most, up to the first empty one.
pub(crate) fn touches_empty(first: u64, count: u32, area: &Area, bitmap: &Bitmap) -> bool
    requires suitable { IsSuitable area.now }
    requires blocks { blocks_in bitmap.now ≡ blocks_of area.now }
    requires end { first + count < 2 ^ 64 }
    ensures touched { result ≡ touches_empty area.now bitmap.now.filled first count }
{
    let end = area.image.min(first + u64::from(count));
    if first >= end {
        return false;
    }
    for b in area.block_at(first)..=area.block_at(end - 1) {
        if !bitmap.is_filled(b) {
            return true;
        }
    }
    false
}
