//! Laws that show what the definitions of `specs/Area.antt` and `specs/Disk.antt` mean. Each holds of every value, and
//! no code runs.

ghost use Rattle.std.specs.Prelude.{◌≡◌, ◌<◌, ◌≤◌, ◌+◌, ◌*◌, ◌++◌, ℕ, Bool, List, length, take, drop};
ghost use Rattle.fill_bitmap.specs.declared.area.Area.{Area};
ghost use Rattle.fill_bitmap.specs.declared.lengths.TheConstants.{SECTOR_BYTES};
ghost use Rattle.fill_bitmap.specs.Area.{IsSuitable, blocks_of, bitmap_sectors_of, reserved_of};
ghost use Rattle.fill_bitmap.specs.BlockSet.{empty_set};
ghost use Rattle.fill_bitmap.specs.Disk.{header_of, HasHeader, stored_blocks, with_sectors, guest_view, HoldsSet, HaveLengths};

/// The sectors of each block lie in the image.
pub fn blocks_lie_in_the_image()
    ensures { (area : Area) (b : ℕ) →
        b < blocks_of area → b * area.block + area.block ≤ area.image }
{}

/// A header is as long as a sector, whatever the area and the run.
pub fn a_header_is_a_sector()
    ensures { (area : Area) (id : ℕ) → length (header_of area id) ≡ SECTOR_BYTES }
{}

/// The stored blocks of a disk with the header and the sectors of a set of blocks are that set.
pub fn written_sectors_store_their_set()
    ensures { (area : Area) (id : ℕ) (set : List Bool) (disk : List (List ℕ)) →
        HoldsSet area id set disk → stored_blocks area id disk ≡ set }
{}

/// A set of no block to which each sector of a disk's bitmap is added, in order, is the stored blocks of a disk with
/// the header.
pub fn added_sectors_give_the_stored_blocks()
    ensures { (area : Area) (id : ℕ) (disk : List (List ℕ)) → HasHeader area id disk →
        with_sectors (bitmap_sectors_of area) area disk (empty_set (blocks_of area))
        ≡ stored_blocks area id disk }
{}

/// On a disk without the header a guest finds the image, and behind it the disk's own sectors.
pub fn a_fresh_disk_shows_the_image()
    ensures { (area : Area) (id : ℕ) (image disk : List (List ℕ)) →
        IsSuitable area → HaveLengths area image disk → ¬ HasHeader area id disk →
        guest_view area id image disk ≡ image ++ drop area.image (take (reserved_of area) disk) }
{}
