//! The image on the disk: its blocks, the sectors that the monitor reserves behind it, which lengths of image and
//! disk are suitable for both, and the bitmap that says which blocks are on the disk.
//!
//! Start with `Area`, then `area_of`, which makes one of two lengths in bytes, then `Bitmap`. `specs/Area.antt` says
//! what each size is, `specs/Lengths.antt` why lengths are refused, `specs/Bitmap.antt` what the bitmap's sets are,
//! `specs/Bits.antt` the bytes of its sectors, and `specs/Disk.antt` what a disk with them says and shows.
//! `docs/monitor.md` has the same as tables.
//!
//! The tests are in `src/tests.rt`.

#![tactic(auto)]

mod area;
mod bitmap;
mod block_set;
mod laws;
mod lengths;
#[cfg(test)]
mod tests;

pub use area::{Area, BLOCKS_OF_SECTOR, MOST_SECTORS};
pub use bitmap::Bitmap;
pub use laws::{
    a_fresh_disk_shows_the_image, a_header_is_a_sector, added_sectors_give_the_stored_blocks,
    blocks_lie_in_the_image, written_sectors_store_their_set,
};
pub use lengths::{SECTOR_BYTES, Unsuitable, area_of};
