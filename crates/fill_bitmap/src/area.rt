//! An image on a disk: its blocks, and the sectors at the disk's end that the monitor reserves.

ghost use Rattle.std.specs.Prelude.{◌≡◌, ◌<◌, ◌≤◌, ◌+◌, ◌*◌, ◌^◌};

/// The blocks whose bits one sector of the bitmap holds (own).
pub const BLOCKS_OF_SECTOR: u64 = 4096;

/// The most sectors that a disk may have, which is 128 MiB (own).
pub const MOST_SECTORS: u64 = 262_144;

/// An image on a disk (own).
///
/// The image begins at sector 0. Unless it is empty, the disk's last sectors are reserved: the header, the bitmap,
/// which has a bit for each block of the image, and the dummy sector.
#[derive(Clone, Copy, Debug, PartialEq, Eq)]
pub struct Area {
    /// The sectors of the disk.
    pub sectors: u64,
    /// The sectors of the image.
    pub image: u64,
    /// The sectors of a block.
    pub block: u32,
}

impl Area {
    ghost use Rattle.fill_bitmap.specs.Area.{IsBlock, IsSuitable, block_at, blocks_of, bitmap_sectors_of, reserved_of, sectors_needed};

    /// How many blocks the image has (own).
    pub fn blocks(&self) -> u32
        requires { IsSuitable self.now }
        ensures count { result ≡ blocks_of self.now }
        ensures whole { result * self.now.block ≡ self.now.image }
    {
        (self.image / u64::from(self.block)) as u32
    }

    /// The block in which a sector of the image lies (own).
    pub fn block_at(&self, sector: u64) -> u32
        requires suitable { IsSuitable self.now }
        requires inside { sector < self.now.image }
        ensures block { result ≡ block_at self.now sector }
        ensures below { result < blocks_of self.now }
    {
        (sector / u64::from(self.block)) as u32
    }

    /// How many sectors the bitmap has (own).
    pub fn bitmap_sectors(&self) -> u32
        requires { IsSuitable self.now }
        ensures count { result ≡ bitmap_sectors_of self.now }
        ensures room { blocks_of self.now ≤ result * BLOCKS_OF_SECTOR }
    {
        self.bitmap_needed() as u32
    }

    /// The first reserved sector; for an empty image, which reserves none, the disk's count of sectors (own).
    pub fn reserved(&self) -> u64
        requires { IsSuitable self.now }
        ensures first { result ≡ reserved_of self.now }
        ensures behind { self.now.image ≤ result }
        ensures within { result ≤ self.now.sectors }
    {
        if self.image == 0 {
            return self.sectors;
        }
        self.sectors - (self.bitmap_needed() + 2)
    }

    /// The fewest sectors that a disk with this image may have (own).
    pub(crate) fn sectors_needed(&self) -> u64
        requires block { IsBlock self.now.block }
        requires image { self.now.image < 2 ^ 60 }
        ensures { result ≡ sectors_needed self.now }
    {
        if self.image == 0 {
            return 1;
        }
        self.image + self.bitmap_needed() + 2
    }

    // How many sectors the bitmap takes, on a disk of any size.
    fn bitmap_needed(&self) -> u64
        requires { IsBlock self.now.block }
        ensures count { result ≡ bitmap_sectors_of self.now }
        ensures most { result ≤ self.now.image }
    {
        let blocks = self.image / u64::from(self.block);
        blocks.div_ceil(BLOCKS_OF_SECTOR)
    }
}
