//! What the cache is a list of.

/// The bytes of a sector.
pub const SECTOR_BYTES: usize = 512;

/// One value that was written to a sector.
#[derive(Debug, Drop, PartialEq, Eq)]
pub struct Entry {
    pub sector: u64,
    pub bytes: [u8; SECTOR_BYTES],
}
