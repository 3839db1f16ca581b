//! The numbers that a deployment is set up with.

use fill_bitmap::Area;

/// The fewest leases of the monitor's pool (own).
pub const LEAST_POOL: u32 = 4;

/// The most leases of the monitor's pool (own).
pub const MOST_POOL: u32 = 16;

/// What a deployment is set up with (own).
#[derive(Clone, Copy, Debug, PartialEq, Eq)]
pub struct Setup {
    /// The image on the disk.
    pub area: Area,
    /// The number of the run, which its header has.
    pub id: u64,
    /// The ticks that go by between two copies: at most `bg_copy::MOST_GAP`.
    pub gap: u32,
    /// The ticks over which the guest's commands are counted: 1 to `bg_copy::MOST_WINDOW`.
    pub window: u32,
    /// The commands of the guest in these ticks up to which a copy is made: at most `bg_copy::MOST_LIMIT`.
    pub limit: u32,
    /// The leases of the monitor's pool: `LEAST_POOL` to `MOST_POOL`.
    pub pool: u32,
}
