//! How far the copy in the background can be made to hold back.

/// The longest gap between two copy writes, in ticks; the shortest is 0 (own).
pub const MOST_GAP: u32 = 65_535;

/// The longest window in which the guest's commands are counted, in ticks; the shortest is 1 (own).
pub const MOST_WINDOW: u32 = 1_024;

/// The most commands that a window may have where copying is allowed; the fewest are 0 (own).
pub const MOST_LIMIT: u32 = 65_535;
