//! The guest's memory, and how the bus master moves sectors between it and the drive.
//!
//! Start with `GuestMemory`, then `move_in` and `move_out`, each of which moves one sector by the descriptor table.
//! `specs/Descriptor.antt` says what a descriptor is and when it is bad, `specs/Run.antt` which places in memory a
//! table names, and `specs/Move.antt` what moving a sector answers and changes. `docs/drive.md` has the same rules as
//! tables.
//!
//! The tests are in `src/tests.rt`.

#![tactic(auto)]

mod descriptor;
mod laws;
mod memory;
mod moves;
mod search;
#[cfg(test)]
mod tests;

pub use laws::{
    a_walk_leaves_the_marks, places_are_in_memory, runs_begin_with_a_descriptor,
    short_moves_are_below_a_sector,
};
pub use memory::{GuestMemory, MOST_BYTES};
pub use moves::{Moved, move_in, move_out};
pub use std::alloc::AllocError as NoMemory;
