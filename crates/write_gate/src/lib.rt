//! The gate before a guest's write: which empty block has to be filled before the drive may have it.
//!
//! Start with `gate`. `specs/Gate.antt` says which block it names, and `laws` what that means for classes and fills.
//! `docs/monitor.md` has the same in words. No call here reaches a device.
//!
//! The tests are in `src/tests.rt`.

#![tactic(auto)]

mod gating;
mod laws;
#[cfg(test)]
mod tests;

pub use gating::{Gated, gate};
pub use laws::{
    filled_blocks_are_named_once_and_in_order, the_gate_names_the_lowest_empty_block,
    writes_pass_exactly_where_they_are_local,
};
