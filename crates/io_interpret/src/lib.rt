//! What the monitor makes of a guest's command: its class, by the sectors that it names, and the first piece of its
//! range, by the blocks of the image.
//!
//! Start with `classify`, then `first_piece`. `specs/Blocks.antt` says which empty block a sector lies in and when a
//! range touches one, `specs/Class.antt` which class a request has, and `specs/Piece.antt` how far a piece goes.
//! `docs/monitor.md` has the same as tables. No call here reaches a device.
//!
//! The tests are in `src/tests.rt`.

#![tactic(auto)]

mod blocks;
mod class;
mod laws;
mod piece;
#[cfg(test)]
mod tests;

pub use class::{Class, classify};
pub use laws::{
    a_piece_lies_in_one_block, local_reads_and_writes_touch_no_empty_block,
    reserved_commands_end_above_the_first_reserved_sector, untouched_ranges_have_no_empty_sector,
};
pub use piece::{Piece, first_piece};
