//! An image laid over a drive by a set of filled blocks, beside a plain drive that the guest believes to have: whose
//! value each sector has, and what a power cut would leave.
//!
//! Start with `specs/Overlay.antt`, the two relations. The functions are laws that show what keeps them, and their
//! bodies do nothing: `changes` has what becomes of the drive's sectors and of the filled blocks, `settling` how more
//! blocks become durable and stored, `steps` which sectors a step of the drive changes, and `view` what holds at the
//! start and what a guest finds after a cut. `docs/monitor.md` says in words whose value a sector has.

#![tactic(auto)]

mod changes;
mod settling;
mod steps;
mod view;

pub use changes::{
    a_block_is_filled_from_the_image, a_flush_of_both_keeps_the_values,
    a_write_of_reserved_sectors_is_unseen, a_write_to_an_empty_block_is_unseen,
    a_write_to_both_is_kept, older_values_may_be_forgotten,
};
pub use settling::{
    a_first_flush_makes_frozen_blocks_durable, a_last_flush_stores_the_frozen_blocks,
    an_empty_sector_is_empty_in_a_smaller_set,
};
pub use steps::{reads_leave_the_sectors, steps_change_what_their_order_names};
pub use view::{a_drive_begins_as_the_guest_finds_it, what_survives_is_an_outcome};
