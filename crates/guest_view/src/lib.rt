//! What the guest sees while the monitor has the drive: a view that answers its accesses, and that the monitor moves
//! on.
//!
//! Start with `accesses` for a guest's access, then `steps` for the steps that the view makes of its own; `reading` and
//! `writing` have the rows of `access`. `specs/Seen.antt` says what the guest sees, `View.antt` and `Drive.antt` what
//! an access makes of view and drive, `Steps.antt` the view's steps, and `docs/monitor.md` has the rules as tables.
//!
//! The tests are those of the crate `monitor_runs`, over the real drive.

#![tactic(auto)]

mod accesses;
mod laws;
mod reading;
mod steps;
mod writing;

pub use accesses::{access, takes_command};
pub use laws::{
    accesses_are_the_guests, accesses_keep_what_is_alike, accesses_leave_the_drives_work,
    ended_resets_are_the_guests, ends_are_the_guests, failures_are_the_guests,
    offered_blocks_are_the_guests, refusals_are_the_guests, taken_commands_are_in_hand,
    views_stay_lawful, views_without_a_command_fit,
};
pub use steps::{end_reset, fail, finish, offer, refuse};
