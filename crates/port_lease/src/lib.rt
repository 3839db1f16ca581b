//! Who has the drive: the guest, the monitor, or, once the monitor is gone, the guest alone.
//!
//! Each state is a type that can be neither copied nor let go. Start with `guest_side`, `monitor_side` and `gone`
//! for the types, then `taking`, `giving` and `removing` for the ways from one to the next. `guest_access` has what a
//! guest's access does on its own side, and `monitor_access` what the monitor writes on its own, for commands of its
//! own; `writing` is below both. `specs/Seen.antt` says what the guest sees on either side, `specs/Handover.antt` what
//! a change of sides makes of drive and view, and `docs/monitor.md` has the rules as tables.
//!
//! The tests are those of the crate `monitor_runs`, over the real drive.

#![tactic(auto)]

mod giving;
mod gone;
mod guest_access;
mod guest_side;
mod laws;
mod monitor_access;
mod monitor_side;
mod reading;
mod removing;
mod taking;
mod view;
mod writing;

pub use giving::give;
pub use gone::Gone;
pub use guest_side::GuestSide;
pub use laws::{
    commands_are_taken_at_rest, steps_are_the_guests, steps_keep_what_is_kept,
    steps_leave_a_free_drive,
};
pub use monitor_side::{MonitorSide, power_on};
pub use reading::shows_rest;
pub use removing::{Unclean, is_clean, remove};
pub use taking::{Busy, take};
pub use view::View;
