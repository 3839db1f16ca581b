//! What the monitor knows and holds, and in which state it is.
//!
//! Start with `State`, who has the drive and what the monitor does with it, then `Parts`, all that it keeps beside
//! that. `Setup` has the numbers that it begins with.
//!
//! `specs/Fits.antt` says what holds of state, parts and drive between any two calls: `FitsParts` of the first two
//! alone, `FitsDevice` of the drive, and `Fits` of all; `docs/monitor.md` has it as a table. Of what these speak in,
//! `specs/State.antt` has the view and who has the drive, `Hand` what is in hand of a guest's command, `Drive` how the
//! drive rests, `Leases` where the pool's buffers are, `Classes` which commands are refused, `Pieces` what becomes of
//! the held piece, `Setup` which numbers a deployment begins with and `Start` the parts at power-on. `Accessed` and
//! `SameAsks` are what an access and the client's own doings change, and `Propositions` that what fits has one proof.
//!
//! `specs/Seen.antt` says what the guest sees, whoever has the drive, and when a plain drive is that (`Shows`),
//! `Sectors` when what the guest gets of sectors is what such a drive has there, and `GoesOn` what a call that tells of
//! steps makes of it. `Overlaid` says whose value each sector has that a deployment gives its guest, and what a power
//! cut would leave of it (`HasSectors`). `Opening` counts what is left of opening.
//!
//! The laws stand in `laws` (accesses, steps, power-on), `in_hand` (the view's own steps), `seen` (what the guest
//! sees), `sectors` (whose value each sector has), `cuts` (what a guest finds at power-on, and after a cut), `opening`
//! (what is left of it), `asks` (the client), `leases` and `starting`. `tests` is a table by hand of the calls of
//! `Parts`.

#![tactic(auto)]

mod asks;
mod cuts;
mod held;
mod in_hand;
mod laws;
mod leases;
mod opening;
mod parts;
mod sectors;
mod seen;
mod setup;
mod sourced;
mod starting;
mod state;
#[cfg(test)]
mod tests;

pub use asks::{asks_stay, clients_buffers_are_of_the_pool, same_asks_keep_the_fit};
pub use cuts::{
    a_cut_leaves_what_the_plain_drive_may_have, an_opened_drive_has_its_header,
    sectors_begin_as_the_guest_finds_them,
};
pub use held::{Hand, HeldPiece};
pub use in_hand::{
    a_raised_interrupt_fits, planned_ends_leave_an_empty_hand, the_views_steps_keep_what_is_in_hand,
};
pub use laws::{
    a_drive_at_power_on_fits, a_resting_drive_is_free, accesses_keep_the_fit,
    accesses_keep_the_parts, held_pieces_are_of_the_parts, steps_keep_the_fit, views_are_in_step,
};
pub use leases::{a_buffer_is_free, leases_go_back_in_order};
pub use opening::{a_good_step_ends_the_wait, only_a_failed_step_raises_what_is_left};
pub use parts::Parts;
pub use sectors::{
    register_accesses_keep_the_sectors, steps_keep_the_sectors,
    the_guests_drive_reads_the_plain_drives_sectors,
};
pub use seen::{
    a_plain_drive_can_be_seen, destages_keep_what_is_seen, unseen_steps_keep_what_is_seen,
};
pub use setup::{LEAST_POOL, MOST_POOL, Setup};
pub use sourced::{sources_stay, what_is_asked_was_asked_for};
pub use starting::begun_parts_fit;
pub use state::{Plan, Purpose, State};
pub use std::alloc::AllocError as NoMemory;
