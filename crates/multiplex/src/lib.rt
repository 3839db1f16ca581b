//! What the monitor does in a turn: one thing, by who has the drive and how far each work has come.
//!
//! Start with `TurnState`, then `choose`. `specs/Turns.antt` says what a turn is, a row a line, and `laws` what follows
//! from the order of its rows: when each turn comes. `docs/monitor.md` has the same as a table. No call here reaches a
//! device.
//!
//! The tests are in `src/tests.rt`.

#![tactic(auto)]

mod laws;
#[cfg(test)]
mod tests;
mod turn;

pub use laws::{
    a_reset_ends_once_srst_is_0, a_turn_that_took_goes_on_idle,
    commands_are_worked_on_from_the_monitors_side, nothing_is_done_while_a_dummy_read_flies,
    opening_comes_before_the_guest, own_commands_are_polled_first,
    the_drive_is_taken_before_any_work, the_monitors_work_waits_for_the_guest,
};
pub use turn::{Turn, TurnState, choose};
