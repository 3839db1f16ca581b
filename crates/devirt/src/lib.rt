//! Whether the monitor may leave: once every block is stored, and where the guest would see nothing of its going.
//!
//! Start with `leaving`. `specs/Leaving.antt` says when each answer comes, a row a line, and `laws` what the order of
//! its rows gives: a monitor that is told to leave isn't refused. `docs/monitor.md` has the same as a table. No call
//! here reaches a device.
//!
//! The tests are in `src/tests.rt`.

#![tactic(auto)]

mod exit;
mod laws;
#[cfg(test)]
mod tests;

pub use exit::{Exit, leaving};
pub use laws::{
    a_flush_cleans_up_behind_a_clean_view, a_monitor_that_leaves_is_removed,
    an_own_command_keeps_the_monitor, unstored_blocks_keep_the_monitor,
};
