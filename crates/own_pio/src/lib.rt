//! The monitor's own commands, by PIO, on a drive that it has: sectors read, sectors written, or a flush.
//!
//! Start with `OwnJob` for what a command is to do, then `own` for the calls. `specs/Job.antt` says what a job asks the
//! drive for, and `specs/Running.antt` where the drive may stand with it; `docs/monitor.md` has the rules as tables.
//!
//! The tests are those of the crate `monitor_runs`, over the real drive.

#![tactic(auto)]

mod commands;
mod job;
mod laws;
mod moving;
mod own;
mod polling;
mod sectors;

pub use commands::command_read;
pub use job::{MOST_MOVED, OwnJob};
pub use laws::{
    a_step_ends_the_wait, steps_are_unseen, steps_keep_running, steps_keep_what_was_done,
};
pub use own::Own;
pub use polling::acknowledge;
pub use sectors::{a_read_gives_each_sector, a_write_reaches_each_sector};

/// What a poll found.
#[derive(Clone, Copy, Debug, PartialEq, Eq)]
pub enum Poll {
    /// The drive is at work.
    Waiting,
    /// A block of 256 words went, and the command goes on.
    Moved,
    /// The command has ended well.
    Done,
    /// The command has ended, and didn't go well.
    Failed,
}
