//! The dummy read: the monitor has the drive read one sector, of which only the interrupt counts.
//!
//! It lets the drive's own line rise for a guest whose command the monitor served. Start with `dummy` for the calls.
//! `specs/Flight.antt` says where the drive may stand with one, and what its end leaves; `docs/monitor.md` has the
//! rules as tables.
//!
//! The tests are those of the crate `monitor_runs`, over the real drive.

#![tactic(auto)]

mod dummy;
mod ending;
mod laws;

pub use dummy::Dummy;
pub use laws::{
    a_step_moves_nothing, a_step_raises_the_interrupt, nien_may_be_written, steps_keep_the_flight,
};
