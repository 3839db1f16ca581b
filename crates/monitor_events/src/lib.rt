//! What happens beside the guest's accesses and the monitor's turns: a step of the drive, and a frame.
//!
//! Start with `stepped`, a step of the drive, then `heard`, a frame that comes to the client. `specs/Stepping.antt`
//! says what the guest's drive does in a step, and what becomes of a dummy read whose interrupt came;
//! `specs/Shown.antt` from where such a step led; `specs/Hearing.antt` which frame is taken, and which of them is
//! marked.
//!
//! It has no tests of its own: those of the crate `worked_runs` run it over whole runs.

#![tactic(auto)]

mod hearing;
mod stepping;

pub use hearing::heard;
pub use stepping::stepped;
