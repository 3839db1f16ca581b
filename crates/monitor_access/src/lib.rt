//! An access of the guest, whoever has the drive.
//!
//! Start with `accessed`; `by_view` has what the view answers. `specs/Seen.antt` says what the guest is answered and
//! sees afterwards, `Marks.antt` when a command is marked as one that the monitor refuses, and `docs/monitor.md` has
//! the rules as tables.
//!
//! It has no tests of its own: those of the crate `worked_runs` run it over whole runs.

#![tactic(auto)]

mod accesses;
mod by_view;

pub use accesses::accessed;
