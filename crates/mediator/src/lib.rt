//! The mediator: what stands between the guest and its drive while the image is deployed.
//!
//! Start with `Mediator`. `specs/Mediator.antt` says what its contracts see of it, and `specs/Emitted.antt` which items
//! its calls give; `specs/Couples.antt` says when mediator, drive and memory stand for a plain drive, and `laws` what
//! happens to that between two calls. The rules are those of `monitor_access`, `monitor_turn` and `monitor_events`,
//! whose definitions the contracts cite. By the law `each_due_tag_is_sent` of the crate `streaming` a loop over
//! `next_send` sends all that is due.
//!
//! It has no tests of its own: those of the crate `worked_runs` run it over whole runs.

#![tactic(auto)]

mod emitting;
mod laws;
mod mediator;
mod restarting;

pub use emitting::MOST_DUE;
pub use laws::{
    a_destage_keeps_the_plain_drive, a_monitor_is_ready_in_time,
    the_guests_memory_is_the_plain_drives,
};
pub use mediator::Mediator;
