//! The pace of the copy in the background: when a copy write is allowed, and from which block on the next one is
//! looked for.
//!
//! Start with `Copier`. `specs/Happened.antt` says after which ticks, commands and copy writes copying is allowed,
//! `specs/Moderation.antt` how far it holds back, and `specs/Copier.antt` what a copier stands for. The functions of
//! `laws` say what that means over time. `docs/monitor.md` has the same as tables.
//!
//! The tests are in `src/tests.rt`.

#![tactic(auto)]

mod copier;
mod laws;
mod moderation;
#[cfg(test)]
mod tests;
mod window;

pub use copier::Copier;
pub use laws::{
    a_gap_passes_before_each_copy, nothing_is_allowed_before_the_ready, quiet_ticks_allow_copying,
};
pub use moderation::{MOST_GAP, MOST_LIMIT, MOST_WINDOW};
pub use std::alloc::AllocError as NoMemory;
