//! The write cache of a drive: the values that were written and aren't durable yet, in order of writing.
//!
//! Start with `Cache`. `specs/Cache.antt` says what each call does to the list of entries; the functions of `laws`
//! say what that means for the values of one sector.
//!
//! The tests are in `src/tests.rt`.

#![tactic(auto)]

mod cache;
mod entry;
mod laws;
mod ring;
#[cfg(test)]
mod tests;

pub use cache::{Cache, no_more_entries_than_room};
pub use entry::{Entry, SECTOR_BYTES};
pub use laws::{
    a_taken_entry_takes_the_older, a_written_value_leads, the_newest_entry_leads,
    the_oldest_entry_is_last,
};
pub use std::alloc::AllocError as NoMemory;
