//! A drive over any store: a device with its sectors behind a write cache, which makes a step at a time.
//!
//! Start with `drive` for the type, then `steps` for what it does of its own and `ports` for the guest's accesses.
//! `cached_store` has the sectors: a store, and the values that were written and aren't durable yet.
//! `data` moves many words of Data at once, `identify` has the words of IDENTIFY DEVICE, and `words` turns sectors into
//! words and back. `specs/Drive.antt` says which physical drive a drive means; what an access, a step, a destage and a
//! cut do to that is defined in `ata_taskfile` and `plain_drive`, and `docs/drive.md` has the same as tables.
//!
//! The tests are in `src/tests.rt`, and those of whole commands in the files of `src/runs/`.

#![tactic(auto)]

mod cached_store;
mod data;
mod drive;
mod identify;
mod ports;
#[cfg(test)]
mod runs;
mod steps;
#[cfg(test)]
mod tests;
mod words;

pub use cached_store::MOST_ENTRIES;
pub use drive::Drive;
