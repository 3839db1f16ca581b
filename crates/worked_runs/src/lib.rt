//! Whole runs of `bmcast`, nearly all over files in memory: what it writes, and how it ends.
//!
//! It has tests alone. Start with `hosts`, the files and words that the runs have in common; then `done` for runs
//! that are done, `drive` for the kinds of events, `deployments` for those with an image on the network, `refusals` for
//! files, words and lines that are refused, `faults` for hosts that fail, and `files` for real files. The values are by
//! hand from `docs/formats.md`, `docs/drive.md`, `docs/monitor.md` and `docs/network.md`.

#![tactic(auto)]

#[cfg(test)]
mod deployments;
#[cfg(test)]
mod done;
#[cfg(test)]
mod drive;
#[cfg(test)]
mod faults;
#[cfg(test)]
mod files;
#[cfg(test)]
mod hosts;
#[cfg(test)]
mod refusals;
