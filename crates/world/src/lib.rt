//! The whole that a run is about: the drive, the guest's memory, the network and the image server, and the monitor,
//! where the image isn't empty.
//!
//! Start with `World`. `events` has an event of a drive without a monitor, `deployed` one of a drive with a monitor,
//! with the guest's accesses in `accesses`, `network` one of the network, and `disk` how the disk's sectors are read
//! before the run and written to Out after it. `specs/Faults.antt` says how a call fails; what an
//! event does is defined in the crate `streaming`, and `docs/network.md` has the same in words.
//!
//! The tests are in `src/tests.rt`, and those of whole runs in the crate `worked_runs`.

#![tactic(auto)]

mod accesses;
mod deployed;
mod disk;
mod events;
mod fault;
mod laws;
mod machine;
mod network;
#[cfg(test)]
mod tests;
mod world;

pub use fault::{HostFault, StartFault};
pub use laws::durable_sectors_are_the_plain_drives;
pub use world::World;
