//! Tests of the monitor's parts over the drive itself, poll by poll, with steps of the drive and destages between.
//!
//! It has tests alone. Start with `machine`, the drive that they have in common; then `handover` for the sides of the
//! drive, `own_commands` for the monitor's own, `dummy_reads`, and `guest_accesses` for what the guest does meanwhile.
//! The values are by hand from `docs/monitor.md` and `docs/drive.md`.

#![tactic(auto)]

#[cfg(test)]
mod dummy_reads;
#[cfg(test)]
mod guest_accesses;
#[cfg(test)]
mod handover;
#[cfg(test)]
mod machine;
#[cfg(test)]
mod own_commands;
