//! The outside of the program: the files that it reads and writes by their role, and what is known of them.
//!
//! Start with `Host`, the trait that everything above reaches files by. `FileHost` is the host of real files,
//! `MemoryHost` one whose files are in memory and whose calls fail by their number, and `QuietHost` one that never
//! fails.
//!
//! `specs/Outside.antt` says what a host holds and what a call may change, `specs/Host.antt` what each call does,
//! `specs/MemoryHost.antt` when a call of a `MemoryHost` fails, and `specs/QuietHost.antt` what a `QuietHost` tells.
//! `proofs/OutsideLaws.antt` has the laws for those who make several calls.
//!
//! Each host's tests are in the file `tests.rt` of its folder, and those of a file by its role in
//! `src/role_file/tests.rt`.

#![tactic(auto)]

mod by_role;
#[cfg(test)]
mod calls;
mod file_host;
mod host;
mod memory_file;
mod memory_host;
mod named_files;
mod plan;
mod quiet_file;
mod quiet_host;
mod reading;
mod role_file;
mod tally;

pub use file_host::FileHost;
pub use host::Host;
pub use memory_host::MemoryHost;
pub use quiet_host::{QuietHost, no_count_of_a_quiet_host_rises};
pub use std::alloc::AllocError as NoMemory;

/// What a file is for.
#[derive(Clone, Copy, Debug, PartialEq, Eq)]
pub enum Role {
    /// The system image, which is read.
    Image,
    /// The disk as it stood before the run, which is read.
    Disk,
    /// The events, which are read from their start to their end.
    Schedule,
    /// The answers, which are written line by line.
    Report,
    /// The disk as it stands after the run, which is written.
    Out,
    /// The terminal.
    Console,
}

/// A call to the outside failed. Its count of faults says of which role.
#[derive(Clone, Copy, Debug, PartialEq, Eq)]
pub struct Failed;
