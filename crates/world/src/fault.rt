//! Why a world could not begin or go on.

use bm_host::Role;
use thiserror::Error;

/// A call to the host failed: the role, and whether it was to be read or written.
#[derive(Clone, Copy, Debug, Drop, Error, PartialEq, Eq)]
pub enum HostFault {
    /// The role could not be read.
    #[error("the role can't be read")]
    Read(Role),
    /// The role could not be written.
    #[error("the role can't be written")]
    Write(Role),
}

/// Why a world could not begin.
#[derive(Clone, Copy, Debug, Drop, Error, PartialEq, Eq)]
pub enum StartFault {
    /// A call to the host failed.
    #[error("a call to the host failed")]
    Host(HostFault),
    /// There was not enough memory.
    #[error("there is not enough memory")]
    NoMemory,
}
