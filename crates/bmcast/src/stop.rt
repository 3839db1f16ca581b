//! Why a run stops before its end.
//!
//! Where a clause says which stop a step's answer has, the answer is matched and its stop returned: of what `?` returns
//! it is known only that it is an error.

ghost use Rattle.std.specs.Prelude.{◌≡◌};
ghost use Rattle.bmcast.specs.Stop.{status_of, stop_at_start, stop_of};

use crate::{Status, Why};
use bm_host::Role;
use schedule_text::LineFault;
use world::{HostFault, StartFault};

/// A run's end other than Done. It is an enum beside `Status`, which has Done too, so that by its type no step that
/// fails can answer that the run is done.
#[derive(Clone, Copy, Debug, PartialEq, Eq)]
pub(crate) enum Stop {
    Usage,
    Unsuitable(Why),
    BadLine(u32, LineFault),
    ReadFault(Role),
    WriteFault(Role),
    NoMemory,
}

impl Stop {
    /// The stop for a fault of the host.
    pub(crate) fn of(fault: HostFault) -> Stop
        ensures { result ≡ stop_of fault }
    {
        match fault {
            HostFault::Read(role) => Stop::ReadFault(role),
            HostFault::Write(role) => Stop::WriteFault(role),
        }
    }

    /// The stop of a world that could not begin.
    pub(crate) fn at_start(fault: StartFault) -> Stop
        ensures { result ≡ stop_at_start fault }
    {
        match fault {
            StartFault::Host(fault) => Stop::of(fault),
            StartFault::NoMemory => Stop::NoMemory,
        }
    }

    /// The status that the run ends with.
    pub(crate) fn status(self) -> Status
        ensures { result ≡ status_of self }
    {
        match self {
            Stop::Usage => Status::Usage,
            Stop::Unsuitable(why) => Status::Unsuitable(why),
            Stop::BadLine(number, fault) => Status::BadLine(number, fault),
            Stop::ReadFault(role) => Status::ReadFault(role),
            Stop::WriteFault(role) => Status::WriteFault(role),
            Stop::NoMemory => Status::NoMemory,
        }
    }
}
