//! What the monitor has the drive do for itself.

ghost use Rattle.std.specs.Prelude.{◌≡◌};
ghost use Rattle.own_pio.specs.Job.{IsFit, polls_of};

/// The most sectors that one job moves: a block of the image of the largest size (own).
pub const MOST_MOVED: u32 = 64;

/// A job of the monitor's own: one command to the drive, which the guest doesn't see (own).
#[derive(Clone, Copy, Debug, PartialEq, Eq)]
pub enum OwnJob {
    /// Reads sectors: the first, and how many.
    Read(u64, u32),
    /// Writes sectors: the first, and how many.
    Write(u64, u32),
    /// Makes all that was written durable.
    Flush,
}

impl OwnJob {
    // A poll for each block, and one more where the drive is at work after the last.
    pub(crate) fn polls(self) -> u32
        requires { IsFit self }
        ensures { result ≡ polls_of self }
    {
        match self {
            OwnJob::Read(_, count) => count,
            OwnJob::Write(_, count) => count + 1,
            OwnJob::Flush => 1,
        }
    }
}
