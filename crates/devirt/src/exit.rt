//! Whether the monitor may leave.

ghost use Rattle.std.specs.Prelude.{◌≡◌};
ghost use Rattle.devirt.specs.Leaving.{exit_of, are_well};

use ata_taskfile::registers::STATUS_IDLE;
use port_lease::{View, is_clean};

/// What an idle turn does about leaving (own).
#[derive(Clone, Copy, Debug, PartialEq, Eq)]
pub enum Exit {
    /// The monitor may go: `remove` won't refuse.
    Leave,
    /// Only the drive is in the way, which doesn't show Status 50h and Error 00h: an own flush is begun, and shows both
    /// once it went well.
    CleanUp,
    /// The monitor stays as it is: a block isn't stored, or the guest would see it go.
    Stay,
}

/// Whether the monitor may leave, by the rule of docs/monitor.md: the first row that holds (own).
///
/// `own` says that an own command stands, and `stored` that every block is stored. `status` and `error` are the drive's
/// Status and Error.
pub fn leaving(view: &View, own: bool, status: u8, error: u8, stored: bool) -> Exit
    ensures exit { result ≡ exit_of view.now own status error stored }
{
    if !stored || !is_clean(view, own) {
        Exit::Stay
    } else if are_well(status, error) {
        Exit::Leave
    } else {
        Exit::CleanUp
    }
}

// Whether a drive that shows these is at rest, and its last command went well.
fn are_well(status: u8, error: u8) -> bool
    ensures well { result ≡ are_well status error }
{
    status == STATUS_IDLE && error == 0
}
