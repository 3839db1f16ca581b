//! The view.

use ata_taskfile::{Bus, TaskFile};

/// What a plain drive would show the guest: its registers with their phase, and its bus master.
///
/// On the guest's side it keeps what can't be read, Features and Device Control, and the bus master where the command
/// given doesn't use the drive's; its other registers are those at the last `give`.
#[derive(Clone, Copy, Debug, PartialEq, Eq)]
pub struct View {
    pub file: TaskFile,
    pub bus: Bus,
}
