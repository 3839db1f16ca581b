//! What is left when the monitor is gone.

ghost use Rattle.std.specs.Prelude.{◌≡◌};
ghost use Rattle.ata_taskfile.specs.Device.{Device};
ghost use Rattle.ata_taskfile.specs.Accesses.{Reaches};
ghost use Rattle.ata_taskfile.specs.Access.{answer_to, accessed};

use ata_taskfile::{Access, Answer, Ports, perform};

/// The monitor is gone for good, and the guest has the drive alone.
///
/// It can be neither copied nor let go: `end` ends it at a power cut.
pub struct Gone {
    pub(crate) left: (),
}

impl Gone {
    /// A guest's access, which is the drive's own.
    pub fn access<P: Ports>(&mut self, ports: &mut P, access: &Access) -> Answer
        ensures answer { result ≡ answer_to access.now (P.device ports.old) }
        ensures after { P.device ports.new ≡ accessed access.now (P.device ports.old) }
        ensures rest { P.rest ports.new ≡ P.rest ports.old }
        ensures reached { (origin : Device) → Reaches origin (P.device ports.old)
            → Reaches origin (P.device ports.new) }
    {
        perform(ports, access)
    }

    /// Ends the state at a power cut, after which the drive is the monitor's by `power_on`. It does nothing but use the
    /// state up.
    pub fn end(self) {
        let Gone { left: () } = self;
    }
}
