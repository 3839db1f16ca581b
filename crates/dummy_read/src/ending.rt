//! How a dummy read's command ends.

ghost use Rattle.std.specs.Prelude.{◌≡◌, true};
ghost use Rattle.ata_taskfile.specs.declared.Phase.TheVariants.{Idle};
ghost use Rattle.ata_taskfile.specs.Device.{Device, with_phase};
ghost use Rattle.ata_taskfile.specs.Accesses.{Reaches};
ghost use Rattle.own_pio.specs.Moving.{IsGivenWhole, phase_left};
ghost use Rattle.dummy_read.specs.Dummy.{sector_of, is_cancelled};
ghost use Rattle.dummy_read.specs.Flight.{IsInFlight};

use crate::Dummy;
use ata_taskfile::registers::{BLOCK_WORDS, DRQ, has_bit};
use ata_taskfile::{Ports, Reg};

impl Dummy {
    // Takes the words where DRQ shows them. Alternate Status shows it too, and leaves the interrupt to the guest.
    pub(crate) fn take_words<P: Ports>(&self, ports: &mut P)
        requires flies { IsInFlight (sector_of self.now) (is_cancelled self.now)
            (P.device ports.old) }
        requires pending { (P.device ports.old).file.pending ≡ true }
        ensures after { P.device ports.new ≡ with_phase Idle (P.device ports.old) }
        ensures rest { P.rest ports.new ≡ P.rest ports.old }
        ensures reached { (origin : Device) → Reaches origin (P.device ports.old)
            → Reaches origin (P.device ports.new) }
    {
        if has_bit(DRQ, ports.read8(Reg::Alternate)) {
            drop_block(ports);
        }
    }
}

// Takes the block that waits in Data, whose words no one wants.
fn drop_block<P: Ports>(ports: &mut P)
    requires given { IsGivenWhole (P.device ports.old) }
    ensures after { let d = P.device ports.old in
        P.device ports.new ≡ with_phase (phase_left d.file.phase 0) d }
    ensures rest { P.rest ports.new ≡ P.rest ports.old }
    ensures reached { (origin : Device) → Reaches origin (P.device ports.old)
        → Reaches origin (P.device ports.new) }
{
    for _ in 0..BLOCK_WORDS {
        ports.read_word();
    }
}
