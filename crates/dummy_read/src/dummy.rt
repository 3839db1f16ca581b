//! A dummy read, from its begin to its end.

ghost use Rattle.std.specs.Prelude.{◌≡◌, ◌<◌, ◌^◌, ◌&&◌, true, false, not};
ghost use Rattle.ata_taskfile.specs.declared.Phase.TheVariants.{Busy};
ghost use Rattle.ata_taskfile.specs.TaskFile.{masks_line};
ghost use Rattle.ata_taskfile.specs.Device.{Device, line_read};
ghost use Rattle.ata_taskfile.specs.Accesses.{Reaches};
ghost use Rattle.port_lease.specs.Free.{is_free, shows_rest};
ghost use Rattle.port_lease.specs.Sides.{view_held, has_own};
ghost use Rattle.own_pio.specs.Job.{command_of, job_order};
ghost use Rattle.own_pio.specs.Running.{IsUnseen};
ghost use Rattle.dummy_read.specs.Dummy.{sector_of, is_cancelled, job_on};
ghost use Rattle.dummy_read.specs.Flight.{IsInFlight, ended, silenced};

use ata_taskfile::registers::{NIEN, has_bit};
use ata_taskfile::{Ports, Reg};
use own_pio::{acknowledge, command_read};
use port_lease::MonitorSide;

/// A dummy read that was raised: one sector, read for its interrupt alone.
#[derive(Drop)]
pub struct Dummy {
    pub(crate) sector: u64,
    pub(crate) cancelled: bool,
}

impl Dummy {
    /// Begins a read of one sector on a free drive, with nIEN as the guest has it in the view. It is an own command
    /// of the monitor's, which stands on the side until it has ended.
    pub fn raise<P: Ports>(side: &mut MonitorSide, ports: &mut P, sector: u64) -> Dummy
        requires alone { has_own side.old ≡ false }
        requires free { is_free (P.device ports.old).file ≡ true }
        requires below { sector < 2 ^ 28 }

        ensures sector { sector_of result ≡ sector }
        ensures uncancelled { is_cancelled result ≡ false }
        ensures flies { IsInFlight sector false (P.device ports.new) }
        ensures taken { (P.device ports.new).file.phase
            ≡ Busy (job_order (job_on sector) (P.device ports.old).sectors) 0 }
        ensures byte { (P.device ports.new).file.command ≡ command_of (job_on sector) }
        ensures nien { masks_line (P.device ports.new).file
            ≡ masks_line (view_held side.old).file }

        // No interrupt yet, and no sector changes.
        ensures unpended { (P.device ports.new).file.pending ≡ false }
        ensures unseen { IsUnseen (P.device ports.old) (P.device ports.new) }
        ensures line { line_read (P.device ports.new) ≡ false }
        ensures own { has_own side.new ≡ true }
        ensures view { view_held side.new ≡ view_held side.old }
        ensures rest { P.rest ports.new ≡ P.rest ports.old }
        ensures reached { (origin : Device) → Reaches origin (P.device ports.old)
            → Reaches origin (P.device ports.new) }
    {
        let masked = has_bit(NIEN, side.view().file.control);
        side.own_begins();
        command_read(side, ports, masked, sector, 1);
        Dummy {
            sector,
            cancelled: false,
        }
    }

    /// Whether the drive's interrupt pends, good or failed. The read has then ended: its words are taken, and the
    /// interrupt stays for the guest, or is acknowledged where the read was cancelled.
    pub fn poll<P: Ports>(&mut self, side: &mut MonitorSide, ports: &mut P) -> bool
        requires flies { IsInFlight (sector_of self.old) (is_cancelled self.old)
            (P.device ports.old) }

        ensures answer { result ≡ (P.device ports.old).file.pending }
        ensures waits { result ≡ false → P.device ports.new ≡ P.device ports.old }
        ensures ended { result ≡ true
            → P.device ports.new ≡ ended (is_cancelled self.old) (P.device ports.old) }
        ensures rests { result ≡ true → shows_rest (P.device ports.new).file ≡ true }
        ensures pending { result ≡ true
            → (P.device ports.new).file.pending ≡ not (is_cancelled self.old) }
        ensures dummy { self.new ≡ self.old }

        // The line is as the drive's step left it: as high as the guest's nIEN lets it be, or low once cancelled.
        ensures unseen { IsUnseen (P.device ports.old) (P.device ports.new) }
        ensures high { result ≡ true → is_cancelled self.old ≡ false
            → line_read (P.device ports.new) ≡ not (masks_line (P.device ports.old).file) }
        ensures low { is_cancelled self.old ≡ true → line_read (P.device ports.new) ≡ false }

        ensures own { has_own side.new ≡ (not result && has_own side.old) }
        ensures view { view_held side.new ≡ view_held side.old }
        ensures rest { P.rest ports.new ≡ P.rest ports.old }
        ensures reached { (origin : Device) → Reaches origin (P.device ports.old)
            → Reaches origin (P.device ports.new) }
    {
        if !ports.pending() {
            return false;
        }
        self.take_words(ports);
        if self.cancelled {
            acknowledge(side, ports);
        }
        side.own_ended();
        true
    }

    /// Cancels the read, which goes on unseen: the guest is told nothing of it, now or at its end.
    pub fn cancel<P: Ports>(&mut self, side: &mut MonitorSide, ports: &mut P)
        requires flies { IsInFlight (sector_of self.old) (is_cancelled self.old)
            (P.device ports.old) }

        ensures sector { sector_of self.new ≡ sector_of self.old }
        ensures cancelled { is_cancelled self.new ≡ true }
        ensures flies { IsInFlight (sector_of self.old) true (P.device ports.new) }
        ensures drive { P.device ports.new ≡ silenced (P.device ports.old) }
        ensures line { line_read (P.device ports.new) ≡ false }
        ensures side { side.new ≡ side.old }
        ensures rest { P.rest ports.new ≡ P.rest ports.old }
        ensures reached { (origin : Device) → Reaches origin (P.device ports.old)
            → Reaches origin (P.device ports.new) }
    {
        self.cancelled = true;
        ports.write8(Reg::Alternate, NIEN);
    }
}
