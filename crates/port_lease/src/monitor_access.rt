//! What the monitor writes to the drive for commands of its own: it asks for its side, which stays as it is.

ghost use Rattle.std.specs.Prelude.{◌≡◌, true, false, bit_and};
ghost use Rattle.ata_taskfile.specs.declared.Phase.TheVariants.{Busy as AtWork};
ghost use Rattle.ata_taskfile.specs.declared.registers.TheConstants.{SRST, CONTROL_BITS, DEV};
ghost use Rattle.ata_taskfile.specs.TaskFile.{has_bit};
ghost use Rattle.ata_taskfile.specs.Order.{inputs, order_of, taken};
ghost use Rattle.ata_taskfile.specs.Device.{Device};
ghost use Rattle.ata_taskfile.specs.Accesses.{Reaches};
ghost use Rattle.port_lease.specs.Writing.{is_plain_register, plainly_written, IsAtRest};

use crate::MonitorSide;
use crate::writing::{put_command, put_control, put_register};
use ata_taskfile::{Ports, Reg};

impl MonitorSide {
    /// Writes Device Control, which keeps HOB and nIEN of `v`, of a drive without an interrupt, so that the line stays
    /// low (ATA/ATAPI-6, Device Control register). SRST at 1 would begin a reset.
    pub fn put_control<P: Ports>(&mut self, ports: &mut P, v: u8)
        requires unpended { (P.device ports.old).file.pending ≡ false }
        requires no_reset { has_bit SRST v ≡ false }
        ensures put { let d = P.device ports.old in
            P.device ports.new
            ≡ record d { file = record d.file { control = bit_and v CONTROL_BITS } } }
        ensures side { self.new ≡ self.old }
        ensures rest { P.rest ports.new ≡ P.rest ports.old }
        ensures reached { (origin : Device) → Reaches origin (P.device ports.old)
            → Reaches origin (P.device ports.new) }
    {
        put_control(ports, v);
    }

    /// Writes a register of the command block other than Command. A drive at work ignores it. In one of two bytes the
    /// byte becomes the current one, and what was current the previous one (ATA/ATAPI-6, BSY bit and 48-bit Address
    /// feature set).
    pub fn put_register<P: Ports>(&mut self, ports: &mut P, reg: Reg, v: u8)
        requires plain { is_plain_register reg ≡ true }
        ensures put { P.device ports.new ≡ plainly_written reg v (P.device ports.old) }
        ensures side { self.new ≡ self.old }
        ensures rest { P.rest ports.new ≡ P.rest ports.old }
        ensures reached { (origin : Device) → Reaches origin (P.device ports.old)
            → Reaches origin (P.device ports.new) }
    {
        put_register(ports, reg, v);
    }

    /// Writes Command of a drive at rest with DEV at 0. The drive is then at work on the order that `command` gives
    /// over its registers, or on its refusal; Error is 00h, and no other register changes (ATA/ATAPI-6, Command
    /// register).
    pub fn put_command<P: Ports>(&mut self, ports: &mut P, command: u8)
        requires rests { IsAtRest (P.device ports.old).file }
        requires selected { has_bit DEV (P.device ports.old).file.device ≡ false }
        ensures taken { let d = P.device ports.old in P.device ports.new ≡ record d {
          file = record d.file {
            command = command;
            error = 0;
            failed = false;
            phase = AtWork (taken (order_of command (inputs d.file) d.sectors)) 0;
          };
        } }
        ensures side { self.new ≡ self.old }
        ensures rest { P.rest ports.new ≡ P.rest ports.old }
        ensures reached { (origin : Device) → Reaches origin (P.device ports.old)
            → Reaches origin (P.device ports.new) }
    {
        put_command(ports, command);
    }
}
