//! What the monitor writes to a drive at rest.

ghost use Rattle.std.specs.Prelude.{◌≡◌, ◌%◌, true, false, length, slice_index, bit_and, []};
ghost use Rattle.ata_taskfile.specs.declared.Phase.TheVariants.{Idle, Busy as AtWork};
ghost use Rattle.ata_taskfile.specs.declared.registers.TheConstants.{SRST, CONTROL_BITS, DEV};
ghost use Rattle.ata_taskfile.specs.TaskFile.{has_bit, stored};
ghost use Rattle.ata_taskfile.specs.Order.{inputs, order_of, taken};
ghost use Rattle.ata_taskfile.specs.Bus.{bit_shown};
ghost use Rattle.ata_taskfile.specs.Device.{Device, with_bus};
ghost use Rattle.ata_taskfile.specs.Accesses.{Reaches};
ghost use Rattle.port_lease.specs.Handover.{after_take};
ghost use Rattle.port_lease.specs.Writing.{is_plain_register, plainly_written, with_registers, IsAtRest, bus_put, bus_started};

use crate::reading::peek;
use ata_taskfile::registers::{INWARD, START};
use ata_taskfile::{Bus, Ports, Reg, TaskFile};

// Stops the drive's walk, and leaves the direction.
pub(crate) fn stop_walk<P: Ports>(ports: &mut P)
    ensures stopped { P.device ports.new ≡ after_take (P.device ports.old) }
    ensures rest { P.rest ports.new ≡ P.rest ports.old }
    ensures reached { (origin : Device) → Reaches origin (P.device ports.old)
        → Reaches origin (P.device ports.new) }
{
    let command = peek(ports, Reg::BusCommand);
    ports.write8(Reg::BusCommand, command & !START);
}

// Writes Device Control of a drive without an interrupt, by a byte that begins no reset.
pub(crate) fn put_control<P: Ports>(ports: &mut P, v: u8)
    requires unpended { (P.device ports.old).file.pending ≡ false }
    requires no_reset { has_bit SRST v ≡ false }
    ensures put { let d = P.device ports.old in
        P.device ports.new
        ≡ record d { file = record d.file { control = bit_and v CONTROL_BITS } } }
    ensures rest { P.rest ports.new ≡ P.rest ports.old }
    ensures reached { (origin : Device) → Reaches origin (P.device ports.old)
        → Reaches origin (P.device ports.new) }
{
    ports.write8(Reg::Alternate, v);
}

// Writes a register of the command block other than Command, which a drive at work ignores.
#[tactic(auto, using(crate::proofs::Plain::plainly))]
pub(crate) fn put_register<P: Ports>(ports: &mut P, reg: Reg, v: u8)
    requires plain { is_plain_register reg ≡ true }
    ensures put { P.device ports.new ≡ plainly_written reg v (P.device ports.old) }
    ensures rest { P.rest ports.new ≡ P.rest ports.old }
    ensures reached { (origin : Device) → Reaches origin (P.device ports.old)
        → Reaches origin (P.device ports.new) }
{
    ports.write8(reg, v);
}

// Writes both bytes of a register. The previous one goes first, since the current one makes it the previous.
fn put_both<P: Ports>(ports: &mut P, reg: Reg, bytes: [u8; 2])
    requires plain { is_plain_register reg ≡ true }
    requires rests { IsAtRest (P.device ports.old).file }
    ensures put { let d = P.device ports.old in P.device ports.new
        ≡ record d {
          file = stored reg (slice_index bytes 0) (stored reg (slice_index bytes 1) d.file);
        } }
    ensures rest { P.rest ports.new ≡ P.rest ports.old }
    ensures reached { (origin : Device) → Reaches origin (P.device ports.old)
        → Reaches origin (P.device ports.new) }
{
    put_register(ports, reg, bytes[1]);
    put_register(ports, reg, bytes[0]);
}

// Writes all registers that a command reads, of a drive at rest.
pub(crate) fn put_registers<P: Ports>(ports: &mut P, file: &TaskFile)
    requires rests { IsAtRest (P.device ports.old).file }
    ensures put { let d = P.device ports.old in
        P.device ports.new ≡ record d { file = with_registers file.now d.file } }
    ensures rest { P.rest ports.new ≡ P.rest ports.old }
    ensures reached { (origin : Device) → Reaches origin (P.device ports.old)
        → Reaches origin (P.device ports.new) }
{
    put_register(ports, Reg::Error, file.features);
    put_both(ports, Reg::Count, file.count);
    put_both(ports, Reg::Low, file.low);
    put_both(ports, Reg::Mid, file.mid);
    put_both(ports, Reg::High, file.high);
    put_register(ports, Reg::Device, file.device);
}

// Writes Command of a drive at rest with DEV at 0, which is then at work on the command's order or its refusal.
pub(crate) fn put_command<P: Ports>(ports: &mut P, command: u8)
    requires rests { IsAtRest (P.device ports.old).file }
    requires selected { has_bit DEV (P.device ports.old).file.device ≡ false }
    ensures taken { let d = P.device ports.old in P.device ports.new ≡ record d {
      file = record d.file {
        command = command;
        error = 0;
        failed = false;
        phase = AtWork (taken (order_of command (inputs d.file) d.sectors)) 0;
      };
    } }
    ensures rest { P.rest ports.new ≡ P.rest ports.old }
    ensures reached { (origin : Device) → Reaches origin (P.device ports.old)
        → Reaches origin (P.device ports.new) }
{
    ports.write8(Reg::Status, command);
}

// The direction and the pointer of a bus master, which is stopped for it.
pub(crate) fn put_bus<P: Ports>(ports: &mut P, bus: &Bus)
    requires { bus.now.pointer % 4 ≡ 0 }
    ensures put { let d = P.device ports.old in
        P.device ports.new ≡ with_bus (bus_put bus.now d.bus) d }
    ensures rest { P.rest ports.new ≡ P.rest ports.old }
    ensures reached { (origin : Device) → Reaches origin (P.device ports.old)
        → Reaches origin (P.device ports.new) }
{
    ports.write8(Reg::BusCommand, direction(bus));
    ports.write_pointer(bus.pointer);
}

// The direction and the pointer of a bus master, and a walk, which begins at the table's top.
pub(crate) fn start_bus<P: Ports>(ports: &mut P, bus: &Bus)
    requires { bus.now.pointer % 4 ≡ 0 }
    ensures put { let d = P.device ports.old in
        P.device ports.new ≡ with_bus (bus_started bus.now d.bus) d }
    ensures rest { P.rest ports.new ≡ P.rest ports.old }
    ensures reached { (origin : Device) → Reaches origin (P.device ports.old)
        → Reaches origin (P.device ports.new) }
{
    put_bus(ports, bus);
    ports.write8(Reg::BusCommand, direction(bus) | START);
}

// The byte of the bus master's command register without start.
fn direction(bus: &Bus) -> u8
    ensures { result ≡ bit_shown bus.now.inward INWARD }
{
    if bus.inward { INWARD } else { 0 }
}
