//! What the monitor reads of the drive, which leaves no trace there.

ghost use Rattle.std.specs.Prelude.{◌≡◌, false};
ghost use Rattle.ata_taskfile.specs.Device.{Device, byte_read};
ghost use Rattle.ata_taskfile.specs.Accesses.{Reaches};
ghost use Rattle.ata_taskfile.specs.Lawful.{moved_by};
ghost use Rattle.port_lease.specs.Free.{shows_rest, is_free};
ghost use Rattle.port_lease.specs.View.{is_status_or_command};

use ata_taskfile::registers::{
    ACTIVE, BSY, BUS_ERROR, DEV, DRQ, INTERRUPT, INWARD, START, has_bit,
};
use ata_taskfile::{Bus, Ports, Reg};

// Reads a register other than Status.
pub(crate) fn peek<P: Ports>(ports: &mut P, reg: Reg) -> u8
    requires { is_status_or_command reg ≡ false }
    ensures byte { result ≡ byte_read reg (P.device ports.old) }
    ensures unmoved { P.device ports.new ≡ P.device ports.old }
    ensures rest { P.rest ports.new ≡ P.rest ports.old }
    ensures reached { (origin : Device) → Reaches origin (P.device ports.old)
        → Reaches origin (P.device ports.new) }
{
    ports.read8(reg)
}

// Whether the monitor may have the drive.
pub(crate) fn is_free<P: Ports>(ports: &mut P) -> bool
    ensures free { result ≡ is_free (P.device ports.old).file }
    ensures unmoved { P.device ports.new ≡ P.device ports.old }
    ensures rest { P.rest ports.new ≡ P.rest ports.old }
    ensures reached { (origin : Device) → Reaches origin (P.device ports.old)
        → Reaches origin (P.device ports.new) }
{
    let rests = shows_rest(ports);
    rests && !ports.pending()
}

/// Whether the drive shows neither BSY nor DRQ nor DEV, which is exactly when it takes a command. It leaves no trace
/// there, and either side may ask it.
pub fn shows_rest<P: Ports>(ports: &mut P) -> bool
    ensures rests { result ≡ shows_rest (P.device ports.old).file }
    ensures unmoved { P.device ports.new ≡ P.device ports.old }
    ensures rest { P.rest ports.new ≡ P.rest ports.old }
    ensures reached { (origin : Device) → Reaches origin (P.device ports.old)
        → Reaches origin (P.device ports.new) }
{
    let status = peek(ports, Reg::Alternate);
    let device = peek(ports, Reg::Device);
    !has_bit(BSY, status) && !has_bit(DRQ, status) && !has_bit(DEV, device)
}

// The drive's bus master, whose walk has moved nothing.
#[tactic(auto, using(crate::proofs::Bus::start_read, crate::proofs::Bus::inward_read, crate::proofs::Bus::active_read, crate::proofs::Bus::error_read, crate::proofs::Bus::interrupt_read, crate::proofs::Bus::all_read))]
pub(crate) fn bus_of<P: Ports>(ports: &mut P) -> Bus
    requires { moved_by (P.device ports.old).bus.walk ≡ 0 }
    ensures bus { result ≡ (P.device ports.old).bus }
    ensures unmoved { P.device ports.new ≡ P.device ports.old }
    ensures rest { P.rest ports.new ≡ P.rest ports.old }
    ensures reached { (origin : Device) → Reaches origin (P.device ports.old)
        → Reaches origin (P.device ports.new) }
{
    let command = peek(ports, Reg::BusCommand);
    let status = peek(ports, Reg::BusStatus);
    Bus {
        start: has_bit(START, command),
        inward: has_bit(INWARD, command),
        active: has_bit(ACTIVE, status),
        error: has_bit(BUS_ERROR, status),
        interrupt: has_bit(INTERRUPT, status),
        pointer: ports.read_pointer(),
        walk: if ports.walking() { Some(0) } else { None },
    }
}
