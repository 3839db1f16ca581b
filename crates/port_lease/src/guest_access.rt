//! A guest's access on its own side.

ghost use Rattle.std.specs.Prelude.{◌≡◌, ◌≢◌, true, false};
ghost use Rattle.ata_taskfile.specs.Access.{answer_to, accessed};
ghost use Rattle.ata_taskfile.specs.declared.Phase.{Phase};
ghost use Rattle.ata_taskfile.specs.TaskFile.{is_of_bus, is_at_work, selects_absent};
ghost use Rattle.ata_taskfile.specs.Device.{Device, byte_read, after_read8, after_write8, pointer_read};
ghost use Rattle.ata_taskfile.specs.Accesses.{Reaches};
ghost use Rattle.port_lease.specs.Quiet.{IsQuiet};
ghost use Rattle.port_lease.specs.View.{IsKept, IsGiven, is_status_or_command, is_command, reached, file_kept, bus_kept, pointer_kept, control_kept, with_kept};
ghost use Rattle.port_lease.specs.Seen.{on_guest_side};
ghost use Rattle.port_lease.specs.Sides.{view_kept};
ghost use Rattle.port_lease.specs.Writing.{is_plain_register, asked};

use crate::reading::peek;
use crate::writing::put_register;
use crate::{GuestSide, View};
use ata_taskfile::registers::{
    ACTIVE, BSY, BUS_ERROR, CONTROL_BITS, DEV, HOB, INTERRUPT, SRST, has_bit,
};
use ata_taskfile::{Access, Answer, Bus, Ports, Reg, TaskFile, perform};

impl GuestSide {
    /// A guest's access, other than a Command write. It reaches the drive, but for those to a bus master that the
    /// command given doesn't use: that one is the view's, with the drive's interrupt bit and the error bit of both.
    /// What can't be read, Features and Device Control, is kept in the view, also over a reset and where the drive
    /// ignores a write.
    pub fn access<P: Ports>(&mut self, ports: &mut P, access: &Access) -> Answer
        requires kept { IsKept (view_kept self.old) (P.device ports.old).file }
        requires no_command { is_command access.now ≡ false }
        ensures answer { result
            ≡ answer_to access.now (on_guest_side (view_kept self.old) (P.device ports.old)) }
        ensures drive { P.device ports.new
            ≡ reached (view_kept self.old) access.now (P.device ports.old) }

        // To the guest its side is one device, whose bus master is the drive's or the view's.
        ensures after { IsGiven (view_kept self.old) (P.device ports.old)
            → on_guest_side (view_kept self.new) (P.device ports.new)
            ≡ accessed access.now (on_guest_side (view_kept self.old) (P.device ports.old)) }
        ensures given { IsGiven (view_kept self.old) (P.device ports.old)
            → IsGiven (view_kept self.new) (P.device ports.new) }
        ensures kept { IsKept (view_kept self.new) (P.device ports.new).file }
        ensures others { (view_kept self.new).file
            ≡ with_kept (P.device ports.new).file (view_kept self.old).file }
        ensures rest { P.rest ports.new ≡ P.rest ports.old }
        ensures reached { (origin : Device) → Reaches origin (P.device ports.old)
            → Reaches origin (P.device ports.new) }
    {
        match *access {
            Access::Read8(reg) => Answer::Byte(read8(&self.view, ports, reg)),
            Access::Write8(reg, v) => {
                self.write8(ports, reg, v);
                Answer::Nothing
            }
            Access::ReadPointer => Answer::Long(read_pointer(&self.view, ports)),
            Access::WritePointer(v) => {
                self.write_pointer(ports, v);
                Answer::Nothing
            }
            Access::ReadWord | Access::WriteWord(_) | Access::Line => perform(ports, access),
        }
    }

    fn write8<P: Ports>(&mut self, ports: &mut P, reg: Reg, v: u8)
        requires { is_status_or_command reg ≡ false }
        ensures drive { P.device ports.new
            ≡ reached (view_kept self.old) (Access.Write8 reg v) (P.device ports.old) }
        ensures file { (view_kept self.new).file
            ≡ file_kept reg v (P.device ports.old).file.phase (view_kept self.old).file }
        ensures bus { (view_kept self.new).bus ≡ bus_kept reg v (view_kept self.old) }
        ensures rest { P.rest ports.new ≡ P.rest ports.old }
        ensures reached { (origin : Device) → Reaches origin (P.device ports.old)
            → Reaches origin (P.device ports.new) }
    {
        if reg.is_of_bus() {
            write_bus(&mut self.view, ports, reg, v);
        } else {
            write_file(&mut self.view.file, ports, reg, v);
        }
    }

    fn write_pointer<P: Ports>(&mut self, ports: &mut P, v: u32)
        ensures drive { P.device ports.new
            ≡ reached (view_kept self.old) (Access.WritePointer v) (P.device ports.old) }
        ensures file { (view_kept self.new).file ≡ (view_kept self.old).file }
        ensures bus { (view_kept self.new).bus ≡ pointer_kept v (view_kept self.old) }
        ensures rest { P.rest ports.new ≡ P.rest ports.old }
        ensures reached { (origin : Device) → Reaches origin (P.device ports.old)
            → Reaches origin (P.device ports.new) }
    {
        if self.view.file.phase.is_moving() {
            ports.write_pointer(v);
        } else {
            self.view.bus.write_pointer(v);
        }
    }
}

fn read8<P: Ports>(view: &View, ports: &mut P, reg: Reg) -> u8
    ensures answer { result ≡ byte_read reg (on_guest_side view.now (P.device ports.old)) }
    ensures drive { P.device ports.new ≡ after_read8 reg (P.device ports.old) }
    ensures rest { P.rest ports.new ≡ P.rest ports.old }
    ensures reached { (origin : Device) → Reaches origin (P.device ports.old)
        → Reaches origin (P.device ports.new) }
{
    match reg {
        Reg::BusCommand if !view.file.phase.is_moving() => view.bus.read(reg),
        Reg::BusStatus => status_seen(view, ports),
        _ => ports.read8(reg),
    }
}

// The status register of the bus master that the guest sees.
#[tactic(auto, using(crate::proofs::Bus::active_read, crate::proofs::Bus::error_read, crate::proofs::Bus::interrupt_read))]
fn status_seen<P: Ports>(view: &View, ports: &mut P) -> u8
    ensures answer { result
        ≡ byte_read Reg.BusStatus (on_guest_side view.now (P.device ports.old)) }
    ensures drive { P.device ports.new ≡ P.device ports.old }
    ensures rest { P.rest ports.new ≡ P.rest ports.old }
    ensures reached { (origin : Device) → Reaches origin (P.device ports.old)
        → Reaches origin (P.device ports.new) }
{
    let shown = peek(ports, Reg::BusStatus);
    let active = if view.file.phase.is_moving() {
        has_bit(ACTIVE, shown)
    } else {
        view.bus.active
    };
    let bus = Bus {
        active,
        error: view.bus.error || has_bit(BUS_ERROR, shown),
        interrupt: has_bit(INTERRUPT, shown),
        ..view.bus
    };
    bus.read(Reg::BusStatus)
}

fn read_pointer<P: Ports>(view: &View, ports: &P) -> u32
    ensures { result ≡ pointer_read (on_guest_side view.now (P.device ports.now)) }
{
    if view.file.phase.is_moving() {
        ports.read_pointer()
    } else {
        view.bus.pointer
    }
}

// A write to a register of the bus master. Error and interrupt bit are cleared in the drive's and in the view's.
fn write_bus<P: Ports>(view: &mut View, ports: &mut P, reg: Reg, v: u8)
    requires { is_of_bus reg ≡ true }
    ensures drive { P.device ports.new
        ≡ reached view.old (Access.Write8 reg v) (P.device ports.old) }
    ensures file { view.new.file ≡ view.old.file }
    ensures bus { view.new.bus ≡ bus_kept reg v view.old }
    ensures rest { P.rest ports.new ≡ P.rest ports.old }
    ensures reached { (origin : Device) → Reaches origin (P.device ports.old)
        → Reaches origin (P.device ports.new) }
{
    let uses_bus = view.file.phase.is_moving();
    if let Reg::BusStatus = reg {
        view.bus.write(reg, v);
        ports.write8(reg, v);
    } else if uses_bus {
        ports.write8(reg, v);
    } else {
        view.bus.write(reg, v);
    }
}

fn write_file<P: Ports>(kept: &mut TaskFile, ports: &mut P, reg: Reg, v: u8)
    requires bus { is_of_bus reg ≡ false }
    requires command { is_status_or_command reg ≡ false }
    ensures drive { P.device ports.new ≡ after_write8 reg v (P.device ports.old) }
    ensures kept { kept.new ≡ file_kept reg v (P.device ports.old).file.phase kept.old }
    ensures rest { P.rest ports.new ≡ P.rest ports.old }
    ensures reached { (origin : Device) → Reaches origin (P.device ports.old)
        → Reaches origin (P.device ports.new) }
{
    if let Reg::Alternate = reg {
        ports.write8(reg, v);
        keep_control(kept, v);
    } else {
        write_plain(kept, ports, reg, v);
    }
}

// A reset leaves 00h in Features, and takes no other byte before it ends.
fn keep_control(kept: &mut TaskFile, v: u8)
    ensures kept { kept.new ≡ control_kept v kept.old }
{
    kept.control = v & CONTROL_BITS;
    if has_bit(SRST, v) {
        kept.features = 0;
    }
}

// A write to a register of the command block, and what of it is kept: whether the drive ignores it is found out first.
#[tactic(auto, using(crate::proofs::Plain::asked_written, crate::proofs::Plain::plainly))]
fn write_plain<P: Ports>(kept: &mut TaskFile, ports: &mut P, reg: Reg, v: u8)
    requires plain { is_plain_register reg ≡ true }
    ensures written { P.device ports.new ≡ after_write8 reg v (P.device ports.old) }
    ensures kept { kept.new ≡ file_kept reg v (P.device ports.old).file.phase kept.old }
    ensures rest { P.rest ports.new ≡ P.rest ports.old }
    ensures reached { (origin : Device) → Reaches origin (P.device ports.old)
        → Reaches origin (P.device ports.new) }
{
    let ignored = is_at_work(ports);
    put_register(ports, reg, v);
    if !ignored {
        keep_plain(kept, reg, v);
    }
}

// What is kept of a write to the command block that the drive takes: HOB goes, and Features is the byte written.
fn keep_plain(kept: &mut TaskFile, reg: Reg, v: u8)
    requires plain { is_plain_register reg ≡ true }
    ensures kept { (phase : Phase) → is_at_work phase ≡ false
        → kept.new ≡ file_kept reg v phase kept.old }
{
    kept.control &= !HOB;
    if let Reg::Error = reg {
        kept.features = v;
    }
}

// Whether the drive is at work, and so ignores what is written to the command block: BSY says so, but for DEV at 1.
fn is_at_work<P: Ports>(ports: &mut P) -> bool
    ensures at_work { result ≡ is_at_work (P.device ports.old).file.phase }
    ensures asked { P.device ports.new ≡ asked (P.device ports.old) }
    ensures rest { P.rest ports.new ≡ P.rest ports.old }
    ensures reached { (origin : Device) → Reaches origin (P.device ports.old)
        → Reaches origin (P.device ports.new) }
{
    let device = peek(ports, Reg::Device);
    if has_bit(DEV, device) {
        return ignores(ports, device);
    }
    has_bit(BSY, peek(ports, Reg::Alternate))
}

// Whether the drive ignores a write of Device: bit 0 is written changed, read back, and written as it was.
#[tactic(auto, using(crate::proofs::Plain::put_back))]
fn ignores<P: Ports>(ports: &mut P, device: u8) -> bool
    requires absent { selects_absent (P.device ports.old).file ≡ true }
    requires shown { device ≡ (P.device ports.old).file.device }
    ensures at_work { result ≡ is_at_work (P.device ports.old).file.phase }
    ensures asked { P.device ports.new ≡ asked (P.device ports.old) }
    ensures rest { P.rest ports.new ≡ P.rest ports.old }
    ensures reached { (origin : Device) → Reaches origin (P.device ports.old)
        → Reaches origin (P.device ports.new) }
{
    put_register(ports, Reg::Device, other(device));
    let ignored = peek(ports, Reg::Device) == device;
    put_register(ports, Reg::Device, device);
    ignored
}

// The byte with bit 0 changed.
fn other(byte: u8) -> u8
    ensures { result ≢ byte }
{
    if byte % 2 == 0 { byte + 1 } else { byte - 1 }
}
