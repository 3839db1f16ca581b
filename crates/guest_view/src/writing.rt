//! A guest's writes while the monitor has the drive.

ghost use Rattle.std.specs.Prelude.{◌≡◌, true, false, not, ◌&&◌, ◌||◌};
ghost use Rattle.ata_taskfile.specs.Accesses.{Reaches};
ghost use Rattle.ata_taskfile.specs.TaskFile.{is_of_bus, is_ignored, controlled};
ghost use Rattle.ata_taskfile.specs.Device.{Device};
ghost use Rattle.guest_view.specs.View.{view_with_file, view_after_write, is_reset};
ghost use Rattle.guest_view.specs.Drive.{drive_after_write};

use crate::reading::acknowledge_where;
use ata_command::read_request;
use ata_taskfile::registers::{NIEN, has_bit};
use ata_taskfile::{Access, Phase, Ports, Reg, Taken, Wrote};
use port_lease::View;

// A write to a register, which begins no reset.
pub(crate) fn write8<P: Ports>(
    view: &mut View,
    ports: &mut P,
    waits: bool,
    sectors: u64,
    reg: Reg,
    v: u8,
)
    requires { is_reset (Access.Write8 reg v) ≡ false }
    ensures view { view.new ≡ view_after_write reg v sectors view.old }
    ensures drive { P.device ports.new
        ≡ drive_after_write waits reg v view.old (P.device ports.old) }
    ensures rest { P.rest ports.new ≡ P.rest ports.old }
    ensures reached { (origin : Device) → Reaches origin (P.device ports.old)
        → Reaches origin (P.device ports.new) }
{
    match reg {
        Reg::Status => write_command(view, ports, sectors, v),
        Reg::Alternate => write_control(view, ports, waits, v),
        Reg::BusCommand => view.bus.write(reg, v),
        Reg::BusStatus => {
            view.bus.write(reg, v);
            ports.write8(reg, v);
        }
        _ => {
            let _stored = view.file.write(reg, v);
        }
    }
}

// A write of Command. One that is taken ends an interrupt that pends for the guest, in the drive too.
fn write_command<P: Ports>(view: &mut View, ports: &mut P, sectors: u64, v: u8)
    ensures view { view.new ≡ view_after_write Reg.Status v sectors view.old }
    ensures drive { P.device ports.new
        ≡ drive_after_write false Reg.Status v view.old (P.device ports.old) }
    ensures rest { P.rest ports.new ≡ P.rest ports.old }
    ensures reached { (origin : Device) → Reaches origin (P.device ports.old)
        → Reaches origin (P.device ports.new) }
{
    let pending = view.file.pending;
    if let Wrote::Command(byte) = view.file.write(Reg::Status, v) {
        let order = read_request(&view.file, byte, sectors);
        view.file.phase = Phase::Busy(Taken::of(order), 0);
        acknowledge_where(ports, pending);
    }
}

// A write of Device Control. nIEN comes to the drive where its interrupt is the guest's, or is to be; else it would
// let the guest see one of the monitor's.
fn write_control<P: Ports>(view: &mut View, ports: &mut P, waits: bool, v: u8)
    requires { is_reset (Access.Write8 Reg.Alternate v) ≡ false }
    ensures view { view.new ≡ view_with_file (controlled v view.old.file) view.old }
    ensures drive { P.device ports.new
        ≡ drive_after_write waits Reg.Alternate v view.old (P.device ports.old) }
    ensures rest { P.rest ports.new ≡ P.rest ports.old }
    ensures reached { (origin : Device) → Reaches origin (P.device ports.old)
        → Reaches origin (P.device ports.new) }
{
    let _stored = view.file.write(Reg::Alternate, v);
    if view.file.pending || waits {
        let nien = if has_bit(NIEN, v) { NIEN } else { 0 };
        ports.write8(Reg::Alternate, nien);
    }
}
