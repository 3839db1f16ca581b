//! The monitor takes the drive.

ghost use Rattle.std.specs.Prelude.{◌≡◌, true, false, is_ok, IfOk, IfErr};
ghost use Rattle.ata_taskfile.specs.Device.{Device};
ghost use Rattle.ata_taskfile.specs.Accesses.{Reaches};
ghost use Rattle.ata_taskfile.specs.Lawful.{moved_by};
ghost use Rattle.port_lease.specs.Free.{is_free};
ghost use Rattle.port_lease.specs.View.{IsLawfulView, IsKept};
ghost use Rattle.port_lease.specs.Seen.{IsSame, AnswersAlike, seen_on_guest_side, seen_on_monitor_side, bus_on_guest_side};
ghost use Rattle.port_lease.specs.Sides.{view_kept, view_held, has_own};
ghost use Rattle.port_lease.specs.Handover.{after_take, shown_bytes};

use crate::reading::{bus_of, is_free, peek};
use crate::writing::{put_control, stop_walk};
use crate::{GuestSide, MonitorSide, View};
use ata_taskfile::registers::{ERR, HOB, has_bit};
use ata_taskfile::{Bus, Phase, Ports, Reg, TaskFile};

/// The drive can't be taken: it shows BSY, DRQ or DEV, or an interrupt pends. So it is more than the phase Busy: also
/// Reset, Ready, and a drive at rest that the guest has still to acknowledge or has deselected.
#[derive(Clone, Copy, Debug, PartialEq, Eq)]
pub struct Busy;

/// Takes the drive for the monitor. Whatever the guest can read stays as it was, in the view; a walk of the drive's
/// is stopped, and stands in the view at its top.
///
/// It is refused as Busy exactly where the drive shows BSY, DRQ or DEV, or an interrupt pends. Then nothing changes,
/// and the side comes back.
pub fn take<P: Ports>(side: GuestSide, ports: &mut P) -> Result<MonitorSide, (GuestSide, Busy)>
    requires { IsKept (view_kept side) (P.device ports.old).file }
    ensures free { is_ok result ≡ is_free (P.device ports.old).file }

    ensures drive { IfOk result (λ m. P.device ports.new ≡ after_take (P.device ports.old)) }

    // The view's registers are the drive's, but for the byte of the last command given, which no register shows.
    ensures file { IfOk result (λ m. (view_held m).file
        ≡ record (P.device ports.old).file { command = (view_kept side).file.command }) }
    ensures bus { IfOk result
        (λ m. (view_held m).bus ≡ bus_on_guest_side (view_kept side) (P.device ports.old).bus) }
    ensures alone { IfOk result (λ m. has_own m ≡ false) }
    ensures lawful { IfOk result (λ m. IsLawfulView (view_held m)) }

    // The guest has the same device, so each next read of its answers as before.
    ensures same { IfOk result (λ m. IsSame
        (seen_on_guest_side (view_kept side) (P.device ports.old))
        (seen_on_monitor_side (view_held m) (P.device ports.new))) }
    ensures reads { IfOk result (λ m. AnswersAlike
        (seen_on_guest_side (view_kept side) (P.device ports.old))
        (seen_on_monitor_side (view_held m) (P.device ports.new))) }

    ensures back { IfErr result (λ e. e.0 ≡ side) }
    ensures unmoved { IfErr result (λ e. P.device ports.new ≡ P.device ports.old) }
    ensures rest { P.rest ports.new ≡ P.rest ports.old }
    ensures reached { (origin : Device) → Reaches origin (P.device ports.old)
        → Reaches origin (P.device ports.new) }
{
    if !is_free(ports) {
        return Err((side, Busy));
    }
    let GuestSide { view } = side;
    let file = file_of(&view.file, ports);
    let bus = bus_seen(&view, ports);
    stop_walk(ports);
    Ok(MonitorSide {
        view: View { file, bus },
        own: false,
    })
}

// The registers of a free drive as the view has them: read from the drive, but for what can't be.
fn file_of<P: Ports>(kept: &TaskFile, ports: &mut P) -> TaskFile
    requires free { is_free (P.device ports.old).file ≡ true }
    requires control { kept.now.control ≡ (P.device ports.old).file.control }
    requires features { kept.now.features ≡ (P.device ports.old).file.features }
    ensures file { result
        ≡ record (P.device ports.old).file { command = kept.now.command } }
    ensures unmoved { P.device ports.new ≡ P.device ports.old }
    ensures rest { P.rest ports.new ≡ P.rest ports.old }
    ensures reached { (origin : Device) → Reaches origin (P.device ports.old)
        → Reaches origin (P.device ports.new) }
{
    put_control(ports, HOB);
    let [count1, low1, mid1, high1] = shown_bytes(ports);
    put_control(ports, 0);
    let [count0, low0, mid0, high0] = shown_bytes(ports);
    put_control(ports, kept.control);
    TaskFile {
        count: [count0, count1],
        low: [low0, low1],
        mid: [mid0, mid1],
        high: [high0, high1],
        features: kept.features,
        device: peek(ports, Reg::Device),
        control: kept.control,
        error: peek(ports, Reg::Error),
        command: kept.command,
        failed: has_bit(ERR, peek(ports, Reg::Alternate)),
        pending: false,
        phase: Phase::Idle,
    }
}

// The byte that each two-byte register shows: Count, Low, Mid, High.
fn shown_bytes<P: Ports>(ports: &mut P) -> [u8; 4]
    ensures bytes { result ≡ shown_bytes (P.device ports.old).file }
    ensures unmoved { P.device ports.new ≡ P.device ports.old }
    ensures rest { P.rest ports.new ≡ P.rest ports.old }
    ensures reached { (origin : Device) → Reaches origin (P.device ports.old)
        → Reaches origin (P.device ports.new) }
{
    [
        peek(ports, Reg::Count),
        peek(ports, Reg::Low),
        peek(ports, Reg::Mid),
        peek(ports, Reg::High),
    ]
}

// The bus master that the guest sees on its side.
fn bus_seen<P: Ports>(view: &View, ports: &mut P) -> Bus
    requires { moved_by (P.device ports.old).bus.walk ≡ 0 }
    ensures bus { result ≡ bus_on_guest_side view.now (P.device ports.old).bus }
    ensures unmoved { P.device ports.new ≡ P.device ports.old }
    ensures rest { P.rest ports.new ≡ P.rest ports.old }
    ensures reached { (origin : Device) → Reaches origin (P.device ports.old)
        → Reaches origin (P.device ports.new) }
{
    let drives = bus_of(ports);
    let error = view.bus.error || drives.error;
    if view.file.phase.is_moving() {
        Bus { error, ..drives }
    } else {
        Bus {
            error,
            interrupt: drives.interrupt,
            ..view.bus
        }
    }
}
