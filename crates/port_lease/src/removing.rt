//! The monitor goes.

ghost use Rattle.std.specs.Prelude.{◌≡◌, ◌&&◌, true, false, is_ok, IfOk, IfErr};
ghost use Rattle.ata_taskfile.specs.Device.{Device, is_pending, line_read};
ghost use Rattle.ata_taskfile.specs.Accesses.{Reaches};
ghost use Rattle.port_lease.specs.View.{IsLawfulView};
ghost use Rattle.port_lease.specs.Seen.{IsSame, AnswersAlike, seen_of, seen_on_monitor_side, bus_beside};
ghost use Rattle.port_lease.specs.Sides.{view_held, has_own};
ghost use Rattle.port_lease.specs.Handover.{after_remove, is_clean, shows_well};

use crate::reading::peek;
use crate::writing::{put_bus, put_control, put_registers};
use crate::{Gone, MonitorSide, View};
use ata_taskfile::registers::{DEV, STATUS_IDLE, has_bit};
use ata_taskfile::{Phase, Ports, Reg, TaskFile};

/// The guest would see the monitor go, or the drive isn't at rest and well.
#[derive(Clone, Copy, Debug, PartialEq, Eq)]
pub struct Unclean;

/// Removes the monitor for good. The drive gets the registers of the view, both bytes of those that have two, the
/// pointer, the direction and last Device Control, so that each next read of the guest's answers as before.
///
/// It is refused as Unclean exactly where the view isn't clean, or the drive doesn't show Status 50h and Error 00h.
/// Then nothing changes, and the side comes back.
#[tactic(auto, using(crate::proofs::Alike::remove_bus, crate::proofs::Alike::remove_same, crate::proofs::Alike::remove_alike))]
pub fn remove<P: Ports>(side: MonitorSide, ports: &mut P) -> Result<Gone, (MonitorSide, Unclean)>
    requires { IsLawfulView (view_held side) }
    ensures clean { is_ok result ≡ (is_clean (view_held side) (has_own side)
        && shows_well (P.device ports.old).file) }

    ensures drive { IfOk result
        (λ gone. P.device ports.new ≡ after_remove (view_held side) (P.device ports.old)) }

    // The guest has the same bus master, and where the line is low the same device. So each next read of its answers
    // as before, and the line where no interrupt of the monitor's own pends.
    ensures bus_seen { IfOk result (λ gone. (P.device ports.new).bus
        ≡ bus_beside (view_held side).bus (P.device ports.old).bus) }
    ensures same { line_read (P.device ports.old) ≡ false → IfOk result (λ gone. IsSame
        (seen_on_monitor_side (view_held side) (P.device ports.old))
        (seen_of (P.device ports.new))) }
    ensures reads { is_pending (P.device ports.old) ≡ false → IfOk result (λ gone. AnswersAlike
        (seen_on_monitor_side (view_held side) (P.device ports.old))
        (seen_of (P.device ports.new))) }

    ensures back { IfErr result (λ e. e.0 ≡ side) }
    ensures unmoved { IfErr result (λ e. P.device ports.new ≡ P.device ports.old) }
    ensures rest { P.rest ports.new ≡ P.rest ports.old }
    ensures reached { (origin : Device) → Reaches origin (P.device ports.old)
        → Reaches origin (P.device ports.new) }
{
    if !is_clean(&side.view, side.own) || !shows_well(ports) {
        return Err((side, Unclean));
    }
    let MonitorSide { view, own: _ } = side;
    restore(&view, ports);
    Ok(Gone { left: () })
}

// The drive as the view has it, at rest.
fn restore<P: Ports>(view: &View, ports: &mut P)
    requires lawful { IsLawfulView view.now }
    requires clean { is_clean view.now false ≡ true }
    requires well { shows_well (P.device ports.old).file ≡ true }
    ensures drive { P.device ports.new ≡ after_remove view.now (P.device ports.old) }
    ensures rest { P.rest ports.new ≡ P.rest ports.old }
    ensures reached { (origin : Device) → Reaches origin (P.device ports.old)
        → Reaches origin (P.device ports.new) }
{
    // An interrupt that pends here is none of the guest's.
    ports.read8(Reg::Status);
    put_bus(ports, &view.bus);
    // What an own command left in Device Control goes.
    put_control(ports, 0);
    put_registers(ports, &view.file);
    // The other writes made HOB 0, so the guest's byte comes last.
    put_control(ports, view.file.control);
}

/// Whether the view is clean: the guest would see nothing of the monitor's going, as far as the view and an own command
/// that stands tell. Its Status is 50h and its Error 00h, nothing pends, start and its error bit are 0, and no own
/// command stands (own).
pub fn is_clean(view: &View, own: bool) -> bool
    ensures clean { result ≡ is_clean view.now own }
{
    is_well(&view.file) && !view.file.pending && !view.bus.start && !view.bus.error && !own
}

// Whether registers show Status 50h and Error 00h.
fn is_well(file: &TaskFile) -> bool
    ensures well { result ≡ shows_well file.now }
{
    match file.phase {
        Phase::Idle => !file.failed && !has_bit(DEV, file.device) && file.error == 0,
        Phase::Reset | Phase::Busy(..) | Phase::Ready(..) => false,
    }
}

// Whether the drive's Status is 50h and its Error 00h.
fn shows_well<P: Ports>(ports: &mut P) -> bool
    ensures well { result ≡ shows_well (P.device ports.old).file }
    ensures unmoved { P.device ports.new ≡ P.device ports.old }
    ensures rest { P.rest ports.new ≡ P.rest ports.old }
    ensures reached { (origin : Device) → Reaches origin (P.device ports.old)
        → Reaches origin (P.device ports.new) }
{
    let status = peek(ports, Reg::Alternate);
    let error = peek(ports, Reg::Error);
    status == STATUS_IDLE && error == 0
}
