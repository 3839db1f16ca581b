//! The monitor gives the drive to the guest, with the command that the guest wrote.

ghost use Rattle.std.specs.Prelude.{◌≡◌, true, false, is_some};
ghost use Rattle.port_lease.specs.Free.{is_free};
ghost use Rattle.port_lease.specs.View.{IsLawfulView, IsKept, IsGiven, uses_bus};
ghost use Rattle.port_lease.specs.Seen.{IsSame, AnswersAlike, seen_on_guest_side, seen_on_monitor_side};
ghost use Rattle.port_lease.specs.Sides.{view_kept, view_held, has_own};
ghost use Rattle.port_lease.specs.Handover.{IsOrdered, after_give, bus_given};
ghost use Rattle.port_lease.specs.Writing.{MayBeGiven};
ghost use Rattle.ata_taskfile.specs.declared.Phase.TheVariants.{Busy as AtWork};
ghost use Rattle.ata_taskfile.specs.Order.{inputs, order_of, taken};
ghost use Rattle.ata_taskfile.specs.Device.{Device, with_bus};
ghost use Rattle.ata_taskfile.specs.Accesses.{Reaches};
ghost use Rattle.ata_taskfile.specs.Lawful.{is_just_taken};

use crate::writing::{put_command, put_control, put_registers, start_bus};
use crate::{GuestSide, MonitorSide, View};
use ata_taskfile::{Ports, TaskFile};

/// Gives the drive to the guest with a command, at whose start the view stands: the drive is then at work on the
/// view's order, over the view's registers, and a command that uses the bus master has the view's walk, which begins
/// anew at the table's top.
#[tactic(auto, using(crate::proofs::Alike::give_same, crate::proofs::Alike::give_alike))]
pub fn give<P: Ports>(side: MonitorSide, ports: &mut P, command: u8) -> GuestSide
    requires lawful { IsLawfulView (view_held side) }
    requires ordered { IsOrdered (view_held side) command (P.device ports.old).sectors }
    requires alone { has_own side ≡ false }
    requires free { is_free (P.device ports.old).file ≡ true }
    requires walking { uses_bus (view_held side) ≡ true → is_some (view_held side).bus.walk ≡ true }

    ensures drive { P.device ports.new ≡ after_give (view_held side) command (P.device ports.old) }
    ensures view { view_kept result ≡ view_held side }
    ensures kept { IsKept (view_kept result) (P.device ports.new).file }
    ensures given { IsGiven (view_kept result) (P.device ports.new) }

    // The guest has the same device, so each next read of its answers as before.
    ensures same { IsSame
        (seen_on_monitor_side (view_held side) (P.device ports.old))
        (seen_on_guest_side (view_kept result) (P.device ports.new)) }
    ensures reads { AnswersAlike
        (seen_on_monitor_side (view_held side) (P.device ports.old))
        (seen_on_guest_side (view_kept result) (P.device ports.new)) }
    ensures rest { P.rest ports.new ≡ P.rest ports.old }
    ensures reached { (origin : Device) → Reaches origin (P.device ports.old)
        → Reaches origin (P.device ports.new) }
{
    let MonitorSide { view, own: _ } = side;
    give_bus(&view, ports);
    give_command(&view.file, ports, command);
    GuestSide { view }
}

// Begins the view's walk, where the command uses the bus master.
fn give_bus<P: Ports>(view: &View, ports: &mut P)
    requires lawful { IsLawfulView view.now }
    requires taken { is_just_taken view.now.file.phase ≡ true }
    requires walking { uses_bus view.now ≡ true → is_some view.now.bus.walk ≡ true }
    ensures given { let d = P.device ports.old in
        P.device ports.new ≡ with_bus (bus_given view.now d.bus) d }
    ensures rest { P.rest ports.new ≡ P.rest ports.old }
    ensures reached { (origin : Device) → Reaches origin (P.device ports.old)
        → Reaches origin (P.device ports.new) }
{
    if view.file.phase.is_moving() {
        start_bus(ports, &view.bus);
    }
}

// Puts a view's registers into the drive, and its command.
fn give_command<P: Ports>(file: &TaskFile, ports: &mut P, command: u8)
    requires free { is_free (P.device ports.old).file ≡ true }
    requires lawful { MayBeGiven file.now }
    requires ordered { file.now.phase
        ≡ AtWork (taken (order_of command (inputs file.now) (P.device ports.old).sectors)) 0 }
    ensures given { let d = P.device ports.old in
        P.device ports.new ≡ record d { file = record file.now { command = command } } }
    ensures rest { P.rest ports.new ≡ P.rest ports.old }
    ensures reached { (origin : Device) → Reaches origin (P.device ports.old)
        → Reaches origin (P.device ports.new) }
{
    // What an own command left in Device Control goes.
    put_control(ports, 0);
    put_registers(ports, file);
    put_command(ports, command);
    // The command makes HOB 0, so the guest's byte comes after it.
    put_control(ports, file.control);
}
