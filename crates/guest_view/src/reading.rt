//! A guest's reads while the monitor has the drive.

ghost use Rattle.std.specs.Prelude.{◌≡◌, false, true};
ghost use Rattle.ata_taskfile.specs.Accesses.{Reaches};
ghost use Rattle.ata_taskfile.specs.Data.{is_given, word_in, phase_after_read};
ghost use Rattle.ata_taskfile.specs.Device.{Device, byte_read};
ghost use Rattle.ata_taskfile.specs.Lawful.{IsLawfulPhase};
ghost use Rattle.ata_taskfile.specs.TaskFile.{after_read, is_of_bus, value};
ghost use Rattle.ata_taskfile.specs.Bus.{bus_value};
ghost use Rattle.port_lease.specs.Seen.{bus_beside};
ghost use Rattle.guest_view.specs.Seen.{on_monitor_side};
ghost use Rattle.guest_view.specs.View.{view_with_file, view_with_phase};
ghost use Rattle.guest_view.specs.Drive.{acknowledged, drive_after_read};

use ata_taskfile::registers::{BUS_ERROR, INTERRUPT, has_bit};
use ata_taskfile::{Bus, Phase, Ports, Reg, Taken};
use port_lease::View;

// A read of a register.
pub(crate) fn read8<P: Ports>(view: &mut View, ports: &mut P, reg: Reg) -> u8
    ensures answer { (g : Device) →
        result ≡ byte_read reg (on_monitor_side view.old (P.device ports.old) g) }
    ensures view { view.new ≡ view_with_file (after_read reg view.old.file) view.old }
    ensures drive { P.device ports.new ≡ drive_after_read reg view.old (P.device ports.old) }
    ensures rest { P.rest ports.new ≡ P.rest ports.old }
    ensures reached { (origin : Device) → Reaches origin (P.device ports.old)
        → Reaches origin (P.device ports.new) }
{
    match reg {
        Reg::BusCommand => view.bus.read(reg),
        Reg::BusStatus => status_seen(&view.bus, ports),
        _ => read_file(view, ports, reg),
    }
}

// A read of a register of the task file. One of Status acknowledges, in the drive too.
fn read_file<P: Ports>(view: &mut View, ports: &mut P, reg: Reg) -> u8
    requires { is_of_bus reg ≡ false }
    ensures answer { result ≡ value reg view.old.file }
    ensures view { view.new ≡ view_with_file (after_read reg view.old.file) view.old }
    ensures drive { P.device ports.new ≡ drive_after_read reg view.old (P.device ports.old) }
    ensures rest { P.rest ports.new ≡ P.rest ports.old }
    ensures reached { (origin : Device) → Reaches origin (P.device ports.old)
        → Reaches origin (P.device ports.new) }
{
    if let Reg::Status = reg {
        acknowledge_where(ports, view.file.pending);
    }
    view.file.read(reg)
}

// The status register of the bus master: its interrupt bit is the drive's, its error bit is of both.
#[tactic(auto, using(port_lease::proofs::Bus::error_read, port_lease::proofs::Bus::interrupt_read))]
fn status_seen<P: Ports>(bus: &Bus, ports: &mut P) -> u8
    ensures answer { result
        ≡ bus_value Reg.BusStatus (bus_beside bus.now (P.device ports.old).bus) }
    ensures drive { P.device ports.new ≡ P.device ports.old }
    ensures rest { P.rest ports.new ≡ P.rest ports.old }
    ensures reached { (origin : Device) → Reaches origin (P.device ports.old)
        → Reaches origin (P.device ports.new) }
{
    let shown = ports.read8(Reg::BusStatus);
    let seen = Bus {
        error: bus.error || has_bit(BUS_ERROR, shown),
        interrupt: has_bit(INTERRUPT, shown),
        ..*bus
    };
    seen.read(Reg::BusStatus)
}

// Reads the drive's Status, where its interrupt is to be acknowledged.
pub(crate) fn acknowledge_where<P: Ports>(ports: &mut P, needed: bool)
    ensures drive { P.device ports.new ≡ acknowledged needed (P.device ports.old) }
    ensures rest { P.rest ports.new ≡ P.rest ports.old }
    ensures reached { (origin : Device) → Reaches origin (P.device ports.old)
        → Reaches origin (P.device ports.new) }
{
    if needed {
        ports.read8(Reg::Status);
    }
}

// A read of Data: `word` is the next one of the block that waits there, if one does.
pub(crate) fn read_word(view: &mut View, word: u16) -> u16
    requires { IsLawfulPhase view.old.file.phase }
    ensures answer { (g : Device) →
        (is_given view.old.file.phase ≡ true → word_in view.old.file.phase g.block ≡ word)
        → result ≡ word_in view.old.file.phase g.block }
    ensures view { view.new ≡ view_with_phase (phase_after_read view.old.file.phase) view.old }
{
    match view.file.phase {
        Phase::Ready(Taken::Good(order), done, left) if order.form.gives_words() => {
            view.file.phase = order.word_given(done, left);
            word
        }
        _ => 0xffff,
    }
}
