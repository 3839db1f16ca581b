//! A guest's access while the monitor has the drive.

ghost use Rattle.std.specs.Prelude.{◌≡◌, true, false};
ghost use Rattle.ata_taskfile.specs.Access.{answer_to, accessed};
ghost use Rattle.ata_taskfile.specs.Accesses.{Reaches};
ghost use Rattle.ata_taskfile.specs.Data.{word_in};
ghost use Rattle.ata_taskfile.specs.Device.{Device};
ghost use Rattle.port_lease.specs.Sides.{view_held, has_own};
ghost use Rattle.guest_view.specs.Seen.{on_monitor_side, IsInStep};
ghost use Rattle.guest_view.specs.View.{view_after, reads_block, takes_command, is_reset};
ghost use Rattle.guest_view.specs.Drive.{drive_after};
ghost use Rattle.guest_view.specs.Fits.{FitsView};

use crate::reading::{read_word, read8};
use crate::writing::write8;
use ata_taskfile::registers::{DEV, has_bit};
use ata_taskfile::{Access, Answer, Phase, Ports, Reg, TaskFile};
use port_lease::{MonitorSide, View};

/// A guest's access on the monitor's side, other than one that begins a reset. The view answers it, and of the drive
/// the line, the interrupt bit and the error bit. What reaches the drive is what the guest must not have to ask for
/// twice: an acknowledgement, nIEN, and the clearing of those two bits.
///
/// `waits` says that a dummy read which wasn't cancelled is in flight. `word` is the next word of the block that waits
/// in Data, if one does, and `sectors` how many sectors the drive has.
pub fn access<P: Ports>(
    side: &mut MonitorSide,
    ports: &mut P,
    waits: bool,
    word: u16,
    sectors: u64,
    access: &Access,
) -> Answer
    requires fits { FitsView (view_held side.old) sectors }
    requires step { IsInStep waits (view_held side.old) (P.device ports.old) }
    requires no_reset { is_reset access.now ≡ false }

    ensures answer { (g : Device) →
        (reads_block access.now (view_held side.old).file.phase ≡ true
        → word_in (view_held side.old).file.phase g.block ≡ word)
        → result
        ≡ answer_to access.now (on_monitor_side (view_held side.old) (P.device ports.old) g) }
    ensures view { view_held side.new ≡ view_after access.now sectors (view_held side.old) }
    ensures drive { P.device ports.new
        ≡ drive_after waits (view_held side.old) access.now (P.device ports.old) }
    ensures own { has_own side.new ≡ has_own side.old }

    // To the guest this side is one device, on a drive of so many sectors, whatever its block and its sectors hold.
    ensures after { (g : Device) → g.sectors ≡ sectors
        → accessed access.now (on_monitor_side (view_held side.old) (P.device ports.old) g)
        ≡ on_monitor_side (view_held side.new) (P.device ports.new) g }
    ensures fits { FitsView (view_held side.new) sectors }
    ensures step { IsInStep waits (view_held side.new) (P.device ports.new) }
    ensures rest { P.rest ports.new ≡ P.rest ports.old }
    ensures reached { (origin : Device) → Reaches origin (P.device ports.old)
        → Reaches origin (P.device ports.new) }
{
    let mut view = *side.view();
    let answer = access_view(&mut view, ports, waits, word, sectors, access);
    *side.view_mut() = view;
    answer
}

// The access, over the view alone.
fn access_view<P: Ports>(
    view: &mut View,
    ports: &mut P,
    waits: bool,
    word: u16,
    sectors: u64,
    access: &Access,
) -> Answer
    requires fits { FitsView view.old sectors }
    requires step { IsInStep waits view.old (P.device ports.old) }
    requires no_reset { is_reset access.now ≡ false }
    ensures answer { (g : Device) →
        (reads_block access.now view.old.file.phase ≡ true
        → word_in view.old.file.phase g.block ≡ word)
        → result ≡ answer_to access.now (on_monitor_side view.old (P.device ports.old) g) }
    ensures view { view.new ≡ view_after access.now sectors view.old }
    ensures drive { P.device ports.new
        ≡ drive_after waits view.old access.now (P.device ports.old) }
    ensures rest { P.rest ports.new ≡ P.rest ports.old }
    ensures reached { (origin : Device) → Reaches origin (P.device ports.old)
        → Reaches origin (P.device ports.new) }
{
    match *access {
        Access::Read8(reg) => Answer::Byte(read8(view, ports, reg)),
        Access::Write8(reg, v) => {
            write8(view, ports, waits, sectors, reg, v);
            Answer::Nothing
        }
        Access::ReadWord => Answer::Word(read_word(view, word)),
        // No block is wanted in Data: a write is the drive's.
        Access::WriteWord(_) => Answer::Nothing,
        Access::ReadPointer => Answer::Long(view.bus.pointer),
        Access::WritePointer(v) => {
            view.bus.write_pointer(v);
            Answer::Nothing
        }
        Access::Line => Answer::Byte(u8::from(ports.line())),
    }
}

/// Whether an access writes a command which the view takes: in Idle, and with DEV at 0. Its order is in hand after it,
/// at position 0.
pub fn takes_command(view: &View, access: &Access) -> bool
    ensures { result ≡ takes_command access.now view.now.file }
{
    match *access {
        Access::Write8(Reg::Status, _) => is_open(&view.file),
        _ => false,
    }
}

// Whether a command that is written now is taken.
fn is_open(file: &TaskFile) -> bool
    ensures { result ≡ takes_command (Access.Write8 Reg.Status 0) file.now }
{
    match file.phase {
        Phase::Idle => !has_bit(DEV, file.device),
        Phase::Reset | Phase::Busy(..) | Phase::Ready(..) => false,
    }
}
