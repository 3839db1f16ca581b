//! The sectors of a held piece that move to the guest's memory.

ghost use Rattle.std.specs.Prelude.{◌≡◌, ◌<◌, ◌≤◌, ◌+◌, ◌*◌, ◌-◌, ◌^◌, ℕ, true, is_some, length};
ghost use Rattle.ata_taskfile.specs.declared.Form.TheVariants.{DmaIn};
ghost use Rattle.ata_taskfile.specs.declared.Phase.TheVariants.{Busy};
ghost use Rattle.ata_taskfile.specs.declared.Step.TheVariants as step;
ghost use Rattle.ata_taskfile.specs.declared.Taken.TheVariants.{Good};
ghost use Rattle.ata_taskfile.specs.declared.registers.TheConstants.{SECTOR_BYTES};
ghost use Rattle.ata_taskfile.specs.Device.{Device};
ghost use Rattle.ata_taskfile.specs.Lawful.{end_of, position_of};
ghost use Rattle.plain_drive.specs.Plain.{plain, sector_value};
ghost use Rattle.plain_drive.specs.Step.{AllAct, acts, good_step, position_after, went};
ghost use Rattle.guest_view.specs.Fits.{FitsView};
ghost use Rattle.guest_view.specs.Seen.{on_monitor_side};
ghost use Rattle.redirect.specs.Piece.{piece_bytes};
ghost use Rattle.redirect.specs.Read.{sector_in};
ghost use Rattle.redirect.specs.Scatter.{HoldsPiece, at_position, moves_inward};

use crate::piece_bytes;
use ata_taskfile::registers::SECTOR_BYTES;
use ata_taskfile::{Phase, Request, Taken};
use bm_dma::{GuestMemory, Moved, move_in};
use port_lease::View;

/// Moves the sectors of a piece to the guest's memory, in order, from the one at which the view stands up to `end`, as
/// long as a walk is running. `bytes` are those of the sectors from `base` on.
///
/// The answer is how many good steps it made of the drive that the guest sees. One that met the table's end or a bad
/// descriptor is among them, and ends the walk (own).
pub fn scatter(view: &mut View, memory: &mut GuestMemory, bytes: &[u8], base: u64, end: u64) -> u32
    requires inward { moves_inward view.old.file.phase ≡ true }
    requires from { base ≤ sector_in view.old.file.phase }
    requires ahead { sector_in view.old.file.phase ≤ end }
    requires within { end ≤ end_of view.old.file.phase }
    requires bytes { SECTOR_BYTES * (end - base) ≤ length bytes.now }

    // Whatever the drive is and whatever else a device holds whose sectors have the piece's bytes.
    ensures steps { (d g : Device) →
        HoldsPiece bytes.now base (sector_in view.old.file.phase) end g →
        plain (on_monitor_side view.new d g) memory.new
        ≡ went result (plain (on_monitor_side view.old d g) memory.old) }
    ensures act { (d g : Device) →
        HoldsPiece bytes.now base (sector_in view.old.file.phase) end g →
        AllAct result (plain (on_monitor_side view.old d g) memory.old) }

    // It ends with the piece, or with the walk.
    ensures stopped { is_some view.new.bus.walk ≡ true → sector_in view.new.file.phase ≡ end }
    ensures some { is_some view.old.bus.walk ≡ true → sector_in view.old.file.phase < end
        → 0 < result }

    // The order stays, and moves on within the piece, and no register changes.
    ensures file { let f = view.old.file in view.new.file
        ≡ record f { phase = at_position (position_of view.new.file.phase) f.phase } }
    ensures least { sector_in view.old.file.phase ≤ sector_in view.new.file.phase }
    ensures most { sector_in view.new.file.phase ≤ end }

    // No more steps than sectors of the piece are left.
    ensures count { sector_in view.old.file.phase + result ≤ end }
    ensures fits { (sectors : ℕ) → FitsView view.old sectors → FitsView view.new sectors }
    ensures size { length memory.new ≡ length memory.old }
{
    match view.file.phase {
        Phase::Busy(Taken::Good(order), done) => {
            move_sectors(view, memory, order, done, bytes, base, end)
        }
        _ => 0,
    }
}

fn move_sectors(
    view: &mut View,
    memory: &mut GuestMemory,
    order: Request,
    done: u32,
    bytes: &[u8],
    base: u64,
    end: u64,
) -> u32
    requires phase { view.old.file.phase ≡ Busy (Good order) done }
    requires form { order.form ≡ DmaIn }
    requires from { base ≤ order.first + done }
    requires ahead { order.first + done ≤ end }
    requires within { end ≤ order.first + order.count }
    requires bytes { SECTOR_BYTES * (end - base) ≤ length bytes.now }
    ensures steps { (d g : Device) → HoldsPiece bytes.now base (order.first + done) end g →
        plain (on_monitor_side view.new d g) memory.new
        ≡ went result (plain (on_monitor_side view.old d g) memory.old) }
    ensures act { (d g : Device) → HoldsPiece bytes.now base (order.first + done) end g →
        AllAct result (plain (on_monitor_side view.old d g) memory.old) }
    ensures stopped { is_some view.new.bus.walk ≡ true → sector_in view.new.file.phase ≡ end }
    ensures some { is_some view.old.bus.walk ≡ true → order.first + done < end → 0 < result }
    ensures file { view.new.file ≡ record view.old.file {
      phase = Busy (Good order) (position_of view.new.file.phase);
    } }
    ensures least { done ≤ position_of view.new.file.phase }
    ensures most { sector_in view.new.file.phase ≤ end }
    ensures count { order.first + done + result ≤ end }
    ensures fits { (sectors : ℕ) → FitsView view.old sectors → FitsView view.new sectors }
    ensures size { length memory.new ≡ length memory.old }
{
    let from = order.first + u64::from(done);
    let mut moved = 0;
    for sector in from..end {
        if view.bus.walk.is_none() {
            return moved;
        }
        let value = sector_of_piece(bytes, base, sector);
        move_one(view, memory, order, done + moved, &value);
        moved += 1;
    }
    moved
}

// Has the bus master try one sector, which is one good step.
fn move_one(
    view: &mut View,
    memory: &mut GuestMemory,
    order: Request,
    done: u32,
    sector: &[u8; SECTOR_BYTES],
)
    requires phase { view.old.file.phase ≡ Busy (Good order) done }
    requires form { order.form ≡ DmaIn }
    requires below { done < order.count }
    requires walking { is_some view.old.bus.walk ≡ true }
    ensures step { (d g : Device) → sector_value (order.first + done) g ≡ sector.now →
        plain (on_monitor_side view.new d g) memory.new
        ≡ good_step (plain (on_monitor_side view.old d g) memory.old) }
    ensures acts { (d g : Device) →
        acts step.Good (plain (on_monitor_side view.old d g) memory.old) ≡ true }
    ensures goes_on { is_some view.new.bus.walk ≡ true
        → view.new.file.phase ≡ Busy (Good order) (done + 1) }
    ensures file { view.new.file ≡ record view.old.file {
      phase = Busy (Good order) (position_of view.new.file.phase);
    } }
    ensures least { done ≤ position_of view.new.file.phase }
    ensures most { position_of view.new.file.phase ≤ done + 1 }
    ensures fits { (sectors : ℕ) → FitsView view.old sectors → FitsView view.new sectors }
    ensures size { length memory.new ≡ length memory.old }
{
    let moved = move_in(&mut view.bus, memory, sector);
    view.file.phase = Phase::Busy(Taken::Good(order), position_after(moved, done));
}

// One sector further after a whole one.
fn position_after(moved: Moved, done: u32) -> u32
    requires { done + 1 < 2 ^ 32 }
    ensures { result ≡ position_after moved done }
{
    match moved {
        Moved::Whole => done + 1,
        Moved::Short(_) | Moved::Outside | Moved::Waiting => done,
    }
}

// The bytes of a sector of the piece, as they are moved.
fn sector_of_piece(bytes: &[u8], base: u64, sector: u64) -> [u8; SECTOR_BYTES]
    requires from { base ≤ sector }
    requires inside { SECTOR_BYTES * (sector - base) + SECTOR_BYTES ≤ length bytes.now }
    ensures { result ≡ piece_bytes bytes.now base sector }
{
    let mut value = [0; SECTOR_BYTES];
    value.copy_from_slice(piece_bytes(bytes, base, sector));
    value
}
