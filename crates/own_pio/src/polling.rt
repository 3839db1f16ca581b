//! One poll of an own command.

ghost use Rattle.std.specs.Prelude.{◌≡◌, ◌<◌, ◌≤◌, ◌*◌, ◌&&◌, ℕ, List, true, false, length};
ghost use Rattle.ata_taskfile.specs.Device.{Device, Cell};
ghost use Rattle.ata_taskfile.specs.Accesses.{Reaches};
ghost use Rattle.own_pio.specs.Kept.{IsDoneSoFar, Leaves};
ghost use Rattle.ata_taskfile.specs.TaskFile.{has_bit, is_at_work, status};
ghost use Rattle.port_lease.specs.Free.{is_free};
ghost use Rattle.port_lease.specs.Handover.{shows_well};
ghost use Rattle.port_lease.specs.Sides.{view_held, has_own};
ghost use Rattle.own_pio.specs.Job.{IsFit, count_of, polls_of};
ghost use Rattle.own_pio.specs.Running.{IsRunning, IsUnseen};
ghost use Rattle.own_pio.specs.Poll.{answer_of, block_answer, done_by, goes_on, left_after, bytes_after};

use crate::moving::{put_block, take_block};
use crate::{OwnJob, Poll};
use ata_taskfile::registers::{BSY, DRQ, ERR, SECTOR_BYTES, has_bit};
use ata_taskfile::{Ports, Reg};
use port_lease::MonitorSide;

// The polls left after a poll.
pub(crate) fn left_after(poll: Poll, left: u32) -> u32
    requires { 0 < left }
    ensures { result ≡ left_after poll left }
{
    match poll {
        Poll::Waiting => left,
        Poll::Moved => left - 1,
        Poll::Done | Poll::Failed => 0,
    }
}

// Marks on the side that the command has ended, where the poll found it so.
pub(crate) fn mark_if_ended(side: &mut MonitorSide, poll: Poll)
    ensures own { has_own side.new ≡ (goes_on poll && has_own side.old) }
    ensures view { view_held side.new ≡ view_held side.old }
{
    match poll {
        Poll::Waiting | Poll::Moved => {}
        Poll::Done | Poll::Failed => side.own_ended(),
    }
}

// Polls the drive, and moves a block where one waits in Data or is wanted there.
pub(crate) fn poll_drive<P: Ports>(
    job: OwnJob,
    left: u32,
    side: &mut MonitorSide,
    ports: &mut P,
    bytes: &mut [u8],
) -> Poll
    requires fit { IsFit job }
    requires stands { 0 < left }
    requires within { left ≤ polls_of job }
    requires runs { IsRunning job (done_by job left) (P.device ports.old) }
    requires bytes { length bytes.old ≡ SECTOR_BYTES * count_of job }
    ensures answer { result ≡ answer_of job left (P.device ports.old).file }
    ensures bytes { bytes.new
        ≡ bytes_after job result (done_by job left) (P.device ports.old) bytes.old }
    ensures runs { goes_on result ≡ true
        → IsRunning job (done_by job (left_after result left)) (P.device ports.new) }
    ensures free { goes_on result ≡ false → is_free (P.device ports.new).file ≡ true }
    ensures well { result ≡ Poll.Done → shows_well (P.device ports.new).file ≡ true }
    ensures goes { goes_on result ≡ true → 0 < left_after result left }
    ensures works { goes_on result ≡ true → is_at_work (P.device ports.new).file.phase ≡ true }
    ensures kept { (start : List ℕ) (origin : List Cell) →
        IsDoneSoFar job (done_by job left) bytes.old start origin (P.device ports.old)
        → Leaves result job left bytes.new start origin (P.device ports.new) }
    ensures unseen { IsUnseen (P.device ports.old) (P.device ports.new) }
    ensures side { side.new ≡ side.old }
    ensures rest { P.rest ports.new ≡ P.rest ports.old }
    ensures reached { (origin : Device) → Reaches origin (P.device ports.old)
        → Reaches origin (P.device ports.new) }
{
    let status = acknowledge(side, ports);
    if has_bit(BSY, status) {
        return Poll::Waiting;
    }
    if has_bit(ERR, status) {
        return Poll::Failed;
    }
    if has_bit(DRQ, status) {
        return move_block(job, left, ports, bytes);
    }
    Poll::Done
}

/// Reads Status, which acknowledges the drive's interrupt: none pends then, and the line is low (ATA/ATAPI-6, Status
/// register).
pub fn acknowledge<P: Ports>(side: &mut MonitorSide, ports: &mut P) -> u8
    ensures status { result ≡ status (P.device ports.old).file }
    ensures after { let d = P.device ports.old in
        P.device ports.new ≡ record d { file = record d.file { pending = false } } }
    ensures side { side.new ≡ side.old }
    ensures rest { P.rest ports.new ≡ P.rest ports.old }
    ensures reached { (origin : Device) → Reaches origin (P.device ports.old)
        → Reaches origin (P.device ports.new) }
{
    ports.read8(Reg::Status)
}

// Moves the block that waits in Data, or is wanted there.
fn move_block<P: Ports>(job: OwnJob, left: u32, ports: &mut P, bytes: &mut [u8]) -> Poll
    requires fit { IsFit job }
    requires stands { 0 < left }
    requires within { left ≤ polls_of job }
    requires runs { IsRunning job (done_by job left) (P.device ports.old) }
    requires unpended { (P.device ports.old).file.pending ≡ false }
    requires offers { has_bit DRQ (status (P.device ports.old).file) ≡ true }
    requires bytes { length bytes.old ≡ SECTOR_BYTES * count_of job }
    ensures answer { result ≡ block_answer job left }
    ensures bytes { bytes.new
        ≡ bytes_after job result (done_by job left) (P.device ports.old) bytes.old }
    ensures runs { goes_on result ≡ true
        → IsRunning job (done_by job (left_after result left)) (P.device ports.new) }
    ensures free { goes_on result ≡ false → is_free (P.device ports.new).file ≡ true }
    ensures well { result ≡ Poll.Done → shows_well (P.device ports.new).file ≡ true }
    ensures goes { goes_on result ≡ true → 0 < left_after result left }
    ensures works { goes_on result ≡ true → is_at_work (P.device ports.new).file.phase ≡ true }
    ensures kept { (start : List ℕ) (origin : List Cell) →
        IsDoneSoFar job (done_by job left) bytes.old start origin (P.device ports.old)
        → Leaves result job left bytes.new start origin (P.device ports.new) }
    ensures unseen { IsUnseen (P.device ports.old) (P.device ports.new) }
    ensures rest { P.rest ports.new ≡ P.rest ports.old }
    ensures reached { (origin : Device) → Reaches origin (P.device ports.old)
        → Reaches origin (P.device ports.new) }
{
    match job {
        OwnJob::Read(_, count) => {
            take_block(ports, bytes, (count - left) as usize * SECTOR_BYTES);
            if left == 1 { Poll::Done } else { Poll::Moved }
        }
        OwnJob::Write(_, count) => {
            put_block(ports, bytes, (count + 1 - left) as usize * SECTOR_BYTES);
            Poll::Moved
        }
        OwnJob::Flush => Poll::Moved,
    }
}
