//! Settling: the frozen blocks get their bits in the bitmap on the disk.

ghost use Rattle.std.specs.Prelude.{◌≡◌, ◌<◌, ◌≤◌, ◌+◌, ◌-◌, ◌↔◌, length, IsNone, IfSome, IsTrue, false, ℕ, Bool, List};
ghost use Rattle.ata_taskfile.specs.Device.{Cell};
ghost use Rattle.fill_bitmap.specs.Area.{IsSuitable, blocks_of, bitmap_sectors_of};
ghost use Rattle.fill_bitmap.specs.Bitmap.{blocks_in, sectors_in};
ghost use Rattle.fill_store.specs.Sectors.{IsOnKept, buffer_with};
ghost use Rattle.fill_store.specs.SettleCells.{Settles, MadeBySettling, durable_after};
ghost use Rattle.fill_store.specs.Settle.{settle_at, settle_of, next_in_settling, jobs_of_settling, settle_after, sets_after_settling, bytes_to_settle, IsReached, bits_from, jobs_at, step_after, sets_behind, bytes_at};

use crate::sectors::{put, sector_of_bits};
use fill_bitmap::{Area, Bitmap, SECTOR_BYTES};
use own_pio::OwnJob;
use std::marker::Model;

// What a settling has the drive do next.
#[derive(Clone, Copy)]
pub(crate) enum SettleStep {
    FlushData,
    // The data of the frozen blocks is durable by now: a bit that a cut leaves says that its block may be read.
    WriteBits(u32),
    FlushBits,
    // The settling has ended, well or not.
    Nothing,
}

/// What the monitor has the drive do so that the frozen blocks become stored (own).
///
/// It flushes, writes each sector of the bitmap with the bits of the frozen blocks, and flushes; then the frozen blocks
/// are stored. The bitmap is frozen as the first flush begins, and not again before the end. A command that failed ends
/// the settling, and the stored blocks stay.
#[derive(Drop)]
pub struct Settle {
    area: Area,
    step: SettleStep,
}

impl Model for Settle {
    ghost use Rattle.fill_store.specs.Settle.{SettleState, settle_at, IsSettling};

    ghost Value = { SettleState };

    ghost view = { λ s. settle_at s.area s.step };

    ghost invariant = { λ s. IsSettling (settle_at s.area s.step) };
}

impl Settle {
    /// A settling that begins.
    pub fn new(area: Area) -> Settle
        requires { IsSuitable area }
        ensures begun { result ≡ settle_of area }
        ensures most { jobs_of_settling result ≤ bitmap_sectors_of area + 2 }
    {
        Settle {
            area,
            step: SettleStep::FlushData,
        }
    }

    /// The next own command, and None exactly where the settling has ended.
    ///
    /// The bytes of a write stand in the buffer that the last `ended` was given.
    pub fn next(&self) -> Option<OwnJob>
        ensures job { result ≡ next_in_settling self.now }
        ensures none { IsNone result ↔ (jobs_of_settling self.now ≡ 0) }
        ensures kept { IfSome result (IsOnKept self.now.area) }
    {
        match self.step {
            SettleStep::FlushData | SettleStep::FlushBits => Some(OwnJob::Flush),
            SettleStep::WriteBits(k) => Some(OwnJob::Write(sector_of_bits(&self.area, k), 1)),
            SettleStep::Nothing => None,
        }
    }

    /// The command that `next` named has ended, well or not. Where a write is next, its bytes stand at the front of
    /// `sector` afterwards. Answers false exactly where the command failed, which ended the settling.
    pub fn ended(&mut self, ok: bool, bitmap: &mut Bitmap, sector: &mut [u8]) -> bool
        requires stands { 0 < jobs_of_settling self.old }
        requires blocks { blocks_in bitmap.old ≡ blocks_of self.old.area }
        requires room { SECTOR_BYTES ≤ length sector.old }
        ensures answer { result ≡ ok }
        ensures state { self.new ≡ settle_after ok self.old }
        ensures sets { bitmap.new ≡ sets_after_settling ok self.old bitmap.old }
        ensures buffer { sector.new ≡ buffer_with (bytes_to_settle self.new bitmap.new) sector.old }
        ensures lowered { IsTrue ok → jobs_of_settling self.new < jobs_of_settling self.old }
        ensures failed { ok ≡ false → jobs_of_settling self.new ≡ 0 }
        ensures unchanged { ok ≡ false → bitmap.new ≡ bitmap.old }
        ensures count { blocks_in bitmap.new ≡ blocks_in bitmap.old }
        ensures area { self.new.area ≡ self.old.area }
        ensures frozen { bitmap.new.frozen ≡ bitmap.old.frozen }
        ensures stored { IsTrue ok → jobs_of_settling self.new ≡ 0 →
            bitmap.new.stored ≡ bitmap.old.frozen }
        ensures settles { (id : ℕ) (durable : List Bool) (old new : List Cell) →
            Settles id durable self.old bitmap.old old →
            MadeBySettling ok self.old bitmap.old old new →
            Settles id (durable_after ok self.old bitmap.old durable) self.new bitmap.new new }
    {
        self.step = step_behind(&self.area, self.step, ok, bitmap);
        put_bytes(self.step, bitmap, sector);
        ok
    }
}

// The step behind one whose command has ended: one that failed ends the settling.
fn step_behind(area: &Area, step: SettleStep, ok: bool, bitmap: &mut Bitmap) -> SettleStep
    requires suitable { IsSuitable area.now }
    requires reached { IsReached (bitmap_sectors_of area.now) step }
    requires stands { 0 < jobs_at area.now step }
    ensures step { settle_at area.now result ≡ settle_after ok (settle_at area.now step) }
    ensures reached { IsReached (bitmap_sectors_of area.now) result }
    ensures sets { let s = settle_at area.now step in
        bitmap.new ≡ sets_after_settling ok s bitmap.old }
    ensures lowered { IsTrue ok → jobs_at area.now result < jobs_at area.now step }
    ensures failed { ok ≡ false → jobs_at area.now result ≡ 0 }
    ensures count { blocks_in bitmap.new ≡ blocks_in bitmap.old }
{
    if !ok {
        return SettleStep::Nothing;
    }
    advanced(area, step, bitmap)
}

// The step behind one that was done.
fn advanced(area: &Area, step: SettleStep, bitmap: &mut Bitmap) -> SettleStep
    requires suitable { IsSuitable area.now }
    requires reached { IsReached (bitmap_sectors_of area.now) step }
    requires stands { 0 < jobs_at area.now step }
    ensures step { result ≡ step_after area.now step }
    ensures lowered { jobs_at area.now result < jobs_at area.now step }
    ensures reached { IsReached (bitmap_sectors_of area.now) result }
    ensures sets { bitmap.new ≡ sets_behind step bitmap.old }
    ensures count { blocks_in bitmap.new ≡ blocks_in bitmap.old }
{
    match step {
        SettleStep::FlushData => bits_from(area, 0),
        SettleStep::WriteBits(k) => bits_from(area, k + 1),
        SettleStep::FlushBits => {
            bitmap.store_frozen();
            SettleStep::Nothing
        }
        SettleStep::Nothing => SettleStep::Nothing,
    }
}

// The bits are written from the bitmap's sector `k` on.
fn bits_from(area: &Area, k: u32) -> SettleStep
    requires suitable { IsSuitable area.now }
    requires most { k ≤ bitmap_sectors_of area.now }
    ensures step { result ≡ bits_from area.now k }
    ensures left { jobs_at area.now result ≡ bitmap_sectors_of area.now - k + 1 }
    ensures reached { IsReached (bitmap_sectors_of area.now) result }
{
    if k == area.bitmap_sectors() {
        SettleStep::FlushBits
    } else {
        SettleStep::WriteBits(k)
    }
}

// Puts the bytes of a step that writes at the front of the buffer.
fn put_bytes(step: SettleStep, bitmap: &Bitmap, buffer: &mut [u8])
    requires reached { IsReached (sectors_in bitmap.now) step }
    requires room { SECTOR_BYTES ≤ length buffer.old }
    ensures buffer { buffer.new ≡ buffer_with (bytes_at step bitmap.now) buffer.old }
{
    match step {
        SettleStep::WriteBits(k) => put_bits(k, bitmap, buffer),
        SettleStep::FlushData | SettleStep::FlushBits | SettleStep::Nothing => {}
    }
}

// Puts the bits of the frozen blocks in the bitmap's sector `k` at the front of the buffer.
fn put_bits(k: u32, bitmap: &Bitmap, buffer: &mut [u8])
    requires there { k < sectors_in bitmap.now }
    requires room { SECTOR_BYTES ≤ length buffer.old }
    ensures buffer { buffer.new
        ≡ buffer_with (bytes_at (SettleStep.WriteBits k) bitmap.now) buffer.old }
{
    let mut bytes = [0; SECTOR_BYTES];
    bitmap.frozen_sector(k, &mut bytes);
    put(&bytes, buffer);
}
