//! Opening: what the monitor has the drive do for it at power-on, until it knows which blocks are stored.

ghost use Rattle.std.specs.Prelude.{◌≡◌, ◌<◌, ◌≤◌, ◌+◌, ◌-◌, ◌↔◌, length, take, IsNone, IfSome, IsTrue, false, ℕ, List};
ghost use Rattle.ata_taskfile.specs.Device.{Cell};
ghost use Rattle.fill_bitmap.specs.Area.{IsSuitable, blocks_of, bitmap_sectors_of};
ghost use Rattle.fill_bitmap.specs.Bitmap.{blocks_in, loaded};
ghost use Rattle.fill_store.specs.Sectors.{IsOnKept, zero_bits, buffer_with};
ghost use Rattle.fill_store.specs.OpeningCells.{Opens, MadeByOpening};
ghost use Rattle.fill_store.specs.Opening.{opening_at, opening_of, next_in_opening, jobs_of_opening, opening_after, sets_after_opening, bytes_to_open, IsReached, read_from, zeros_from, jobs_at, step_after, sets_behind, bytes_at};

use crate::header_bytes::header;
use crate::sectors::{front, put, sector_of_bits};
use fill_bitmap::{Area, Bitmap, SECTOR_BYTES};
use own_pio::OwnJob;
use std::marker::Model;

// What an opening has the drive do next.
#[derive(Clone, Copy)]
pub(crate) enum OpeningStep {
    ReadHeader,
    // The header is the run's, and this sector of the bitmap is read.
    ReadBits(u32),
    // The header isn't the run's, and this sector of the bitmap is written.
    WriteZeros(u32),
    FlushZeros,
    // The empty bitmap is durable by now. Else a cut could leave a header before whatever the disk had there.
    WriteHeader,
    FlushHeader,
    // The opening has ended.
    Nothing,
}

/// What the monitor has the drive do from power-on until it knows which blocks of the image are stored (own).
///
/// It reads the header. Where that is the run's, it reads the bitmap. Else it writes a bitmap without a block, flushes,
/// writes the header, and flushes. A command that failed is begun again. An empty image has nothing to be opened.
#[derive(Drop)]
pub struct Opening {
    area: Area,
    id: u64,
    step: OpeningStep,
}

impl Model for Opening {
    ghost use Rattle.fill_store.specs.Opening.{OpeningState, opening_at, IsOpening};

    ghost Value = { OpeningState };

    ghost view = { λ o. opening_at o.area o.id o.step };

    ghost invariant = { λ o. IsOpening (opening_at o.area o.id o.step) };
}

impl Opening {
    /// The opening of the run `id` at power-on.
    pub fn new(area: Area, id: u64) -> Opening
        requires { IsSuitable area }
        ensures begun { result ≡ opening_of area id }
        ensures most { jobs_of_opening result ≤ bitmap_sectors_of area + 4 }
    {
        let step = if area.image == 0 {
            OpeningStep::Nothing
        } else {
            OpeningStep::ReadHeader
        };
        Opening { area, id, step }
    }

    /// The next own command, and None exactly where the opening has ended.
    ///
    /// The bytes of a write stand in the buffer that the last `ended` was given.
    pub fn next(&self) -> Option<OwnJob>
        ensures job { result ≡ next_in_opening self.now }
        ensures none { IsNone result ↔ (jobs_of_opening self.now ≡ 0) }
        ensures kept { IfSome result (IsOnKept self.now.area) }
    {
        match self.step {
            OpeningStep::ReadHeader => Some(OwnJob::Read(self.area.reserved(), 1)),
            OpeningStep::ReadBits(k) => Some(OwnJob::Read(sector_of_bits(&self.area, k), 1)),
            OpeningStep::WriteZeros(k) => Some(OwnJob::Write(sector_of_bits(&self.area, k), 1)),
            OpeningStep::FlushZeros | OpeningStep::FlushHeader => Some(OwnJob::Flush),
            OpeningStep::WriteHeader => Some(OwnJob::Write(self.area.reserved(), 1)),
            OpeningStep::Nothing => None,
        }
    }

    /// The command that `next` named has ended, well or not. A read put its bytes at the front of `sector`; where a
    /// write is next, its bytes stand there afterwards.
    pub fn ended(&mut self, ok: bool, bitmap: &mut Bitmap, sector: &mut [u8])
        requires stands { 0 < jobs_of_opening self.old }
        requires blocks { blocks_in bitmap.old ≡ blocks_of self.old.area }
        requires room { SECTOR_BYTES ≤ length sector.old }
        ensures state { self.new ≡ opening_after ok (take SECTOR_BYTES sector.old) self.old }
        ensures sets { bitmap.new
            ≡ sets_after_opening ok (take SECTOR_BYTES sector.old) self.old bitmap.old }
        ensures buffer { sector.new ≡ buffer_with (bytes_to_open self.new) sector.old }
        ensures lowered { IsTrue ok → jobs_of_opening self.new < jobs_of_opening self.old }
        ensures failed { ok ≡ false → self.new ≡ self.old }
        ensures unchanged { ok ≡ false → bitmap.new ≡ bitmap.old }
        ensures count { blocks_in bitmap.new ≡ blocks_in bitmap.old }
        ensures area { self.new.area ≡ self.old.area }
        ensures opens { (disk : List (List ℕ)) (old new : List Cell) →
            Opens disk self.old bitmap.old old → MadeByOpening ok self.old sector.old old new →
            Opens disk self.new bitmap.new new }
    {
        self.step = step_behind(&self.area, self.id, self.step, ok, bitmap, sector);
        put_bytes(&self.area, self.id, self.step, sector);
    }
}

// The step behind one whose command has ended: one that failed is begun again.
fn step_behind(
    area: &Area,
    id: u64,
    step: OpeningStep,
    ok: bool,
    bitmap: &mut Bitmap,
    sector: &[u8],
) -> OpeningStep
    requires suitable { IsSuitable area.now }
    requires reached { IsReached area.now step }
    requires stands { 0 < jobs_at area.now step }
    requires blocks { blocks_in bitmap.old ≡ blocks_of area.now }
    requires room { SECTOR_BYTES ≤ length sector.now }
    ensures step { let o = opening_at area.now id step in
        opening_at area.now id result ≡ opening_after ok (take SECTOR_BYTES sector.now) o }
    ensures reached { IsReached area.now result }
    ensures sets { let o = opening_at area.now id step in
        bitmap.new ≡ sets_after_opening ok (take SECTOR_BYTES sector.now) o bitmap.old }
    ensures lowered { IsTrue ok → jobs_at area.now result < jobs_at area.now step }
    ensures failed { ok ≡ false → result ≡ step }
    ensures count { blocks_in bitmap.new ≡ blocks_in bitmap.old }
{
    if !ok {
        return step;
    }
    advanced(area, id, step, bitmap, &front(sector))
}

// The step behind one that was done, whose sector has these bytes where it was a read.
fn advanced(
    area: &Area,
    id: u64,
    step: OpeningStep,
    bitmap: &mut Bitmap,
    bytes: &[u8; SECTOR_BYTES],
) -> OpeningStep
    requires suitable { IsSuitable area.now }
    requires reached { IsReached area.now step }
    requires stands { 0 < jobs_at area.now step }
    requires blocks { blocks_in bitmap.old ≡ blocks_of area.now }
    ensures step { result ≡ step_after area.now id bytes.now step }
    ensures lowered { jobs_at area.now result < jobs_at area.now step }
    ensures reached { IsReached area.now result }
    ensures sets { bitmap.new ≡ sets_behind bytes.now step bitmap.old }
    ensures count { blocks_in bitmap.new ≡ blocks_in bitmap.old }
{
    match step {
        OpeningStep::ReadHeader => header_read(area, id, bytes),
        OpeningStep::ReadBits(k) => bits_read(area, k, bitmap, bytes),
        OpeningStep::WriteZeros(k) => zeros_from(area, k + 1),
        OpeningStep::FlushZeros => OpeningStep::WriteHeader,
        OpeningStep::WriteHeader => OpeningStep::FlushHeader,
        OpeningStep::FlushHeader | OpeningStep::Nothing => OpeningStep::Nothing,
    }
}

// What follows the reading of the header: the disk's own bitmap counts only behind exactly this run's.
fn header_read(area: &Area, id: u64, bytes: &[u8; SECTOR_BYTES]) -> OpeningStep
    requires suitable { IsSuitable area.now }
    requires image { 0 < area.now.image }
    ensures step { result ≡ step_after area.now id bytes.now OpeningStep.ReadHeader }
    ensures left { jobs_at area.now result ≤ bitmap_sectors_of area.now + 3 }
    ensures reached { IsReached area.now result }
{
    let mut wanted = [0; SECTOR_BYTES];
    header(area, id, &mut wanted);
    if *bytes == wanted {
        read_from(area, 0)
    } else {
        zeros_from(area, 0)
    }
}

// What follows the reading of the bitmap's sector `k`.
fn bits_read(area: &Area, k: u32, bitmap: &mut Bitmap, bytes: &[u8; SECTOR_BYTES]) -> OpeningStep
    requires suitable { IsSuitable area.now }
    requires there { k < bitmap_sectors_of area.now }
    requires blocks { blocks_in bitmap.old ≡ blocks_of area.now }
    ensures step { result ≡ read_from area.now (k + 1) }
    ensures left { jobs_at area.now result ≡ bitmap_sectors_of area.now - (k + 1) }
    ensures reached { IsReached area.now result }
    ensures loaded { bitmap.new ≡ loaded k bytes.now bitmap.old }
    ensures count { blocks_in bitmap.new ≡ blocks_in bitmap.old }
{
    bitmap.load(k, bytes);
    read_from(area, k + 1)
}

// The bitmap is read from its sector `k` on.
fn read_from(area: &Area, k: u32) -> OpeningStep
    requires suitable { IsSuitable area.now }
    requires most { k ≤ bitmap_sectors_of area.now }
    ensures step { result ≡ read_from area.now k }
    ensures left { jobs_at area.now result ≡ bitmap_sectors_of area.now - k }
    ensures reached { IsReached area.now result }
{
    if k == area.bitmap_sectors() {
        OpeningStep::Nothing
    } else {
        OpeningStep::ReadBits(k)
    }
}

// Zeros are written from the bitmap's sector `k` on.
fn zeros_from(area: &Area, k: u32) -> OpeningStep
    requires suitable { IsSuitable area.now }
    requires image { 0 < area.now.image }
    requires most { k ≤ bitmap_sectors_of area.now }
    ensures step { result ≡ zeros_from area.now k }
    ensures left { jobs_at area.now result ≡ bitmap_sectors_of area.now - k + 3 }
    ensures reached { IsReached area.now result }
{
    if k == area.bitmap_sectors() {
        OpeningStep::FlushZeros
    } else {
        OpeningStep::WriteZeros(k)
    }
}

// Puts the bytes of a step that writes at the front of the buffer.
fn put_bytes(area: &Area, id: u64, step: OpeningStep, buffer: &mut [u8])
    requires { SECTOR_BYTES ≤ length buffer.old }
    ensures buffer { buffer.new ≡ buffer_with (bytes_at area.now id step) buffer.old }
{
    match step {
        OpeningStep::WriteZeros(_) => put_zeros(buffer),
        OpeningStep::WriteHeader => put_header(area, id, buffer),
        OpeningStep::ReadHeader
        | OpeningStep::ReadBits(_)
        | OpeningStep::FlushZeros
        | OpeningStep::FlushHeader
        | OpeningStep::Nothing => {}
    }
}

// Puts a sector of zeros at the front of the buffer.
#[tactic(auto, unfolding(crate::specs::Sectors::zero_bits))]
fn put_zeros(buffer: &mut [u8])
    requires { SECTOR_BYTES ≤ length buffer.old }
    ensures buffer { buffer.new ≡ buffer_with (Some zero_bits) buffer.old }
{
    put(&[0; SECTOR_BYTES], buffer);
}

// Puts the run's header at the front of the buffer.
fn put_header(area: &Area, id: u64, buffer: &mut [u8])
    requires { SECTOR_BYTES ≤ length buffer.old }
    ensures buffer { buffer.new
        ≡ buffer_with (bytes_at area.now id OpeningStep.WriteHeader) buffer.old }
{
    let mut bytes = [0; SECTOR_BYTES];
    header(area, id, &mut bytes);
    put(&bytes, buffer);
}
