//! Which order a command byte gives: the table of commands over the registers of a device.
//!
//! `read_request` is the one call. Its clause cites `order_of`, which stands with the device in
//! `ata_taskfile` (`specs/Order.antt`); `docs/drive.md` has the same table.
//!
//! The tests are in `src/tests.rt`.

#![tactic(auto)]

ghost use Rattle.std.specs.Prelude.{◌≡◌, ◌+◌, ◌<◌, ◌≤◌, ◌^◌, false, true};
ghost use Rattle.ata_taskfile.specs.Order.{inputs, has_range, narrow, wide, count_without_range, order_in, order_of, first_28, first_48, count_8, count_16, within};

#[cfg(test)]
mod tests;

use ata_taskfile::registers::{
    ADDRESS_BITS, ENABLE_WRITE_CACHE, FLUSH_CACHE, FLUSH_CACHE_EXT, IDENTIFY_DEVICE, LBA, READ_DMA,
    READ_DMA_EXT, READ_SECTORS, READ_SECTORS_EXT, READ_VERIFY, READ_VERIFY_EXT, SET_FEATURES,
    SET_TRANSFER_MODE, WRITE_DMA, WRITE_DMA_EXT, WRITE_SECTORS, WRITE_SECTORS_EXT, has_bit,
};
use ata_taskfile::{Form, Kind, Refused, Request, TaskFile};

/// The order that the byte `command` gives over the registers of `file`, on a drive of `sectors` sectors, or the
/// first of its refusals: `Abort` for a command that the drive doesn't have or not with these registers, then
/// `NotFound` for sectors that aren't all on the drive.
///
/// A count of 0 means 256, and 65,536 in an extended command (ATA/ATAPI-6, READ SECTOR(S) and READ SECTOR(S) EXT).
pub fn read_request(file: &TaskFile, command: u8, sectors: u64) -> Result<Request, Refused>
    ensures { result ≡ order_of command (inputs file.now) sectors }
{
    match command {
        READ_SECTORS => in_28_bits(file, Kind::Read, Form::PioIn, sectors),
        READ_SECTORS_EXT => in_48_bits(file, Kind::Read, Form::PioIn, sectors),
        READ_DMA => in_28_bits(file, Kind::Read, Form::DmaIn, sectors),
        READ_DMA_EXT => in_48_bits(file, Kind::Read, Form::DmaIn, sectors),
        WRITE_SECTORS => in_28_bits(file, Kind::Write, Form::PioOut, sectors),
        WRITE_SECTORS_EXT => in_48_bits(file, Kind::Write, Form::PioOut, sectors),
        WRITE_DMA => in_28_bits(file, Kind::Write, Form::DmaOut, sectors),
        WRITE_DMA_EXT => in_48_bits(file, Kind::Write, Form::DmaOut, sectors),
        READ_VERIFY => in_28_bits(file, Kind::Verify, Form::NoMove, sectors),
        READ_VERIFY_EXT => in_48_bits(file, Kind::Verify, Form::NoMove, sectors),
        FLUSH_CACHE => without_range(Kind::Flush, Form::NoMove, false, sectors),
        FLUSH_CACHE_EXT => without_range(Kind::Flush, Form::NoMove, true, sectors),
        IDENTIFY_DEVICE => without_range(Kind::Identify, Form::PioIn, false, sectors),
        SET_FEATURES => set_features(file, sectors),
        _ => Err(Refused::Abort),
    }
}

// The order of a command over a range of sectors, named in 28 bits.
fn in_28_bits(file: &TaskFile, kind: Kind, form: Form, sectors: u64) -> Result<Request, Refused>
    requires { has_range kind ≡ true }
    ensures { result ≡ order_in (narrow kind form) (inputs file.now) sectors }
{
    if !has_bit(LBA, file.device) {
        return Err(Refused::Abort);
    }
    within(
        sectors,
        Request {
            kind,
            form,
            extended: false,
            first: first_28(file) as u64,
            count: count_8(file),
        },
    )
}

// The order of a command over a range of sectors, named in 48 bits.
fn in_48_bits(file: &TaskFile, kind: Kind, form: Form, sectors: u64) -> Result<Request, Refused>
    requires { has_range kind ≡ true }
    ensures { result ≡ order_in (wide kind form) (inputs file.now) sectors }
{
    within(
        sectors,
        Request {
            kind,
            form,
            extended: true,
            first: first_48(file),
            count: count_16(file),
        },
    )
}

fn set_features(file: &TaskFile, sectors: u64) -> Result<Request, Refused>
    ensures { result ≡ order_in (narrow Kind.Features Form.NoMove) (inputs file.now) sectors }
{
    match file.features {
        ENABLE_WRITE_CACHE | SET_TRANSFER_MODE => without_range(
            Kind::Features,
            Form::NoMove,
            false,
            sectors,
        ),
        _ => Err(Refused::Abort),
    }
}

// A command without a range has no first sector, and no count but that of the block of IDENTIFY DEVICE.
fn without_range(kind: Kind, form: Form, extended: bool, sectors: u64) -> Result<Request, Refused>
    requires { has_range kind ≡ false }
    ensures { result ≡ within sectors (record {
      kind = kind;
      form = form;
      extended = extended;
      first = 0;
      count = count_without_range kind;
    }) }
{
    let count = match kind {
        Kind::Identify => 1,
        _ => 0,
    };
    within(
        sectors,
        Request {
            kind,
            form,
            extended,
            first: 0,
            count,
        },
    )
}

fn first_28(file: &TaskFile) -> u32
    ensures { result ≡ first_28 (inputs file.now) }
{
    u32::from_le_bytes([
        file.low[0],
        file.mid[0],
        file.high[0],
        file.device & ADDRESS_BITS,
    ])
}

fn first_48(file: &TaskFile) -> u64
    ensures value { result ≡ first_48 (inputs file.now) }
    ensures width { result < 2 ^ 48 }
{
    u64::from_le_bytes([
        file.low[0],
        file.mid[0],
        file.high[0],
        file.low[1],
        file.mid[1],
        file.high[1],
        0,
        0,
    ])
}

fn count_8(file: &TaskFile) -> u32
    ensures value { result ≡ count_8 (inputs file.now) }
    ensures most { result ≤ 256 }
{
    match file.count[0] {
        0 => 256,
        count => count as u32,
    }
}

fn count_16(file: &TaskFile) -> u32
    ensures value { result ≡ count_16 (inputs file.now) }
    ensures most { result ≤ 65536 }
{
    match u16::from_le_bytes(file.count) {
        0 => 65_536,
        count => count as u32,
    }
}

fn within(sectors: u64, request: Request) -> Result<Request, Refused>
    requires { request.first + request.count < 2 ^ 64 }
    ensures { result ≡ within sectors request }
{
    if request.first + request.count as u64 > sectors {
        Err(Refused::NotFound)
    } else {
        Ok(request)
    }
}
