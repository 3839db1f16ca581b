//! The table of commands over registers that were set by hand.
//!
//! Each test is of one command, and its rows are worked out by hand from the layout of the registers. The last column
//! is the first sector and the count of the order, or why it is refused.

use crate::read_request;
use ata_taskfile::Form::{DmaIn, DmaOut, NoMove, PioIn, PioOut};
use ata_taskfile::Kind::{Features, Flush, Identify, Read, Verify, Write};
use ata_taskfile::{Form, Kind, Refused, Request, TaskFile};

// Registers with these bytes, of a two-byte register the current one first.
fn registers(features: u8, device: u8, count: [u8; 2], address: [[u8; 2]; 3]) -> TaskFile {
    let mut file = TaskFile::power_on();
    file.features = features;
    file.device = device;
    file.count = count;
    file.low = address[0];
    file.mid = address[1];
    file.high = address[2];
    file
}

// The first sector and the count of an order, or why it is refused.
type Range = Result<(u64, u32), Refused>;

fn at(first: u64, count: u32) -> Range {
    Ok((first, count))
}

const ABORT: Range = Err(Refused::Abort);

const NOT_FOUND: Range = Err(Refused::NotFound);

// The order with this range.
fn order(kind: Kind, form: Form, extended: bool, range: Range) -> Result<Request, Refused> {
    match range {
        Ok((first, count)) => Ok(Request {
            kind,
            form,
            extended,
            first,
            count,
        }),
        Err(reason) => Err(reason),
    }
}

// Device, Sector Count, LBA Low, Mid and High, the drive's sectors; the range.
type Row28 = (u8, u8, [u8; 3], u64, Range);

// The first row in which a command of 28 bits has another answer: its place, and that answer. Each previous byte is
// A5h, which no such command reads.
fn first_other_28(
    command: u8,
    kind: Kind,
    form: Form,
    rows: &[Row28],
) -> Option<(usize, Result<Request, Refused>)> {
    for (i, (device, count, [low, mid, high], sectors, range)) in rows.iter().enumerate() {
        let address = [[*low, 0xa5], [*mid, 0xa5], [*high, 0xa5]];
        let file = registers(0xa5, *device, [*count, 0xa5], address);
        let answer = read_request(&file, command, *sectors);
        if answer != order(kind, form, false, *range) {
            return Some((i, answer));
        }
    }
    None
}

#[test]
fn read_sectors(rt: HostRuntime) {
    let rows = [
        (0xe0, 1, [3, 0, 0], 16, at(3, 1)),
        (0x40, 1, [15, 0, 0], 16, at(15, 1)),
        (0x40, 1, [16, 0, 0], 16, NOT_FOUND),
        (0x40, 2, [15, 0, 0], 16, NOT_FOUND),
        (0xe0, 0, [0, 0, 0], 256, at(0, 256)),
        (0xe0, 0, [0, 0, 0], 255, NOT_FOUND),
        (0x41, 2, [0x56, 0x34, 0x12], 0x112_3458, at(0x112_3456, 2)),
        (0x41, 2, [0x56, 0x34, 0x12], 0x112_3457, NOT_FOUND),
        (0x4f, 1, [0xff; 3], 0x1000_0000, at(0xfff_ffff, 1)),
        (0x4f, 1, [0xff; 3], 0xfff_ffff, NOT_FOUND),
        (0xa0, 1, [3, 0, 0], 16, ABORT),
        (0xaf, 1, [0xff; 3], 16, ABORT),
    ];
    assert_eq!(rt; first_other_28(0x20, Read, PioIn, &rows), None);
}

#[test]
fn read_dma(rt: HostRuntime) {
    let rows = [
        (0x40, 4, [8, 1, 0], 4096, at(0x108, 4)),
        (0xa0, 4, [8, 1, 0], 4096, ABORT),
        (0x40, 4, [8, 1, 0], 0x10b, NOT_FOUND),
    ];
    assert_eq!(rt; first_other_28(0xc8, Read, DmaIn, &rows), None);
}

#[test]
fn write_sectors(rt: HostRuntime) {
    let rows = [
        (0x42, 0xff, [0, 0, 1], 0x300_0000, at(0x201_0000, 0xff)),
        (0x02, 0xff, [0, 0, 1], 0x300_0000, ABORT),
        (0x42, 0xff, [0, 0, 1], 0x201_00fe, NOT_FOUND),
    ];
    assert_eq!(rt; first_other_28(0x30, Write, PioOut, &rows), None);
}

#[test]
fn write_dma(rt: HostRuntime) {
    let rows = [
        (0xf0, 1, [0, 0, 0], 1, at(0, 1)),
        (0xb0, 1, [0, 0, 0], 1, ABORT),
        (0xf0, 1, [0, 0, 0], 0, NOT_FOUND),
    ];
    assert_eq!(rt; first_other_28(0xca, Write, DmaOut, &rows), None);
}

#[test]
fn read_verify_sectors(rt: HostRuntime) {
    let rows = [
        (0x40, 0, [0x10, 0, 0], 0x110, at(0x10, 256)),
        (0x40, 0, [0x10, 0, 0], 0x10f, NOT_FOUND),
        (0x00, 0, [0x10, 0, 0], 0x110, ABORT),
    ];
    assert_eq!(rt; first_other_28(0x40, Verify, NoMove, &rows), None);
}

// Device, Sector Count, LBA Low, Mid and High with the current byte first, the drive's sectors; the range.
type Row48 = (u8, [u8; 2], [[u8; 2]; 3], u64, Range);

// The first row in which a command of 48 bits has another answer: its place, and that answer. Device has no bits of the
// address, and LBA doesn't matter.
fn first_other_48(
    command: u8,
    kind: Kind,
    form: Form,
    rows: &[Row48],
) -> Option<(usize, Result<Request, Refused>)> {
    for (i, (device, count, address, sectors, range)) in rows.iter().enumerate() {
        let file = registers(0xa5, *device, *count, *address);
        let answer = read_request(&file, command, *sectors);
        if answer != order(kind, form, true, *range) {
            return Some((i, answer));
        }
    }
    None
}

// The address 0.
const ZERO: [[u8; 2]; 3] = [[0, 0], [0, 0], [0, 0]];

#[test]
fn read_sectors_ext(rt: HostRuntime) {
    // In the current bytes alone, and in both: 12_3456h and 789A_BC12_3456h.
    let near = [[0x56, 0], [0x34, 0], [0x12, 0]];
    let far = [[0x56, 0xbc], [0x34, 0x9a], [0x12, 0x78]];
    let far_sector = 0x789a_bc12_3456;
    let rows = [
        (0x00, [2, 0], near, 0x12_3458, at(0x12_3456, 2)),
        (0x00, [2, 0], near, 0x12_3457, NOT_FOUND),
        (0x4f, [1, 0], ZERO, 1, at(0, 1)),
        (0x40, [1, 0], far, far_sector + 1, at(far_sector, 1)),
        (0x40, [2, 0], far, far_sector + 1, NOT_FOUND),
        (0x40, [0, 0], ZERO, 65_536, at(0, 65_536)),
        (0x40, [0, 0], ZERO, 65_535, NOT_FOUND),
        (0x40, [0, 1], ZERO, 256, at(0, 256)),
        (
            0x40,
            [0xff, 0xff],
            [[0, 1], [0, 0], [0, 0]],
            0x200_0000,
            at(0x100_0000, 65_535),
        ),
    ];
    assert_eq!(rt; first_other_48(0x24, Read, PioIn, &rows), None);
}

#[test]
fn read_dma_ext(rt: HostRuntime) {
    let last = [[0xff, 0xff], [0xff, 0xff], [0xff, 0xff]];
    let past = [[0, 0], [0, 1], [0, 0]];
    let rows = [
        (0x40, [1, 0], last, u64::MAX, at(0xffff_ffff_ffff, 1)),
        (0xe0, [1, 0], past, 0x1_0000_0000, NOT_FOUND),
    ];
    assert_eq!(rt; first_other_48(0x25, Read, DmaIn, &rows), None);
}

#[test]
fn write_sectors_ext(rt: HostRuntime) {
    let high = [[0, 0], [0, 0], [0, 1]];
    let low = [[14, 0], [0, 0], [0, 0]];
    let high_sector = 0x100_0000_0000;
    let rows = [
        (0x40, [3, 2], high, 2 * high_sector, at(high_sector, 0x203)),
        (0x00, [3, 0], low, 16, NOT_FOUND),
    ];
    assert_eq!(rt; first_other_48(0x34, Write, PioOut, &rows), None);
}

#[test]
fn write_dma_ext(rt: HostRuntime) {
    let rows = [
        (0x00, [2, 0], [[14, 0], [0, 0], [0, 0]], 16, at(14, 2)),
        (0x00, [2, 0], [[15, 0], [0, 0], [0, 0]], 16, NOT_FOUND),
    ];
    assert_eq!(rt; first_other_48(0x35, Write, DmaOut, &rows), None);
}

#[test]
fn read_verify_sectors_ext(rt: HostRuntime) {
    let rows = [
        (0xa0, [16, 0], ZERO, 16, at(0, 16)),
        (0xa0, [17, 0], ZERO, 16, NOT_FOUND),
    ];
    assert_eq!(rt; first_other_48(0x42, Verify, NoMove, &rows), None);
}

#[test]
fn commands_without_a_range(rt: HostRuntime) {
    // Command, Features; the order. Count and address name sectors that aren't there, and LBA is 0.
    let cases = [
        (0xe7, 0, order(Flush, NoMove, false, at(0, 0))),
        (0xea, 0, order(Flush, NoMove, true, at(0, 0))),
        (0xec, 0, order(Identify, PioIn, false, at(0, 1))),
        (0xef, 0x02, order(Features, NoMove, false, at(0, 0))),
        (0xef, 0x03, order(Features, NoMove, false, at(0, 0))),
        (0xef, 0x00, Err(Refused::Abort)),
        (0xef, 0x01, Err(Refused::Abort)),
        (0xef, 0x04, Err(Refused::Abort)),
        (0xef, 0x82, Err(Refused::Abort)),
    ];
    for (command, features, want) in cases {
        let file = registers(features, 0xaf, [0xff, 0xff], [[0xff, 0xff]; 3]);
        let answer = read_request(&file, command, 16);
        assert_eq!(rt; answer, want, "{command:x} {features:x}");
    }
}

#[test]
fn other_bytes_are_refused(rt: HostRuntime) {
    // Neighbours of the table's bytes, and commands that this drive doesn't have.
    let bytes = [
        0x00, 0x10, 0x1f, 0x21, 0x22, 0x23, 0x26, 0x27, 0x29, 0x2a, 0x31, 0x33, 0x36, 0x38, 0x39,
        0x3a, 0x41, 0x43, 0x70, 0x90, 0x91, 0xa0, 0xa1, 0xb0, 0xc4, 0xc5, 0xc6, 0xc7, 0xc9, 0xcb,
        0xe0, 0xe1, 0xe4, 0xe5, 0xe6, 0xe8, 0xe9, 0xeb, 0xed, 0xee, 0xf0, 0xf8, 0xff,
    ];
    let file = registers(2, 0xe0, [1, 0], [[0, 0]; 3]);
    for command in bytes {
        let answer = read_request(&file, command, 16);
        assert_eq!(rt; answer, Err(Refused::Abort), "{command:x}");
    }
}
