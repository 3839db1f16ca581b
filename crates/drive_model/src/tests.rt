//! Two sectors, read by hand. The values are from the rules of the registers.

ghost use Rattle.std.specs.Prelude.{◌≡◌, IfOk};
ghost use Rattle.drive_model.specs.Drive.{device_of};

use crate::Drive;
use crate::identify::identity;
use crate::runs::bench::Bench;
use ata_taskfile::Access::{Line, Read8, ReadPointer, ReadWord, Write8, WritePointer, WriteWord};
use ata_taskfile::registers::SECTOR_BYTES;
use ata_taskfile::{Access, Answer, Ports, Reg, Step, Stepped, perform};
use bm_dma::GuestMemory;
use drive_store::{MemoryStore, Store};
use std::alloc::{AllocError, Global};
use std::test::Fail;

// A drive at power-on. Sector 0 is all 0; sector 1 begins with 34h 12h and ends with CDh ABh.
fn two_sectors(alloc: Global) -> Result<Drive<MemoryStore>, AllocError>
    ensures { IfOk result (λ d. (device_of d).sectors ≡ 2) }
{
    let mut bytes = [0; SECTOR_BYTES];
    bytes[0] = 0x34;
    bytes[1] = 0x12;
    bytes[510] = 0xcd;
    bytes[511] = 0xab;
    let mut store = MemoryStore::new(alloc, 2)?;
    let _never_fails = store.set(1, &bytes);
    Drive::new(alloc, store)
}

// The first access that doesn't answer as it says, by its number from 0 on.
fn first_other<S: Store>(drive: &mut Drive<S>, accesses: &[(Access, Answer)]) -> Option<usize> {
    for (i, (access, want)) in accesses.iter().enumerate() {
        if perform(drive, access) != *want {
            return Some(i);
        }
    }
    None
}

#[test]
fn the_first_step_ends_power_on(rt: HostRuntime) -> Result<(), Fail> {
    let mut drive = two_sectors(rt.alloc())?;
    let mut memory = GuestMemory::new(rt.alloc(), 16)?;
    let before = drive.read8(Reg::Status);
    let first = drive.step(Step::Good, &mut memory);
    let after = drive.read8(Reg::Status);
    let second = drive.step(Step::Good, &mut memory);
    assert_eq!(rt; [before, after], [0x80, 0x50]);
    assert!(rt; first == Ok(Stepped::Changed));
    assert!(rt; second == Ok(Stepped::Nothing));
    Ok(())
}

#[test]
fn a_sector_is_read_by_words(rt: HostRuntime) -> Result<(), Fail> {
    let mut bench = Bench::new(rt.alloc(), two_sectors(rt.alloc())?)?;
    bench.give_narrow(0x20, 1, 1);
    assert_eq!(rt; first_other(&mut bench.drive, &BEFORE_THE_BLOCK), None);
    assert!(rt; bench.steps_to(Step::Good, true, 0x58));
    for i in 0..256usize {
        let want = match i {
            0 => 0x1234,
            255 => 0xabcd,
            _ => 0,
        };
        assert_eq!(rt; bench.drive.read_word(), want, "word {i}");
    }
    assert_eq!(rt; first_other(&mut bench.drive, &BEHIND_THE_BLOCK), None);
    Ok(())
}

const BEFORE_THE_BLOCK: [(Access, Answer); 2] = [
    (Read8(Reg::Status), Answer::Byte(0x80)),
    (ReadWord, Answer::Word(0xffff)),
];

const BEHIND_THE_BLOCK: [(Access, Answer); 2] = [
    (Read8(Reg::Status), Answer::Byte(0x50)),
    (ReadWord, Answer::Word(0xffff)),
];

#[test]
fn a_durable_value_is_copied(rt: HostRuntime) -> Result<(), Fail> {
    let mut drive = two_sectors(rt.alloc())?;
    let mut sector = [0; SECTOR_BYTES];
    assert!(rt; drive.durable(1, &mut sector).is_ok());
    assert_eq!(rt; [sector[0], sector[511]], [0x34, 0xab]);
    assert!(rt; !drive.file().failed);
    Ok(())
}

// The bus master's registers are written in every phase; Data is not.
const ACCESSES_IN_RESET: [(Access, Answer); 15] = [
    (ReadWord, Answer::Word(0xffff)),
    (WriteWord(0x1234), Answer::Nothing),
    (Write8(Reg::Count, 9), Answer::Nothing),
    (Read8(Reg::Count), Answer::Byte(0)),
    (WritePointer(0x103), Answer::Nothing),
    (ReadPointer, Answer::Long(0x100)),
    (Write8(Reg::BusCommand, 0x09), Answer::Nothing),
    (Read8(Reg::BusCommand), Answer::Byte(0x09)),
    (Read8(Reg::BusStatus), Answer::Byte(0x01)),
    (WritePointer(0x200), Answer::Nothing),
    (ReadPointer, Answer::Long(0x100)),
    (Write8(Reg::BusCommand, 0x00), Answer::Nothing),
    (Read8(Reg::BusStatus), Answer::Byte(0x00)),
    (Line, Answer::Byte(0)),
    (Read8(Reg::Alternate), Answer::Byte(0x80)),
];

#[test]
fn accesses_in_reset(rt: HostRuntime) -> Result<(), Fail> {
    let mut drive = two_sectors(rt.alloc())?;
    assert_eq!(rt; first_other(&mut drive, &ACCESSES_IN_RESET), None);
    Ok(())
}

// The interrupt pends below nIEN. Written as 0 it lets the line rise, and again after it was 1.
const ACCESSES_BELOW_NIEN: [(Access, Answer); 14] = [
    (Line, Answer::Byte(0)),
    (Read8(Reg::BusStatus), Answer::Byte(0x00)),
    (Write8(Reg::Alternate, 0x00), Answer::Nothing),
    (Line, Answer::Byte(1)),
    (Read8(Reg::BusStatus), Answer::Byte(0x04)),
    (Write8(Reg::BusStatus, 0x04), Answer::Nothing),
    (Read8(Reg::BusStatus), Answer::Byte(0x00)),
    (Line, Answer::Byte(1)),
    (Write8(Reg::Alternate, 0x02), Answer::Nothing),
    (Write8(Reg::Alternate, 0x80), Answer::Nothing),
    (Read8(Reg::BusStatus), Answer::Byte(0x04)),
    (WriteWord(0x1234), Answer::Nothing),
    (Read8(Reg::Status), Answer::Byte(0x58)),
    (Line, Answer::Byte(0)),
];

#[test]
fn each_rise_of_the_line_shows(rt: HostRuntime) -> Result<(), Fail> {
    let mut bench = Bench::new(rt.alloc(), two_sectors(rt.alloc())?)?;
    bench.drive.write8(Reg::Alternate, 0x02);
    bench.give_narrow(0x20, 0, 1);
    let _changed = bench.step(Step::Good);
    assert!(rt; bench.drive.pending());
    assert_eq!(rt; first_other(&mut bench.drive, &ACCESSES_BELOW_NIEN), None);
    assert!(rt; !bench.drive.pending());
    assert_eq!(rt; bench.drive.read_word(), 0);
    Ok(())
}

// The texts go in pairs, the first character high.
#[test]
fn words_of_identify(rt: HostRuntime) -> Result<(), Fail> {
    let mut bench = Bench::new(rt.alloc(), two_sectors(rt.alloc())?)?;
    bench.drive.write8(Reg::Status, 0xec);
    let _changed = bench.step(Step::Good);
    for place in 0..256u16 {
        assert_eq!(rt; bench.drive.read_word(), word_wanted(place), "word {place}");
    }
    Ok(())
}

// The words of a drive of two sectors. Spaces fill the rest of `1.0` in 23 to 26 and of `BMCAST DRIVE` in 27 to 46.
fn word_wanted(place: u16) -> u16 {
    match place {
        // `BMC00000000000000001` in 10 to 19.
        10 => 0x424d,
        11 => 0x4330,
        12..=18 => 0x3030,
        19 => 0x3031,
        23 => 0x312e,
        24 => 0x3020,
        27 => 0x424d,
        28 => 0x4341,
        29 => 0x5354,
        30 => 0x2044,
        31 => 0x5249,
        32 => 0x5645,
        25 | 26 | 33..=46 => 0x2020,
        49 => 0x0300,
        60 | 100 => 2,
        82 | 85 => 0x0020,
        83 => 0x7400,
        _ => 0,
    }
}

#[test]
fn a_large_count_in_identify(rt: HostRuntime) {
    let words = identity(0x0123_4567_89ab_cdef);
    assert_eq!(rt; [words[60], words[61], words[62]], [0xcdef, 0x89ab, 0]);
    assert_eq!(rt; [words[99], words[100], words[101]], [0, 0xcdef, 0x89ab]);
    assert_eq!(rt; [words[102], words[103], words[104]], [0x4567, 0x0123, 0]);
}
