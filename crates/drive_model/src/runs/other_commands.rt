//! Runs of commands that read and write no sector, and of refused ones.

use super::act::Act::{AsGiven, Ends, Fails, Kept, Narrow, Offers, Quiet, Read, Skip, Wide, Write};
use super::{BAD, NO_BAD, NO_GOOD, Pair, Run, check, check_pairs};
use ata_taskfile::Reg::{Device, Error, Status};
use ata_taskfile::Step::{Bad, Good};
use std::test::Fail;

// Count and the address registers stay, whatever the end.
const IDENTIFY_AND_FEATURES: [Run; 6] = [
    (
        "ech",
        &[
            Narrow(0xec, 3, 9),
            Offers,
            Skip(255),
            Quiet(0x58),
            Skip(1),
            Quiet(0x50),
            Kept(9, 3),
            NO_GOOD,
        ],
    ),
    (
        "ech with LBA at 0",
        &[Write(Device, 0x00), Write(Status, 0xec), Offers],
    ),
    (
        "ech that fails",
        &[Narrow(0xec, 3, 9), Fails(Bad, 0x04, 3), Kept(9, 3), AsGiven],
    ),
    (
        "efh with 03h",
        &[
            Write(Error, 0x03),
            Write(Status, 0xef),
            Ends,
            Read(Error, 0x00),
        ],
    ),
    (
        "efh with 02h",
        &[Write(Error, 0x02), Write(Status, 0xef), Ends, Kept(1, 1)],
    ),
    (
        "efh that fails",
        &[Write(Error, 0x02), Write(Status, 0xef), Fails(Bad, 0x04, 1)],
    ),
];

#[test]
fn identify_and_features(rt: HostRuntime) -> Result<(), Fail> {
    check(&rt, rt.alloc(), &IDENTIFY_AND_FEATURES)
}

// So do they at a flush and a verify, and a verify that fails shows its first sector.
const FLUSHES_AND_VERIFIES: [Pair; 4] = [
    (
        "a flush",
        [Narrow(0xe7, 1, 9), Wide(0xea, 1, 9)],
        &[Quiet(0x80), Ends, Kept(9, 1), Read(Error, 0x00)],
    ),
    (
        "a flush that fails",
        [Narrow(0xe7, 1, 9), Wide(0xea, 1, 9)],
        &[Fails(Bad, 0x04, 1), Kept(9, 1), AsGiven],
    ),
    (
        "a verify",
        [Narrow(0x40, 0, 4), Wide(0x42, 0, 4)],
        &[Quiet(0x80), Ends, Kept(4, 0), Read(Error, 0x00)],
    ),
    (
        "a verify that fails",
        [Narrow(0x40, 2, 2), Wide(0x42, 2, 2)],
        &[Fails(Bad, 0x40, 2), AsGiven],
    ),
];

#[test]
fn flushes_and_verifies(rt: HostRuntime) -> Result<(), Fail> {
    check_pairs(&rt, rt.alloc(), &FLUSHES_AND_VERIFIES)
}

// A refused command ends alike in both kinds of step.
const REFUSED: [Run; 7] = [
    (
        "20h past the end",
        &[
            Narrow(0x20, 3, 2),
            Fails(Good, 0x10, 3),
            Kept(2, 3),
            NO_GOOD,
        ],
    ),
    (
        "34h past the end, in a failing step",
        &[Wide(0x34, 3, 2), Fails(Bad, 0x10, 3), NO_BAD],
    ),
    (
        "a byte outside the table",
        &[
            Narrow(0x91, 1, 1),
            Quiet(0x80),
            Fails(Good, 0x04, 1),
            AsGiven,
        ],
    ),
    (
        "the same in a failing step",
        &[Narrow(0x91, 1, 1), Fails(Bad, 0x04, 1), AsGiven],
    ),
    (
        "30h with LBA at 0",
        &[
            Write(Device, 0x00),
            Write(Status, 0x30),
            Fails(Good, 0x04, 1),
        ],
    ),
    (
        "efh with 05h",
        &[
            Write(Error, 0x05),
            Write(Status, 0xef),
            Fails(Good, 0x04, 1),
        ],
    ),
    (
        "a command after a failure",
        &[
            Narrow(0x91, 1, 1),
            BAD,
            Narrow(0x40, 1, 1),
            Quiet(0x80),
            Read(Error, 0x00),
            Ends,
        ],
    ),
];

#[test]
fn refused_commands(rt: HostRuntime) -> Result<(), Fail> {
    check(&rt, rt.alloc(), &REFUSED)
}
