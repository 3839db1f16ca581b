//! Runs of commands whose words go through Data.

use super::act::Act::{
    AsGiven, Durable, Ends, Fails, Give, Kept, Line, Narrow, Offers, Quiet, Reads, Take, Wants,
    Wide, Word, Write,
};
use super::{GOOD, NO_BAD, NO_GOOD, Pair, Run, check, check_pairs};
use ata_taskfile::Reg::Alternate;
use ata_taskfile::Step::Bad;
use std::test::Fail;

// No interrupt comes after the last word. A failure shows the sector that is due: in 28 bits the previous bytes stay,
// in 48 bits Device does.
const READS: [Pair; 4] = [
    (
        "one sector",
        [Narrow(0x20, 1, 1), Wide(0x24, 1, 1)],
        &[
            Quiet(0x80),
            Offers,
            NO_GOOD,
            NO_BAD,
            Take(0x11),
            Quiet(0x50),
            NO_GOOD,
            NO_BAD,
        ],
    ),
    (
        "two sectors",
        [Narrow(0x20, 2, 2), Wide(0x24, 2, 2)],
        &[
            Offers,
            Take(0x12),
            Quiet(0x80),
            Offers,
            Take(0x13),
            Quiet(0x50),
            Kept(2, 2),
        ],
    ),
    (
        "a failure at the first sector",
        [Narrow(0x20, 1, 2), Wide(0x24, 1, 2)],
        &[Fails(Bad, 0x40, 1), AsGiven, NO_BAD],
    ),
    (
        "a failure at the second sector",
        [Narrow(0x20, 1, 2), Wide(0x24, 1, 2)],
        &[
            Offers,
            Take(0x11),
            Quiet(0x80),
            Fails(Bad, 0x40, 2),
            Kept(2, 2),
            AsGiven,
            NO_BAD,
        ],
    ),
];

const BESIDE_READS: [Run; 2] = [
    (
        "nIEN",
        &[
            Write(Alternate, 0x02),
            Narrow(0x20, 0, 1),
            GOOD,
            Quiet(0x58),
            Write(Alternate, 0x00),
            Line(true),
            Take(0x10),
        ],
    ),
    (
        "a word written while one waits",
        &[
            Narrow(0x20, 1, 1),
            Offers,
            Word(0x1234),
            Take(0x11),
            Quiet(0x50),
        ],
    ),
];

#[test]
fn reads_by_pio(rt: HostRuntime) -> Result<(), Fail> {
    check_pairs(&rt, rt.alloc(), &READS)?;
    check(&rt, rt.alloc(), &BESIDE_READS)
}

// The first block is wanted without an interrupt, and each block that was written has one.
const WRITES: [Pair; 2] = [
    (
        "one sector",
        [Narrow(0x30, 1, 1), Wide(0x34, 1, 1)],
        &[
            Wants,
            NO_GOOD,
            NO_BAD,
            Give(0xa1),
            Quiet(0x80),
            Ends,
            Reads(0, 0x10),
            Reads(1, 0xa1),
            Reads(2, 0x12),
        ],
    ),
    (
        "two sectors",
        [Narrow(0x30, 1, 2), Wide(0x34, 1, 2)],
        &[
            Wants,
            Give(0xa1),
            Offers,
            Give(0xa2),
            Ends,
            Kept(2, 1),
            Reads(1, 0xa1),
            Reads(2, 0xa2),
        ],
    ),
];

const AFTER_WRITES: [Run; 2] = [
    (
        "a sector written and read",
        &[
            Narrow(0x30, 3, 1),
            Wants,
            Give(0xb3),
            Ends,
            Wide(0x24, 3, 1),
            Offers,
            Take(0xb3),
            Quiet(0x50),
        ],
    ),
    (
        "a sector written twice",
        &[
            Narrow(0x30, 0, 1),
            Wants,
            Give(0xb0),
            Ends,
            Narrow(0x30, 0, 1),
            Wants,
            Give(0xb1),
            Ends,
            Reads(0, 0xb1),
        ],
    ),
];

#[test]
fn writes_by_pio(rt: HostRuntime) -> Result<(), Fail> {
    check_pairs(&rt, rt.alloc(), &WRITES)?;
    check(&rt, rt.alloc(), &AFTER_WRITES)
}

// A failure shows the sector of the block that came last, or the first, and moves nothing.
const FAILED_WRITES: [Pair; 3] = [
    (
        "before the first block",
        [Narrow(0x30, 1, 2), Wide(0x34, 1, 2)],
        &[Fails(Bad, 0x04, 1), AsGiven],
    ),
    (
        "with the first block",
        [Narrow(0x30, 1, 2), Wide(0x34, 1, 2)],
        &[
            Wants,
            Give(0xa1),
            Fails(Bad, 0x04, 1),
            AsGiven,
            Reads(1, 0x11),
        ],
    ),
    (
        "with the second block",
        [Narrow(0x30, 1, 2), Wide(0x34, 1, 2)],
        &[
            Wants,
            Give(0xa1),
            Offers,
            Give(0xa2),
            Fails(Bad, 0x04, 2),
            AsGiven,
            Reads(1, 0xa1),
            Reads(2, 0x12),
        ],
    ),
];

const A_PART_OF_A_BLOCK: [Run; 1] = [(
    "no failure beside a part of a block",
    &[
        Narrow(0x30, 1, 1),
        Wants,
        Word(0x1234),
        NO_BAD,
        Quiet(0x58),
        Durable(1, 0x11),
    ],
)];

#[test]
fn failed_writes_by_pio(rt: HostRuntime) -> Result<(), Fail> {
    check_pairs(&rt, rt.alloc(), &FAILED_WRITES)?;
    check(&rt, rt.alloc(), &A_PART_OF_A_BLOCK)
}
