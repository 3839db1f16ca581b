//! Runs of commands whose sectors the bus master moves, by descriptor tables.

use super::act::Act::{
    AsGiven, Begins, Describes, Durable, Ends, Fails, Flushes, Line, Narrow, Quiet, Read, Reads,
    Spread, Spreads, Walks, Wide, Write,
};
use super::{GOOD, NO_BAD, NO_GOOD, Pair, Run, check, check_pairs};
use ata_taskfile::Reg::{BusCommand, BusStatus};
use ata_taskfile::Step::{Bad, Good};
use std::test::Fail;

// Without a walk a good step has nothing to do.
const WITHOUT_A_WALK: [Pair; 2] = [
    (
        "a read waits, and fails",
        [Narrow(0xc8, 1, 2), Wide(0x25, 1, 2)],
        &[
            NO_GOOD,
            Quiet(0x80),
            Fails(Bad, 0x40, 1),
            AsGiven,
            Reads(1, 0x11),
            NO_BAD,
        ],
    ),
    (
        "a write waits, and fails",
        [Narrow(0xca, 1, 2), Wide(0x35, 1, 2)],
        &[
            NO_GOOD,
            Quiet(0x80),
            Fails(Bad, 0x04, 1),
            AsGiven,
            Reads(1, 0x11),
            NO_BAD,
        ],
    ),
];

// A failure ends the walk of its own command, and active stays 1.
const BESIDE_A_WALK: [Run; 3] = [
    (
        "c8h that fails with a walk",
        &[
            Write(BusCommand, 0x01),
            Narrow(0xc8, 1, 1),
            Fails(Bad, 0x40, 1),
            Walks(false),
            Read(BusStatus, 0x05),
        ],
    ),
    (
        "20h that fails beside a walk",
        &[
            Write(BusCommand, 0x01),
            Narrow(0x20, 1, 1),
            Fails(Bad, 0x40, 1),
            Walks(true),
            Read(BusStatus, 0x05),
        ],
    ),
    (
        "a refused c8h beside a walk",
        &[
            Write(BusCommand, 0x01),
            Narrow(0xc8, 3, 2),
            Fails(Good, 0x10, 3),
            Walks(true),
        ],
    ),
];

#[test]
fn failures_by_dma(rt: HostRuntime) -> Result<(), Fail> {
    check_pairs(&rt, rt.alloc(), &WITHOUT_A_WALK)?;
    check(&rt, rt.alloc(), &BESIDE_A_WALK)
}

// Each sector goes to the places that the table names for it. Active is 0 once the table's last place has its byte.
const READS: [Run; 7] = [
    (
        "c8h by one descriptor",
        &[
            Describes(0x100, 0x1000, 1024, true),
            Begins(0x100),
            Narrow(0xc8, 1, 2),
            GOOD,
            Spread(0x1000, 512, 0x11),
            Spread(0x1200, 512, 0x00),
            Read(BusStatus, 0x01),
            GOOD,
            Spread(0x1200, 512, 0x12),
            Read(BusStatus, 0x00),
            Quiet(0x80),
            Ends,
            Read(BusStatus, 0x04),
        ],
    ),
    (
        "25h by many, over their ends",
        &[
            Describes(0x100, 0x1000, 256, false),
            Describes(0x108, 0x2000, 512, false),
            Describes(0x110, 0x3000, 256, true),
            Begins(0x100),
            Wide(0x25, 2, 2),
            GOOD,
            Spread(0x1000, 256, 0x12),
            Spread(0x2000, 256, 0x12),
            Spread(0x2100, 256, 0x00),
            GOOD,
            Spread(0x2100, 256, 0x13),
            Spread(0x3000, 256, 0x13),
            Spread(0x3100, 16, 0x00),
            Ends,
            Read(BusStatus, 0x04),
        ],
    ),
    (
        "a table longer than the command",
        &[
            Describes(0x100, 0x1000, 2048, true),
            Begins(0x100),
            Narrow(0xc8, 0, 1),
            GOOD,
            Walks(true),
            Ends,
            Walks(false),
            Read(BusStatus, 0x05),
        ],
    ),
    (
        "a short table, and another walk",
        &[
            Describes(0x100, 0x1000, 612, true),
            Begins(0x100),
            Narrow(0xc8, 1, 2),
            GOOD,
            GOOD,
            Spread(0x1200, 100, 0x12),
            Spread(0x1264, 16, 0x00),
            Walks(false),
            Read(BusStatus, 0x00),
            NO_GOOD,
            Quiet(0x80),
            Describes(0x100, 0x2000, 512, true),
            Begins(0x100),
            GOOD,
            Spread(0x2000, 512, 0x12),
            Ends,
        ],
    ),
    (
        "a bad descriptor behind a good one",
        &[
            Describes(0x100, 0x1000, 256, false),
            Describes(0x108, 0x2001, 256, true),
            Begins(0x100),
            Narrow(0xc8, 1, 1),
            GOOD,
            Spread(0x1000, 256, 0x00),
            Walks(false),
            Read(BusStatus, 0x02),
            NO_GOOD,
            Line(false),
        ],
    ),
    (
        "a walk that is stopped",
        &[
            Describes(0x100, 0x1000, 1024, true),
            Begins(0x100),
            Narrow(0xc8, 1, 2),
            GOOD,
            Write(BusCommand, 0x00),
            NO_GOOD,
            Read(BusStatus, 0x00),
            Begins(0x100),
            GOOD,
            Spread(0x1000, 512, 0x12),
            Ends,
        ],
    ),
    (
        "no step without a walk",
        &[Narrow(0xc8, 1, 1), NO_GOOD, Quiet(0x80)],
    ),
];

#[test]
fn reads_by_table(rt: HostRuntime) -> Result<(), Fail> {
    check(&rt, rt.alloc(), &READS)
}

// A sector reaches the cache where all its bytes have places, and else not at all.
const WRITES: [Run; 4] = [
    (
        "cah by one descriptor",
        &[
            Spreads(0x1000, 512, 0xa1),
            Spreads(0x1200, 512, 0xa2),
            Describes(0x100, 0x1000, 1024, true),
            Begins(0x100),
            Narrow(0xca, 1, 2),
            GOOD,
            GOOD,
            Ends,
            Read(BusStatus, 0x04),
            Durable(1, 0x11),
            Reads(1, 0xa1),
            Reads(2, 0xa2),
            Flushes,
            Durable(1, 0xa1),
            Durable(2, 0xa2),
            Durable(3, 0x13),
        ],
    ),
    (
        "35h by many, in order",
        &[
            Spreads(0x3000, 256, 0xa1),
            Spreads(0x1000, 256, 0xa1),
            Describes(0x100, 0x3000, 256, false),
            Describes(0x108, 0x1000, 256, true),
            Begins(0x100),
            Wide(0x35, 3, 1),
            GOOD,
            Ends,
            Reads(3, 0xa1),
        ],
    ),
    (
        "a short table",
        &[
            Spreads(0x1000, 512, 0xa1),
            Describes(0x100, 0x1000, 510, true),
            Begins(0x100),
            Narrow(0xca, 1, 1),
            GOOD,
            Walks(false),
            Read(BusStatus, 0x00),
            NO_GOOD,
            Fails(Bad, 0x04, 1),
            Reads(1, 0x11),
            NO_BAD,
        ],
    ),
    (
        "a table that leaves memory",
        &[
            Describes(0x100, 0x7f00, 512, true),
            Begins(0x100),
            Narrow(0xca, 1, 1),
            GOOD,
            Read(BusStatus, 0x02),
            NO_GOOD,
        ],
    ),
];

#[test]
fn writes_by_table(rt: HostRuntime) -> Result<(), Fail> {
    check(&rt, rt.alloc(), &WRITES)
}
