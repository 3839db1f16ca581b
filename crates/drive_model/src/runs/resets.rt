//! Runs of resets in each phase.

use super::act::Act::{
    Give, Line, Narrow, Offers, Quiet, Read, Reads, Resets, Take, Walks, Wants, Wide, Word, Write,
};
use super::{GOOD, Run, check};
use ata_taskfile::Reg::{Alternate, BusCommand, BusStatus};
use std::test::Fail;

// A reset ends what is in hand without an interrupt, and goes on as long as SRST is 1.
const RESETS: [Run; 10] = [
    ("in Idle", &[Write(Alternate, 0x04), Quiet(0x80), Resets]),
    (
        "in Idle, with an interrupt that pends",
        &[
            Narrow(0x91, 1, 1),
            GOOD,
            Line(true),
            Write(Alternate, 0x04),
            Quiet(0x80),
            Resets,
        ],
    ),
    (
        "in Busy with a read",
        &[Narrow(0x20, 2, 1), Write(Alternate, 0x04), Resets],
    ),
    (
        "in Busy with a refused command",
        &[Wide(0x99, 2, 1), Write(Alternate, 0x04), Resets],
    ),
    (
        "in Busy with a command by DMA",
        &[Narrow(0xca, 2, 1), Write(Alternate, 0x04), Resets],
    ),
    (
        "in Ready with a block that waits",
        &[
            Narrow(0x20, 2, 1),
            GOOD,
            Line(true),
            Write(Alternate, 0x04),
            Quiet(0x80),
            Resets,
            Narrow(0x20, 2, 1),
            Offers,
            Take(0x12),
        ],
    ),
    (
        "in Ready with a block that is wanted",
        &[
            Narrow(0x30, 2, 1),
            Wants,
            Word(0x1234),
            Write(Alternate, 0x04),
            Resets,
            Reads(2, 0x12),
        ],
    ),
    (
        "in Busy with a block that came",
        &[
            Narrow(0x30, 2, 1),
            Wants,
            Give(0xa2),
            Write(Alternate, 0x04),
            Resets,
            Reads(2, 0x12),
        ],
    ),
    (
        "within a reset",
        &[Write(Alternate, 0x04), Write(Alternate, 0x04), Resets],
    ),
    // READ SECTOR(S) moves nothing by the bus master, READ DMA does.
    (
        "beside a walk, which ends with a command of its own alone",
        &[
            Write(BusCommand, 0x01),
            Narrow(0x20, 1, 1),
            Write(Alternate, 0x04),
            Walks(true),
            Read(BusStatus, 0x01),
            Resets,
            Narrow(0xc8, 1, 1),
            Write(Alternate, 0x04),
            Walks(false),
            Read(BusStatus, 0x01),
            Resets,
        ],
    ),
];

#[test]
fn resets(rt: HostRuntime) -> Result<(), Fail> {
    check(&rt, rt.alloc(), &RESETS)
}
