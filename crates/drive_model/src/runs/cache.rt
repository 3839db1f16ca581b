//! Runs over the cache: what waits there, what becomes durable, and what a cut leaves.

use super::act::Act;
use super::act::Act::{
    Cut, Destage, Durable, Flushes, Narrow, Offers, Quiet, Read, Reads, Take, Writes,
};
use super::{FAULT, GOOD, NO_CALL, Run, check, first_wrong, four_sectors, wrong_in};
use ata_taskfile::Reg::Status;
use ata_taskfile::Stepped::{Changed, Nothing};
use drive_store::StoreFault;
use std::test::Fail;

// A written value is read at once, and is durable after a flush, or once it was put in place.
const VALUES: [Run; 7] = [
    (
        "written and read",
        &[
            Writes(1, 0xa1),
            Reads(1, 0xa1),
            Durable(1, 0x11),
            Reads(0, 0x10),
        ],
    ),
    (
        "written twice and flushed",
        &[
            Writes(1, 0xa1),
            Writes(2, 0xa2),
            Writes(1, 0xb1),
            Flushes,
            Durable(1, 0xb1),
            Durable(2, 0xa2),
            Durable(3, 0x13),
            Destage(0, Ok(Nothing)),
        ],
    ),
    (
        "the oldest put in place",
        &[
            Writes(1, 0xa1),
            Writes(1, 0xb1),
            Destage(0, Ok(Changed)),
            Durable(1, 0xa1),
            Reads(1, 0xb1),
            Destage(1, Ok(Nothing)),
        ],
    ),
    (
        "a newer one put in place, and the older of its sector let go",
        &[
            Writes(1, 0xa1),
            Writes(2, 0xa2),
            Writes(1, 0xb1),
            Destage(2, Ok(Changed)),
            Durable(1, 0xb1),
            Durable(2, 0x12),
            Destage(1, Ok(Nothing)),
            Destage(0, Ok(Changed)),
            Durable(2, 0xa2),
        ],
    ),
    (
        "cut",
        &[
            Writes(1, 0xa1),
            Flushes,
            Writes(1, 0xb1),
            Writes(2, 0xa2),
            Cut,
            Quiet(0x80),
            GOOD,
            Quiet(0x50),
            Reads(1, 0xa1),
            Reads(2, 0x12),
            Destage(0, Ok(Nothing)),
        ],
    ),
    (
        "cut after it was put in place",
        &[
            Writes(2, 0xa2),
            Destage(0, Ok(Changed)),
            Cut,
            GOOD,
            Reads(2, 0xa2),
        ],
    ),
    (
        "nothing put in place",
        &[
            Destage(0, Ok(Nothing)),
            Destage(63, Ok(Nothing)),
            Destage(u32::MAX, Ok(Nothing)),
        ],
    ),
];

#[test]
fn values_in_the_cache(rt: HostRuntime) -> Result<(), Fail> {
    check(&rt, rt.alloc(), &VALUES)
}

// 64 values wait, and for the 65th the first becomes durable: value i goes to sector i % 4.
#[test]
fn a_full_cache(rt: HostRuntime) -> Result<(), Fail> {
    let mut bench = four_sectors(rt.alloc())?;
    for i in 0..64u8 {
        assert!(rt; bench.writes(i % 4, 0x80 + i), "value {i}");
    }
    let acts = [
        Durable(0, 0x10),
        Durable(1, 0x11),
        Reads(3, 0xbf),
        Writes(2, 0xc0),
        Durable(0, 0x80),
        Durable(1, 0x11),
        Writes(2, 0xc1),
        Durable(1, 0x81),
        Reads(2, 0xc1),
        Reads(0, 0xbc),
    ];
    assert_eq!(rt; first_wrong(&mut bench, &acts), None);
    Ok(())
}

// What fails, the number of the store's call that does, and the acts. Each call still returns. A flush writes the older
// value first.
const FAULTS: [(&str, u32, &[Act]); 5] = [
    ("a read", 0, &[Narrow(0x20, 1, 1), FAULT]),
    (
        "a later read",
        1,
        &[Narrow(0x20, 1, 2), Offers, Take(0x11), FAULT, Quiet(0x80)],
    ),
    (
        "the second value of a flush",
        1,
        &[
            Writes(1, 0xa1),
            Writes(2, 0xa2),
            Narrow(0xe7, 0, 0),
            FAULT,
            Durable(1, 0xa1),
            Durable(2, 0x12),
            Read(Status, 0x80),
        ],
    ),
    (
        "a value put in place",
        0,
        &[Writes(1, 0xa1), Destage(0, Err(StoreFault))],
    ),
    ("none of these", NO_CALL, &[Narrow(0x20, 1, 1), Offers]),
];

#[test]
fn stores_that_fail(rt: HostRuntime) -> Result<(), Fail> {
    for &(name, failing, acts) in &FAULTS {
        assert_eq!(rt; wrong_in(rt.alloc(), failing, &[], acts)?, None, "{name}");
    }
    Ok(())
}
