//! Stores in memory, reached through the trait alone.

use crate::{FailingStore, MemoryStore, Store, StoreFault};
use std::test::Fail;

// The sector that is filled and with what, and the bytes of all three after it. A new store has zeros.
#[test]
fn a_set_changes_one_sector(rt: HostRuntime) -> Result<(), Fail> {
    let mut store = MemoryStore::new(rt.alloc(), 3)?;
    assert_eq!(rt; store.sectors(), 3);
    let cases = [
        (2, 0x33, [0x00, 0x00, 0x33]),
        (0, 0x11, [0x11, 0x00, 0x33]),
        (0, 0x44, [0x44, 0x00, 0x33]),
        (1, 0x22, [0x44, 0x22, 0x33]),
    ];
    for (at, byte, all) in cases {
        assert_eq!(rt; fill(&mut store, at, byte), Some(Ok(())));
        for (i, want) in all.iter().enumerate() {
            let bytes = sector(&mut store, i as u64);
            assert_eq!(rt; bytes, Some(Ok([*want; 512])), "sector {i} after {at}");
        }
    }
    assert_eq!(rt; sector(&mut store, 3), None);
    assert_eq!(rt; fill(&mut store, 3, 0), None);
    Ok(())
}

// The call that fails, the answers of two sets and two gets, and the faults after them.
#[test]
fn a_call_fails_by_its_number(rt: HostRuntime) -> Result<(), Fail> {
    let (good, bad) = (Some(Ok(())), Some(Err(StoreFault)));
    let (zeros, ones) = (Some(Ok([0; 512])), Some(Ok([1; 512])));
    let cases = [
        (0, [bad, good], [zeros, ones], 1),
        (1, [good, bad], [ones, zeros], 1),
        (2, [good, good], [Some(Err(StoreFault)), ones], 1),
        (3, [good, good], [ones, Some(Err(StoreFault))], 1),
        (4, [good, good], [ones, ones], 0),
    ];
    for (failing, sets, gets, faults) in cases {
        let mut store = FailingStore::new(MemoryStore::new(rt.alloc(), 2)?, failing);
        assert_eq!(rt;
            [fill(&mut store, 0, 1), fill(&mut store, 1, 1)],
            sets,
            "call {failing}"
        );
        assert_eq!(rt;
            [sector(&mut store, 0), sector(&mut store, 1)],
            gets,
            "call {failing}"
        );
        assert_eq!(rt; store.faults(), faults, "call {failing}");
    }
    Ok(())
}

// The bytes of a sector; None where there is no such sector.
fn sector<S: Store>(store: &mut S, sector: u64) -> Option<Result<[u8; 512], StoreFault>> {
    let mut into = [b'.'; 512];
    if sector >= store.sectors() {
        return None;
    }
    Some(store.get(sector, &mut into).map(|()| into))
}

// Fills a sector with one byte; None where there is no such sector.
fn fill<S: Store>(store: &mut S, sector: u64, byte: u8) -> Option<Result<(), StoreFault>> {
    if sector >= store.sectors() {
        return None;
    }
    Some(store.set(sector, &[byte; 512]))
}
