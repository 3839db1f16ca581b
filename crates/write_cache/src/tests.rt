//! Entries by a sector and the one byte that fills it. What stays and what goes is worked out by hand from the rules.

use crate::{Cache, Entry, NoMemory};
use std::alloc::Global;
use std::test::Fail;

fn entry((sector, byte): (u64, u8)) -> Entry {
    Entry {
        sector,
        bytes: [byte; 512],
    }
}

// A full cache of five entries, after two others that went.
fn five_entries(alloc: Global) -> Result<Cache, NoMemory> {
    let mut cache = Cache::new(alloc, 5)?;
    let written = [(3, 0xa), (5, 0xb), (5, 1), (7, 2), (5, 3), (9, 4), (5, 5)];
    for (sector, byte) in written {
        cache.put(sector, &[byte; 512]);
    }
    Ok(cache)
}

// What is written to a cache of three entries, and the entry that it puts out.
#[test]
fn the_oldest_goes_where_there_is_no_room(rt: HostRuntime) -> Result<(), Fail> {
    let mut cache = Cache::new(rt.alloc(), 3)?;
    let cases = [
        ((5, 1), None),
        ((7, 2), None),
        ((5, 3), None),
        ((9, 4), Some((5, 1))),
        ((7, 5), Some((7, 2))),
        ((5, 6), Some((5, 3))),
    ];
    for ((sector, byte), oldest) in cases {
        assert_eq!(rt;
            cache.put(sector, &[byte; 512]),
            oldest.map(entry),
            "byte {byte}"
        );
    }
    Ok(())
}

// A sector, and the byte last written to it.
#[test]
fn newest_of_each_sector(rt: HostRuntime) -> Result<(), Fail> {
    let mut cache = five_entries(rt.alloc())?;
    let cases = [
        (5, Some(5)),
        (7, Some(2)),
        (9, Some(4)),
        (3, None),
        (4, None),
    ];
    for (sector, byte) in cases {
        assert_eq!(rt;
            cache.newest(sector).copied(),
            byte.map(|b| [b; 512]),
            "sector {sector}"
        );
    }
    cache.clear();
    assert_eq!(rt; cache.newest(5), None);
    assert_eq!(rt; cache.first(), None);
    Ok(())
}

// The place that is taken, the entry there, and those that are left, the oldest first.
#[test]
fn older_ones_of_the_sector_go_too(rt: HostRuntime) -> Result<(), Fail> {
    let cases: [(u32, Option<(u64, u8)>, &[(u64, u8)]); 6] = [
        (0, Some((5, 1)), &[(7, 2), (5, 3), (9, 4), (5, 5)]),
        (1, Some((7, 2)), &[(5, 1), (5, 3), (9, 4), (5, 5)]),
        (2, Some((5, 3)), &[(7, 2), (9, 4), (5, 5)]),
        (3, Some((9, 4)), &[(5, 1), (7, 2), (5, 3), (5, 5)]),
        (4, Some((5, 5)), &[(7, 2), (9, 4)]),
        (5, None, &[(5, 1), (7, 2), (5, 3), (9, 4), (5, 5)]),
    ];
    for (k, taken, left) in cases {
        let mut cache = five_entries(rt.alloc())?;
        assert_eq!(rt; cache.take(k), taken.map(entry), "place {k}");
        for &next in left {
            assert_eq!(rt; cache.first(), Some(entry(next)), "after place {k}");
        }
        assert_eq!(rt; cache.first(), None, "after place {k}");
    }
    Ok(())
}
