//! Sectors moved by hand-made tables. The places and what follows are worked out by hand from the rules of
//! docs/drive.md.

use crate::{GuestMemory, Moved, NoMemory, move_in, move_out};
use ata_taskfile::Bus;
use std::alloc::Global;
use std::test::Fail;

// Where the tables of these tests stand.
const TABLE: u32 = 0x100;

// A bus master whose walk has moved so many sectors, with its table at an address.
fn walking(pointer: u32, moved: u32) -> Bus {
    let mut bus = Bus::power_on();
    bus.start = true;
    bus.active = true;
    bus.pointer = pointer;
    bus.walk = Some(moved);
    bus
}

// The same bus master once its walk has ended, by an error or not.
fn ended(error: bool) -> Bus {
    let mut bus = walking(TABLE, 0);
    bus.active = false;
    bus.error = error;
    bus.walk = None;
    bus
}

// The answer of a move out and the bus master after it, and the same of a move in, each from this bus master on.
fn moved_both_ways(old: Bus, memory: &mut GuestMemory) -> [(Moved, Bus); 2] {
    let mut after_out = old;
    let out = move_out(&mut after_out, memory, &mut [0; 512]);
    let mut after_in = old;
    let moved_in = move_in(&mut after_in, memory, &[9; 512]);
    [(out, after_out), (moved_in, after_in)]
}

// Writes bytes from an address on.
fn put(memory: &mut GuestMemory, address: u32, bytes: &[u8]) {
    let mut at = address;
    for byte in bytes {
        memory.set(at, *byte);
        at = at.wrapping_add(1);
    }
}

// A sector whose byte i is i mod 251, so that no two places of a piece look alike by chance.
fn counting() -> [u8; 512] {
    let mut sector = [0; 512];
    for (i, byte) in sector.iter_mut().enumerate() {
        *byte = (i % 251) as u8;
    }
    sector
}

// Two pages of memory with this table.
fn two_pages(alloc: Global, table: &[u8]) -> Result<GuestMemory, NoMemory> {
    let mut memory = GuestMemory::new(alloc, 0x2000)?;
    put(&mut memory, TABLE, table);
    Ok(memory)
}

#[test]
fn bytes_outside_read_ff_and_stay(rt: HostRuntime) -> Result<(), Fail> {
    let mut memory = GuestMemory::new(rt.alloc(), 4)?;
    for address in [0, 3, 4, 0xffff_ffff] {
        memory.set(address, 7);
    }
    // Address and byte: only 0 to 3 are in memory.
    for (address, byte) in [(0, 7), (1, 0), (3, 7), (4, 0xff), (0xffff_ffff, 0xff)] {
        assert_eq!(rt; memory.get(address), byte, "address {address:x}");
    }
    memory.clear();
    assert_eq!(rt; memory.get(3), 0);
    Ok(())
}

// Tables without a bad descriptor: the table, the sectors moved before, the answer, and the bus master after it.
#[test]
fn tables_to_their_end(rt: HostRuntime) -> Result<(), Fail> {
    let one: &[u8] = &[0, 0x10, 0, 0, 0, 2, 0, 0x80];
    let longer: &[u8] = &[0, 0x10, 0, 0, 2, 2, 0, 0x80];
    let shorter: &[u8] = &[0, 0x10, 0, 0, 0xfe, 1, 0, 0x80];
    let two: &[u8] = &[0, 0x10, 0, 0, 0, 1, 0, 0, 0, 0x18, 0, 0, 0, 1, 0, 0x80];
    let at_the_end: &[u8] = &[0, 0x1e, 0, 0, 0, 2, 0, 0x80];
    let over = ended(false);
    let on = walking(TABLE, 1);
    let cases = [
        ("one", one, 0, Moved::Whole, over),
        ("one, again", one, 1, Moved::Short(0), over),
        ("longer", longer, 0, Moved::Whole, on),
        ("longer, rest", longer, 1, Moved::Short(2), over),
        ("shorter", shorter, 0, Moved::Short(510), over),
        ("shrunk", shorter, 3, Moved::Short(0), over),
        ("two", two, 0, Moved::Whole, over),
        ("at the end", at_the_end, 0, Moved::Whole, over),
    ];
    for (name, table, before, answer, after) in cases {
        let mut memory = two_pages(rt.alloc(), table)?;
        let both = moved_both_ways(walking(TABLE, before), &mut memory);
        assert_eq!(rt; both, [(answer, after); 2], "{name}");
    }
    Ok(())
}

// Tables with a bad descriptor, in the same columns. It counts where it stands above the sector's last place.
#[test]
fn tables_to_a_bad_descriptor(rt: HostRuntime) -> Result<(), Fail> {
    let odd_base: &[u8] = &[1, 0x10, 0, 0, 0, 2, 0, 0x80];
    let odd_count: &[u8] = &[0, 0x10, 0, 0, 1, 2, 0, 0x80];
    let past_end: &[u8] = &[2, 0x1e, 0, 0, 0, 2, 0, 0x80];
    let second: &[u8] = &[0, 0x10, 0, 0, 0, 1, 0, 0, 1, 0x18, 0, 0, 0, 1, 0, 0x80];
    let behind: &[u8] = &[0, 0x10, 0, 0, 0, 2, 0, 0, 1, 0, 0, 0, 2, 0, 0, 0x80];
    let no_mark: &[u8] = &[0, 0x10, 0, 0, 0, 2, 0xff, 0x7f];
    let error = ended(true);
    let on = walking(TABLE, 1);
    let cases = [
        ("odd base", odd_base, 0, Moved::Outside, error),
        ("odd count", odd_count, 0, Moved::Outside, error),
        ("past the end", past_end, 0, Moved::Outside, error),
        ("second", second, 0, Moved::Outside, error),
        ("above", odd_base, 5, Moved::Outside, error),
        ("behind", behind, 0, Moved::Whole, on),
        ("behind, met", behind, 1, Moved::Outside, error),
        ("no mark", no_mark, 0, Moved::Whole, on),
        ("no mark, zeros", no_mark, 1, Moved::Outside, error),
    ];
    for (name, table, before, answer, after) in cases {
        let mut memory = two_pages(rt.alloc(), table)?;
        let both = moved_both_ways(walking(TABLE, before), &mut memory);
        assert_eq!(rt; both, [(answer, after); 2], "{name}");
    }
    Ok(())
}

// Without a walk nothing happens, whatever the table.
#[test]
fn no_walk_waits(rt: HostRuntime) -> Result<(), Fail> {
    let mut memory = two_pages(rt.alloc(), &[0, 0x10, 0, 0, 0, 2, 0, 0x80])?;
    let mut bus = walking(TABLE, 0);
    bus.walk = None;
    let old = bus;
    assert_eq!(rt; move_in(&mut bus, &mut memory, &[9; 512]), Moved::Waiting);
    assert_eq!(rt; memory.get(0x1000), 0);
    assert_eq!(rt; move_out(&mut bus, &memory, &mut [0; 512]), Moved::Waiting);
    assert_eq!(rt; bus, old);
    Ok(())
}

// Three pieces, the second across a page's end: 100h bytes at 1F00h, 80h at 0FC0h, 80h at 1800h.
#[test]
fn scattered_pieces(rt: HostRuntime) -> Result<(), Fail> {
    let table = [
        0, 0x1f, 0, 0, 0, 1, 0, 0, 0xc0, 0x0f, 0, 0, 0x80, 0, 0, 0, 0, 0x18, 0, 0, 0x80, 0, 0, 0x80,
    ];
    let mut memory = two_pages(rt.alloc(), &table)?;
    let sector = counting();
    let mut bus = walking(TABLE, 0);
    assert_eq!(rt; move_in(&mut bus, &mut memory, &sector), Moved::Whole);
    // Address, and the place in the sector whose byte is there.
    let cases = [
        (0x1f00, 0),
        (0x1fff, 255),
        (0x0fc0, 256),
        (0x103f, 383),
        (0x1800, 384),
        (0x187f, 511),
    ];
    for (address, place) in cases {
        assert_eq!(rt; memory.get(address), sector[place], "address {address:x}");
    }
    for address in [0x1eff, 0x0fbf, 0x1040, 0x17ff, 0x1880] {
        assert_eq!(rt; memory.get(address), 0, "address {address:x}");
    }
    let mut back = [0; 512];
    assert_eq!(rt;
        move_out(&mut walking(TABLE, 0), &memory, &mut back),
        Moved::Whole
    );
    assert_eq!(rt; back, sector);
    Ok(())
}

// A short move in moves the sector's first bytes; a short move out moves none.
#[test]
fn short_moves(rt: HostRuntime) -> Result<(), Fail> {
    let mut memory = two_pages(rt.alloc(), &[0, 0x10, 0, 0, 4, 0, 0, 0x80])?;
    assert_eq!(rt;
        move_in(&mut walking(TABLE, 0), &mut memory, &[9; 512]),
        Moved::Short(4)
    );
    for (address, byte) in [(0x0fff, 0), (0x1000, 9), (0x1003, 9), (0x1004, 0)] {
        assert_eq!(rt; memory.get(address), byte, "address {address:x}");
    }
    let mut back = [5; 512];
    assert_eq!(rt;
        move_out(&mut walking(TABLE, 0), &memory, &mut back),
        Moved::Short(4)
    );
    assert_eq!(rt; back, [5; 512]);
    Ok(())
}

// Between two sectors the table becomes another: the second sector's places are the new table's.
#[test]
fn table_changed_between_sectors(rt: HostRuntime) -> Result<(), Fail> {
    let mut memory = two_pages(rt.alloc(), &[0, 0x10, 0, 0, 0, 4, 0, 0x80])?;
    let mut bus = walking(TABLE, 0);
    assert_eq!(rt; move_in(&mut bus, &mut memory, &[1; 512]), Moved::Whole);
    put(&mut memory, TABLE, &[0, 0x18, 0, 0, 0, 4, 0, 0x80]);
    assert_eq!(rt; move_in(&mut bus, &mut memory, &[2; 512]), Moved::Whole);
    assert_eq!(rt; bus, ended(false));
    // The first sector at 1000h, the second at 1A00h: the new base and 512.
    for (address, byte) in [
        (0x11ff, 1),
        (0x1200, 0),
        (0x19ff, 0),
        (0x1a00, 2),
        (0x1bff, 2),
    ] {
        assert_eq!(rt; memory.get(address), byte, "address {address:x}");
    }
    Ok(())
}

// The sector overwrites the second descriptor of its own table, which was found before.
#[test]
fn table_overwritten_by_its_sector(rt: HostRuntime) -> Result<(), Fail> {
    let table = [0, 1, 0, 0, 0x10, 0, 0, 0, 0, 0x10, 0, 0, 0xf0, 1, 0, 0x80];
    let mut memory = two_pages(rt.alloc(), &table)?;
    assert_eq!(rt;
        move_in(&mut walking(TABLE, 0), &mut memory, &counting()),
        Moved::Whole
    );
    // The first 16 bytes are over the table; the others, from 16 on, at 1000h.
    for (address, byte) in [
        (0x100, 0),
        (0x10f, 15),
        (0x110, 0),
        (0x1000, 16),
        (0x10ea, 250),
        (0x10eb, 0),
    ] {
        assert_eq!(rt; memory.get(address), byte, "address {address:x}");
    }
    Ok(())
}

// One place twice keeps the later byte: both pieces are the same 256 bytes.
#[test]
fn later_byte_stays(rt: HostRuntime) -> Result<(), Fail> {
    let table = [0, 0x10, 0, 0, 0, 1, 0, 0, 0, 0x10, 0, 0, 0, 1, 0, 0x80];
    let mut memory = two_pages(rt.alloc(), &table)?;
    assert_eq!(rt;
        move_in(&mut walking(TABLE, 0), &mut memory, &counting()),
        Moved::Whole
    );
    // 256 mod 251 is 5.
    assert_eq!(rt; memory.get(0x1000), 5);
    Ok(())
}

// A table at the very end of memory, and one whose descriptor isn't all in memory.
#[test]
fn tables_at_the_end_of_memory(rt: HostRuntime) -> Result<(), Fail> {
    let descriptor = [0, 0x10, 0, 0, 0, 2, 0, 0x80];
    // The pointer, and the answer: 1FF8h + 8 is memory's end.
    let cases = [
        (0x1ff8, Moved::Whole),
        (0x1ffc, Moved::Outside),
        (0x2000, Moved::Outside),
        (0xffff_fffc, Moved::Outside),
    ];
    for (pointer, answer) in cases {
        let mut memory = GuestMemory::new(rt.alloc(), 0x2000)?;
        put(&mut memory, pointer, &descriptor);
        assert_eq!(rt;
            move_out(&mut walking(pointer, 0), &memory, &mut [0; 512]),
            answer,
            "{pointer:x}"
        );
    }
    Ok(())
}

// Count 0 is 65,536 bytes: 128 sectors, of which the last is the table's last.
#[test]
fn count_zero(rt: HostRuntime) -> Result<(), Fail> {
    let mut memory = GuestMemory::new(rt.alloc(), 0x2_0000)?;
    put(&mut memory, TABLE, &[0, 0, 1, 0, 0, 0, 0, 0x80]);
    let mut bus = walking(TABLE, 126);
    assert_eq!(rt; move_in(&mut bus, &mut memory, &[1; 512]), Moved::Whole);
    assert_eq!(rt; bus, walking(TABLE, 127));
    assert_eq!(rt; move_in(&mut bus, &mut memory, &[2; 512]), Moved::Whole);
    assert_eq!(rt; bus, ended(false));
    // 1FC00h to 1FDFFh, and 1FE00h to memory's end.
    for (address, byte) in [(0x1_fbff, 0), (0x1_fc00, 1), (0x1_fe00, 2), (0x1_ffff, 2)] {
        assert_eq!(rt; memory.get(address), byte, "address {address:x}");
    }
    Ok(())
}
