//! Sectors of a piece that move by tables in the guest's memory, as docs/drive.md has it.

ghost use Rattle.std.specs.Prelude.{◌≡◌};
ghost use Rattle.ata_taskfile.specs.declared.Form.TheVariants.{DmaIn};
ghost use Rattle.ata_taskfile.specs.declared.Phase.TheVariants.{Busy};
ghost use Rattle.ata_taskfile.specs.declared.Taken.TheVariants.{Good};

use crate::scatter;
use ata_taskfile::{Bus, Form, Kind, Phase, Request, Taken, TaskFile};
use bm_dma::{GuestMemory, NoMemory};
use port_lease::View;
use std::alloc::Global;
use std::test::Fail;

// The most sectors that an order of these tests has.
const MOST: u32 = 1000;

// Where the table stands.
const TABLE: u32 = 0x100;

// The first sector of the piece, which has three, and of the order.
const BASE: u64 = 8;

// An order's count, the sectors that are done, the walk, and the end of the piece.
type Start = (u32, u32, Option<u32>, u64);

// The answer, the sectors that are done, the walk, and the active and the error bit.
type Outcome = (u32, u32, Option<u32>, bool, bool);

// A table with an order over it, what is left, and bytes of memory by their places.
type Row = (&'static [u8], Start, Outcome, &'static [(u32, u8)]);

// The piece: each byte of sector s is s.
fn piece() -> [u8; 1536] {
    let mut bytes = [8; 1536];
    bytes[512..1024].fill(9);
    bytes[1024..].fill(10);
    bytes
}

// Two pages of zeros with this table.
fn two_pages(alloc: Global, table: &[u8]) -> Result<GuestMemory, NoMemory> {
    let mut memory = GuestMemory::new(alloc, 0x2000)?;
    let mut at = TABLE;
    for byte in table {
        memory.set(at, *byte);
        at = at.wrapping_add(1);
    }
    Ok(memory)
}

fn request(count: u32) -> Request
    ensures form { result.form ≡ DmaIn }
    ensures first { result.first ≡ BASE }
    ensures count { result.count ≡ count }
{
    Request {
        kind: Kind::Read,
        form: Form::DmaIn,
        extended: false,
        first: BASE,
        count,
    }
}

// The view that stands with an order, with a walk or without.
fn view(request: Request, done: u32, walk: Option<u32>) -> View
    ensures phase { result.file.phase ≡ Busy (Good request) done }
{
    let mut file = TaskFile::power_on();
    file.phase = Phase::Busy(Taken::Good(request), done);
    let mut bus = Bus::power_on();
    bus.start = true;
    bus.active = walk.is_some();
    bus.pointer = TABLE;
    bus.walk = walk;
    View { file, bus }
}

// How many sectors are done of the order in hand.
fn position(phase: Phase) -> Option<u32> {
    match phase {
        Phase::Busy(_, done) => Some(done),
        Phase::Reset | Phase::Idle | Phase::Ready(..) => None,
    }
}

// Moves the piece; None where the order can't be asked for.
fn moved(start: Start, memory: &mut GuestMemory) -> Option<Outcome> {
    let (count, done, walk, end) = start;
    if count > MOST {
        return None;
    }
    if end > BASE + 3 {
        return None;
    }
    if end > BASE + u64::from(count) {
        return None;
    }
    if end < BASE + u64::from(done) {
        return None;
    }
    let mut view = view(request(count), done, walk);
    let answer = scatter(&mut view, memory, &piece(), BASE, end);
    let bus = view.bus;
    Some((
        answer,
        position(view.file.phase)?,
        bus.walk,
        bus.active,
        bus.error,
    ))
}

// The first place whose byte is another, with the byte that it has.
fn first_other(memory: &GuestMemory, places: &[(u32, u8)]) -> Option<(u32, u8)> {
    for (place, byte) in places {
        let found = memory.get(*place);
        if found != *byte {
            return Some((*place, found));
        }
    }
    None
}

const ROWS: &[Row] = &[
    // 1,024 bytes at 1000h: both sectors, and then the table has ended.
    (
        &[0, 0x10, 0, 0, 0, 4, 0, 0x80],
        (2, 0, Some(0), 10),
        (2, 2, None, false, false),
        &[
            (0xfff, 0),
            (0x1000, 8),
            (0x11ff, 8),
            (0x1200, 9),
            (0x13ff, 9),
            (0x1400, 0),
        ],
    ),
    // 1,536 bytes: the piece ends before the table, with the order or before it, and the walk goes on.
    (
        &[0, 0x10, 0, 0, 0, 6, 0, 0x80],
        (2, 0, Some(0), 10),
        (2, 2, Some(2), true, false),
        &[(0x13ff, 9), (0x1400, 0)],
    ),
    (
        &[0, 0x10, 0, 0, 0, 6, 0, 0x80],
        (5, 0, Some(0), 9),
        (1, 1, Some(1), true, false),
        &[(0x11ff, 8), (0x1200, 0)],
    ),
    // From the second sector on, which goes to its own places.
    (
        &[0, 0x10, 0, 0, 0, 6, 0, 0x80],
        (3, 1, Some(1), 11),
        (2, 3, None, false, false),
        &[
            (0x1000, 0),
            (0x11ff, 0),
            (0x1200, 9),
            (0x1400, 10),
            (0x15ff, 10),
            (0x1600, 0),
        ],
    ),
    // A new walk begins at the table's top again.
    (
        &[0, 0x10, 0, 0, 0, 6, 0, 0x80],
        (3, 2, Some(0), 11),
        (1, 3, Some(1), true, false),
        &[(0x1000, 10), (0x11ff, 10), (0x1200, 0)],
    ),
    // 768 bytes at 1000h and 256 at 1800h: the second sector is parted.
    (
        &[0, 0x10, 0, 0, 0, 3, 0, 0, 0, 0x18, 0, 0, 0, 1, 0, 0x80],
        (2, 0, Some(0), 10),
        (2, 2, None, false, false),
        &[
            (0x11ff, 8),
            (0x1200, 9),
            (0x12ff, 9),
            (0x1300, 0),
            (0x1800, 9),
            (0x18ff, 9),
            (0x1900, 0),
        ],
    ),
    // 768 bytes and no more: the second step is a short one, and counts.
    (
        &[0, 0x10, 0, 0, 0, 3, 0, 0x80],
        (3, 0, Some(0), 11),
        (2, 1, None, false, false),
        &[(0x11ff, 8), (0x12ff, 9), (0x1300, 0)],
    ),
    (
        &[0, 0x10, 0, 0, 0, 1, 0, 0x80],
        (1, 0, Some(0), 9),
        (1, 0, None, false, false),
        &[(0x10ff, 8), (0x1100, 0)],
    ),
    // A bad descriptor behind 768 bytes, by its odd base: the second step counts and moves nothing.
    (
        &[0, 0x10, 0, 0, 0, 3, 0, 0, 1, 0x18, 0, 0, 0, 1, 0, 0x80],
        (3, 0, Some(0), 11),
        (2, 1, None, false, true),
        &[(0x11ff, 8), (0x1200, 0), (0x1801, 0)],
    ),
    // Without a walk nothing moves, and no step is made.
    (
        &[0, 0x10, 0, 0, 0, 4, 0, 0x80],
        (2, 1, None, 10),
        (0, 1, None, false, false),
        &[(0x1000, 0), (0x1200, 0)],
    ),
    // The piece has ended already.
    (
        &[0, 0x10, 0, 0, 0, 4, 0, 0x80],
        (3, 1, Some(1), 9),
        (0, 1, Some(1), true, false),
        &[(0x1000, 0), (0x1200, 0)],
    ),
];

#[test]
fn moves_by_tables(rt: HostRuntime) -> Result<(), Fail> {
    for (table, start, outcome, places) in ROWS {
        let mut memory = two_pages(rt.alloc(), table)?;
        assert_eq!(rt;
            moved(*start, &mut memory),
            Some(*outcome),
            "{table:?} {start:?}"
        );
        assert_eq!(rt; first_other(&memory, places), None, "{table:?} {start:?}");
    }
    Ok(())
}
