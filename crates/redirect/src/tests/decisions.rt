//! What is next, over images of three blocks of which the middle one is empty.

ghost use Rattle.std.specs.Prelude.{◌≡◌, ◌≤◌, ◌+◌, true, IfOk, IfSome};
ghost use Rattle.ata_taskfile.specs.declared.Kind.TheVariants as kind;
ghost use Rattle.ata_taskfile.specs.Lawful.{work_end};
ghost use Rattle.fill_bitmap.specs.Area.{IsSuitable, blocks_of};
ghost use Rattle.fill_bitmap.specs.Bitmap.{blocks_in};
ghost use Rattle.redirect.specs.Read.{goes_inward};

use crate::Next::{Ask, End, Nothing, Raise, Read, Scatter, Serve};
use crate::{Next, Redirect};
use ata_taskfile::Form::{DmaIn, PioIn};
use ata_taskfile::{Bus, Form, Kind, Phase, Request, Taken, TaskFile};
use fill_bitmap::{Area, Bitmap, area_of};
use port_lease::View;
use std::alloc::{AllocError, Global};
use std::test::Fail;

// The most sectors that a range of these tests has, or that stand before it.
const MOST: u32 = 1000;

// A read by its form, its first sector and its count.
type Order = (Form, u64, u32);

// Where it stands: the sectors that are done, whether an interrupt pends, and whether a walk is running.
type Stand = (u32, bool, bool);

// What there is for it: the piece that is held, and whether the block that comes next was asked.
type Hand = (Option<(u64, u32)>, bool);

type Row = (Order, Stand, Hand, Next);

fn request(order: Order) -> Request
    ensures kind { result.kind ≡ kind.Read }
    ensures form { result.form ≡ order.0 }
    ensures first { result.first ≡ order.1 }
    ensures count { result.count ≡ order.2 }
{
    let (form, first, count) = order;
    Request {
        kind: Kind::Read,
        form,
        extended: false,
        first,
        count,
    }
}

fn view(phase: Phase, pending: bool, walking: bool) -> View
    ensures { result.file.phase ≡ phase }
{
    let mut file = TaskFile::power_on();
    file.phase = phase;
    file.pending = pending;
    let mut bus = Bus::power_on();
    if walking {
        bus.start = true;
        bus.active = true;
        bus.walk = Some(0);
    }
    View { file, bus }
}

fn is_inward(form: Form) -> bool
    ensures { result ≡ goes_inward form }
{
    match form {
        Form::PioIn | Form::DmaIn => true,
        Form::NoMove | Form::PioOut | Form::DmaOut => false,
    }
}

// The positions at which a drive is at work on the read lie below this one.
fn work_end(form: Form, count: u32) -> u32
    requires { count ≤ MOST }
    ensures { result ≡ work_end form count }
{
    match form {
        Form::NoMove => 1,
        Form::PioIn => count,
        Form::PioOut | Form::DmaIn | Form::DmaOut => count + 1,
    }
}

// The piece that is held ends here at the latest.
fn ends_within(held: Option<(u64, u32)>, end: u64) -> bool
    ensures { result ≡ true → IfSome held (λ piece. piece.0 + piece.1 ≤ end) }
{
    match held {
        Some((first, count)) => end >= first && end - first >= u64::from(count),
        None => true,
    }
}

// What is next in Busy; None where that can't be asked.
fn next_in_busy(
    order: Order,
    stand: Stand,
    hand: Hand,
    area: &Area,
    bitmap: &Bitmap,
) -> Option<Next>
    requires suitable { IsSuitable area.now }
    requires blocks { blocks_in bitmap.now ≡ blocks_of area.now }
{
    let (form, first, count) = order;
    let (done, pending, walking) = stand;
    let (held, waiting) = hand;
    if !is_inward(form) {
        return None;
    }
    if count == 0 || count > MOST {
        return None;
    }
    if first > u64::from(MOST) {
        return None;
    }
    let end = first + u64::from(count);
    if end > area.sectors {
        return None;
    }
    if !ends_within(held, end) {
        return None;
    }
    if done >= work_end(form, count) {
        return None;
    }
    let request = request(order);
    let view = view(Phase::Busy(Taken::Good(request), done), pending, walking);
    Some(Redirect::new(request).next(&view, area, bitmap, held, waiting))
}

// The first of these rows after which something else is next.
fn first_other(rows: &[Row], area: &Area, bitmap: &Bitmap) -> Option<(Row, Option<Next>)>
    requires suitable { IsSuitable area.now }
    requires blocks { blocks_in bitmap.now ≡ blocks_of area.now }
{
    for row in rows {
        let (order, stand, hand, next) = *row;
        let found = next_in_busy(order, stand, hand, area, bitmap);
        if found != Some(next) {
            return Some((*row, found));
        }
    }
    None
}

// The area of an image of three blocks of so many sectors, on a disk of so many.
fn three_blocks(block: u32, disk: u64) -> Option<Area>
    ensures suitable { IfSome result IsSuitable }
    ensures three { IfSome result (λ area. blocks_of area ≡ 3) }
    ensures disk { IfSome result (λ area. area.sectors ≡ disk) }
{
    if block != 8 && block != 16 && block != 32 && block != 64 {
        return None;
    }
    if disk > u64::from(MOST) {
        return None;
    }
    let area = area_of(512 * 3 * u64::from(block), 512 * disk, block).ok()?;
    if area.blocks() == 3 { Some(area) } else { None }
}

// A bitmap of three blocks, of which the middle one is empty.
fn middle_empty(alloc: Global) -> Result<Bitmap, AllocError>
    ensures { IfOk result (λ bitmap. blocks_in bitmap ≡ 3) }
{
    let mut bitmap = Bitmap::new(alloc, 3)?;
    bitmap.fill(0);
    bitmap.fill(2);
    Ok(bitmap)
}

// Of the image's sectors 0 to 23 those from 8 to 15 are empty, and the disk has 37.
const ROWS: &[Row] = &[
    // A sector that isn't held, in the empty block: it is asked once, whatever pends.
    ((PioIn, 8, 1), (0, false, false), (None, false), Ask(1)),
    ((PioIn, 8, 1), (0, false, false), (None, true), Nothing),
    ((PioIn, 3, 10), (5, true, false), (None, false), Ask(1)),
    ((PioIn, 3, 10), (5, true, false), (None, true), Nothing),
    ((DmaIn, 15, 1), (0, false, false), (None, false), Ask(1)),
    ((DmaIn, 15, 1), (0, false, true), (None, true), Nothing),
    // On the disk: an own read, up to the next block or to the end, and not while an interrupt pends.
    ((PioIn, 3, 10), (0, false, false), (None, false), Read(3, 5)),
    ((PioIn, 3, 10), (2, false, false), (None, false), Read(5, 3)),
    ((PioIn, 3, 10), (2, true, false), (None, false), Nothing),
    ((PioIn, 3, 10), (2, false, false), (None, true), Read(5, 3)),
    ((DmaIn, 6, 4), (0, false, false), (None, false), Read(6, 2)),
    (
        (DmaIn, 15, 22),
        (1, false, true),
        (None, false),
        Read(16, 8),
    ),
    (
        (DmaIn, 15, 22),
        (9, false, true),
        (None, false),
        Read(24, 8),
    ),
    (
        (DmaIn, 15, 22),
        (21, false, true),
        (None, false),
        Read(36, 1),
    ),
    // A piece that is held but hasn't the sector is as none.
    (
        (PioIn, 3, 10),
        (5, false, false),
        (Some((3, 5)), false),
        Ask(1),
    ),
    (
        (PioIn, 3, 10),
        (0, false, false),
        (Some((8, 5)), false),
        Read(3, 5),
    ),
    (
        (PioIn, 8, 9),
        (8, false, false),
        (Some((8, 8)), false),
        Read(16, 1),
    ),
    (
        (DmaIn, 8, 9),
        (0, false, true),
        (Some((9, 7)), false),
        Ask(1),
    ),
    // A sector that is held, by PIO: the interrupt that pends does, or a dummy read is to raise one.
    (
        (PioIn, 8, 1),
        (0, false, false),
        (Some((8, 1)), false),
        Raise,
    ),
    (
        (PioIn, 8, 1),
        (0, false, false),
        (Some((8, 1)), true),
        Raise,
    ),
    (
        (PioIn, 3, 10),
        (5, true, false),
        (Some((8, 5)), false),
        Serve,
    ),
    (
        (PioIn, 3, 10),
        (9, true, false),
        (Some((8, 5)), true),
        Serve,
    ),
    (
        (PioIn, 3, 10),
        (4, false, true),
        (Some((3, 5)), false),
        Raise,
    ),
    // A sector that is held, by the bus master: where a walk is running.
    (
        (DmaIn, 8, 8),
        (0, false, true),
        (Some((8, 8)), false),
        Scatter,
    ),
    (
        (DmaIn, 8, 8),
        (7, false, true),
        (Some((8, 8)), false),
        Scatter,
    ),
    (
        (DmaIn, 8, 8),
        (7, false, false),
        (Some((8, 8)), false),
        Nothing,
    ),
    (
        (DmaIn, 3, 10),
        (0, false, true),
        (Some((3, 5)), true),
        Scatter,
    ),
    // The bus master has moved all.
    ((DmaIn, 8, 8), (8, false, true), (None, false), End),
    ((DmaIn, 8, 8), (8, false, false), (Some((8, 8)), false), End),
    ((DmaIn, 3, 1), (1, false, false), (None, true), End),
];

// The first row that goes wrong; None where sizes give no area.
fn wrong_rows(
    block: u32,
    disk: u64,
    rows: &[Row],
    bitmap: &Bitmap,
) -> Option<Option<(Row, Option<Next>)>>
    requires three { blocks_in bitmap.now ≡ 3 }
{
    let area = three_blocks(block, disk)?;
    Some(first_other(rows, &area, bitmap))
}

#[test]
fn what_is_next_of_a_read_in_hand(rt: HostRuntime) -> Result<(), Fail> {
    let bitmap = middle_empty(rt.alloc())?;
    assert_eq!(rt; wrong_rows(8, 37, ROWS, &bitmap), Some(None));
    // With blocks of 64 the empty sectors are 64 to 127, and the disk has 205.
    let wide: [Row; 4] = [
        (
            (PioIn, 60, 70),
            (0, false, false),
            (None, false),
            Read(60, 4),
        ),
        ((PioIn, 60, 70), (4, false, false), (None, false), Ask(1)),
        (
            (PioIn, 60, 70),
            (68, false, false),
            (Some((64, 64)), false),
            Read(128, 2),
        ),
        (
            (DmaIn, 127, 78),
            (1, false, false),
            (None, false),
            Read(128, 64),
        ),
    ];
    assert_eq!(rt; wrong_rows(64, 205, &wide, &bitmap), Some(None));
    Ok(())
}

#[test]
fn nothing_is_next_outside_of_busy(rt: HostRuntime) -> Result<(), Fail> {
    let bitmap = middle_empty(rt.alloc())?;
    let request = request((PioIn, 8, 1));
    let Some(area) = three_blocks(8, 37) else {
        panic!(rt; "no area")
    };
    let idle = Redirect::new(request).next(
        &view(Phase::Idle, false, true),
        &area,
        &bitmap,
        None,
        false,
    );
    let reset = Redirect::new(request).next(
        &view(Phase::Reset, false, true),
        &area,
        &bitmap,
        None,
        false,
    );
    let ready = view(Phase::Ready(Taken::Good(request), 0, 256), true, true);
    let ready = Redirect::new(request).next(&ready, &area, &bitmap, Some((8, 1)), false);
    assert_eq!(rt; [idle, reset, ready], [Nothing, Nothing, Nothing]);
    Ok(())
}
