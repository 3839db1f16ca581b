//! Classes and pieces, by hand from the rules of docs/monitor.md.
//!
//! The tables are over images of three blocks, of which the middle one is empty, on disks with ten sectors between the
//! image and the three reserved ones: header, one sector of the bitmap, and dummy sector.

ghost use Rattle.std.specs.Prelude.{◌≡◌, IfOk, IfSome};
ghost use Rattle.fill_bitmap.specs.Area.{IsSuitable, blocks_of};
ghost use Rattle.fill_bitmap.specs.Bitmap.{blocks_in};

use crate::Class::{FillFirst, Local, Other, Redirected, Reserved, Settle};
use crate::{Class, Piece, classify, first_piece};
use ata_taskfile::{Form, Kind, Refused, Request};
use fill_bitmap::{Area, Bitmap, area_of};
use std::alloc::{AllocError, Global};
use std::test::Fail;

// Sectors of a block, of the image and of the disk.
type Sizes = [u32; 3];

// The area of these sizes, where the image has three blocks.
fn three_blocks(sizes: Sizes) -> Option<Area>
    ensures suitable { IfSome result IsSuitable }
    ensures three { IfSome result (λ area. blocks_of area ≡ 3) }
{
    let [block, image, disk] = sizes;
    if block != 8 && block != 16 && block != 32 && block != 64 {
        return None;
    }
    let area = area_of(512 * u64::from(image), 512 * u64::from(disk), block).ok()?;
    if area.blocks() == 3 { Some(area) } else { None }
}

// A bitmap of three blocks, of which the middle one is empty.
fn middle_empty(alloc: Global) -> Result<Bitmap, AllocError>
    ensures { IfOk result (λ bitmap. blocks_in bitmap ≡ 3) }
{
    let mut bitmap = Bitmap::new(alloc, 3)?;
    bitmap.fill(0);
    bitmap.fill(2);
    Ok(bitmap)
}

// A command over a range, or with the first sector and the count of one that has none.
fn order(kind: Kind, first: u64, count: u32) -> Result<Request, Refused> {
    let form = match kind {
        Kind::Read | Kind::Identify => Form::PioIn,
        Kind::Write => Form::PioOut,
        Kind::Verify | Kind::Flush | Kind::Features => Form::NoMove,
    };
    Ok(Request {
        kind,
        form,
        extended: false,
        first,
        count,
    })
}

// First sector and count of a range; the classes of a read, a write and a verify of it.
type RangeRow = (u64, u32, Class, Class, Class);

const RANGES: [(Sizes, &[RangeRow]); 4] = [
    // Empty are sectors 8 to 15, and the first reserved one is 34.
    (
        [8, 24, 37],
        &[
            (0, 8, Local, Local, Local),
            (7, 1, Local, Local, Local),
            (7, 2, Redirected, FillFirst, Local),
            (8, 1, Redirected, FillFirst, Local),
            (11, 3, Redirected, FillFirst, Local),
            (15, 1, Redirected, FillFirst, Local),
            (15, 9, Redirected, FillFirst, Local),
            (0, 24, Redirected, FillFirst, Local),
            (16, 1, Local, Local, Local),
            (16, 8, Local, Local, Local),
            (23, 2, Local, Local, Local),
            (24, 10, Local, Local, Local),
            (33, 1, Local, Local, Local),
            (0, 34, Redirected, FillFirst, Local),
            (33, 2, Reserved, Reserved, Reserved),
            (34, 1, Reserved, Reserved, Reserved),
            (36, 1, Reserved, Reserved, Reserved),
            (0, 35, Reserved, Reserved, Reserved),
            (0, 37, Reserved, Reserved, Reserved),
            // No order of a drive is like these: without a sector, or with more than any drive has.
            (9, 0, Local, Local, Local),
            (u64::MAX, 1, Reserved, Reserved, Reserved),
            (u64::MAX, u32::MAX, Reserved, Reserved, Reserved),
        ],
    ),
    // Empty are sectors 16 to 31, and the first reserved one is 58.
    (
        [16, 48, 61],
        &[
            (8, 8, Local, Local, Local),
            (15, 2, Redirected, FillFirst, Local),
            (31, 1, Redirected, FillFirst, Local),
            (32, 26, Local, Local, Local),
            (0, 58, Redirected, FillFirst, Local),
            (57, 2, Reserved, Reserved, Reserved),
            (0, 61, Reserved, Reserved, Reserved),
        ],
    ),
    // Empty are sectors 32 to 63, and the first reserved one is 106.
    (
        [32, 96, 109],
        &[
            (16, 16, Local, Local, Local),
            (31, 2, Redirected, FillFirst, Local),
            (63, 1, Redirected, FillFirst, Local),
            (64, 42, Local, Local, Local),
            (0, 106, Redirected, FillFirst, Local),
            (105, 2, Reserved, Reserved, Reserved),
            (0, 109, Reserved, Reserved, Reserved),
        ],
    ),
    // Empty are sectors 64 to 127, and the first reserved one is 202.
    (
        [64, 192, 205],
        &[
            (32, 32, Local, Local, Local),
            (63, 2, Redirected, FillFirst, Local),
            (127, 1, Redirected, FillFirst, Local),
            (128, 74, Local, Local, Local),
            (0, 202, Redirected, FillFirst, Local),
            (201, 2, Reserved, Reserved, Reserved),
            (0, 205, Reserved, Reserved, Reserved),
        ],
    ),
];

// The first of these rows whose classes are others, with the classes that it has.
fn first_other_class(rows: &[RangeRow], area: &Area, bitmap: &Bitmap) -> Option<RangeRow>
    requires suitable { IsSuitable area.now }
    requires blocks { blocks_in bitmap.now ≡ blocks_of area.now }
{
    for row in rows {
        let (first, count, _, _, _) = *row;
        let found = (
            first,
            count,
            classify(&order(Kind::Read, first, count), area, bitmap),
            classify(&order(Kind::Write, first, count), area, bitmap),
            classify(&order(Kind::Verify, first, count), area, bitmap),
        );
        if found != *row {
            return Some(found);
        }
    }
    None
}

// The first wrong row of an image of three blocks, the middle one empty; None where sizes give no such area.
fn wrong_classes(sizes: Sizes, rows: &[RangeRow], bitmap: &Bitmap) -> Option<Option<RangeRow>>
    requires three { blocks_in bitmap.now ≡ 3 }
{
    let area = three_blocks(sizes)?;
    Some(first_other_class(rows, &area, bitmap))
}

#[test]
fn classes_of_ranges(rt: HostRuntime) -> Result<(), Fail> {
    let bitmap = middle_empty(rt.alloc())?;
    for (sizes, rows) in RANGES {
        assert_eq!(rt;
            wrong_classes(sizes, rows, &bitmap),
            Some(None),
            "{sizes:?}"
        );
    }
    Ok(())
}

#[test]
fn commands_without_a_range(rt: HostRuntime) -> Result<(), Fail> {
    // The order; its class where nothing is filled, where filled blocks aren't stored, and where all filled ones are.
    let cases = [
        (order(Kind::Flush, 0, 0), [Local, Settle, Local]),
        (order(Kind::Identify, 0, 1), [Other, Other, Other]),
        (order(Kind::Features, 0, 0), [Other, Other, Other]),
        (Err(Refused::Abort), [Other, Other, Other]),
        (Err(Refused::NotFound), [Other, Other, Other]),
    ];
    let Some(area) = three_blocks([8, 24, 37]) else {
        panic!(rt; "no area")
    };
    let fresh = Bitmap::new(rt.alloc(), 3)?;
    let unsettled = middle_empty(rt.alloc())?;
    let mut settled = middle_empty(rt.alloc())?;
    settled.freeze();
    settled.store_frozen();
    for (request, classes) in cases {
        let found = [
            classify(&request, &area, &fresh),
            classify(&request, &area, &unsettled),
            classify(&request, &area, &settled),
        ];
        assert_eq!(rt; found, classes, "{request:?}");
    }
    Ok(())
}

// First sector and end of a range; the count of its first piece, and the piece's block where that is empty.
type PieceRow = (u64, u64, u32, Option<u32>);

const PIECES: [(Sizes, &[PieceRow]); 4] = [
    (
        [8, 24, 37],
        &[
            (0, 8, 8, None),
            (0, 24, 8, None),
            (3, 5, 2, None),
            (7, 9, 1, None),
            (8, 9, 1, Some(1)),
            (8, 16, 8, Some(1)),
            (9, 12, 3, Some(1)),
            (15, 17, 1, Some(1)),
            (16, 37, 8, None),
            (23, 30, 1, None),
            (24, 34, 8, None),
            (34, 37, 3, None),
        ],
    ),
    (
        [16, 48, 61],
        &[
            (15, 40, 1, None),
            (16, 40, 16, Some(1)),
            (20, 24, 4, Some(1)),
            (50, 58, 8, None),
        ],
    ),
    (
        [32, 96, 109],
        &[
            (30, 90, 2, None),
            (40, 90, 24, Some(1)),
            (63, 90, 1, Some(1)),
            (64, 90, 26, None),
        ],
    ),
    (
        [64, 192, 205],
        &[
            (0, 192, 64, None),
            (64, 192, 64, Some(1)),
            (127, 128, 1, Some(1)),
            (128, 202, 64, None),
            // No drive has these sectors.
            (u64::MAX - 1, u64::MAX, 1, None),
        ],
    ),
];

// The first of these rows that has no sector, or whose first piece is another, with what that piece is.
fn first_other_piece(rows: &[PieceRow], area: &Area, bitmap: &Bitmap) -> Option<(PieceRow, Piece)>
    requires suitable { IsSuitable area.now }
    requires blocks { blocks_in bitmap.now ≡ blocks_of area.now }
{
    for row in rows {
        let (first, end, count, empty) = *row;
        let piece = Piece {
            first,
            count,
            empty,
        };
        if first >= end {
            return Some((*row, piece));
        }
        let found = first_piece(first, end, area, bitmap);
        if found != piece {
            return Some((*row, found));
        }
    }
    None
}

// The first wrong row of an image of three blocks, the middle one empty; None where sizes give no such area.
fn wrong_pieces(
    sizes: Sizes,
    rows: &[PieceRow],
    bitmap: &Bitmap,
) -> Option<Option<(PieceRow, Piece)>>
    requires three { blocks_in bitmap.now ≡ 3 }
{
    let area = three_blocks(sizes)?;
    Some(first_other_piece(rows, &area, bitmap))
}

#[test]
fn first_pieces(rt: HostRuntime) -> Result<(), Fail> {
    let bitmap = middle_empty(rt.alloc())?;
    for (sizes, rows) in PIECES {
        assert_eq!(rt; wrong_pieces(sizes, rows, &bitmap), Some(None), "{sizes:?}");
    }
    Ok(())
}

#[test]
fn an_empty_image_has_no_rule_of_its_own(rt: HostRuntime) -> Result<(), Fail> {
    // Nothing is reserved and no block is empty, so the whole disk of 16 sectors is Local.
    let Ok(area) = area_of(0, 512 * 16, 8) else {
        panic!(rt; "no area")
    };
    assert_eq!(rt; area.blocks(), 0);
    let bitmap = Bitmap::new(rt.alloc(), 0)?;
    for kind in [Kind::Read, Kind::Write, Kind::Verify, Kind::Flush] {
        let class = classify(&order(kind, 0, 16), &area, &bitmap);
        assert_eq!(rt; class, Local, "{kind:?}");
    }
    let piece = Piece {
        first: 3,
        count: 5,
        empty: None,
    };
    assert_eq!(rt; first_piece(3, 16, &area, &bitmap), piece);
    Ok(())
}
