//! Gates, by hand from the rule of docs/monitor.md.
//!
//! The tables are over images of five blocks on disks with ten sectors behind the image, of which the last three are
//! reserved: header, one sector of the bitmap, and dummy sector.

ghost use Rattle.std.specs.Prelude.{◌≡◌, ◌<◌, IfOk, IfSome};
ghost use Rattle.fill_bitmap.specs.Area.{IsSuitable, blocks_of};
ghost use Rattle.fill_bitmap.specs.Bitmap.{blocks_in};

use crate::Gated::{Fill, Pass};
use crate::{Gated, gate};
use ata_taskfile::{Form, Kind, Request};
use fill_bitmap::{Area, Bitmap, area_of};
use std::alloc::{AllocError, Global};
use std::test::Fail;

// The area with blocks of so many sectors, where that is suitable.
fn five_blocks(block: u32) -> Option<Area>
    ensures suitable { IfSome result IsSuitable }
    ensures five { IfSome result (λ area. blocks_of area ≡ 5) }
{
    if block != 8 && block != 16 && block != 32 && block != 64 {
        return None;
    }
    let image = 5 * block;
    let area = area_of(512 * u64::from(image), 512 * u64::from(image + 10), block).ok()?;
    if area.blocks() == 5 { Some(area) } else { None }
}

// A bitmap of five blocks, of which these are filled.
fn bitmap_of(alloc: Global, filled: [bool; 5]) -> Result<Bitmap, AllocError>
    ensures { IfOk result (λ bitmap. blocks_in bitmap ≡ 5) }
{
    let mut bitmap = Bitmap::new(alloc, 5)?;
    let [first, second, third, fourth, fifth] = filled;
    fill_where(first, &mut bitmap, 0);
    fill_where(second, &mut bitmap, 1);
    fill_where(third, &mut bitmap, 2);
    fill_where(fourth, &mut bitmap, 3);
    fill_where(fifth, &mut bitmap, 4);
    Ok(bitmap)
}

fn fill_where(filled: bool, bitmap: &mut Bitmap, b: u32)
    requires { b < blocks_in bitmap.old }
    ensures { blocks_in bitmap.new ≡ blocks_in bitmap.old }
{
    if filled {
        bitmap.fill(b);
    }
}

// A write of so many sectors.
fn write(first: u64, count: u32) -> Request {
    Request {
        kind: Kind::Write,
        form: Form::DmaOut,
        extended: true,
        first,
        count,
    }
}

// First sector and count of a range, and its gate.
type Row = (u64, u32, Gated);

// The first of these rows whose gate is another, with the gate that it has.
fn first_other_gate(rows: &[Row], area: &Area, bitmap: &Bitmap) -> Option<Row>
    requires suitable { IsSuitable area.now }
    requires blocks { blocks_in bitmap.now ≡ blocks_of area.now }
{
    for row in rows {
        let (first, count, _) = *row;
        let found = (first, count, gate(&write(first, count), area, bitmap));
        if found != *row {
            return Some(found);
        }
    }
    None
}

// The first wrong row over blocks of so many sectors; None where these give no area.
fn wrong_gates(block: u32, rows: &[Row], bitmap: &Bitmap) -> Option<Option<Row>>
    requires five { blocks_in bitmap.now ≡ 5 }
{
    let area = five_blocks(block)?;
    Some(first_other_gate(rows, &area, bitmap))
}

#[test]
fn gates_of_ranges(rt: HostRuntime) -> Result<(), Fail> {
    // Empty are the blocks 1, 2 and 4.
    let bitmap = bitmap_of(rt.alloc(), [true, false, false, true, false])?;
    // Blocks of 8: empty are sectors 8 to 23 and 32 to 39, the image ends with the last.
    let rows = [
        (0, 8, Pass),
        (7, 1, Pass),
        (7, 2, Fill(1)),
        (8, 1, Fill(1)),
        (15, 1, Fill(1)),
        (15, 2, Fill(1)),
        (16, 1, Fill(2)),
        (20, 20, Fill(2)),
        (23, 2, Fill(2)),
        (24, 8, Pass),
        (31, 1, Pass),
        (31, 2, Fill(4)),
        (24, 16, Fill(4)),
        (39, 1, Fill(4)),
        (39, 8, Fill(4)),
        (40, 1, Pass),
        (40, 7, Pass),
        (0, 47, Fill(1)),
        // Into the reserved sectors, whose commands don't come here.
        (47, 3, Pass),
        (24, 26, Fill(4)),
        // No order of a drive is like these: without a sector, or with more than any drive has.
        (8, 0, Pass),
        (7, u32::MAX, Fill(1)),
        (24, u32::MAX, Fill(4)),
        (40, u32::MAX, Pass),
        (u64::MAX, 1, Pass),
        (u64::MAX, u32::MAX, Pass),
    ];
    assert_eq!(rt; wrong_gates(8, &rows, &bitmap), Some(None));
    let rows = [
        (15, 1, Pass),
        (15, 2, Fill(1)),
        (32, 1, Fill(2)),
        (48, 16, Pass),
        (63, 2, Fill(4)),
    ];
    assert_eq!(rt; wrong_gates(16, &rows, &bitmap), Some(None));
    let rows = [
        (31, 1, Pass),
        (31, 2, Fill(1)),
        (64, 1, Fill(2)),
        (96, 32, Pass),
        (127, 2, Fill(4)),
    ];
    assert_eq!(rt; wrong_gates(32, &rows, &bitmap), Some(None));
    let rows = [
        (63, 1, Pass),
        (63, 2, Fill(1)),
        (128, 1, Fill(2)),
        (192, 64, Pass),
        (255, 2, Fill(4)),
    ];
    assert_eq!(rt; wrong_gates(64, &rows, &bitmap), Some(None));
    Ok(())
}

#[test]
fn empty_blocks_below_the_range(rt: HostRuntime) -> Result<(), Fail> {
    // Empty are the blocks 0 and 1, and none above.
    let bitmap = bitmap_of(rt.alloc(), [false, false, true, true, true])?;
    let rows = [
        (16, 8, Pass),
        (16, 24, Pass),
        (39, 1, Pass),
        (15, 2, Fill(1)),
        (0, 40, Fill(0)),
    ];
    assert_eq!(rt; wrong_gates(8, &rows, &bitmap), Some(None));
    Ok(())
}

#[test]
fn all_empty_and_all_filled(rt: HostRuntime) -> Result<(), Fail> {
    let none = Bitmap::new(rt.alloc(), 5)?;
    let rows = [
        (0, 1, Fill(0)),
        (0, 50, Fill(0)),
        (8, 50, Fill(1)),
        (39, 1, Fill(4)),
        (40, 10, Pass),
    ];
    assert_eq!(rt; wrong_gates(8, &rows, &none), Some(None));
    let all = bitmap_of(rt.alloc(), [true; 5])?;
    let rows = [
        (0, 1, Pass),
        (0, 50, Pass),
        (8, 50, Pass),
        (39, 1, Pass),
        (40, 10, Pass),
    ];
    assert_eq!(rt; wrong_gates(8, &rows, &all), Some(None));
    Ok(())
}

#[test]
fn a_write_waits_for_each_empty_block_in_turn(rt: HostRuntime) -> Result<(), Fail> {
    // Sectors 7 to 36 lie in the blocks 0 to 4, of which 1, 2 and 4 are empty at first.
    let stages = [
        ([true, false, false, true, false], Fill(1)),
        ([true, true, false, true, false], Fill(2)),
        ([true, true, true, true, false], Fill(4)),
        ([true, true, true, true, true], Pass),
    ];
    for (filled, wanted) in stages {
        let bitmap = bitmap_of(rt.alloc(), filled)?;
        assert_eq!(rt;
            wrong_gates(8, &[(7, 30, wanted)], &bitmap),
            Some(None),
            "{filled:?}"
        );
    }
    Ok(())
}

#[test]
fn an_empty_image_gates_nothing(rt: HostRuntime) -> Result<(), Fail> {
    let Ok(area) = area_of(0, 512 * 16, 8) else {
        panic!(rt; "no area")
    };
    assert_eq!(rt; area.blocks(), 0);
    let bitmap = Bitmap::new(rt.alloc(), 0)?;
    assert_eq!(rt; gate(&write(0, 16), &area, &bitmap), Pass);
    Ok(())
}
