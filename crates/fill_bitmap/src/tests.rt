//! Sizes, refusals and bitmaps, by hand from the rules.

ghost use Rattle.std.specs.Prelude.{◌≡◌, ◌↔◌, IfOk, IfSome, IsTrue};
ghost use Rattle.fill_bitmap.specs.Area.{IsBlock};
ghost use Rattle.fill_bitmap.specs.Bitmap.{blocks_in};

use crate::Unsuitable::{DiskLength, ImageLength, TooLarge, TooSmall};
use crate::{Area, BLOCKS_OF_SECTOR, Bitmap, SECTOR_BYTES, Unsuitable, area_of};
use std::alloc::{AllocError, Global};
use std::test::Fail;

// Whether a block may have so many sectors.
fn is_block(sectors: u32) -> bool
    ensures { IsTrue result ↔ IsBlock sectors }
{
    sectors == 8 || sectors == 16 || sectors == 32 || sectors == 64
}

// The area of an image and a disk of so many sectors, with its blocks, its bitmap's sectors and its first reserved
// sector; None where there is none.
fn sizes(image: u32, disk: u32, block: u32) -> Option<(Area, [u64; 3])> {
    if !is_block(block) {
        return None;
    }
    let area = area_of(512 * u64::from(image), 512 * u64::from(disk), block).ok()?;
    let [blocks, bitmap] = [area.blocks(), area.bitmap_sectors()];
    Some((
        area,
        [u64::from(blocks), u64::from(bitmap), area.reserved()],
    ))
}

#[test]
fn sizes_of_areas(rt: HostRuntime) {
    // Sectors of image, disk and block; blocks, sectors of the bitmap, the first reserved sector.
    let cases = [
        (8, 16, 8, [1, 1, 13]),
        (8, 11, 8, [1, 1, 8]),
        (131_072, 262_144, 16, [8192, 2, 262_140]),
        (32_768, 262_144, 8, [4096, 1, 262_141]),
        (65_536, 262_144, 16, [4096, 1, 262_141]),
        (131_072, 262_144, 32, [4096, 1, 262_141]),
        (131_104, 262_144, 32, [4097, 2, 262_140]),
        (64, 262_144, 64, [1, 1, 262_141]),
        (262_080, 262_144, 8, [32_760, 8, 262_134]),
        (0, 16, 8, [0, 0, 16]),
        (0, 1, 64, [0, 0, 1]),
    ];
    for (image, disk, block, numbers) in cases {
        let area = Area {
            sectors: u64::from(disk),
            image: u64::from(image),
            block,
        };
        assert_eq!(rt; sizes(image, disk, block), Some((area, numbers)));
    }
}

// How many blocks an image of so many sectors has on a disk of 2,048.
fn blocks_of(image: u32, block: u32) -> Option<u32> {
    if !is_block(block) {
        return None;
    }
    let area = area_of(512 * u64::from(image), 512 * 2048, block).ok()?;
    Some(area.blocks())
}

// Why an image and a disk of so many bytes are refused, if they are; None where no block has so many sectors.
fn refusal(image: u64, disk: u64, block: u32) -> Option<Option<Unsuitable>> {
    if !is_block(block) {
        return None;
    }
    Some(area_of(image, disk, block).err())
}

#[test]
fn refusals_in_their_order(rt: HostRuntime) {
    // Bytes of image and disk, sectors of a block; why they are refused.
    let cases = [
        (5, 512 * 16, 8, Some(ImageLength)),
        (512 * 7, 512 * 16, 8, Some(ImageLength)),
        (512 * 8, 512 * 64, 16, Some(ImageLength)),
        (u64::MAX, u64::MAX, 64, Some(ImageLength)),
        (0, 513, 8, Some(DiskLength)),
        (0, 511, 8, Some(DiskLength)),
        (0, u64::MAX, 64, Some(DiskLength)),
        (512 * 8, 512 * 10, 8, Some(TooSmall)),
        (512 * 8, 512 * 11, 8, None),
        (512 * 16, 512 * 18, 16, Some(TooSmall)),
        (512 * 16, 512 * 19, 16, None),
        (0, 0, 16, Some(TooSmall)),
        (0, 512, 16, None),
        (0, 512 * 262_144, 32, None),
        (0, 512 * 262_145, 32, Some(TooLarge)),
        (512 * 8, 512 * 262_144, 8, None),
        (512 * 8, 512 * 262_145, 8, Some(TooLarge)),
        (0, u64::MAX - 511, 64, Some(TooLarge)),
        // Two are wrong, and the first is told.
        (5, 513, 8, Some(ImageLength)),
        (5, 0, 8, Some(ImageLength)),
        (0, 1, 8, Some(DiskLength)),
        (512 * 262_144, 512 * 262_145, 64, Some(TooSmall)),
        (u64::MAX - 32_767, u64::MAX - 511, 64, Some(TooSmall)),
    ];
    for (image, disk, block, wanted) in cases {
        assert_eq!(rt;
            refusal(image, disk, block),
            Some(wanted),
            "{image} {disk} {block}"
        );
    }
}

// A bitmap of so many blocks, in which three are filled; None where one of these isn't one of the image.
fn three_filled(alloc: Global, blocks: u32, filled: [u32; 3]) -> Result<Option<Bitmap>, AllocError>
    ensures { IfOk result (λ o. IfSome o (λ bitmap. blocks_in bitmap ≡ blocks)) }
{
    let [a, b, c] = filled;
    if a >= blocks || b >= blocks || c >= blocks {
        return Ok(None);
    }
    let mut bitmap = Bitmap::new(alloc, blocks)?;
    bitmap.fill(a);
    bitmap.fill(b);
    bitmap.fill(c);
    Ok(Some(bitmap))
}

// The bitmap's sector `k` of so many blocks, three of which are filled, one of these with its bit there.
fn written(
    alloc: Global,
    blocks: u32,
    filled: [u32; 3],
    k: u32,
) -> Result<Option<[u8; SECTOR_BYTES]>, AllocError> {
    let Some(mut bitmap) = three_filled(alloc, blocks, filled)? else {
        return Ok(None);
    };
    let [a, _, _] = filled;
    if a >= blocks || u64::from(a) / BLOCKS_OF_SECTOR != u64::from(k) {
        return Ok(None);
    }
    bitmap.freeze();
    let mut sector = [0xff; SECTOR_BYTES];
    bitmap.frozen_sector(k, &mut sector);
    Ok(Some(sector))
}

// A sector with this byte at each of two places, and 0 at the others.
fn sector_with(places: [usize; 2], bytes: [u8; 2]) -> [u8; SECTOR_BYTES] {
    let mut sector = [0; SECTOR_BYTES];
    let [first, second] = places;
    if first < SECTOR_BYTES && second < SECTOR_BYTES {
        sector[first] = bytes[0];
        sector[second] = bytes[1];
    }
    sector
}

// Whether just these blocks of so many are stored and filled in a bitmap to which this sector 0 was added.
fn reads_back(
    alloc: Global,
    blocks: u32,
    filled: [u32; 3],
    sector: &[u8; SECTOR_BYTES],
) -> Result<bool, AllocError> {
    if blocks == 0 {
        return Ok(false);
    }
    let mut bitmap = Bitmap::new(alloc, blocks)?;
    bitmap.load(0, sector);
    Ok(has_just(&bitmap, blocks, filled))
}

fn has_just(bitmap: &Bitmap, blocks: u32, held: [u32; 3]) -> bool
    requires { blocks_in bitmap.now ≡ blocks }
{
    let [a, b, c] = held;
    for i in 0..blocks {
        let wanted = i == a || i == b || i == c;
        if bitmap.is_stored(i) != wanted || bitmap.is_filled(i) != wanted {
            return false;
        }
    }
    true
}

#[test]
fn bitmap_of_each_block_size(rt: HostRuntime) -> Result<(), Fail> {
    // Sectors of block and image, three filled blocks; the blocks, the first two bytes of the bitmap's sector 0.
    let cases = [
        (8, 96, [0, 9, 11], 12, [0x01, 0x0a]),
        (16, 160, [1, 7, 8], 10, [0x82, 0x01]),
        (32, 288, [2, 3, 8], 9, [0x0c, 0x01]),
        (64, 1024, [0, 4, 15], 16, [0x11, 0x80]),
    ];
    for (block, image, filled, blocks, bytes) in cases {
        let sector = sector_with([0, 1], bytes);
        let found = (
            blocks_of(image, block),
            written(rt.alloc(), blocks, filled, 0)?,
            reads_back(rt.alloc(), blocks, filled, &sector)?,
        );
        assert!(rt; found == (Some(blocks), Some(sector), true), "{block}");
    }
    Ok(())
}

#[test]
fn bit_of_a_block_in_each_sector(rt: HostRuntime) -> Result<(), Fail> {
    // How many blocks, the one that is filled; the bitmap's sector that has its bit, the byte's place and the byte.
    let cases = [
        (4097, 4095, 0, 511, 0x80),
        (4097, 4096, 1, 0, 0x01),
        (8192, 4104, 1, 1, 0x01),
        (8192, 8191, 1, 511, 0x80),
        (32_760, 32_759, 7, 510, 0x80),
    ];
    for (blocks, b, k, place, byte) in cases {
        let wanted = Some(sector_with([place, place], [byte, byte]));
        assert!(rt; written(rt.alloc(), blocks, [b, b, b], k)? == wanted, "{b}");
    }
    Ok(())
}

#[test]
fn bits_past_the_last_block(rt: HostRuntime) -> Result<(), Fail> {
    // Twelve blocks have all bits of byte 0 and the low four of byte 1.
    let mut bitmap = Bitmap::new(rt.alloc(), 12)?;
    let mut sector = [0xff; SECTOR_BYTES];
    bitmap.load(0, &sector);
    assert_eq!(rt; (bitmap.all_stored(), bitmap.all_filled()), (true, true));
    bitmap.frozen_sector(0, &mut sector);
    assert!(rt; sector == sector_with([0, 1], [0xff, 0x0f]));
    Ok(())
}

// The first empty block from a place on, where three are filled, and whether all are.
fn first_empty(
    alloc: Global,
    blocks: u32,
    filled: [u32; 3],
    from: u32,
) -> Result<Option<(Option<u32>, bool)>, AllocError> {
    let Some(bitmap) = three_filled(alloc, blocks, filled)? else {
        return Ok(None);
    };
    if from > blocks {
        return Ok(None);
    }
    Ok(Some((bitmap.first_empty_from(from), bitmap.all_filled())))
}

#[test]
fn first_empty_block(rt: HostRuntime) -> Result<(), Fail> {
    // How many blocks, three filled ones, where the search begins; the block that is found, and whether all are filled.
    let cases = [
        (6, [0, 1, 2], 0, (Some(3), false)),
        (6, [0, 1, 2], 4, (Some(4), false)),
        (6, [3, 4, 5], 3, (Some(0), false)),
        (6, [3, 4, 5], 6, (Some(0), false)),
        (6, [0, 4, 5], 4, (Some(1), false)),
        (3, [0, 1, 1], 3, (Some(2), false)),
        (3, [0, 1, 2], 0, (None, true)),
        (3, [0, 1, 2], 3, (None, true)),
    ];
    for (blocks, filled, from, wanted) in cases {
        let found = first_empty(rt.alloc(), blocks, filled, from)?;
        assert_eq!(rt; found, Some(wanted), "{filled:?} {from}");
    }
    Ok(())
}

// Which of the first two blocks are stored, whether all are filled, whether all are stored, and whether these are the
// same.
fn state(bitmap: &Bitmap) -> [bool; 5]
    requires { blocks_in bitmap.now ≡ 2 }
{
    [
        bitmap.is_stored(0),
        bitmap.is_stored(1),
        bitmap.all_filled(),
        bitmap.all_stored(),
        bitmap.filled_is_stored(),
    ]
}

#[test]
fn a_block_filled_after_the_freeze(rt: HostRuntime) -> Result<(), Fail> {
    let mut bitmap = Bitmap::new(rt.alloc(), 2)?;
    let fresh = state(&bitmap);
    bitmap.fill(0);
    bitmap.freeze();
    bitmap.fill(1);
    let filled = state(&bitmap);

    // Only block 0 was filled when the set was frozen, so only its bit is written and stored.
    let mut sector = [0; SECTOR_BYTES];
    bitmap.frozen_sector(0, &mut sector);
    bitmap.store_frozen();
    let stored = state(&bitmap);
    bitmap.freeze();
    bitmap.store_frozen();
    let states = [fresh, filled, stored, state(&bitmap)];
    assert_eq!(rt; sector[0], 0x01);
    assert_eq!(rt;
        states,
        [
            [false, false, false, false, true],
            [false, false, true, false, false],
            [true, false, true, false, false],
            [true, true, true, true, true],
        ]
    );
    Ok(())
}

// What is done with a bitmap of three blocks: one is filled, the bits of a byte are added, or one of the other calls.
#[derive(Clone, Copy)]
enum Act {
    Fill(u32),
    Load(u8),
    Freeze,
    Store,
    Clear,
}

fn done(bitmap: &mut Bitmap, act: Act)
    requires { blocks_in bitmap.old ≡ 3 }
    ensures { blocks_in bitmap.new ≡ 3 }
{
    match act {
        Act::Fill(b) => {
            if b < 3 {
                bitmap.fill(b);
            }
        }
        Act::Load(byte) => bitmap.load(0, &sector_with([0, 0], [byte, byte])),
        Act::Freeze => bitmap.freeze(),
        Act::Store => bitmap.store_frozen(),
        Act::Clear => bitmap.clear(),
    }
}

// Whether all blocks are filled, whether all are stored, and whether these are the same, behind four acts.
fn counted(alloc: Global, acts: [Act; 4]) -> Result<[bool; 3], AllocError> {
    let mut bitmap = Bitmap::new(alloc, 3)?;
    let [first, second, third, last] = acts;
    done(&mut bitmap, first);
    done(&mut bitmap, second);
    done(&mut bitmap, third);
    done(&mut bitmap, last);
    Ok([
        bitmap.all_filled(),
        bitmap.all_stored(),
        bitmap.filled_is_stored(),
    ])
}

#[test]
fn blocks_are_counted_once(rt: HostRuntime) -> Result<(), Fail> {
    use Act::{Clear, Fill, Freeze, Load, Store};
    // Acts, and behind them the filled and the stored blocks of 0, 1, 2, from which the three answers follow.
    let cases = [
        // 0 1; none.
        ([Fill(0), Fill(0), Fill(1), Freeze], [false, false, false]),
        // 0 1 2; none.
        ([Fill(0), Fill(1), Fill(2), Fill(2)], [true, false, false]),
        // 0 1 2; 0 1 2.
        (
            [Load(0x03), Load(0x05), Fill(1), Freeze],
            [true, true, true],
        ),
        // 0 1; 0 1.
        (
            [Load(0x03), Load(0x03), Freeze, Store],
            [false, false, true],
        ),
        // 0; 0.
        ([Fill(0), Load(0x01), Freeze, Store], [false, false, true]),
        // 0 1 2; 1.
        ([Fill(0), Load(0x02), Fill(2), Freeze], [true, false, false]),
        // 0 1; 0.
        ([Fill(0), Freeze, Fill(1), Store], [false, false, false]),
        // 0; none.
        ([Load(0x07), Clear, Fill(0), Freeze], [false, false, false]),
        // None; none.
        ([Load(0x07), Clear, Freeze, Store], [false, false, true]),
        // 0 1 2; 0 1 2. A byte has bits for more blocks than there are.
        ([Load(0xff), Freeze, Store, Fill(1)], [true, true, true]),
        // 0 1; 0. Bits are added to the frozen blocks too.
        ([Freeze, Load(0x01), Fill(1), Store], [false, false, false]),
        // 0 1 2; 1 2.
        (
            [Fill(0), Fill(1), Load(0x06), Fill(0)],
            [true, false, false],
        ),
    ];
    for (i, (acts, wanted)) in cases.into_iter().enumerate() {
        assert_eq!(rt; counted(rt.alloc(), acts)?, wanted, "{i}");
    }
    Ok(())
}
