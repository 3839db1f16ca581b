//! Headers, and the jobs of openings and settlings, by hand from the rules of docs/monitor.md.

ghost use Rattle.std.specs.Prelude.{◌≡◌};
ghost use Rattle.fill_bitmap.specs.Area.{IsSuitable, blocks_of};
ghost use Rattle.fill_bitmap.specs.Bitmap.{blocks_in};

use crate::{Opening, Settle, header};
use fill_bitmap::{Area, Bitmap};
use own_pio::OwnJob;
use own_pio::OwnJob::{Flush, Read, Write};
use std::alloc::{AllocError, Global};
use std::test::Fail;

// The bytes of a header of the run `id`.
fn header_bytes(area: &Area, id: u64) -> [u8; 512] {
    let mut bytes = [0xee; 512];
    header(area, id, &mut bytes);
    bytes
}

// A sector that begins with these bytes and is zero after them.
fn beginning_with(first: &[u8]) -> [u8; 512] {
    let mut bytes = [0; 512];
    for (to, from) in bytes.iter_mut().zip(first) {
        *to = *from;
    }
    bytes
}

#[test]
fn bytes_of_headers(rt: HostRuntime) {
    // Sectors of image, disk and block, the run; the first 28 bytes.
    let cases = [
        (
            8,
            16,
            8,
            7,
            *b"BMCFILL1\0\0\0\0\0\0\0\x07\0\0\0\0\0\0\0\x08\0\0\0\x08",
        ),
        (
            0x1_2340,
            0x2_0000,
            64,
            0x0102_0304_0506_0708,
            *b"BMCFILL1\x01\x02\x03\x04\x05\x06\x07\x08\0\0\0\0\0\x01\x23\x40\0\0\0\x40",
        ),
    ];
    for (image, sectors, block, id, first) in cases {
        let area = Area {
            sectors,
            image,
            block,
        };
        assert!(rt; header_bytes(&area, id) == beginning_with(&first), "{id}");
    }
}

// An image of 8 blocks of 8 sectors on a disk of 80: the header is sector 77, the bitmap sector 78.
const SMALL: Area = Area {
    sectors: 80,
    image: 64,
    block: 8,
};

// An image of 8,192 blocks of 16 sectors, whose bitmap has two sectors.
const LARGE: Area = Area {
    sectors: 262_144,
    image: 131_072,
    block: 16,
};

// A job, and what stands behind its end: the buffer, the first empty block, and whether each filled block is stored.
type Turn = (Option<OwnJob>, [u8; 512], Option<u32>, bool);

// An opening with its bitmap, and the buffer.
#[derive(Drop)]
struct Begun {
    opening: Opening,
    bitmap: Bitmap,
    buffer: [u8; 512],
    ghost blocks: { blocks_in bitmap ≡ blocks_of opening.area },
}

impl Begun {
    // The opening of run 7.
    fn new(alloc: Global, area: Area) -> Result<Begun, AllocError>
        requires { IsSuitable area }
    {
        Ok(Begun {
            opening: Opening::new(area, 7),
            bitmap: Bitmap::new(alloc, area.blocks())?,
            buffer: [0; 512],
        })
    }

    // The next job, which ends with these bytes in the buffer.
    fn end(&mut self, bytes: [u8; 512], ok: bool) -> Option<OwnJob> {
        let job = self.opening.next()?;
        self.buffer = bytes;
        self.opening.ended(ok, &mut self.bitmap, &mut self.buffer);
        Some(job)
    }

    // The next job, which ends so; the buffer, the first empty block and whether each filled block is stored then.
    fn turn(&mut self, bytes: [u8; 512], ok: bool) -> Turn {
        let job = self.end(bytes, ok);
        let empty = self.bitmap.first_empty_from(0);
        (job, self.buffer, empty, self.bitmap.filled_is_stored())
    }
}

#[test]
fn jobs_of_a_fresh_disk(rt: HostRuntime) -> Result<(), Fail> {
    let mut begun = Begun::new(rt.alloc(), SMALL)?;
    let (old, zeros, first) = ([0xee; 512], [0; 512], header_bytes(&SMALL, 7));
    // The job, whether it was done; the buffer after its end, which began as `old`.
    let cases = [
        (Read(77, 1), false, old),
        (Read(77, 1), true, zeros),
        (Write(78, 1), false, zeros),
        (Write(78, 1), true, old),
        (Flush, false, old),
        (Flush, true, first),
        (Write(77, 1), false, first),
        (Write(77, 1), true, old),
        (Flush, false, old),
        (Flush, true, old),
    ];
    for (i, (job, ok, buffer)) in cases.into_iter().enumerate() {
        assert!(rt;
            begun.turn(old, ok) == (Some(job), buffer, Some(0), true),
            "job {i}"
        );
    }
    assert_eq!(rt;
        (begun.opening.next(), begun.bitmap.all_stored()),
        (None, false)
    );
    Ok(())
}

#[test]
fn jobs_of_a_begun_disk(rt: HostRuntime) -> Result<(), Fail> {
    let mut begun = Begun::new(rt.alloc(), SMALL)?;
    let (first, other) = (header_bytes(&SMALL, 7), header_bytes(&SMALL, 8));
    // The job, the bytes that it read, whether it was done; the first empty block after its end.
    let cases = [
        (Read(77, 1), other, false, Some(0)),
        (Read(77, 1), first, true, Some(0)),
        (Read(78, 1), beginning_with(&[0xff]), false, Some(0)),
        (Read(78, 1), beginning_with(&[0x17]), true, Some(3)),
    ];
    for (i, (job, bytes, ok, empty)) in cases.into_iter().enumerate() {
        assert!(rt;
            begun.turn(bytes, ok) == (Some(job), bytes, empty, true),
            "job {i}"
        );
    }
    assert_eq!(rt; begun.opening.next(), None);
    Ok(())
}

#[test]
fn jobs_of_a_bitmap_of_two_sectors(rt: HostRuntime) -> Result<(), Fail> {
    // The header that is read, of this run or another; the jobs in their order.
    let cases = [
        (
            7,
            [
                Some(Read(262_140, 1)),
                Some(Read(262_141, 1)),
                Some(Read(262_142, 1)),
                None,
                None,
                None,
                None,
            ],
        ),
        (
            8,
            [
                Some(Read(262_140, 1)),
                Some(Write(262_141, 1)),
                Some(Write(262_142, 1)),
                Some(Flush),
                Some(Write(262_140, 1)),
                Some(Flush),
                None,
            ],
        ),
    ];
    for (id, jobs) in cases {
        let mut begun = Begun::new(rt.alloc(), LARGE)?;
        for job in jobs {
            assert_eq!(rt; begun.end(header_bytes(&LARGE, id), true), job, "{id}");
        }
    }
    Ok(())
}

#[test]
fn nothing_to_open_for_an_empty_image(rt: HostRuntime) {
    let area = Area {
        sectors: 16,
        image: 0,
        block: 8,
    };
    assert_eq!(rt; Opening::new(area, 7).next(), None);
}

// A settling with its bitmap, and the buffer.
#[derive(Drop)]
struct Settling {
    settle: Settle,
    bitmap: Bitmap,
    buffer: [u8; 512],
    ghost blocks: { blocks_in bitmap ≡ blocks_of settle.area },
    ghost eight: { blocks_in bitmap ≡ 8 },
}

impl Settling {
    // A settling in which block 0 is frozen, and block 1 was filled after that.
    fn new(alloc: Global) -> Result<Settling, AllocError> {
        let mut bitmap = Bitmap::new(alloc, 8)?;
        bitmap.fill(0);
        bitmap.freeze();
        bitmap.fill(1);
        Ok(Settling {
            settle: Settle::new(SMALL),
            bitmap,
            buffer: [0xee; 512],
        })
    }

    // The next job, and what its end answers.
    fn end(&mut self, ok: bool) -> Option<(OwnJob, bool)> {
        let job = self.settle.next()?;
        let goes_on = self.settle.ended(ok, &mut self.bitmap, &mut self.buffer);
        Some((job, goes_on))
    }

    // Four jobs and what their ends answer, where this one of the first three fails, if one does.
    fn jobs(&mut self, failing: Option<usize>) -> [Option<(OwnJob, bool)>; 4] {
        [
            self.end(failing != Some(0)),
            self.end(failing != Some(1)),
            self.end(failing != Some(2)),
            self.end(true),
        ]
    }

    // Whether block 0 is stored, and block 1.
    fn stored(&self) -> [bool; 2] {
        [self.bitmap.is_stored(0), self.bitmap.is_stored(1)]
    }
}

#[test]
fn jobs_of_a_settling(rt: HostRuntime) -> Result<(), Fail> {
    let (old, bits) = ([0xee; 512], beginning_with(&[0x01]));
    // The job that fails, if one does; the jobs with what their ends answer, the buffer at last, and whether block 0 is
    // stored then. Block 1, which was filled after the set was frozen, isn't.
    let cases = [
        (
            None,
            [
                Some((Flush, true)),
                Some((Write(78, 1), true)),
                Some((Flush, true)),
                None,
            ],
            bits,
            true,
        ),
        (
            Some(0),
            [Some((Flush, false)), None, None, None],
            old,
            false,
        ),
        (
            Some(1),
            [Some((Flush, true)), Some((Write(78, 1), false)), None, None],
            bits,
            false,
        ),
        (
            Some(2),
            [
                Some((Flush, true)),
                Some((Write(78, 1), true)),
                Some((Flush, false)),
                None,
            ],
            bits,
            false,
        ),
    ];
    for (failing, jobs, buffer, stored) in cases {
        let mut settling = Settling::new(rt.alloc())?;
        let found = settling.jobs(failing);
        assert_eq!(rt; found, jobs, "{failing:?}");
        let left = (settling.buffer, settling.stored());
        assert!(rt; left == (buffer, [stored, false]), "{failing:?}");
    }
    Ok(())
}
