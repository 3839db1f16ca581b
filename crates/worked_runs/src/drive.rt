//! Runs over every kind of event of the drive: writes, walks, destages and power cuts.

use crate::hosts::{DISK, check_done, joined};
use bm_host::NoMemory;
use std::alloc::Global;
use std::test::Fail;

// READ DMA of two sectors by a table that has room for one: the walk ends, and the command waits until a reset ends it.
// By hand: the table at 100h names 512 bytes at 1000h and is at its end there, so active is 0 after the first step, and
// the second one has no effect. Error is 01h after a reset.
#[test]
fn a_short_table_ends_the_walk(rt: HostRuntime) -> Result<(), Fail> {
    let schedule = b"d ok\ng mw 00000100 0010000000020080\ng w32 00000100\n\
        g w8 sc 02\ng w8 dv e0\ng w8 ll 00\ng w8 st c8\ng w8 bc 09\nd ok\nd ok\n\
        g r8 bs\ng r8 st\ng mr 00001000 4\ng w8 al 04\ng w8 al 00\nd ok\ng r8 st\ng r8 er\nend\n";
    let report = b"1 p go 1\n7 c c8 0 2\n9 p go 1\n11 o 00\n12 o 80\n13 o eeeeeeee\n\
        16 p go 1\n17 o 50\n18 o 01\nend 19\n";
    check_done(&rt, rt.alloc(), schedule, report, &DISK)
}

// WRITE SECTOR(S) of sector 3, all bytes AAh, and `behind` before the power is cut.
fn write_and_cut(alloc: Global, behind: &[u8]) -> Result<Vec<u8>, NoMemory> {
    let start =
        b"d ok\ng w8 sc 01\ng w8 ll 03\ng w8 lm 00\ng w8 lh 00\ng w8 dv e0\ng w8 st 30\nd ok\ng wd ";
    let mut schedule = joined(alloc, [start, &[b'a'; 1024], b"\nd ok\n"])?;
    schedule.extend_from_slice(behind)?;
    schedule.extend_from_slice(b"cut\nend\n")?;
    Ok(schedule)
}

// What stands between the write and the cut, whether the cut leaves the write, and the last lines of the report. By
// hand: the write is entry 0 of the cache; only a flush or its own destage makes it durable. A destage gives no line.
#[test]
fn a_cut_leaves_what_is_durable(rt: HostRuntime) -> Result<(), Fail> {
    let cases: [(&[u8], bool, &[u8]); 4] = [
        (b"", false, b"end 12\n"),
        (b"d put 0\n", true, b"end 13\n"),
        (b"d put 1\n", false, b"end 13\n"),
        (
            b"g w8 st e7\nd ok\n",
            true,
            b"11 c e7 0 0\n12 p go 1\nend 14\n",
        ),
    ];
    for (behind, stays, last) in cases {
        let schedule = write_and_cut(rt.alloc(), behind)?;
        let start = b"1 p go 1\n7 c 30 3 1\n8 p go 1\n10 p go 1\n";
        let report = joined(rt.alloc(), [start, last, b""])?;
        let mut out = DISK;
        if stays {
            out[3 * 512..4 * 512].copy_from_slice(&[0xaa; 512]);
        }
        check_done(
            &rt,
            rt.alloc(),
            schedule.as_slice(),
            report.as_slice(),
            &out,
        )?;
    }
    Ok(())
}

// The guest's memory has 1,048,576 bytes, so its last address is FFFFFh; outside of it a byte reads FFh. A cut makes it
// zeros. The pointer is written without its two low bits, and a cut makes it zero too.
#[test]
fn memory_and_pointer_of_the_guest(rt: HostRuntime) -> Result<(), Fail> {
    let schedule = b"g mw 000fffff abcd\ng mr 000ffffe 3\ng mr ffffffff 2\ng w32 12345677\ng r32\n\
        g r8 bc\ncut\ng mr 000fffff 1\ng r32\nend\n";
    let report = b"2 o 00abff\n3 o ffff\n5 o 12345674\n6 o 00\n8 o 00\n9 o 00000000\nend 10\n";
    check_done(&rt, rt.alloc(), schedule, report, &DISK)
}

// A failing step has no effect in Reset and Idle. It ends READ SECTOR(S) of sectors 8 and 9 at its first sector: Error
// is UNC, and LBA Low shows sector 8. The command before it was ended by a reset.
#[test]
fn a_failing_step_is_told(rt: HostRuntime) -> Result<(), Fail> {
    let schedule = b"d bad\nd ok\ng w8 sc 02\ng w8 ll 07\ng w8 dv e0\ng w8 st 20\nd ok\ng rd 1\n\
        g w8 al 04\ng w8 al 00\nd ok\ng w8 sc 02\ng w8 ll 08\ng w8 dv e0\ng w8 st 20\nd bad\n\
        g r8 st\ng r8 er\ng r8 ll\nd bad\nend\n";
    let report = b"2 p go 1\n6 c 20 7 2\n7 p go 1\n8 o eeee\n11 p go 1\n15 c 20 8 2\n16 p bad\n\
        17 o 51\n18 o 40\n19 o 08\nend 21\n";
    check_done(&rt, rt.alloc(), schedule, report, &DISK)
}
