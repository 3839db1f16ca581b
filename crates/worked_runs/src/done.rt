//! Runs that are done: the report, and out.

use crate::hosts::{DISK, check_done, joined, run_quietly, run_words};
use bm_host::{NoMemory, Role};
use bmcast::Status;
use schedule_text::LineFault;
use std::alloc::Global;
use std::test::Fail;

// By hand: the last line of a report has the number of the line `end`. A remark, an empty line, a step without an
// effect and, while there is no monitor, a turn, a tick and each event of the network count as lines and give none; the
// first step ends the reset, and a second one has nothing to do.
#[test]
fn short_schedules_and_their_reports(rt: HostRuntime) -> Result<(), Fail> {
    let mut longest = [b'#'; 4101];
    longest[4096..].copy_from_slice(b"\nend\n");
    let network = b"t\nk\nn s 0\nn c 63 keep\nn ls 0\nn lc 1\nn x ff\nn y 00\nend\n";
    let cases: [(&[u8], &[u8]); 7] = [
        (b"end\n", b"end 1\n"),
        (b"end", b"end 1\n"),
        (b"# note\n\nend\n", b"end 3\n"),
        (b"d ok\nd ok\nend\n", b"1 p go 1\nend 3\n"),
        (b"g r8 st\ng line\nend\n", b"1 o 80\n2 o 00\nend 3\n"),
        (&longest, b"end 2\n"),
        (network, b"end 9\n"),
    ];
    for (schedule, report) in cases {
        check_done(&rt, rt.alloc(), schedule, report, &DISK)?;
    }
    Ok(())
}

// A host that never fails keeps nothing of a report, so the status says all.
#[test]
fn runs_over_a_quiet_host(rt: HostRuntime) -> Result<(), Fail> {
    let bad = Status::BadLine(2, LineFault::NoEnd);
    let cases: [(&[u8], Status); 3] = [
        (b"end\n", Status::Done),
        (READ, Status::Done),
        (b"d ok\n", bad),
    ];
    for (schedule, wanted) in cases {
        let status = run_quietly(rt.alloc(), schedule)?;
        assert_eq!(rt; status, wanted, "at {schedule:?}");
    }
    Ok(())
}

// The words of a run, each option as one word. A file's name may have a `=` of its own.
#[test]
fn options_as_one_word_each(rt: HostRuntime) -> Result<(), Fail> {
    let words = [
        "run",
        "--id=7",
        "--out=o=1",
        "--report=report",
        "--mode=resume",
        "--image=image",
        "--schedule=schedule",
        "--disk=disk",
    ];
    let (status, host) = run_words(rt.alloc(), &words, &[])?;
    assert_eq!(rt; status, Status::Done);
    assert_eq!(rt; host.contents(Role::Report), b"end 1\n".as_slice());
    assert_eq!(rt; host.contents(Role::Out), DISK.as_slice());
    Ok(())
}

/// READ SECTOR(S) of sector 3 by PIO, and its interrupt acknowledged by a look at Status.
pub const READ: &[u8] = b"d ok\n\
    g w8 sc 01\ng w8 ll 03\ng w8 lm 00\ng w8 lh 00\ng w8 dv e0\ng w8 st 20\n\
    g r8 al\nd ok\ng line\ng r8 st\ng line\ng rd 2\ng rd 254\ng r8 al\nend\n";

/// The report's lines of these events without the last one, by hand from the rules of the drive: it is busy from the
/// write of the command on, has the block after one step, raises the line until Status is read, and is ready after
/// the last word. The disk's bytes are all EEh.
pub fn report_of_read(alloc: Global) -> Result<Vec<u8>, NoMemory> {
    let start =
        b"1 p go 1\n7 c 20 3 1\n8 o 80\n9 p go 1\n10 o 01\n11 o 58\n12 o 00\n13 o eeeeeeee\n14 o ";
    joined(alloc, [start, &[b'e'; 1016], b"\n15 o 50\n"])
}

#[test]
fn one_sector_is_read_by_pio(rt: HostRuntime) -> Result<(), Fail> {
    let mut report = report_of_read(rt.alloc())?;
    report.extend_from_slice(b"end 16\n")?;
    check_done(&rt, rt.alloc(), READ, report.as_slice(), &DISK)
}
