//! One run whose calls to the host fail, by their number.

use crate::done::{READ, report_of_read};
use crate::hosts::{Ending, OLD_REPORT, run_schedule};
use bm_host::Role;
use bmcast::Status;
use std::alloc::Global;
use std::process::Abort;
use std::test::Fail;

const IMAGE: Ending = (
    Status::ReadFault(Role::Image),
    b"bmcast: cannot read Image\n",
);

const DISK: Ending = (Status::ReadFault(Role::Disk), b"bmcast: cannot read Disk\n");

const SCHEDULE: Ending = (
    Status::ReadFault(Role::Schedule),
    b"bmcast: cannot read Schedule\n",
);

const REPORT: Ending = (
    Status::WriteFault(Role::Report),
    b"bmcast: cannot write Report\n",
);

const OUT: Ending = (Status::WriteFault(Role::Out), b"bmcast: cannot write Out\n");

const DONE: Ending = (Status::Done, b"");

/// The calls that fail, how the run ends, and the report.
type Case<'a> = (&'a [u32], Ending, &'a [u8]);

fn check(rt: &impl Abort, alloc: Global, schedule: &[u8], cases: &[Case<'_>]) -> Result<(), Fail> {
    for &(failing, (wanted, console), report) in cases {
        let (status, host) = run_schedule(alloc, schedule, failing)?;
        assert_eq!(rt; status, wanted, "at {failing:?}");
        assert_eq!(rt; host.contents(Role::Report), report, "at {failing:?}");
        assert_eq!(rt; host.contents(Role::Console), console, "at {failing:?}");
    }
    Ok(())
}

// The calls before the first event, counted by hand. 0 to 3: begin and length of Image, then of Disk. 4 to 6: begin of
// Schedule, Report and Out. 7 to 22: the disk's 16 sectors.
const BEFORE: [Case<'static>; 9] = [
    (&[0], IMAGE, OLD_REPORT),
    (&[1], IMAGE, OLD_REPORT),
    (&[2], DISK, OLD_REPORT),
    (&[3], DISK, OLD_REPORT),
    (&[4], SCHEDULE, OLD_REPORT),
    (&[5], REPORT, OLD_REPORT),
    (&[6], OUT, b""),
    (&[7], DISK, b""),
    (&[22], DISK, b""),
];

#[test]
fn each_call_before_the_events_fails(rt: HostRuntime) -> Result<(), Fail> {
    check(&rt, rt.alloc(), b"end\n", &BEFORE)?;
    check(&rt, rt.alloc(), READ, &BEFORE)
}

// The further calls of a run that only ends, counted by hand. 23: the schedule's one block. 24: the schedule's end.
// 25: the report's line. 26: out. A run that is done makes no call 27.
#[test]
fn each_call_of_an_empty_schedule_fails(rt: HostRuntime) -> Result<(), Fail> {
    let cases: [Case<'_>; 5] = [
        (&[23], SCHEDULE, b""),
        (&[24], SCHEDULE, b""),
        (&[25], REPORT, b""),
        (&[26], OUT, b"end 1\n"),
        (&[27], DONE, b"end 1\n"),
    ];
    check(&rt, rt.alloc(), b"end\n", &cases)
}

// The further calls of a run that reads one sector, counted by hand. 23: the schedule's one block, before which no line
// waits. 24: the lines that wait, before the next block is asked for. 25: the schedule's end. 26: the last line.
// 27: out. The line on Console is the call after the one that failed; a run that is done makes no call 28.
#[test]
fn each_call_of_a_read_fails(rt: HostRuntime) -> Result<(), Fail> {
    let events = report_of_read(rt.alloc())?;
    let mut whole = report_of_read(rt.alloc())?;
    whole.extend_from_slice(b"end 16\n")?;
    let (events, whole) = (events.as_slice(), whole.as_slice());

    let cases: [Case<'_>; 8] = [
        (&[23], SCHEDULE, b""),
        (&[23, 24], (SCHEDULE.0, b""), b""),
        (&[24], REPORT, b""),
        (&[25], SCHEDULE, events),
        (&[26], REPORT, events),
        (&[27], OUT, whole),
        (&[27, 28], (OUT.0, b""), whole),
        (&[28], DONE, whole),
    ];
    check(&rt, rt.alloc(), READ, &cases)
}
