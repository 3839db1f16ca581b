//! Runs that are refused: by their words, by the lengths of image and disk, by the header on the disk, and by a line of
//! the schedule.

use crate::hosts::{Ending, Files, OLD_REPORT, WORDS, joined, run, run_schedule, run_words};
use bm_host::Role;
use bmcast::{Status, Why};
use schedule_text::LineFault::{self, Form, LongLine, NoEnd, Number, Trailing};
use std::alloc::Global;
use std::process::Abort;
use std::test::Fail;

const USAGE: &[u8] = b"bmcast: the words are not a command line of this program\n";

// No command line has these words, and the report stays as it was.
fn check_usage(rt: &impl Abort, alloc: Global, words: &[&str], more: &[&str]) -> Result<(), Fail> {
    let (status, host) = run_words(alloc, words, more)?;
    assert_eq!(rt; status, Status::Usage, "at {words:?} {more:?}");
    assert_eq!(rt;
        host.contents(Role::Console),
        USAGE,
        "at {words:?} {more:?}"
    );
    assert_eq!(rt;
        host.contents(Role::Report),
        OLD_REPORT,
        "at {words:?} {more:?}"
    );
    Ok(())
}

// The first words of a run alone. By hand from the rule of the command line, as the words below.
#[test]
fn words_missing(rt: HostRuntime) -> Result<(), Fail> {
    for count in [0, 1, 13, 14, 18] {
        assert!(rt; count < WORDS.len());
        check_usage(&rt, rt.alloc(), &WORDS[..count], &[])?;
    }
    Ok(())
}

// The words of a run, and two more.
#[test]
fn words_twice_or_unknown(rt: HostRuntime) -> Result<(), Fail> {
    let cases = [
        ("--image", "other"),
        ("--id", "7"),
        ("--pools", "8"),
        ("--limit", "08"),
        ("--limit", "-8"),
        ("--help", "run"),
    ];
    for (name, value) in cases {
        check_usage(&rt, rt.alloc(), &WORDS, &[name, value])?;
    }
    Ok(())
}

const IMAGE_LENGTH: Ending = (
    Status::Unsuitable(Why::ImageLength),
    b"bmcast: unsuitable: ImageLength\n",
);

const DISK_LENGTH: Ending = (
    Status::Unsuitable(Why::DiskLength),
    b"bmcast: unsuitable: DiskLength\n",
);

const TOO_SMALL: Ending = (
    Status::Unsuitable(Why::TooSmall),
    b"bmcast: unsuitable: TooSmall\n",
);

const ALREADY_BEGUN: Ending = (
    Status::Unsuitable(Why::AlreadyBegun),
    b"bmcast: unsuitable: AlreadyBegun\n",
);

const NOT_BEGUN: Ending = (
    Status::Unsuitable(Why::NotBegun),
    b"bmcast: unsuitable: NotBegun\n",
);

const DONE: Ending = (Status::Done, b"");

// Bytes of the image and of the disk. A block is 8 sectors, so an image of one block wants a disk of 11: 8 for the
// image, one for the bitmap, and two more.
#[test]
fn lengths_of_image_and_disk(rt: HostRuntime) -> Result<(), Fail> {
    let cases: [(usize, usize, Ending); 9] = [
        (5, 8192, IMAGE_LENGTH),
        (5, 513, IMAGE_LENGTH),
        (512, 8192, IMAGE_LENGTH),
        (0, 513, DISK_LENGTH),
        (4096, 513, DISK_LENGTH),
        (0, 0, TOO_SMALL),
        (4096, 5120, TOO_SMALL),
        (4096, 5632, DONE),
        (0, 512, DONE),
    ];
    for (image, disk, (wanted, console)) in cases {
        let image = vec![in rt.alloc(); 0; image]?;
        let disk = vec![in rt.alloc(); 0; disk]?;
        let files = Files {
            image: image.as_slice(),
            disk: disk.as_slice(),
            schedule: b"end\n",
            failing: &[],
        };
        let (status, host) = run(rt.alloc(), &WORDS, &[], &files)?;
        assert_eq!(rt; status, wanted, "at {console:?}");
        assert_eq!(rt; host.contents(Role::Console), console);
    }
    Ok(())
}

// How a run of this mode ends over an image of one block and a disk of 11 sectors, whose first reserved sector, 8, begins
// with these bytes. A refusal leaves the report as it was.
fn check_header(
    rt: &impl Abort,
    alloc: Global,
    mode: &'static str,
    header: &[u8],
    (wanted, console): Ending,
) -> Result<(), Fail> {
    let mut words = WORDS;
    words[12] = mode;
    let image = vec![in alloc; 0; 4096]?;
    let mut disk = vec![in alloc; 0; 4096]?;
    disk.extend_from_slice(header)?;
    disk.resize(5632, 0)?;
    let files = Files {
        image: image.as_slice(),
        disk: disk.as_slice(),
        schedule: b"end\n",
        failing: &[],
    };
    let (status, host) = run(alloc, &words, &[], &files)?;
    let report = if let Status::Done = wanted {
        b"end 1\n".as_slice()
    } else {
        OLD_REPORT
    };
    assert_eq!(rt; status, wanted, "at {mode} {header:?}");
    assert_eq!(rt;
        host.contents(Role::Console),
        console,
        "at {mode} {header:?}"
    );
    assert_eq!(rt; host.contents(Role::Report), report, "at {mode} {header:?}");
    Ok(())
}

// The header of the run 7 over an image of 8 sectors in blocks of 8, and that of the run 8, by hand from
// `docs/formats.md`.
const HEADER: &[u8] = b"BMCFILL1\0\0\0\0\0\0\0\x07\0\0\0\0\0\0\0\x08\0\0\0\x08";

const OTHER_HEADER: &[u8] = b"BMCFILL1\0\0\0\0\0\0\0\x08\0\0\0\0\0\0\0\x08\0\0\0\x08";

#[test]
fn headers_that_a_mode_refuses(rt: HostRuntime) -> Result<(), Fail> {
    check_header(&rt, rt.alloc(), "fresh", HEADER, ALREADY_BEGUN)?;
    check_header(&rt, rt.alloc(), "resume", b"", NOT_BEGUN)?;
    check_header(&rt, rt.alloc(), "resume", OTHER_HEADER, NOT_BEGUN)
}

#[test]
fn headers_that_a_mode_takes(rt: HostRuntime) -> Result<(), Fail> {
    check_header(&rt, rt.alloc(), "fresh", b"", DONE)?;
    check_header(&rt, rt.alloc(), "fresh", OTHER_HEADER, DONE)?;
    check_header(&rt, rt.alloc(), "resume", HEADER, DONE)
}

// For now a run with an image knows no power cut and no write that sets SRST.
#[test]
fn lines_that_a_run_with_an_image_refuses(rt: HostRuntime) -> Result<(), Fail> {
    let image = vec![in rt.alloc(); 0; 4096]?;
    let disk = vec![in rt.alloc(); 0; 5632]?;
    let cases: [(&[u8], u32); 3] = [
        (b"cut\nend\n", 1),
        (b"g w8 al 04\nend\n", 1),
        (b"# note\ng w8 al 00\ng w8 al 06\n", 3),
    ];
    for (schedule, number) in cases {
        let files = Files {
            image: image.as_slice(),
            disk: disk.as_slice(),
            schedule,
            failing: &[],
        };
        let (status, host) = run(rt.alloc(), &WORDS, &[], &files)?;
        assert_eq!(rt; status, Status::BadLine(number, Form), "at {schedule:?}");
        assert_eq!(rt;
            host.contents(Role::Report),
            b"".as_slice(),
            "at {schedule:?}"
        );
    }
    Ok(())
}

// A schedule, the line that is refused and why, the report, and how the line on Console goes on. The report has the
// lines of the events before, and no last line.
const LINES: [(&[u8], u32, LineFault, &[u8], &[u8]); 16] = [
    (b"", 1, NoEnd, b"", b"1: NoEnd"),
    (b"d ok\n", 2, NoEnd, b"1 p go 1\n", b"2: NoEnd"),
    (b"d ok", 2, NoEnd, b"1 p go 1\n", b"2: NoEnd"),
    (b"g rd 257\nend\n", 1, Number, b"", b"1: Number"),
    (b"g r8 xx\nend\n", 1, Form, b"", b"1: Form"),
    (b"# note\nd ok\n\ntt\n", 4, Form, b"2 p go 1\n", b"4: Form"),
    (b"end\nt\n", 2, Trailing, b"", b"2: Trailing"),
    (b"end\nt", 2, Trailing, b"", b"2: Trailing"),
    (b"d ok\nend\n\n", 3, Trailing, b"1 p go 1\n", b"3: Trailing"),
    (&[b'#'; 4097], 1, LongLine, b"", b"1: LongLine"),
    (b"g wd aabbcc\nend\n", 1, Form, b"", b"1: Form"),
    (b"g w32 0000100\nend\n", 1, Form, b"", b"1: Form"),
    (b"g mr 00000000 2001\nend\n", 1, Number, b"", b"1: Number"),
    (b"d put 64\nend\n", 1, Number, b"", b"1: Number"),
    (b"n c 64\nend\n", 1, Number, b"", b"1: Number"),
    (b"n s 0 kept\nend\n", 1, Form, b"", b"1: Form"),
];

#[test]
fn lines_that_end_a_run(rt: HostRuntime) -> Result<(), Fail> {
    for (schedule, number, fault, report, said) in LINES {
        let (status, host) = run_schedule(rt.alloc(), schedule, &[])?;
        let console = joined(rt.alloc(), [b"bmcast: line ", said, b"\n"])?;
        assert_eq!(rt; status, Status::BadLine(number, fault));
        assert_eq!(rt; host.contents(Role::Report), report, "at {console:?}");
        assert_eq!(rt; host.contents(Role::Console), console.as_slice());
    }
    Ok(())
}
