//! Runs over real files, each in a folder of the test's own.

use crate::hosts::owned;
use bm_host::{FileHost, NoMemory, Role};
use bmcast::{Status, Why, bmcast};
use std::alloc::Global;
use std::fs::{self, OpenFile};
use std::test::Fail;

const SCHEDULE: &[u8] = b"end\n";

const DISK: &[u8] = &[0xee; 512];

const OLD: &[u8] = b"old";

const LINE: &[u8] = b"end 1\n";

const NO_IMAGE: Status = Status::ReadFault(Role::Image);

const ODD_IMAGE: Status = Status::Unsuitable(Why::ImageLength);

const NO_DISK: Status = Status::ReadFault(Role::Disk);

const ODD_DISK: Status = Status::Unsuitable(Why::DiskLength);

const LARGE_DISK: Status = Status::Unsuitable(Why::TooLarge);

const NO_SCHEDULE: Status = Status::ReadFault(Role::Schedule);

const NO_REPORT: Status = Status::WriteFault(Role::Report);

const NO_OUT: Status = Status::WriteFault(Role::Out);

const FILES: [&str; 8] = [
    "run_files/image",
    "run_files/odd",
    "run_files/disk",
    "run_files/large",
    "run_files/link",
    "run_files/schedule",
    "run_files/report",
    "run_files/out",
];

// One option's value, in place of a good one; how the run ends, and what the files of report and out hold then. Files
// are opened one after the other: image, disk, schedule, report, out. `link` is a second name of the disk's file, and
// `odd` has 5 bytes; `large` has 262,145 sectors, one more than a disk may have.
const CASES: [(&str, &str, Status, &[u8], &[u8]); 18] = [
    ("--pool", "8", Status::Done, LINE, DISK),
    ("--pool", "3", Status::Usage, OLD, OLD),
    ("--image", "run_files/missing", NO_IMAGE, OLD, OLD),
    ("--image", "run_files/missing/image", NO_IMAGE, OLD, OLD),
    ("--image", "run_files", NO_IMAGE, OLD, OLD),
    ("--image", "run_files/odd", ODD_IMAGE, OLD, OLD),
    ("--disk", "run_files/missing", NO_DISK, OLD, OLD),
    ("--disk", "run_files", NO_DISK, OLD, OLD),
    ("--disk", "run_files/odd", ODD_DISK, OLD, OLD),
    ("--disk", "run_files/large", LARGE_DISK, OLD, OLD),
    ("--schedule", "run_files/missing", NO_SCHEDULE, OLD, OLD),
    ("--schedule", "run_files", NO_SCHEDULE, OLD, OLD),
    ("--report", "run_files/missing/report", NO_REPORT, OLD, OLD),
    ("--report", "run_files", NO_REPORT, OLD, OLD),
    ("--report", "run_files/link", NO_REPORT, OLD, OLD),
    ("--out", "run_files/missing/out", NO_OUT, b"", OLD),
    ("--out", "run_files", NO_OUT, b"", OLD),
    ("--out", "run_files/link", NO_OUT, b"", OLD),
];

// The words of a run in which one option has this value.
fn words_with(alloc: Global, option: &str, value: &str) -> Result<Vec<String>, NoMemory> {
    let mut words = [
        "run",
        "--image",
        "run_files/image",
        "--disk",
        "run_files/disk",
        "--schedule",
        "run_files/schedule",
        "--report",
        "run_files/report",
        "--out",
        "run_files/out",
        "--mode",
        "fresh",
        "--id",
        "7",
        "--pool",
        "8",
    ];
    for i in 1..words.len() {
        if words[i - 1] == option {
            words[i] = value;
        }
    }
    owned(alloc, &words, &[])
}

#[test]
fn a_file_of_each_role_fails(rt: HostRuntime) -> Result<(), Fail> {
    fs::create_dir(&rt, "run_files")?;
    fs::write(&rt, "run_files/image", b"")?;
    fs::write(&rt, "run_files/odd", b"12345")?;
    fs::write(&rt, "run_files/disk", DISK)?;
    fs::create(&rt, "run_files/large")?.set_len(512 * 262_145)?;
    fs::hard_link(&rt, "run_files/disk", "run_files/link")?;
    fs::write(&rt, "run_files/schedule", SCHEDULE)?;
    for (option, value, wanted, report, out) in CASES {
        fs::write(&rt, "run_files/report", OLD)?;
        fs::write(&rt, "run_files/out", OLD)?;
        let words = words_with(rt.alloc(), option, value)?;
        let status = bmcast(rt.alloc(), words.as_slice(), &mut FileHost::new(&rt));
        assert_eq!(rt; status, wanted, "at {option} {value}");
        assert_eq!(rt;
            fs::read(&rt, "run_files/report")?.as_slice(),
            report,
            "at {option} {value}"
        );
        assert_eq!(rt;
            fs::read(&rt, "run_files/out")?.as_slice(),
            out,
            "at {option} {value}"
        );
        assert_eq!(rt;
            fs::read(&rt, "run_files/disk")?.as_slice(),
            DISK,
            "at {option} {value}"
        );
    }
    for name in FILES {
        fs::remove_file(&rt, name)?;
    }
    fs::remove_dir(&rt, "run_files")?;
    Ok(())
}
