use super::{FileHost, ROLES};
use crate::calls::Call::{Begin, Length, ReadAt, ReadNext, WriteAt, WriteNext};
use crate::calls::{Call, first_wrong};
use crate::{Failed, Host, Role};
use std::fs;
use std::test::Fail;

// Reads in order go on where the last one stopped, whatever is read at a place between them. The file is opened for
// reading alone.
const READS: [Call; 10] = [
    Begin(Role::Disk, "host_reads/disk", Ok(())),
    Length(Role::Disk, Ok(10)),
    ReadNext(Role::Disk, Ok(4), b"0123"),
    ReadAt(Role::Disk, 6, b"6789"),
    ReadNext(Role::Disk, Ok(4), b"4567"),
    ReadNext(Role::Disk, Ok(2), b"89.."),
    ReadNext(Role::Disk, Ok(0), b"...."),
    Begin(Role::Disk, "host_reads/disk", Ok(())),
    ReadNext(Role::Disk, Ok(4), b"0123"),
    WriteAt(Role::Disk, 0, b"x", Err(Failed)),
];

#[test]
fn reads_of_a_file(rt: HostRuntime) -> Result<(), Fail> {
    fs::create_dir(&rt, "host_reads")?;
    fs::write(&rt, "host_reads/disk", b"0123456789")?;
    assert_eq!(rt; first_wrong(&mut FileHost::new(&rt), &READS), None);
    fs::remove_file(&rt, "host_reads/disk")?;
    fs::remove_dir(&rt, "host_reads")?;
    Ok(())
}

// A place and a number of bytes to be read of a file of 10: the read fails where they end past the file's end.
const ENDS: [(u64, usize, Result<(), Failed>); 8] = [
    (0, 4, Ok(())),
    (6, 4, Ok(())),
    (10, 0, Ok(())),
    (7, 4, Err(Failed)),
    (9, 2, Err(Failed)),
    (10, 1, Err(Failed)),
    (11, 0, Err(Failed)),
    (u64::MAX, 4, Err(Failed)),
];

// After each read, reads in order still start at the file's start.
#[test]
fn reads_past_the_end(rt: HostRuntime) -> Result<(), Fail> {
    let begin = Begin(Role::Image, "host_ends/image", Ok(()));
    let next = ReadNext(Role::Image, Ok(4), b"0123");
    fs::create_dir(&rt, "host_ends")?;
    fs::write(&rt, "host_ends/image", b"0123456789")?;
    for (i, &(place, count, answer)) in ENDS.iter().enumerate() {
        let mut host = FileHost::new(&rt);
        let mut into = [0; 4];
        assert!(rt; count <= into.len() && begin.goes(&mut host), "row {i}");
        let ended = host.read_at(Role::Image, place, &mut into[..count]);
        assert!(rt; ended == answer && next.goes(&mut host), "row {i}");
    }
    fs::remove_file(&rt, "host_ends/image")?;
    fs::remove_dir(&rt, "host_ends")?;
    Ok(())
}

// Out is emptied first; zeros come between its end and a place; Report is made where it is missing.
const WRITES: [Call; 9] = [
    Begin(Role::Out, "host_writes/out", Ok(())),
    WriteAt(Role::Out, 2, b"ab", Ok(())),
    WriteNext(Role::Out, b"cd", Ok(())),
    WriteAt(Role::Out, 3, b"B", Ok(())),
    WriteNext(Role::Out, b"e", Ok(())),
    WriteAt(Role::Out, 9, b"", Ok(())),
    ReadAt(Role::Out, 0, b"\0\0aBcde\0\0"),
    Begin(Role::Report, "host_writes/report", Ok(())),
    WriteNext(Role::Report, b"line\n", Ok(())),
];

#[test]
fn writes_of_files(rt: HostRuntime) -> Result<(), Fail> {
    fs::create_dir(&rt, "host_writes")?;
    fs::write(&rt, "host_writes/out", b"what was here before")?;
    assert_eq!(rt; first_wrong(&mut FileHost::new(&rt), &WRITES), None);
    assert_eq!(rt; fs::metadata(&rt, "host_writes/report")?.len(), 5);
    fs::remove_file(&rt, "host_writes/out")?;
    fs::remove_file(&rt, "host_writes/report")?;
    fs::remove_dir(&rt, "host_writes")?;
    Ok(())
}

// Whether a role that wasn't begun can't be read or written, but for Console, to which is only appended.
fn waits_for_begin<H: Host>(host: &mut H, role: Role) -> bool {
    let appended = match role {
        Role::Console => Ok(()),
        _ => Err(Failed),
    };
    Length(role, Err(Failed)).goes(host)
        && ReadNext(role, Err(Failed), b"....").goes(host)
        && WriteAt(role, 0, b"", Err(Failed)).goes(host)
        && WriteNext(role, b"", appended).goes(host)
        && host.read_at(role, 0, &mut []) == Err(Failed)
}

#[test]
fn calls_before_begin(rt: HostRuntime) {
    let mut host = FileHost::new(&rt);
    for (i, &role) in ROLES.iter().enumerate() {
        assert!(rt; waits_for_begin(&mut host, role), "role {i}");
    }
}

// A missing file for what is read, and for every role a file in a missing folder and a folder.
const NO_FILES: [(Role, &str); 13] = [
    (Role::Image, "host_begins/missing"),
    (Role::Disk, "host_begins/missing"),
    (Role::Schedule, "host_begins/missing"),
    (Role::Image, "host_begins/missing/file"),
    (Role::Disk, "host_begins/missing/file"),
    (Role::Schedule, "host_begins/missing/file"),
    (Role::Report, "host_begins/missing/file"),
    (Role::Out, "host_begins/missing/file"),
    (Role::Image, "host_begins"),
    (Role::Disk, "host_begins"),
    (Role::Schedule, "host_begins"),
    (Role::Report, "host_begins"),
    (Role::Out, "host_begins"),
];

// Whether a begin fails, and the role is not begun then.
fn begins_nothing<H: Host>(host: &mut H, role: Role, name: &'static str) -> bool {
    Begin(role, name, Err(Failed)).goes(host) && Length(role, Err(Failed)).goes(host)
}

// Nothing is made by a begin that fails: the folder of the test is empty at the end.
#[test]
fn begins_that_fail(rt: HostRuntime) -> Result<(), Fail> {
    fs::create_dir(&rt, "host_begins")?;
    let mut host = FileHost::new(&rt);
    for (i, &(role, name)) in NO_FILES.iter().enumerate() {
        assert!(rt; begins_nothing(&mut host, role, name), "row {i}");
    }
    fs::remove_dir(&rt, "host_begins")?;
    Ok(())
}

// The role that begins the file `disk` first, the one that begins it second, and under which name.
const SECOND_NAMES: [(Role, Role, &str); 7] = [
    (Role::Disk, Role::Out, "host_names/disk"),
    (Role::Disk, Role::Out, "host_names/link"),
    (Role::Disk, Role::Out, "host_names/../host_names/disk"),
    (Role::Disk, Role::Report, "host_names/disk"),
    (Role::Disk, Role::Report, "host_names/link"),
    (Role::Image, Role::Out, "host_names/link"),
    (Role::Schedule, Role::Report, "host_names/link"),
];

// Whether a file that one role has begun is not begun by another, and keeps its 10 bytes.
fn stays_of_first<H: Host>(host: &mut H, first: Role, second: Role, name: &'static str) -> bool {
    Begin(first, "host_names/disk", Ok(())).goes(host)
        && Begin(second, name, Err(Failed)).goes(host)
        && WriteNext(second, b"x", Err(Failed)).goes(host)
        && Length(first, Ok(10)).goes(host)
}

#[test]
fn second_names_of_a_file(rt: HostRuntime) -> Result<(), Fail> {
    fs::create_dir(&rt, "host_names")?;
    fs::write(&rt, "host_names/disk", b"0123456789")?;
    fs::hard_link(&rt, "host_names/disk", "host_names/link")?;
    for (i, &(first, second, name)) in SECOND_NAMES.iter().enumerate() {
        assert!(rt;
            stays_of_first(&mut FileHost::new(&rt), first, second, name),
            "row {i}"
        );
    }
    fs::remove_file(&rt, "host_names/disk")?;
    fs::remove_file(&rt, "host_names/link")?;
    fs::remove_dir(&rt, "host_names")?;
    Ok(())
}

// Out is no second Report, and Report keeps its line; begun again by its own name, Report is empty.
const REPORT_AS_OUT: [Call; 6] = [
    Begin(Role::Report, "host_report/report", Ok(())),
    WriteNext(Role::Report, b"line\n", Ok(())),
    Begin(Role::Out, "host_report/report", Err(Failed)),
    Length(Role::Report, Ok(5)),
    Begin(Role::Report, "host_report/report", Ok(())),
    Length(Role::Report, Ok(0)),
];

#[test]
fn report_as_out(rt: HostRuntime) -> Result<(), Fail> {
    fs::create_dir(&rt, "host_report")?;
    assert_eq!(rt; first_wrong(&mut FileHost::new(&rt), &REPORT_AS_OUT), None);
    fs::remove_file(&rt, "host_report/report")?;
    fs::remove_dir(&rt, "host_report")?;
    Ok(())
}
