use super::QuietHost;
use crate::calls::Call::{Begin, Length, ReadAt, ReadNext, WriteNext};
use crate::calls::{Call, first_wrong, small_files};
use crate::{Host, Role};
use std::test::Fail;

// Image has no file, and Report isn't told.
const TOLD: [Call; 10] = [
    Begin(Role::Image, "any name", Ok(())),
    Length(Role::Image, Ok(0)),
    Begin(Role::Disk, "any name", Ok(())),
    Length(Role::Disk, Ok(10)),
    ReadAt(Role::Disk, 6, b"6789"),
    Begin(Role::Schedule, "any name", Ok(())),
    Length(Role::Schedule, Ok(6)),
    ReadAt(Role::Schedule, 2, b"a\ne\n"),
    Begin(Role::Report, "any name", Ok(())),
    Length(Role::Report, Ok(0)),
];

// A written role has no bytes any more.
const WRITTEN: [Call; 8] = [
    WriteNext(Role::Image, b"ab", Ok(())),
    Length(Role::Image, Ok(0)),
    WriteNext(Role::Disk, b"ab", Ok(())),
    Length(Role::Disk, Ok(0)),
    WriteNext(Role::Schedule, b"ab", Ok(())),
    Length(Role::Schedule, Ok(0)),
    WriteNext(Role::Report, b"ab", Ok(())),
    Length(Role::Report, Ok(0)),
];

#[test]
fn what_is_told(rt: HostRuntime) -> Result<(), Fail> {
    let mut host = QuietHost::new(small_files(rt.alloc())?);
    assert_eq!(rt; first_wrong(&mut host, &TOLD), None);
    assert_eq!(rt; first_wrong(&mut host, &WRITTEN), None);
    Ok(())
}

// Reads in order, and again from the start after a `begin`.
const IN_ORDER: [Call; 5] = [
    ReadNext(Role::Schedule, Ok(4), b"g a\n"),
    ReadNext(Role::Schedule, Ok(2), b"e\n.."),
    ReadNext(Role::Schedule, Ok(0), b"...."),
    Begin(Role::Schedule, "", Ok(())),
    ReadNext(Role::Schedule, Ok(4), b"g a\n"),
];

#[test]
fn reads_in_order(rt: HostRuntime) -> Result<(), Fail> {
    let mut host = QuietHost::new(small_files(rt.alloc())?);
    assert_eq!(rt; first_wrong(&mut host, &IN_ORDER), None);
    Ok(())
}

// What is written is let go, and reads of the role give zeros.
#[test]
fn zeros_of_a_written_role(rt: HostRuntime) -> Result<(), Fail> {
    let mut host = QuietHost::new(small_files(rt.alloc())?);
    let mut into = [b'.'; 4];
    assert_eq!(rt; host.write_at(Role::Disk, 6, b"ab"), Ok(()));
    assert_eq!(rt; host.read_at(Role::Disk, 6, &mut into), Ok(()));
    assert_eq!(rt; into, [0; 4]);
    Ok(())
}
