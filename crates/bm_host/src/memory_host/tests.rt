ghost use Rattle.std.specs.Prelude.{◌≤◌, length};
ghost use Rattle.bm_host.specs.Outside.{IfTold};

use super::MemoryHost;
use crate::calls::Call::{Begin, Length, ReadAt, ReadNext, WriteAt, WriteNext};
use crate::calls::{Call, first_wrong, small_files};
use crate::{Failed, Host, NoMemory, Role};
use std::alloc::Global;
use std::test::Fail;

fn small_host(alloc: Global, failing: &[u32], room: u64) -> Result<MemoryHost, NoMemory> {
    MemoryHost::new(alloc, small_files(alloc)?, failing.to_vec(alloc)?, room)
}

// Report is emptied, and what lies between an end and a place is zeros.
const CALLS: [Call; 16] = [
    Begin(Role::Disk, "any name", Ok(())),
    Begin(Role::Schedule, "any name", Ok(())),
    Begin(Role::Report, "any name", Ok(())),
    Length(Role::Disk, Ok(10)),
    Length(Role::Report, Ok(0)),
    Length(Role::Image, Ok(0)),
    ReadNext(Role::Schedule, Ok(4), b"g a\n"),
    ReadNext(Role::Schedule, Ok(2), b"e\n.."),
    ReadNext(Role::Schedule, Ok(0), b"...."),
    Begin(Role::Schedule, "", Ok(())),
    ReadNext(Role::Schedule, Ok(4), b"g a\n"),
    ReadAt(Role::Disk, 7, b"789"),
    WriteNext(Role::Report, b"ab", Ok(())),
    WriteNext(Role::Report, b"c", Ok(())),
    WriteAt(Role::Out, 2, b"xy", Ok(())),
    WriteAt(Role::Out, 3, b"z!", Ok(())),
];

#[test]
fn answers_of_each_call(rt: HostRuntime) -> Result<(), Fail> {
    let mut host = small_host(rt.alloc(), &[], 8)?;
    assert_eq!(rt; host.contents(Role::Report), b"old".as_slice());
    assert_eq!(rt; first_wrong(&mut host, &CALLS), None);
    assert_eq!(rt; host.contents(Role::Report), b"abc".as_slice());
    assert_eq!(rt; host.contents(Role::Out), b"\0\0xz!".as_slice());
    Ok(())
}

// Which of six calls fail, one of each kind.
fn failures<H: Host>(host: &mut H) -> [bool; 6]
    requires { IfTold ((H.outside host.old).told Role.Disk) (λ bytes. 2 ≤ length bytes) }
{
    [
        host.length(Role::Disk).is_err(),
        host.read_at(Role::Disk, 0, &mut [0; 2]).is_err(),
        host.read_next(Role::Disk, &mut [0; 2]).is_err(),
        host.write_at(Role::Out, 0, b"a").is_err(),
        host.write_next(Role::Console, b"b").is_err(),
        host.begin(Role::Image, "").is_err(),
    ]
}

// Of six calls, exactly those fail whose numbers are given; a call that fails has its number too.
const BY_NUMBER: [([u32; 2], [bool; 6]); 5] = [
    ([0, 9], [true, false, false, false, false, false]),
    ([1, 4], [false, true, false, false, true, false]),
    ([5, 2], [false, false, true, false, false, true]),
    ([3, 3], [false, false, false, true, false, false]),
    ([6, 7], [false; 6]),
];

fn fail_so(alloc: Global, failing: &[u32], fails: &[bool; 6]) -> Result<bool, NoMemory> {
    let mut host = small_host(alloc, failing, 8)?;
    Ok(host.contents(Role::Disk).len() == 10 && failures(&mut host) == *fails)
}

#[test]
fn calls_fail_by_number(rt: HostRuntime) -> Result<(), Fail> {
    for (i, (failing, fails)) in BY_NUMBER.iter().enumerate() {
        assert!(rt; fail_so(rt.alloc(), failing, fails)?, "row {i}");
    }
    Ok(())
}

// Report, Out and Console hold up to 4 bytes, and Disk its 10. What doesn't fit changes nothing.
const WRITES: [Call; 8] = [
    WriteNext(Role::Report, b"x", Ok(())),
    WriteNext(Role::Report, b"y", Err(Failed)),
    WriteAt(Role::Out, 3, b"ab", Err(Failed)),
    WriteAt(Role::Out, u64::MAX, b"ab", Err(Failed)),
    WriteAt(Role::Out, 2, b"ab", Ok(())),
    WriteAt(Role::Disk, 9, b"ab", Err(Failed)),
    WriteAt(Role::Disk, 8, b"ab", Ok(())),
    WriteNext(Role::Image, b"a", Err(Failed)),
];

#[test]
fn writes_keep_to_the_room(rt: HostRuntime) -> Result<(), Fail> {
    let mut host = small_host(rt.alloc(), &[], 4)?;
    assert_eq!(rt; first_wrong(&mut host, &WRITES), None);
    assert_eq!(rt; host.contents(Role::Report), b"oldx".as_slice());
    assert_eq!(rt; host.contents(Role::Out), b"\0\0ab".as_slice());
    assert_eq!(rt; host.contents(Role::Disk), b"01234567ab".as_slice());
    Ok(())
}
