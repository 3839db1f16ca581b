//! Frames served over an image of 8 sectors, sector i all bytes 10h + i. The bytes are by hand from the tables of
//! docs/network.md, as hexadecimal with a space between two fields.

use crate::serve;
use aoe_frame::Frame;
use bm_host::{Failed, Host, MemoryHost, Role};
use std::alloc::Global;
use std::process::Abort;
use std::test::Fail;

// The client asks for two sectors from sector 2 on.
const REQUEST: &str =
    "020000000002 020000000001 88a2 10 00 0001 01 00 00000001 40 00 02 24 020000000000 0000";

fn bytes_of(alloc: Global, text: &str) -> Result<Vec<u8>, Fail> {
    let digits = text.replace(alloc, " ", "")?;
    Ok(hex::decode(alloc, digits.as_str())?)
}

// So many sectors of the image, from the first on.
fn push_sectors(bytes: &mut Vec<u8>, first: u8, count: u8) -> Result<(), Fail> {
    for sector in 0..count {
        for _i in 0..512 {
            bytes.push(0x10u8.wrapping_add(first).wrapping_add(sector))?;
        }
    }
    Ok(())
}

// What is served to these bytes by a host whose calls fail at these numbers; measuring the image is call 0.
fn served(
    alloc: Global,
    text: &str,
    failing: &[u32],
) -> Result<Result<Option<Frame>, Failed>, Fail> {
    let mut image = Vec::new(alloc);
    push_sectors(&mut image, 0, 8)?;
    let mut files = Vec::new(alloc);
    files.push((Role::Image, image))?;
    let mut host = MemoryHost::new(alloc, files, failing.to_vec(alloc)?, 0)?;
    let frame = Frame::from_slice(&bytes_of(alloc, text)?).ok_or("long")?;
    Ok(served_whole(&mut host, &frame))
}

// The same by a host, over all sectors of its image.
fn served_whole<H: Host>(host: &mut H, frame: &Frame) -> Result<Option<Frame>, Failed> {
    let bytes = host.length(Role::Image)?;
    serve(host, bytes / 512, frame)
}

// The reply to a request has these bytes, and behind them so many sectors of the image, from the first on.
fn assert_reply(
    rt: &impl Abort,
    alloc: Global,
    request: &str,
    front: &str,
    first: u8,
    count: u8,
) -> Result<(), Fail> {
    let mut bytes = bytes_of(alloc, front)?;
    push_sectors(&mut bytes, first, count)?;
    let reply = served(alloc, request, &[])?;
    assert_eq!(rt; reply, Ok(Frame::from_slice(&bytes)), "{request}");
    Ok(())
}

// Requests for sectors: a request, its reply, and the first and the number of the sectors that come behind.
const READS: [(&str, &str, u8, u8); 4] = [
    (
        REQUEST,
        "020000000001 020000000002 88a2 18 00 0001 01 00 00000001 40 00 02 50 020000000000 0000",
        2,
        2,
    ),
    // The last sector, with bits and bytes that are not looked at.
    (
        "020000000002 020000000001 88a2 14 99 0001 01 00 00000001 52 07 01 24 070000000000 ffff aabb",
        "020000000001 020000000002 88a2 18 00 0001 01 00 00000001 52 00 01 50 070000000000 0000",
        7,
        1,
    ),
    // Every major and minor address.
    (
        "ffffffffffff 0a0b0c0d0e0f 88a2 10 00 ffff ff 00 12345678 40 00 01 24 000000000000 0000",
        "0a0b0c0d0e0f 020000000002 88a2 18 00 0001 01 00 12345678 40 00 01 50 000000000000 0000",
        0,
        1,
    ),
    // Past the end.
    (
        "020000000002 020000000001 88a2 10 00 0001 01 00 00000001 40 00 02 24 070000000000 0000",
        "020000000001 020000000002 88a2 18 00 0001 01 00 00000001 40 10 02 51 070000000000 0000",
        0,
        0,
    ),
];

#[test]
fn requests_for_sectors(rt: HostRuntime) -> Result<(), Fail> {
    for (request, front, first, count) in READS {
        assert_reply(&rt, rt.alloc(), request, front, first, count)?;
    }
    Ok(())
}

// ATA commands that are refused, each with its reply: without E, with W, of no sector, of three, another command, and
// IDENTIFY DEVICE with E.
const REFUSED: [(&str, &str); 6] = [
    (
        "020000000002 020000000001 88a2 10 00 0001 01 00 00000001 00 00 01 24 000000000000 0000",
        "020000000001 020000000002 88a2 18 00 0001 01 00 00000001 00 04 01 51 000000000000 0000",
    ),
    (
        "020000000002 020000000001 88a2 10 00 0001 01 00 00000001 41 00 01 24 000000000000 0000",
        "020000000001 020000000002 88a2 18 00 0001 01 00 00000001 41 04 01 51 000000000000 0000",
    ),
    (
        "020000000002 020000000001 88a2 10 00 0001 01 00 00000001 40 00 00 24 000000000000 0000",
        "020000000001 020000000002 88a2 18 00 0001 01 00 00000001 40 04 00 51 000000000000 0000",
    ),
    (
        "020000000002 020000000001 88a2 10 00 0001 01 00 00000001 40 00 03 24 000000000000 0000",
        "020000000001 020000000002 88a2 18 00 0001 01 00 00000001 40 04 03 51 000000000000 0000",
    ),
    (
        "020000000002 020000000001 88a2 10 00 0001 01 00 00000001 40 00 01 20 000000000000 0000",
        "020000000001 020000000002 88a2 18 00 0001 01 00 00000001 40 04 01 51 000000000000 0000",
    ),
    (
        "020000000002 020000000001 88a2 10 00 0001 01 00 00000001 40 00 00 ec 000000000000 0000",
        "020000000001 020000000002 88a2 18 00 0001 01 00 00000001 40 04 00 51 000000000000 0000",
    ),
];

// Requests of another command or version, each with its reply.
const OTHERS: [(&str, &str); 4] = [
    // Query Config: reading the string, and another way.
    (
        "020000000002 020000000001 88a2 10 00 0001 01 01 00000001 0000 0000 00 10 0000",
        "020000000001 020000000002 88a2 18 00 0001 01 01 00000001 0040 0001 02 10 0000",
    ),
    (
        "020000000002 020000000001 88a2 10 00 0001 01 01 00000001 0000 0000 00 13 0001 78",
        "020000000001 020000000002 88a2 1c 02 0001 01 01 00000001",
    ),
    // An unknown command, and another version, whatever is behind the header.
    (
        "020000000002 020000000001 88a2 10 00 0001 01 02 00000001",
        "020000000001 020000000002 88a2 1c 01 0001 01 02 00000001",
    ),
    (
        "020000000002 020000000001 88a2 20 00 0001 01 00 00000001",
        "020000000001 020000000002 88a2 1c 05 0001 01 00 00000001",
    ),
];

#[test]
fn requests_without_sectors(rt: HostRuntime) -> Result<(), Fail> {
    for (request, reply) in REFUSED {
        assert_reply(&rt, rt.alloc(), request, reply, 0, 0)?;
    }
    for (request, reply) in OTHERS {
        assert_reply(&rt, rt.alloc(), request, reply, 0, 0)?;
    }
    Ok(())
}

// Frames that get no reply: cut, of another type, a reply, of another major and of another minor address, and two of
// another version.
#[test]
fn each_silence(rt: HostRuntime) -> Result<(), Fail> {
    let cases = [
        "020000000002 020000000001 88a2 10 00 0001 01 00 00000001 40 00 02 24 020000000000 00",
        "020000000002 020000000001 88a3 10 00 0001 01 00 00000001 40 00 02 24 020000000000 0000",
        "020000000002 020000000001 88a2 18 00 0001 01 00 00000001 40 00 02 24 020000000000 0000",
        "020000000002 020000000001 88a2 10 00 0002 01 00 00000001 40 00 02 24 020000000000 0000",
        "020000000002 020000000001 88a2 10 00 0001 02 00 00000001 40 00 02 24 020000000000 0000",
        "020000000002 020000000001 88a2 20 00 0001 02 00 00000001",
        "020000000002 020000000001 88a2 28 00 0001 01 00 00000001",
    ];
    for request in cases {
        assert_eq!(rt; served(rt.alloc(), request, &[])?, Ok(None), "{request}");
    }
    Ok(())
}

// Bytes of the answer, and how many zeros come behind them. Of each pair of a text the second character comes first.
#[test]
fn the_server_of_eight_sectors(rt: HostRuntime) -> Result<(), Fail> {
    let request =
        "020000000002 020000000001 88a2 10 00 0001 01 00 00000001 00 00 00 ec 000000000000 0000";
    let parts = [
        (
            "020000000001 020000000002 88a2 18 00 0001 01 00 00000001 00 00 00 50 000000000000 0000",
            20,
        ),
        ("4d42 3043 3030 3030 3030 3030 3030 3030 3030 3230", 6),
        ("2e31 2030 2020 2020", 0),
        ("4d42 4143 5453 4920 414d 4547", 0),
        (
            "2020 2020 2020 2020 2020 2020 2020 2020 2020 2020 2020 2020 2020 2020",
            4,
        ),
        ("0002", 20),
        ("08000000", 42),
        ("0044", 32),
        ("0800000000000000", 304),
    ];
    let mut bytes = Vec::new(rt.alloc());
    for (text, zeros) in parts {
        bytes.extend_from_slice(&bytes_of(rt.alloc(), text)?)?;
        for _i in 0..zeros {
            bytes.push(0)?;
        }
    }
    assert_eq!(rt; bytes.len(), 36 + 512);
    assert_eq!(rt;
        served(rt.alloc(), request, &[])?,
        Ok(Frame::from_slice(&bytes))
    );
    Ok(())
}

// The first call after the image was measured fails: only a reply with sectors makes one.
#[test]
fn an_image_that_cannot_be_read(rt: HostRuntime) -> Result<(), Fail> {
    assert_eq!(rt; served(rt.alloc(), REQUEST, &[1])?, Err(Failed));
    let past =
        "020000000002 020000000001 88a2 10 00 0001 01 00 00000001 40 00 02 24 070000000000 0000";
    assert!(rt; served(rt.alloc(), past, &[1])?.is_ok());
    Ok(())
}
