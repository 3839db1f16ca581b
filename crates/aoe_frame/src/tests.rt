//! Frames by hand from the layout (AoE r11), as hexadecimal with a space between two fields: destination, source,
//! type, version and flags, error, major and minor address, command and tag, and then the argument.

ghost use Rattle.std.specs.Prelude.{◌≡◌};
ghost use Rattle.aoe_frame.specs.Layout.{ArgumentFits, AtaFits, HeaderFits, IsWritable};

use crate::*;
use std::alloc::Global;
use std::process::Abort;
use std::test::Fail;

// The client asks for two sectors from sector 2 on.
const REQUEST: &str =
    "020000000002 020000000001 88a2 10 00 0001 01 00 00000001 40 00 02 24 020000000000 0000";

fn bytes_of(alloc: Global, text: &str) -> Result<Vec<u8>, Fail> {
    let digits = text.replace(alloc, " ", "")?;
    Ok(hex::decode(alloc, digits.as_str())?)
}

fn frame_of(alloc: Global, text: &str) -> Result<Frame, Fail> {
    let bytes = bytes_of(alloc, text)?;
    Ok(Frame::from_slice(&bytes).ok_or("a frame has at most 1,060 bytes")?)
}

// The request's header.
const HEADER: Header = Header {
    dest: [2, 0, 0, 0, 0, 2],
    source: [2, 0, 0, 0, 0, 1],
    version: 1,
    flags: 0,
    error: 0,
    major: 1,
    minor: 1,
    command: ATA,
    tag: 1,
};

// The same header of another command.
fn of_command(command: u8) -> Header
    ensures fits { HeaderFits result }
    ensures command { result.command ≡ command }
{
    Header { command, ..HEADER }
}

// The request's argument.
fn part() -> AtaPart
    ensures { AtaFits result }
{
    AtaPart {
        flags: EXTENDED,
        feature: 0,
        count: 2,
        command: 0x24,
        lba: 2,
        body: Bytes::new(),
    }
}

// A message is written as these bytes, and read back from them.
fn assert_both_ways(
    rt: &impl Abort,
    alloc: Global,
    text: &str,
    header: Header,
    argument: Argument,
) -> Result<(), Fail>
    requires header { HeaderFits header }
    requires argument { ArgumentFits argument }
    requires kind { IsWritable header.command argument }
{
    let frame = frame_of(alloc, text)?;
    let message = Aoe { header, argument };
    assert_eq!(rt; write(&message), frame);
    assert_eq!(rt; parse(&frame), Ok(message));
    Ok(())
}

#[test]
fn the_request_both_ways(rt: HostRuntime) -> Result<(), Fail> {
    let argument = Argument::Ata(part());
    assert_both_ways(&rt, rt.alloc(), REQUEST, HEADER, argument)
}

// No two bytes are equal.
#[test]
fn an_ata_argument_both_ways(rt: HostRuntime) -> Result<(), Fail> {
    let text =
        "111213141516 212223242526 88a2 1c 31 3233 34 00 35363738 01 41 42 43 444546474849 0000 aabb";
    let header = Header {
        dest: [0x11, 0x12, 0x13, 0x14, 0x15, 0x16],
        source: [0x21, 0x22, 0x23, 0x24, 0x25, 0x26],
        version: 1,
        flags: REPLY | FAILED,
        error: 0x31,
        major: 0x3233,
        minor: 0x34,
        command: ATA,
        tag: 0x3536_3738,
    };
    let mut body = Bytes::new();
    assert!(rt; body.push(0xaa) && body.push(0xbb));
    let part = AtaPart {
        flags: WRITE,
        feature: 0x41,
        count: 0x42,
        command: 0x43,
        lba: 0x4948_4746_4544,
        body,
    };
    assert_both_ways(&rt, rt.alloc(), text, header, Argument::Ata(part))
}

#[test]
fn a_configuration_both_ways(rt: HostRuntime) -> Result<(), Fail> {
    let text = "020000000002 020000000001 88a2 10 00 0001 01 01 00000001 5152 5354 55 56 5758";
    let config = ConfigPart {
        buffers: 0x5152,
        firmware: 0x5354,
        count: 0x55,
        version: 5,
        code: 6,
        length: 0x5758,
    };
    let argument = Argument::Config(config);
    assert_both_ways(&rt, rt.alloc(), text, of_command(CONFIG), argument)
}

#[test]
fn no_argument_both_ways(rt: HostRuntime) -> Result<(), Fail> {
    let text = "020000000002 020000000001 88a2 10 00 0001 01 02 00000001";
    assert_both_ways(&rt, rt.alloc(), text, of_command(2), Argument::Other)
}

// Bytes that are not looked at.
#[test]
fn reserved_and_following_bytes(rt: HostRuntime) -> Result<(), Fail> {
    let config = ConfigPart {
        buffers: 64,
        firmware: 1,
        count: 2,
        version: 1,
        code: 0,
        length: 0,
    };
    let cases = [
        (
            "020000000002 020000000001 88a2 10 00 0001 01 00 00000001 40 00 02 24 020000000000 ffff",
            Aoe {
                header: HEADER,
                argument: Argument::Ata(part()),
            },
        ),
        (
            "020000000002 020000000001 88a2 10 00 0001 01 01 00000001 0040 0001 02 10 0000 ffffff",
            Aoe {
                header: of_command(CONFIG),
                argument: Argument::Config(config),
            },
        ),
        (
            "020000000002 020000000001 88a2 10 00 0001 01 ff 00000001 ffffff",
            Aoe {
                header: of_command(0xff),
                argument: Argument::Other,
            },
        ),
    ];
    for (text, message) in cases {
        let frame = frame_of(rt.alloc(), text)?;
        assert_eq!(rt; parse(&frame), Ok(message), "{text}");
    }
    Ok(())
}

// A frame, and how many of its bytes give which fault: from none to the first number of bytes, up to the second, and
// so on. A whole frame follows.
#[test]
fn frames_cut_to_each_length(rt: HostRuntime) -> Result<(), Fail> {
    let short = FrameFault::Short;
    let old = FrameFault::Version(Header {
        version: 0,
        ..HEADER
    });
    let cases: [(&str, &[(usize, FrameFault)]); 5] = [
        (REQUEST, &[(36, short)]),
        (
            "020000000002 020000000001 88a2 10 00 0001 01 01 00000001 0040 0001 02 10 0000",
            &[(32, short)],
        ),
        (
            "020000000002 020000000001 88a2 10 00 0001 01 02 00000001 0000",
            &[(24, short)],
        ),
        (
            "020000000002 020000000001 88a3 00 00 0001 01 00 00000001 40 00 02 24 020000000000 0000",
            &[(14, short), (37, FrameFault::NotAoe)],
        ),
        (
            "020000000002 020000000001 88a2 00 00 0001 01 00 00000001 40 00 02 24 020000000000 0000",
            &[(24, short), (37, old)],
        ),
    ];
    for (text, faults) in cases {
        let bytes = bytes_of(rt.alloc(), text)?;
        for count in 0..=bytes.len() {
            let frame = Frame::from_slice(&bytes[..count]).ok_or("short")?;
            let fault = faults.iter().find(|(end, _)| count < *end);
            assert_eq!(rt;
                parse(&frame).err(),
                fault.map(|(_, fault)| *fault),
                "{count} of {text}"
            );
        }
    }
    Ok(())
}

#[test]
fn no_frame_of_more_bytes(rt: HostRuntime) -> Result<(), Fail> {
    let bytes = [7; 1061];
    assert_eq!(rt; Frame::from_slice(&bytes), None);
    let frame = Frame::from_slice(&bytes[..1060]).ok_or("1,060 bytes")?;
    assert_eq!(rt; frame.as_slice(), &bytes[..1060]);
    assert_eq!(rt; frame.clone()?, frame);
    Ok(())
}
