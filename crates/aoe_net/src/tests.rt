//! Lists of frames of one byte each, worked out by hand from the rules.

use crate::{Net, Way};
use aoe_frame::Frame;
use std::test::Fail;

// Which of the frames 7, 8 and 9 is picked, whether it is kept, the frame that is handed out, and what is left, the
// oldest first.
#[test]
fn a_frame_is_picked(rt: HostRuntime) -> Result<(), Fail> {
    let cases = [
        (0, false, Some(7), [Some(8), Some(9), None]),
        (1, false, Some(8), [Some(7), Some(9), None]),
        (2, false, Some(9), [Some(7), Some(8), None]),
        (3, false, None, [Some(7), Some(8), Some(9)]),
        (1, true, Some(8), [Some(7), Some(8), Some(9)]),
    ];
    for (k, keep, picked, left) in cases {
        let mut net = Net::new(rt.alloc())?;
        for byte in [7, 8, 9] {
            net.send(Way::ToServer, frame(byte)?);
        }
        assert_eq!(rt;
            net.pick(Way::ToServer, k, keep),
            frame_or_none(picked),
            "frame {k}"
        );
        assert_eq!(rt; net.pick(Way::ToClient, 0, false), None, "frame {k}");
        for next in left {
            assert_eq!(rt;
                net.pick(Way::ToServer, 0, false),
                frame_or_none(next),
                "after frame {k}"
            );
        }
    }
    Ok(())
}

// The 65th frame puts the first out. Of the 64 that are left the last is lost, and the one before it is then the last.
#[test]
fn a_full_list_loses_its_oldest(rt: HostRuntime) -> Result<(), Fail> {
    let mut net = Net::new(rt.alloc())?;
    for byte in 0..64u8 {
        assert_eq!(rt; net.send(Way::ToClient, frame(byte)?), None, "frame {byte}");
    }
    assert_eq!(rt; net.send(Way::ToClient, frame(64)?), Some(frame(0)?));
    assert!(rt; !net.lose(Way::ToClient, 64));
    assert!(rt; net.lose(Way::ToClient, 63));
    assert_eq!(rt; net.pick(Way::ToClient, 62, true), Some(frame(63)?));
    assert_eq!(rt; net.pick(Way::ToClient, 0, true), Some(frame(1)?));
    Ok(())
}

fn frame(byte: u8) -> Result<Frame, Fail> {
    Ok(Frame::from_slice(&[byte]).ok_or("a frame of one byte")?)
}

fn frame_or_none(byte: Option<u8>) -> Option<Frame> {
    Frame::from_slice(&[byte?])
}
