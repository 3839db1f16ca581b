//! A block of four tags: its requests, and replies to them, byte by byte from the layout of a frame.

ghost use Rattle.std.specs.Prelude.{◌≡◌, ◌≤◌, IsSome, Some};
ghost use Rattle.mon_pool.specs.Region.{AreOf, IsOf, first_free, given};
ghost use Rattle.aoe_client.specs.Asking.{in_slot, leases_of};

use crate::{Client, Full, Heard, Slot};
use aoe_frame::Frame;
use mon_pool::{Lease, Pool};
use std::process::Abort;
use std::test::Fail;

// The request for a tag: READ SECTOR(S) EXT of two sectors from twice the tag on, whose low byte is given.
fn request(tag: u8, low: u8) -> Option<Frame> {
    Frame::from_slice(&[
        2, 0, 0, 0, 0, 2, 2, 0, 0, 0, 0, 1, 0x88, 0xa2, 0x10, 0, 0, 1, 1, 0, 0, 0, 0, tag, 0x40, 0,
        2, 0x24, low, 0, 0, 0, 0, 0, 0, 0,
    ])
}

// A reply to it with this status, and a body of so many bytes.
fn reply(tag: u8, low: u8, status: u8, body: usize) -> Option<Frame>
    requires { body ≤ 1024 }
{
    let mut bytes = [tag; 1060];
    bytes[..36].copy_from_slice(&[
        2, 0, 0, 0, 0, 1, 2, 0, 0, 0, 0, 2, 0x88, 0xa2, 0x18, 0, 0, 1, 1, 0, 0, 0, 0, tag, 0x40, 0,
        2, status, low, 0, 0, 0, 0, 0, 0, 0,
    ]);
    Frame::from_slice(&bytes[..36 + body])
}

// A client that asks for block 0 in the slot Demand.
fn asking(rt: &impl Abort, pool: &mut Pool) -> Client
    requires free { first_free pool.old ≡ Some 0 }
    ensures used { IsSome (in_slot Slot.Demand result) }
    ensures size { result.block ≡ 8 }
    ensures held { AreOf (leases_of result) pool.new }
    ensures room { pool.new.room ≡ pool.old.room }
{
    let mut client = Client::new(8);
    let lease = pool.take().expect(rt, "a free buffer");
    match client.ask(Slot::Demand, 0, lease) {
        Ok(()) => client,
        Err(_refused) => unreachable!(),
    }
}

// Asks in the slot Demand while it is in use: the lease comes back.
fn refuse(client: &mut Client, pool: &mut Pool, lease: Lease)
    requires used { IsSome (in_slot Slot.Demand client.old) }
    requires size { client.old.block ≡ 8 }
    requires of_pool { IsOf lease pool.old }
    ensures client { client.new ≡ client.old }
    ensures pool { pool.new ≡ given lease pool.old }
{
    match client.ask(Slot::Demand, 1, lease) {
        Ok(()) => unreachable!(),
        Err((lease, Full)) => pool.give(lease),
    }
}

// The client sends the requests for these tags in this order, each with the low byte of its address, and then no more.
fn assert_sends(rt: &impl Abort, client: &mut Client, requests: &[(u8, u8)])
    ensures leases { leases_of client.new ≡ leases_of client.old }
    ensures size { client.new.block ≡ client.old.block }
{
    for (tag, low) in requests {
        assert_eq!(rt; client.next_send(), request(*tag, *low), "tag {tag}");
    }
    assert_eq!(rt; client.next_send(), None, "behind the last");
}

// The tags are sent in rising order, and a slot in use hands a second lease back.
#[test]
fn a_block_is_asked_for(rt: HostRuntime) -> Result<(), Fail> {
    let mut pool = Pool::new(rt.alloc(), 1, 4096)?;
    let mut other = Pool::new(rt.alloc(), 1, 4096)?;
    let mut client = asking(&rt, &mut pool);
    let lease = other.take().expect(&rt, "a free buffer");
    refuse(&mut client, &mut other, lease);
    assert_sends(&rt, &mut client, &[(0, 0), (1, 2), (2, 4), (3, 6)]);
    client.end(&mut pool);
    Ok(())
}

// A reply is taken once; one that is short of a byte, or of a command that failed, isn't taken. What isn't answered is
// sent again at the fourth tick.
#[test]
fn replies_are_heard(rt: HostRuntime) -> Result<(), Fail> {
    let mut pool = Pool::new(rt.alloc(), 1, 4096)?;
    let mut client = asking(&rt, &mut pool);
    assert_sends(&rt, &mut client, &[(0, 0), (1, 2), (2, 4), (3, 6)]);
    let heard = [
        (reply(1, 2, 0x50, 1024), Heard::Took(1)),
        (reply(1, 2, 0x50, 1024), Heard::Ignored),
        (reply(2, 4, 0x50, 1023), Heard::Ignored),
        (reply(2, 4, 0x51, 1024), Heard::Ignored),
    ];
    for (frame, heard) in heard {
        let frame = frame.expect(&rt, "a frame");
        assert_eq!(rt; client.frame_in(&mut pool, &frame), heard);
    }
    for tick in 0..4usize {
        assert_eq!(rt; client.due(0), None, "tick {tick}");
        client.tick();
    }
    assert_sends(&rt, &mut client, &[(0, 0), (2, 4), (3, 6)]);
    client.end(&mut pool);
    Ok(())
}
