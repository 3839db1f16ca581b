//! Events of the network over an empty image, and worlds over files in memory. The frames are by hand from the tables
//! of docs/network.md, as hexadecimal with a space between two fields.

ghost use Rattle.std.specs.Prelude.{◌≡◌, IfOk, None};
ghost use Rattle.schedule_text.specs.Line.{IsInRange};

use crate::network::convey;
use crate::{HostFault, StartFault, World};
use aoe_frame::Frame;
use aoe_net::{Net, Way};
use ata_taskfile::{Reg, Step};
use bm_host::{Host, MemoryHost, Role};
use fill_bitmap::Area;
use monitor_state::Setup;
use schedule_text::{Emitted, Event, Item};
use std::alloc::Global;
use std::process::Abort;
use std::test::Fail;

// The client asks how the server is configured, and is told.
const CONFIG: &str =
    "020000000002 020000000001 88a2 10 00 0001 01 01 00000001 0000 0000 00 10 0000";

const CONFIGURED: &str =
    "020000000001 020000000002 88a2 18 00 0001 01 01 00000001 0040 0001 02 10 0000";

// It asks for sector 0, which an empty image hasn't: Error is 10h, and Status 51h.
const READ: &str =
    "020000000002 020000000001 88a2 10 00 0001 01 00 00000002 40 00 01 24 000000000000 0000";

const REFUSED: &str =
    "020000000001 020000000002 88a2 18 00 0001 01 00 00000002 40 10 01 51 000000000000 0000";

// It asks what the server is: behind the registers of the reply stand 512 bytes.
const IDENTIFY: &str =
    "020000000002 020000000001 88a2 10 00 0001 01 00 00000003 00 00 00 ec 000000000000 0000";

const IDENTIFIED: &str =
    "020000000001 020000000002 88a2 18 00 0001 01 00 00000003 00 00 00 50 000000000000 0000";

// A header of version 2, which is refused: flags R and E, and error 5.
const VERSION_2: &str = "020000000002 020000000001 88a2 20 00 0001 01 00 00000004";

const UNSUPPORTED: &str = "020000000001 020000000002 88a2 1c 05 0001 01 00 00000004";

// A frame of another type.
const OTHER: &str = "020000000002 020000000001 0800 4500 0014";

fn bytes_of(alloc: Global, text: &str) -> Result<Vec<u8>, Fail> {
    let digits = text.replace(alloc, " ", "")?;
    Ok(hex::decode(alloc, digits.as_str())?)
}

fn frame(alloc: Global, text: &str) -> Result<Frame, Fail> {
    Ok(Frame::from_slice(&bytes_of(alloc, text)?).ok_or("a frame is too long")?)
}

// The frames of one way are these, the oldest first; IDENTIFIED is the front of its frame.
fn assert_going(
    rt: &impl Abort,
    alloc: Global,
    net: &mut Net,
    way: Way,
    texts: &[&str],
    step: u32,
) -> Result<(), Fail> {
    let mut k = 0u32;
    for text in texts {
        let found = net.pick(way, k, true).ok_or("a frame is missing")?;
        let front = bytes_of(alloc, text)?;
        let behind = if *text == IDENTIFIED { 512 } else { 0 };
        assert!(rt;
            found.as_slice().starts_with(&front),
            "step {step}, frame {k}"
        );
        assert_eq!(rt;
            found.as_slice().len() - front.len(),
            behind,
            "step {step}, frame {k}"
        );
        k = k.wrapping_add(1);
    }
    assert_eq!(rt; net.pick(way, k, true), None, "step {step}");
    Ok(())
}

// Events one after the other, each with the requests and the replies that are then under way. Three requests wait at
// the start.
#[test]
fn events_of_the_network(rt: HostRuntime) -> Result<(), Fail> {
    let alloc = rt.alloc();
    let steps: [(Event, &[&str], &[&str]); 20] = [
        // A request that is kept is served, and one that isn't leaves.
        (
            Event::Deliver(Way::ToServer, 1, true),
            &[CONFIG, READ, IDENTIFY],
            &[REFUSED],
        ),
        (
            Event::Deliver(Way::ToServer, 0, false),
            &[READ, IDENTIFY],
            &[REFUSED, CONFIGURED],
        ),
        // There is no such request.
        (
            Event::Deliver(Way::ToServer, 2, false),
            &[READ, IDENTIFY],
            &[REFUSED, CONFIGURED],
        ),
        // Stray frames to the server: to one of another type it is silent.
        (
            Event::Stray(Way::ToServer, frame(alloc, OTHER)?),
            &[READ, IDENTIFY],
            &[REFUSED, CONFIGURED],
        ),
        (
            Event::Stray(Way::ToServer, frame(alloc, IDENTIFY)?),
            &[READ, IDENTIFY],
            &[REFUSED, CONFIGURED, IDENTIFIED],
        ),
        // There is no client: a stray frame to it is lost, also one that the server would reply to.
        (
            Event::Stray(Way::ToClient, frame(alloc, READ)?),
            &[READ, IDENTIFY],
            &[REFUSED, CONFIGURED, IDENTIFIED],
        ),
        // A reply that is kept stays, and one that isn't leaves.
        (
            Event::Deliver(Way::ToClient, 1, true),
            &[READ, IDENTIFY],
            &[REFUSED, CONFIGURED, IDENTIFIED],
        ),
        (
            Event::Deliver(Way::ToClient, 1, false),
            &[READ, IDENTIFY],
            &[REFUSED, IDENTIFIED],
        ),
        (
            Event::Deliver(Way::ToClient, 2, false),
            &[READ, IDENTIFY],
            &[REFUSED, IDENTIFIED],
        ),
        // Frames that are lost: the server replies to none of them.
        (
            Event::Lose(Way::ToServer, 1),
            &[READ],
            &[REFUSED, IDENTIFIED],
        ),
        (
            Event::Lose(Way::ToServer, 1),
            &[READ],
            &[REFUSED, IDENTIFIED],
        ),
        (Event::Lose(Way::ToClient, 0), &[READ], &[IDENTIFIED]),
        // Another version is refused, and to a reply the server is silent.
        (
            Event::Stray(Way::ToServer, frame(alloc, VERSION_2)?),
            &[READ],
            &[IDENTIFIED, UNSUPPORTED],
        ),
        (
            Event::Stray(Way::ToServer, frame(alloc, CONFIGURED)?),
            &[READ],
            &[IDENTIFIED, UNSUPPORTED],
        ),
        // A request that is kept is served each time.
        (
            Event::Deliver(Way::ToServer, 0, true),
            &[READ],
            &[IDENTIFIED, UNSUPPORTED, REFUSED],
        ),
        (
            Event::Lose(Way::ToClient, 1),
            &[READ],
            &[IDENTIFIED, REFUSED],
        ),
        // What is no event of the network.
        (Event::Turn, &[READ], &[IDENTIFIED, REFUSED]),
        (Event::Tick, &[READ], &[IDENTIFIED, REFUSED]),
        (Event::Cut, &[READ], &[IDENTIFIED, REFUSED]),
        (Event::Drive(Step::Good), &[READ], &[IDENTIFIED, REFUSED]),
    ];
    let mut net = Net::new(alloc)?;
    for text in [CONFIG, READ, IDENTIFY] {
        net.send(Way::ToServer, frame(alloc, text)?);
    }
    // Its first call would fail; there is none.
    let mut host = host(alloc, &[0])?;
    let mut step = 0u32;
    for (event, requests, replies) in steps {
        convey(&mut host, &mut net, 0, &event)?;
        assert_going(&rt, alloc, &mut net, Way::ToServer, requests, step)?;
        assert_going(&rt, alloc, &mut net, Way::ToClient, replies, step)?;
        step = step.wrapping_add(1);
    }
    Ok(())
}

// Sector i of the disk, which has two, is all bytes 10h + i.
fn disk(alloc: Global) -> Result<Vec<u8>, Fail> {
    let mut bytes = Vec::new(alloc);
    for value in [0x10, 0x11] {
        for _i in 0..512 {
            bytes.push(value)?;
        }
    }
    Ok(bytes)
}

// A host with that disk, and `ab` in Out, whose calls of these numbers fail.
fn host(alloc: Global, failing: &[u32]) -> Result<MemoryHost, Fail> {
    let mut files = Vec::new(alloc);
    files.push((Role::Disk, disk(alloc)?))?;
    files.push((Role::Out, b"ab".to_vec(alloc)?))?;
    Ok(MemoryHost::new(alloc, files, failing.to_vec(alloc)?, 2048)?)
}

// Measures the disk, and begins a world over it.
fn begin<H: Host>(alloc: Global, host: &mut H) -> Result<Result<World, StartFault>, Fail>
    ensures empty { IfOk result (λ begun. IfOk begun (λ world. world.scene.image ≡ 0)) }
    ensures alone { IfOk result (λ begun. IfOk begun (λ world. world.scene.watched ≡ None)) }
{
    if host.length(Role::Disk)? < 1024 {
        return Err("the disk is too short".into());
    }
    // An empty image on two sectors.
    let area = Area {
        sectors: 2,
        image: 0,
        block: 8,
    };
    let setup = Setup {
        area,
        id: 0,
        gap: 0,
        window: 1,
        limit: 0,
        pool: 4,
    };
    Ok(World::start(alloc, host, &setup, 4096))
}

// How a world ended.
#[derive(Clone, Copy, Debug, PartialEq, Eq)]
enum End {
    NotBegun(StartFault),
    NotClosed(HostFault),
    Closed,
}

// Begins a world, applies one event, and closes it.
fn run(alloc: Global, host: &mut MemoryHost, event: &Event, out: &mut Emitted) -> Result<End, Fail>
    requires { IsInRange event.now }
{
    out.clear();
    match begin(alloc, host)? {
        Ok(mut world) => {
            let _applied = world.apply(host, event, out);
            match world.close(host) {
                Ok(()) => Ok(End::Closed),
                Err(fault) => Ok(End::NotClosed(fault)),
            }
        }
        Err(fault) => Ok(End::NotBegun(fault)),
    }
}

// What the report says of the first event of a world: a drive that was just switched on shows 80h in Status, and its
// first step ends the reset.
#[test]
fn first_events(rt: HostRuntime) -> Result<(), Fail> {
    assert_emitted(
        &rt,
        rt.alloc(),
        &Event::Read8(Reg::Status),
        &[Item::Answer],
        &[0x80],
    )?;
    assert_emitted(&rt, rt.alloc(), &Event::Line, &[Item::Answer], &[0])?;
    assert_emitted(
        &rt,
        rt.alloc(),
        &Event::ReadMemory(4095, 2),
        &[Item::Answer],
        &[0, 0xff],
    )?;
    assert_emitted(
        &rt,
        rt.alloc(),
        &Event::Drive(Step::Good),
        &[Item::Go(1)],
        &[],
    )?;
    assert_emitted(&rt, rt.alloc(), &Event::Lose(Way::ToServer, 0), &[], &[])?;
    assert_emitted(&rt, rt.alloc(), &Event::Turn, &[], &[])?;
    assert_emitted(&rt, rt.alloc(), &Event::Tick, &[], &[])
}

// So the event is told; and Out has, behind what it had, the sectors of the disk.
fn assert_emitted(
    rt: &impl Abort,
    alloc: Global,
    event: &Event,
    items: &[Item],
    bytes: &[u8],
) -> Result<(), Fail>
    requires { IsInRange event.now }
{
    let mut host = host(alloc, &[])?;
    let mut out = Emitted::new();
    let mut written = b"ab".to_vec(alloc)?;
    written.extend_from_slice(&disk(alloc)?)?;
    assert_eq!(rt;
        run(alloc, &mut host, event, &mut out)?,
        End::Closed,
        "{event:?}"
    );
    assert_eq!(rt; out.items.as_slice(), items, "{event:?}");
    assert_eq!(rt; out.bytes.as_slice(), bytes, "{event:?}");
    assert_eq!(rt; host.contents(Role::Out), written.as_slice(), "{event:?}");
    Ok(())
}

// A call that fails, and how the world ends: call 0 measures the disk, calls 1 and 2 read its sectors, and call 3
// writes Out.
#[test]
fn each_call_failing(rt: HostRuntime) -> Result<(), Fail> {
    let unread = StartFault::Host(HostFault::Read(Role::Disk));
    let cases = [
        (1, End::NotBegun(unread)),
        (2, End::NotBegun(unread)),
        (3, End::NotClosed(HostFault::Write(Role::Out))),
        (4, End::Closed),
    ];
    for (call, end) in cases {
        let mut host = host(rt.alloc(), &[call])?;
        let mut out = Emitted::new();
        assert_eq!(rt;
            run(rt.alloc(), &mut host, &Event::Turn, &mut out)?,
            end,
            "call {call}"
        );
    }
    Ok(())
}

#[test]
fn a_world_that_is_discarded_writes_nothing(rt: HostRuntime) -> Result<(), Fail> {
    let mut host = host(rt.alloc(), &[])?;
    match begin(rt.alloc(), &mut host)? {
        Ok(world) => world.discard(),
        Err(_) => return Err("not begun".into()),
    }
    assert_eq!(rt; host.contents(Role::Out), b"ab".as_slice());
    Ok(())
}
