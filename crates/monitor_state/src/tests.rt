//! The calls of `Parts`, by hand from the rules of docs/monitor.md.
//!
//! The disk has 37 sectors and an image of three blocks of 8, all of them empty at power-on. From sector 34 on header,
//! bitmap and dummy sector are reserved.

ghost use Rattle.std.specs.Prelude.{◌≡◌, ◌<◌, IfSome, None};
ghost use Rattle.mon_pool.specs.Region.{IsOf, buffers_in, out_of};
ghost use Rattle.monitor_state.specs.Setup.{IsSetup};

use crate::{HeldPiece, Parts, Setup};
use ata_taskfile::{Form, Kind, Refused, Request, Taken};
use fill_bitmap::area_of;
use std::test::Fail;

// The smallest deployment on that disk.
fn setup() -> Option<Setup>
    ensures setup { IfSome result IsSetup }
    ensures image { IfSome result (λ setup. 0 < setup.area.image) }
{
    let area = area_of(512 * 24, 512 * 37, 8).ok()?;
    if area.image == 0 {
        return None;
    }
    Some(Setup {
        area,
        id: 7,
        gap: 0,
        window: 1,
        limit: 0,
        pool: 4,
    })
}

// A command over a range.
fn order(kind: Kind, form: Form, first: u64, count: u32) -> Taken {
    Taken::Good(Request {
        kind,
        form,
        extended: false,
        first,
        count,
    })
}

// Holds sectors 8 to 11, in a buffer of which no other is out.
fn hold_piece(parts: &mut Parts)
    requires room { out_of parts.old.pool < buffers_in parts.old.pool }
    requires none_out { out_of parts.old.pool ≡ 0 }
    requires unheld { parts.old.held ≡ None }
    ensures lease { IfSome parts.new.held (λ held. IsOf held.lease parts.new.pool) }
    ensures client { parts.new.client ≡ parts.old.client }
{
    let lease = parts.take_lease();
    parts.hold(HeldPiece {
        first: 8,
        count: 4,
        base: 8,
        lease,
        block: Some(1),
    });
}

// Opening has everything before it. A piece of sectors 8 to 11 is held, and let go again: its buffer is free then.
#[test]
fn parts_at_power_on(rt: HostRuntime) -> Result<(), Fail> {
    let setup = setup().expect(&rt, "a suitable disk");
    let mut parts = Parts::new(rt.alloc(), &setup)?;
    assert_eq!(rt; parts.is_opened(), false);
    assert_eq!(rt; parts.held_range(), None);
    assert_eq!(rt; parts.pool.free(), 4);
    hold_piece(&mut parts);
    assert_eq!(rt; parts.pool.free(), 3);
    assert_eq!(rt; parts.held_range(), Some((8, 4)));
    parts.let_go();
    assert_eq!(rt; parts.held_range(), None);
    assert_eq!(rt; parts.pool.free(), 4);
    parts.end();
    Ok(())
}

// Refused is what reaches a reserved sector, and a write to an empty block. Between image and reserved sectors there is
// no block.
#[test]
fn refused_commands(rt: HostRuntime) -> Result<(), Fail> {
    let setup = setup().expect(&rt, "a suitable disk");
    let parts = Parts::new(rt.alloc(), &setup)?;
    let cases = [
        (order(Kind::Write, Form::PioOut, 24, 10), false),
        (order(Kind::Write, Form::PioOut, 33, 1), false),
        (order(Kind::Write, Form::PioOut, 33, 2), true),
        (order(Kind::Write, Form::PioOut, 34, 1), true),
        (order(Kind::Write, Form::PioOut, 23, 1), true),
        (order(Kind::Write, Form::PioOut, 23, 2), true),
        (order(Kind::Write, Form::PioOut, 0, 1), true),
        (order(Kind::Read, Form::PioIn, 0, 24), false),
        (order(Kind::Read, Form::PioIn, 33, 2), true),
        (Taken::Bad(Refused::Abort), false),
    ];
    for (order, refused) in cases {
        assert_eq!(rt; parts.is_refused(&order), refused, "{order:?}");
    }
    parts.end();
    Ok(())
}
